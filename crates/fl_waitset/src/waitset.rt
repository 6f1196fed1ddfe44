//! The waitset of a dispatcher.

ghost use Rattle.std.specs.Prelude.{◌≡◌, ◌≤◌, IfOk, IfErr, OnOk, OnErr, nat_lt, if◌then◌else◌, slice_get};
ghost use Rattle.fl_lists.specs.declared.place.Place.TheVariants.{Idle, Polled};
ghost use Rattle.fl_lists.specs.ThreeLists.{list_at, place_of, unlinked, pushed, popped, moved, empty};
ghost use Rattle.fl_waitset.specs.declared.fault.WaitFault.TheVariants.{NoChannel};
ghost use Rattle.fl_waitset.specs.Waiting.{
  IsWaitset,
  MakingFault,
  register_answer,
  registered_answer,
  trigger_answer,
  triggered,
  next_pick,
};

use crate::fault::WaitFault;
use fl_base::{ChanId, MAX_CHANNELS};
use fl_lists::{Lists, Place};
use std::alloc::Global;
use std::marker::Model;

/// The channel that a turn looks at.
#[derive(Clone, Copy, Debug, PartialEq, Eq)]
pub enum Pick {
    /// A fragment stands on this channel.
    Pending(ChanId),
    /// This channel has to be looked at.
    Polled(ChanId),
}

/// The channels of one dispatcher, at most 1,024: which are registered, and where each waits.
#[derive(Drop)]
pub struct Waitset {
    lists: Lists,
}

impl Model for Waitset {
    ghost use Rattle.std.specs.Prelude.{◌≤◌};
    ghost use Rattle.fl_lists.specs.ThreeLists.{ThreeLists};

    ghost Value = { ThreeLists };

    ghost view = { λ a. a.lists.lists };

    ghost invariant = { λ a. a.lists.lists.size ≤ 1024 };
}

impl Waitset {
    /// A waitset of the channels below `n`, none of them registered. No other call takes memory.
    ///
    /// # Errors
    /// Over 1,024 channels (E54); else out of memory (E99).
    pub fn new(alloc: Global, n: usize) -> Result<Waitset, WaitFault>
        ensures made { IfOk result (λ made. made ≡ empty n) }
        ensures fault { IfErr result (MakingFault n) }
        ensures waitset { IfOk result IsWaitset }
    {
        if n > MAX_CHANNELS {
            return Err(WaitFault::TooMany);
        }
        match Lists::new(alloc, n) {
            Ok(lists) => Ok(Waitset { lists }),
            Err(_) => Err(WaitFault::Memory),
        }
    }

    /// The list that `c` is in; `None` where it isn't registered.
    #[inline]
    fn place_of(&self, c: ChanId) -> Result<Option<Place>, WaitFault>
        ensures answer { result ≡ (if nat_lt c.0 self.now.size then Ok (place_of self.now c.0) else Err NoChannel) }
        ensures waitset { IsWaitset self.now }
    {
        let at = usize::from(c.0);
        if at >= self.lists.size() {
            return Err(WaitFault::NoChannel);
        }
        Ok(self.lists.place_of(at))
    }

    fn add(&mut self, c: ChanId, place: Place) -> Result<(), WaitFault>
        ensures answer { result ≡ register_answer self.old c.0 }
        ensures ok { OnOk result (self.new ≡ pushed self.old c.0 place) }
        ensures err { OnErr result (self.new ≡ self.old) }
        ensures waitset { IsWaitset self.new }
    {
        if self.place_of(c)?.is_some() {
            return Err(WaitFault::Registered);
        }
        self.lists.push_back(usize::from(c.0), place);
        Ok(())
    }

    /// Registers a channel whose fragments trigger it, at the back of idle.
    ///
    /// # Errors
    /// The waitset has no such channel (E53); else the channel is registered already (E50). Nothing has
    /// changed then.
    pub fn register(&mut self, c: ChanId) -> Result<(), WaitFault>
        ensures answer { result ≡ register_answer self.old c.0 }
        ensures ok { OnOk result (self.new ≡ pushed self.old c.0 Idle) }
        ensures err { OnErr result (self.new ≡ self.old) }
        ensures waitset { IsWaitset self.new }
    {
        self.add(c, Place::Idle)
    }

    /// Registers a channel whose memory is to be looked at, at the back of polled.
    ///
    /// # Errors
    /// The waitset has no such channel (E53); else the channel is registered already (E50). Nothing has
    /// changed then.
    pub fn register_polled(&mut self, c: ChanId) -> Result<(), WaitFault>
        ensures answer { result ≡ register_answer self.old c.0 }
        ensures ok { OnOk result (self.new ≡ pushed self.old c.0 Polled) }
        ensures err { OnErr result (self.new ≡ self.old) }
        ensures waitset { IsWaitset self.new }
    {
        self.add(c, Place::Polled)
    }

    /// Takes a channel out of the list that it is in.
    ///
    /// # Errors
    /// The waitset has no such channel (E53); else the channel isn't registered (E51). Nothing has changed
    /// then.
    #[inline]
    pub fn deregister(&mut self, c: ChanId) -> Result<(), WaitFault>
        ensures answer { result ≡ registered_answer self.old c.0 }
        ensures ok { OnOk result (self.new ≡ unlinked self.old c.0) }
        ensures err { OnErr result (self.new ≡ self.old) }
        ensures waitset { IsWaitset self.new }
    {
        if self.place_of(c)?.is_none() {
            return Err(WaitFault::NotRegistered);
        }
        self.lists.unlink(usize::from(c.0));
        Ok(())
    }

    /// Tells that a fragment has come to stand on a channel: an idle one goes to the back of
    /// pending. One that is polled or pending stays, and one that isn't registered is not touched.
    ///
    /// # Errors
    /// The waitset has no such channel (E53). Nothing has changed then.
    #[inline]
    #[tactic(auto, using(crate::proofs::Moves::idle_moves))]
    pub fn trigger(&mut self, c: ChanId) -> Result<(), WaitFault>
        ensures answer { result ≡ trigger_answer self.old c.0 }
        ensures ok { OnOk result (self.new ≡ triggered self.old c.0) }
        ensures err { OnErr result (self.new ≡ self.old) }
        ensures waitset { IsWaitset self.new }
    {
        if let Some(Place::Idle) = self.place_of(c)? {
            self.lists.move_to_back(usize::from(c.0), Place::Pending);
        }
        Ok(())
    }

    /// The channel that the next turn looks at, which stays where it is: the first pending one,
    /// else the first polled one.
    ///
    /// # Errors
    /// No channel is pending, and none is polled (E52).
    #[inline]
    pub fn next_event(&self) -> Result<Pick, WaitFault>
        ensures pick { result ≡ next_pick self.now }
        ensures waitset { IsWaitset self.now }
    {
        if let Some(c) = self.lists.front(Place::Pending) {
            return Ok(Pick::Pending(ChanId(c as u16)));
        }
        match self.lists.front(Place::Polled) {
            Some(c) => Ok(Pick::Polled(ChanId(c as u16))),
            None => Err(WaitFault::NoEvent),
        }
    }

    /// Moves a channel to the back of a list, which may be the one that it is in.
    ///
    /// # Errors
    /// The waitset has no such channel (E53); else the channel isn't registered (E51). Nothing has changed
    /// then.
    #[inline]
    #[tactic(auto, using(crate::proofs::Moves::first_moves))]
    pub fn put_back(&mut self, c: ChanId, place: Place) -> Result<(), WaitFault>
        ensures answer { result ≡ registered_answer self.old c.0 }
        ensures ok { OnOk result (self.new ≡ moved self.old c.0 place) }
        // what a turn does: the first of a list goes to the back of one
        ensures first { (from : Place) → slice_get (list_at self.old from) 0 ≡ Some c.0
            → OnOk result (self.new ≡ pushed (popped self.old from) c.0 place) }
        ensures err { OnErr result (self.new ≡ self.old) }
        ensures waitset { IsWaitset self.new }
    {
        if self.place_of(c)?.is_none() {
            return Err(WaitFault::NotRegistered);
        }
        self.lists.move_to_back(usize::from(c.0), place);
        Ok(())
    }
}
