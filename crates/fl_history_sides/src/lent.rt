//! A core with its sides, while one of them is lent.

ghost use Rattle.std.specs.Prelude.{◌≡◌, ◌<◌, length};
ghost use Rattle.std.specs.List.{AllByRecursion};
ghost use Rattle.fl_base.specs.declared.fragment.Frag.{Frag};
ghost use Rattle.fl_base.specs.Control.{is_ack_only};
ghost use Rattle.fl_history_sides.specs.Lent.{LentPuts, LentTakes, lent_has_room, lent_epoch, lent_told};
ghost use Rattle.fl_history_sides.specs.Lent.{lent_known, state_of, states_of, lending, sight_in};
ghost use Rattle.fl_history_sides.specs.Core.{AreSidesOf, IsOwnSide};
ghost use Rattle.fl_history_sides.specs.Noted.{front_of};

use fl_base::Frag;
use fl_history_rings::{RingSide, RingsCore};
use fl_link::{PutFault, PutSide, Sight, TakeSide, Told};
use std::alloc::Global;
use std::marker::Model;

/// A core with all its sides, one of which is lent: it puts and takes by that one.
#[derive(Drop)]
pub struct LentSide {
    pub(crate) core: RingsCore,
    pub(crate) sides: Vec<RingSide>,
    // which of them is lent
    pub(crate) at: usize,
}

impl Model for LentSide {
    ghost use Rattle.fl_history_sides.specs.Lent.{TheLent, IsLent};

    ghost Value = { TheLent };

    ghost view = { λ s. record { core = s.core; sides = s.sides.items; at = s.at } };

    ghost invariant = { λ s. IsLent s.core s.sides.items s.at };
}

// A list's items are moved into memory that is asked for now. Where there is none, they stay where they are.
fn in_own_memory<T: Drop>(alloc: Global, list: &mut Vec<T>)
    ensures same { list.new.items ≡ list.old.items }
{
    let mut own = Vec::new(alloc);
    if own.append(list).is_ok() {
        *list = own;
    }
}

// What a look answers that finds this fragment, or none.
#[inline(always)]
fn sight(found: Option<Frag>) -> Sight
    ensures { result ≡ sight_in found }
{
    let Some(frag) = found else {
        return Sight::Empty;
    };
    if frag.is_ack_only() {
        return Sight::Acknowledgement;
    }
    Sight::Data(frag)
}

impl PutSide for LentSide {
    ghost puts = { LentPuts };

    ghost has_room = { lent_has_room };

    ghost epoch_of = { lent_epoch };

    ghost told_of = { lent_told };

    ghost known_of = { lent_known };

    #[inline(always)]
    fn room(&self) -> bool {
        self.sides[self.at].room()
    }

    #[inline]
    fn put(&mut self, frag: &Frag) -> Result<(), PutFault> {
        self.core.put(&mut self.sides[self.at], frag)
    }

    #[inline(always)]
    fn next_epoch(&self) -> u64 {
        self.sides[self.at].next_epoch()
    }

    #[inline(always)]
    fn next_told(&self) -> u16 {
        self.sides[self.at].next_told()
    }

    #[inline(always)]
    fn known(&self) -> u64 {
        self.sides[self.at].known()
    }
}

impl TakeSide for LentSide {
    ghost takes = { LentTakes };

    ghost front = { λ s. front_of (state_of s) };

    #[inline]
    fn peek(&mut self) -> Sight {
        sight(self.core.look(&mut self.sides[self.at]))
    }

    #[inline]
    fn take(&mut self) -> Sight {
        sight(self.core.take(&mut self.sides[self.at]))
    }

    #[inline]
    fn tell(&mut self) -> Result<Told, PutFault> {
        self.core.tell(&mut self.sides[self.at])
    }
}

impl LentSide {
    /// The side of this number is lent from here on.
    #[inline(always)]
    pub fn lend(&mut self, n: usize)
        requires there { n < length (states_of self.old) }
        ensures lent { self.new ≡ lending self.old n }
    {
        self.at = n;
    }

    /// Which of them is lent.
    #[inline(always)]
    pub fn at(&self) -> usize
        ensures at { result ≡ self.now.at }
    {
        self.at
    }

    /// The sides are moved into memory that is asked for now, so into that of the thread on which this is called. Where there is none, they stay where they
    /// are.
    pub fn take_own_memory(&mut self, alloc: Global)
        ensures same { self.new ≡ self.old }
    {
        in_own_memory(alloc, &mut self.sides);
    }

    /// How many sides there are.
    #[inline(always)]
    pub fn count(&self) -> usize
        ensures count { result ≡ length (states_of self.now) }
    {
        self.sides.len()
    }

    /// All that the core did is shown by its sides.
    pub fn shows(&self)
        ensures one { AreSidesOf self.now.core (states_of self.now) }
    {
        let _ = &self.at;
    }

    // The core again.
    pub(crate) fn into_core(self) -> RingsCore
        ensures some { 0 < length (states_of self) }
        ensures core { AreSidesOf result (states_of self) }
        ensures own { AllByRecursion (IsOwnSide result) (states_of self) }
    {
        let LentSide {
            core,
            sides: _,
            at: _,
        } = self;
        core
    }
}
