//! A core at the rings.

ghost use Rattle.std.specs.Prelude.{ℕ, ◌≡◌, ◌≢◌, ◌^◌, ◌*◌, ◌<◌, ◌⊎◌, [], length, Ok, Err, IfSome};
ghost use Rattle.std.specs.Prelude.{IsNone, false, Some, OnOk, MatchOption, MatchResult};
ghost use Rattle.fl_base.specs.Control.{is_ack_only};
ghost use Rattle.fl_ring.specs.Duo.{acknowledgement};
ghost use Rattle.fl_history_rings.specs.Rings.{mate};
ghost use Rattle.fl_base.specs.declared.fragment.Frag.{Frag};
ghost use Rattle.fl_history_rings.specs.Rule.{words_of, first_word, seen_at};
ghost use Rattle.fl_history_rings.specs.Cores.{Owns, OwnsSlots, IsSameCore};
ghost use Rattle.fl_history_rings.specs.Sides.{place_from, side_from, SideFor, FindsNone, Stays, IsSpent};
ghost use Rattle.fl_history_rings.specs.Sides.{Puts, TellsNothing, TellsSome, Misses, Sees};
ghost use Rattle.fl_history_rings.specs.Sides.{Takes, LeavesOthers};

use crate::board::{RingsBoard, RingsSeat, SideEnd};
use crate::place::{RingSide, SlotPlace};
use fl_base::Frag;
use fl_link::{Cursor, PutFault, Told};
use std::alloc::Global;
use std::marker::Model;
use std::sync::Arc;

/// The side isn't there, or is another core's.
#[derive(Clone, Copy)]
pub struct Foreign;

/// A core: it puts and takes fragments by its sides, all with one seat. It moves to a thread of its own.
#[derive(Drop)]
pub struct RingsCore {
    pub(crate) board: Arc<RingsBoard, Global>,
    pub(crate) seat: RingsSeat,
    pub(crate) number: usize,
}

impl Model for RingsCore {
    ghost use Rattle.std.specs.Arc.{arc_value};
    ghost use Rattle.fl_history_rings.specs.Cores.{TheCore, core_shown, IsWhole};

    ghost Value = { TheCore };

    ghost view = { λ s. core_shown s.seat };

    ghost invariant = { λ s. IsWhole (arc_value s.board) s.seat s.number };
}

// The slots of this side, if it is this core's.
fn owned_by(sides: &[SideEnd], side: usize, core: usize) -> Option<usize>
    ensures some { IfSome result (λ slots. OwnsSlots sides.now side core slots) }
    ensures none { IsNone result → ¬ (Owns sides.now side core) }
{
    let Some(end) = sides.get(side) else {
        return None;
    };
    if end.core != core {
        return None;
    }
    Some(end.slots)
}

// The other side of its ring.
fn mate(side: usize) -> usize
    requires fits { mate side < 2 ^ 64 }
    ensures mate { result ≡ mate side }
{
    if side % 2 == 0 {
        return side + 1;
    }
    side - 1
}

// The first word of the way that the side of this number puts into.
fn first_word(sides: &[SideEnd], side: usize) -> usize
    requires fits { words_of sides.now < 2 ^ 64 }
    requires within { side < length sides.now }
    ensures first { result ≡ first_word sides.now side }
{
    let mut base: usize = 0;
    for k in 0..side {
        let slots = sides[k].slots;
        base += 8 * slots;
    }
    base
}

// The place before the first fragment.
fn first_place(side: usize, base: usize, slots: usize) -> SlotPlace
    requires slots { 0 < slots }
    ensures first { result ≡ place_from side base slots }
{
    SlotPlace {
        side,
        base,
        cursor: Cursor::new(slots),
    }
}

// The side of this number, of so many slots each way, while nothing was done by it.
fn first_side(sides: &[SideEnd], side: usize, slots: usize) -> RingSide
    requires fits { words_of sides.now < 2 ^ 64 }
    requires within { (side < length sides.now) × (mate side < length sides.now) }
    requires slots { 0 < slots }
    ensures first { result ≡ side_from sides.now side slots }
{
    let put = first_place(side, first_word(sides, side), slots);
    let take = first_place(side, first_word(sides, mate(side)), slots);
    RingSide {
        put,
        take,
        known: 0,
        told: 0,
    }
}

impl RingsCore {
    /// The side of this number, while this core has done nothing yet.
    ///
    /// # Errors
    /// It isn't a side of this core.
    pub fn side(&self, side: usize) -> Result<RingSide, Foreign>
        requires new { self.now.steps ≡ [] }
        ensures own { MatchResult result (λ own. SideFor self.now own × (own.put.side ≡ side))
            (λ _. ¬ (Owns self.now.sides side self.now.number)) }
    {
        let sides = self.board.plan.sides.as_slice();
        let Some(slots) = owned_by(sides, side, self.number) else {
            return Err(Foreign);
        };
        Ok(first_side(sides, side, slots))
    }

    /// Puts the fragment, one of data, by one of this core's sides, with the epoch due and the number
    /// of all that the side took.
    ///
    /// # Errors
    /// The side has put 2^62 fragments (E33). Else fewer than two slots are known to be free, also after a
    /// look at what stands first (E30): nothing was put, and the side knows what it saw there.
    #[inline(always)]
    pub fn put(&mut self, side: &mut RingSide, frag: &Frag) -> Result<(), PutFault>
        requires mine { SideFor self.old side.old }
        requires data { is_ack_only frag.now ≡ false }
        ensures same { IsSameCore self.old self.new }
        ensures mine { SideFor self.new side.new }
        ensures beside { LeavesOthers side.old side.new self.old self.new }
        ensures placed { OnOk result (Puts 2 self.old side.old frag.now side.new self.new) }
        ensures full { result ≡ Err PutFault.Full → FindsNone 2 self.old side.old side.new self.new }
        ensures spent { result ≡ Err PutFault.Spent
            → Stays self.old side.old side.new self.new × IsSpent side.old }
        ensures spent_first { IsSpent side.old → result ≡ Err PutFault.Spent }
    {
        side.put(&self.board.table.shared, &mut self.seat, frag)
    }

    /// The fragment that stands first, which is left there: where one was seen by this side and not taken
    /// yet, that one. It may be one that only acknowledges.
    #[inline(always)]
    pub fn look(&mut self, side: &mut RingSide) -> Option<Frag>
        requires mine { SideFor self.old side.old }
        ensures same { IsSameCore self.old self.new }
        ensures mine { SideFor self.new side.new }
        ensures beside { LeavesOthers side.old side.new self.old self.new }
        ensures noted { MatchOption result (Misses self.old side.old side.new self.new)
            (λ frag. Sees self.old side.old frag side.new self.new) }
        ensures again { (frag : Frag) → seen_at side.old.put.side self.old.steps ≡ Some frag
            → result ≡ Some frag }
    {
        side.look(&self.board.table.shared, &mut self.seat)
    }

    /// The fragment that stands first, which is taken: where one was seen by this side and not taken yet,
    /// that one. It may be one that only acknowledges. Its slot isn't free before it is acknowledged.
    #[inline(always)]
    pub fn take(&mut self, side: &mut RingSide) -> Option<Frag>
        requires mine { SideFor self.old side.old }
        ensures same { IsSameCore self.old self.new }
        ensures mine { SideFor self.new side.new }
        ensures beside { LeavesOthers side.old side.new self.old self.new }
        ensures noted { MatchOption result (Misses self.old side.old side.new self.new)
            (λ frag. Takes self.old side.old frag side.new self.new) }
        ensures again { (frag : Frag) → seen_at side.old.put.side self.old.steps ≡ Some frag
            → result ≡ Some frag }
    {
        side.take(&self.board.table.shared, &mut self.seat)
    }

    /// Acknowledges what was taken by this side, where that is at least half of the slots: it puts a fragment
    /// that only acknowledges. Else it answers `Nothing`, and nothing has changed.
    ///
    /// # Errors
    /// There is so much to tell, and the side has put 2^62 fragments, or no slot is known to be free, also
    /// after a look (both E30, never E33): nothing was put. A side that has put 2^62 fragments does nothing.
    #[inline(always)]
    pub fn tell(&mut self, side: &mut RingSide) -> Result<Told, PutFault>
        requires mine { SideFor self.old side.old }
        ensures same { IsSameCore self.old self.new }
        ensures mine { SideFor self.new side.new }
        ensures beside { LeavesOthers side.old side.new self.old self.new }
        ensures nothing { result ≡ Ok Told.Nothing
            → Stays self.old side.old side.new self.new × TellsNothing side.old }
        ensures written { result ≡ Ok Told.Written
            → Puts 1 self.old side.old acknowledgement side.new self.new }
        ensures full { result ≡ Err PutFault.Full → FindsNone 1 self.old side.old side.new self.new
            ⊎ (Stays self.old side.old side.new self.new × IsSpent side.old) }
        ensures some { result ≢ Ok Told.Nothing → TellsSome side.old }
        ensures spent { IsSpent side.old → Stays self.old side.old side.new self.new }
        ensures never_spent { result ≢ Err PutFault.Spent }
    {
        side.tell(&self.board.table.shared, &mut self.seat)
    }
}
