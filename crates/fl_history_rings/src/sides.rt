//! The sides of rings, each of which steps with the seat of its core.

ghost use Rattle.std.specs.Prelude.{◌≡◌, ◌≢◌, ◌⊎◌, ◌<◌, ◌^◌, ◌+◌, ◌≤◌, true, false, Ok, Err, OnOk};
ghost use Rattle.std.specs.Prelude.{Some, MatchOption};
ghost use Rattle.fl_base.specs.declared.fragment.Frag.{Frag};
ghost use Rattle.fl_ring.specs.Duo.{acknowledgement};
ghost use Rattle.fl_history_rings.specs.declared.board.Action.TheVariants.{Put};
ghost use Rattle.fl_history_rings.specs.declared.board.Insight.TheVariants.{Nothing};
ghost use Rattle.fl_history_rings.specs.Rule.{seen_at};
ghost use Rattle.fl_history_rings.specs.Seats.{IsSeated, view_at};
ghost use Rattle.fl_history_rings.specs.Cores.{core_shown, noting};
ghost use Rattle.fl_history_rings.specs.Sides.{StepsBy, HasFree, LacksFree, LooksForRoom, FindsRoom};
ghost use Rattle.fl_history_rings.specs.Sides.{counting, having_put, put_by, TellsNothing, TellsSome};
ghost use Rattle.fl_history_rings.specs.Sides.{FindsNone, Stays, IsSpent, Puts, Misses, Sees, Takes};

use crate::board::{RingsSeat, RingsShared};
use crate::place::RingSide;
use crate::steps::{count, look_at, put_frag, take_frag};
use fl_base::{Frag, told_of};
use fl_link::{PutFault, SPENT, Told};
use fl_ring::count_from;

// A fragment that only acknowledges: bit 2 is set and nothing else.
const ACKNOWLEDGEMENT: Frag = Frag {
    words: [0; 7],
    control: 4,
};

impl RingSide {
    // Knows the count that the control word tells.
    fn learn(&mut self, control: u64)
        requires few { self.old.known ≤ 2 ^ 62 }
        ensures known { self.new ≡ counting self.old control }
    {
        self.known = count_from(self.known, told_of(control));
    }

    // Whether so many slots are free, by what the side knows.
    fn has_free(&self, need: u64) -> bool
        requires few { (self.now.put.cursor.index ≤ 2 ^ 62) × (self.now.known ≤ 2 ^ 62) × (need ≤ 2) }
        requires slots { self.now.put.cursor.size ≤ 1024 }
        ensures free { result ≡ true → HasFree need self.now }
        ensures full { result ≡ false → LacksFree need self.now }
    {
        self.put.cursor.index() + need <= self.known + self.put.cursor.size() as u64
    }

    // Looks at what stands first, for the count that it tells.
    fn count(&mut self, top: &RingsShared, seat: &mut RingsSeat)
        requires seated { IsSeated top.now.table_id top.now.key seat.old }
        requires rest { (view_at seat.old).knows ≡ Nothing }
        requires mine { StepsBy top.now.key.sides.items (view_at seat.old) self.old }
        ensures seated { IsSeated top.now.table_id top.now.key seat.new }
        ensures rest { (view_at seat.new).knows ≡ Nothing }
        ensures core { (view_at seat.new).core ≡ (view_at seat.old).core }
        ensures mine { StepsBy top.now.key.sides.items (view_at seat.new) self.new }
        ensures looked { LooksForRoom (core_shown seat.old) self.old self.new (core_shown seat.new) }
    {
        let Some(control) = count(top, seat, &self.take) else {
            return;
        };
        self.learn(control);
    }

    // Whether so many slots are free. The side looks only where what it knows leaves too few.
    fn find_room(&mut self, top: &RingsShared, seat: &mut RingsSeat, need: u64) -> bool
        requires seated { IsSeated top.now.table_id top.now.key seat.old }
        requires rest { (view_at seat.old).knows ≡ Nothing }
        requires mine { StepsBy top.now.key.sides.items (view_at seat.old) self.old }
        requires few { need ≤ 2 }
        ensures seated { IsSeated top.now.table_id top.now.key seat.new }
        ensures rest { (view_at seat.new).knows ≡ Nothing }
        ensures core { (view_at seat.new).core ≡ (view_at seat.old).core }
        ensures mine { StepsBy top.now.key.sides.items (view_at seat.new) self.new }
        ensures looked { FindsRoom need (core_shown seat.old) self.old self.new (core_shown seat.new) }
        ensures room { result ≡ true → HasFree need self.new }
        ensures full { result ≡ false → LacksFree need self.new }
    {
        if self.has_free(need) {
            return true;
        }
        self.count(top, seat);
        self.has_free(need)
    }

    // Puts the fragment, with the epoch due and the number of all that the side took.
    #[inline(always)]
    fn write(&mut self, top: &RingsShared, seat: &mut RingsSeat, frag: &Frag)
        requires seated { IsSeated top.now.table_id top.now.key seat.old }
        requires rest { (view_at seat.old).knows ≡ Nothing }
        requires mine { StepsBy top.now.key.sides.items (view_at seat.old) self.old }
        requires room { HasFree 1 self.old }
        requires unspent { self.old.put.cursor.index < 2 ^ 62 }
        ensures seated { IsSeated top.now.table_id top.now.key seat.new }
        ensures rest { (view_at seat.new).knows ≡ Nothing }
        ensures core { (view_at seat.new).core ≡ (view_at seat.old).core }
        ensures mine { StepsBy top.now.key.sides.items (view_at seat.new) self.new }
        ensures side { self.new ≡ having_put self.old }
        ensures noted { core_shown seat.new
            ≡ noting (core_shown seat.old) self.old.put.side (Put (put_by self.old frag.now)) }
    {
        let taken = self.take.cursor.index();
        let stamped = frag.stamp(self.put.cursor.epoch(), (taken % 65_536) as u16);
        put_frag(top, seat, &self.put, &stamped);
        self.put.cursor.advance();
        self.told = taken;
    }

    // Puts a fragment, where two slots are free.
    #[inline(always)]
    pub(crate) fn put(
        &mut self,
        top: &RingsShared,
        seat: &mut RingsSeat,
        frag: &Frag,
    ) -> Result<(), PutFault>
        requires seated { IsSeated top.now.table_id top.now.key seat.old }
        requires rest { (view_at seat.old).knows ≡ Nothing }
        requires mine { StepsBy top.now.key.sides.items (view_at seat.old) self.old }
        ensures seated { IsSeated top.now.table_id top.now.key seat.new }
        ensures rest { (view_at seat.new).knows ≡ Nothing }
        ensures core { (view_at seat.new).core ≡ (view_at seat.old).core }
        ensures mine { StepsBy top.now.key.sides.items (view_at seat.new) self.new }
        ensures placed { OnOk result
            (Puts 2 (core_shown seat.old) self.old frag.now self.new (core_shown seat.new)) }
        ensures full { result ≡ Err PutFault.Full
            → FindsNone 2 (core_shown seat.old) self.old self.new (core_shown seat.new) }
        ensures spent { result ≡ Err PutFault.Spent
            → Stays (core_shown seat.old) self.old self.new (core_shown seat.new) × IsSpent self.old }
        ensures spent_first { IsSpent self.old → result ≡ Err PutFault.Spent }
    {
        let index = self.put.cursor.index();
        if index == SPENT {
            return Err(PutFault::Spent);
        }
        if !self.find_room(top, seat, 2) {
            return Err(PutFault::Full);
        }
        self.write(top, seat, frag);
        Ok(())
    }

    // Acknowledges what the side took, where at least half of the slots are taken and unacknowledged.
    #[inline(always)]
    pub(crate) fn tell(&mut self, top: &RingsShared, seat: &mut RingsSeat) -> Result<Told, PutFault>
        requires seated { IsSeated top.now.table_id top.now.key seat.old }
        requires rest { (view_at seat.old).knows ≡ Nothing }
        requires mine { StepsBy top.now.key.sides.items (view_at seat.old) self.old }
        ensures seated { IsSeated top.now.table_id top.now.key seat.new }
        ensures rest { (view_at seat.new).knows ≡ Nothing }
        ensures core { (view_at seat.new).core ≡ (view_at seat.old).core }
        ensures mine { StepsBy top.now.key.sides.items (view_at seat.new) self.new }
        ensures nothing { result ≡ Ok Told.Nothing
            → Stays (core_shown seat.old) self.old self.new (core_shown seat.new) × TellsNothing self.old }
        ensures written { result ≡ Ok Told.Written
            → Puts 1 (core_shown seat.old) self.old acknowledgement self.new (core_shown seat.new) }
        ensures full { result ≡ Err PutFault.Full
            → FindsNone 1 (core_shown seat.old) self.old self.new (core_shown seat.new)
            ⊎ (Stays (core_shown seat.old) self.old self.new (core_shown seat.new) × IsSpent self.old) }
        ensures some { result ≢ Ok Told.Nothing → TellsSome self.old }
        ensures spent { IsSpent self.old → Stays (core_shown seat.old) self.old self.new (core_shown seat.new) }
        ensures never_spent { result ≢ Err PutFault.Spent }
    {
        let unacknowledged = self.take.cursor.index() - self.told;
        if unacknowledged < self.take.cursor.size() as u64 / 2 {
            return Ok(Told::Nothing);
        }
        let index = self.put.cursor.index();
        if index == SPENT {
            return Err(PutFault::Full);
        }
        if !self.find_room(top, seat, 1) {
            return Err(PutFault::Full);
        }
        self.write(top, seat, &ACKNOWLEDGEMENT);
        Ok(Told::Written)
    }

    // The fragment that stands first, which is left there.
    #[inline(always)]
    pub(crate) fn look(&mut self, top: &RingsShared, seat: &mut RingsSeat) -> Option<Frag>
        requires seated { IsSeated top.now.table_id top.now.key seat.old }
        requires rest { (view_at seat.old).knows ≡ Nothing }
        requires mine { StepsBy top.now.key.sides.items (view_at seat.old) self.old }
        ensures seated { IsSeated top.now.table_id top.now.key seat.new }
        ensures rest { (view_at seat.new).knows ≡ Nothing }
        ensures core { (view_at seat.new).core ≡ (view_at seat.old).core }
        ensures mine { StepsBy top.now.key.sides.items (view_at seat.new) self.new }
        ensures noted { MatchOption result
            (Misses (core_shown seat.old) self.old self.new (core_shown seat.new))
            (λ frag. Sees (core_shown seat.old) self.old frag self.new (core_shown seat.new)) }
        ensures again { (frag : Frag) → seen_at self.old.put.side (view_at seat.old).steps ≡ Some frag
            → result ≡ Some frag }
    {
        let frag = look_at(top, seat, &self.take)?;
        self.learn(frag.control);
        Some(frag)
    }

    // The fragment that stands first, which is taken.
    #[inline(always)]
    pub(crate) fn take(&mut self, top: &RingsShared, seat: &mut RingsSeat) -> Option<Frag>
        requires seated { IsSeated top.now.table_id top.now.key seat.old }
        requires rest { (view_at seat.old).knows ≡ Nothing }
        requires mine { StepsBy top.now.key.sides.items (view_at seat.old) self.old }
        ensures seated { IsSeated top.now.table_id top.now.key seat.new }
        ensures rest { (view_at seat.new).knows ≡ Nothing }
        ensures core { (view_at seat.new).core ≡ (view_at seat.old).core }
        ensures mine { StepsBy top.now.key.sides.items (view_at seat.new) self.new }
        ensures noted { MatchOption result
            (Misses (core_shown seat.old) self.old self.new (core_shown seat.new))
            (λ frag. Takes (core_shown seat.old) self.old frag self.new (core_shown seat.new)) }
        ensures again { (frag : Frag) → seen_at self.old.put.side (view_at seat.old).steps ≡ Some frag
            → result ≡ Some frag }
    {
        let frag = take_frag(top, seat, &self.take)?;
        self.learn(frag.control);
        self.take.cursor.advance();
        Some(frag)
    }
}
