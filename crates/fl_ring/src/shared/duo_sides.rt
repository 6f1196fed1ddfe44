//! A side of a ring of two directions: it puts into one and takes from the other.

ghost use Rattle.std.specs.Prelude.{◌≡◌, ◌≢◌, ◌+◌, ◌-◌, ◌*◌, ◌/◌, ◌%◌, ◌^◌, ◌<◌, ◌≤◌, ◌∷◌, ◌++◌, [], nat_le, false, length, Some, Ok, Err, OnOk};
ghost use Rattle.fl_base.specs.declared.fragment.Frag.{Frag};
ghost use Rattle.fl_base.specs.Control.{is_ack_only, bare};
ghost use Rattle.fl_link.specs.Cursor.{epoch_at};
ghost use Rattle.fl_link.specs.Looks.{placed, no_room, spent, saw, saw_ack, found, found_ack, peeked, taken, tells};
ghost use Rattle.fl_ring.specs.SharedSeats.{front_seen};
ghost use Rattle.fl_ring.specs.SharedSides.{SharedPuts, SharedTakes, Looked, free_of, unacknowledged_of, side_written, side_has_room};

use crate::shared::duo_board::{DuoSeat, DuoTable};
use crate::shared::duo_steps::{load_control, peek_frag, put_frag, take_frag};
use crate::shared::sight::sight;
use fl_base::Frag;
use fl_link::{Cursor, PutFault, PutSide, SPENT, Sight, TakeSide, Told};
use std::alloc::Global;
use std::marker::Model;
use std::sync::Arc;

/// A side of a ring of two directions over shared words. It moves to a thread of its own.
#[derive(Drop)]
pub struct SharedSide {
    pub(crate) table: Arc<DuoTable, Global>,
    pub(crate) seat: DuoSeat,
    // the first word of the slots that it writes, and of those that it reads
    pub(crate) base: usize,
    pub(crate) other: usize,
    pub(crate) put: Cursor,
    pub(crate) take: Cursor,
    // how many of its fragments it knows to be taken
    pub(crate) known: u64,
    // how many of the other side's it told
    pub(crate) told: u64,
}

impl Model for SharedSide {
    ghost use Rattle.std.specs.Prelude.{◌≡◌};
    ghost use Rattle.std.specs.Arc.{arc_value};
    ghost use Rattle.fl_ring.specs.SharedSides.{TheSide, side_of_seat, IsDuoSeated, IsSide};

    ghost Value = { TheSide };

    ghost view = { λ s. side_of_seat s.seat };

    ghost invariant = { λ s. IsDuoSeated (arc_value s.table).shared.table_id (arc_value s.table).shared.key s.seat
        × IsSide s.seat (record { base = s.base; other = s.other; put = s.put; take = s.take; known = s.known; told = s.told }) };
}

// A fragment that only acknowledges: bit 2 is set and nothing else.
const ACKNOWLEDGEMENT: Frag = Frag {
    words: [0; 7],
    control: 4,
};

impl SharedSide {
    // How many of its slots are free, by what it knows.
    fn free(&self) -> u64
        ensures free { result ≡ free_of self.now }
    {
        self.put.size() as u64 + self.known - self.put.index()
    }

    // Whether so many slots are free. Where too few are known to be, it looks at the other
    // direction's next control word and counts again.
    fn has_free(&mut self, need: u64) -> bool
        ensures looked { Looked need self.old self.new }
        ensures ring { self.new.ring ≡ self.old.ring }
        ensures free { result ≡ nat_le need (free_of self.new) }
    {
        if self.free() >= need {
            return true;
        }
        let first = self.other + 8 * self.take.place();
        let top = &self.table.shared;
        let _ = load_control(
            top,
            &mut self.seat,
            first,
            self.take.epoch(),
            &mut self.known,
        );
        self.free() >= need
    }

    // Writes a fragment into the next slot. Its control word tells all that was taken.
    #[inline(always)]
    fn write(&mut self, frag: &Frag)
        requires room { 1 ≤ free_of self.old }
        requires unspent { length self.old.sent < 2 ^ 62 }
        ensures written { self.new ≡ side_written self.old frag.now }
    {
        let taken = self.take.index();
        let stamped = frag.stamp(self.put.epoch(), (taken % 65_536) as u16);
        let first = self.base + 8 * self.put.place();
        put_frag(&self.table.shared, &mut self.seat, first, &stamped);
        self.put.advance();
        self.told = taken;
    }

    /// Puts a fragment, which tells all that this side has taken. The fragment isn't one that only
    /// acknowledges.
    ///
    /// # Errors
    /// The side has put 2^62 fragments (E33). Else fewer than two slots are known to be free, also after a
    /// look at the other direction's next control word (E30): nothing was put, and the side knows what it saw
    /// there.
    #[inline(always)]
    pub fn try_put(&mut self, frag: &Frag) -> Result<(), PutFault>
        requires { is_ack_only frag.now ≡ false }
        ensures placed { OnOk result (SharedPuts self.old (placed (bare frag.now)) self.new) }
        ensures full { result ≡ Err PutFault.Full → SharedPuts self.old no_room self.new }
        ensures spent { result ≡ Err PutFault.Spent → SharedPuts self.old spent self.new }
        ensures ring { self.new.ring ≡ self.old.ring }
    {
        if self.put.index() == SPENT {
            return Err(PutFault::Spent);
        }
        if !self.has_free(2) {
            return Err(PutFault::Full);
        }
        self.write(frag);
        Ok(())
    }

    /// The other side's next fragment, which is left there. It is `Empty` only where this call's
    /// load found the other epoch in its slot.
    #[inline]
    pub fn try_peek(&mut self) -> Sight
        ensures look { SharedTakes self.old (peeked result) self.new }
        ensures exact { (frag : Frag) → result ≡ Sight.Data frag → self.new.peeked ≡ Some frag }
        ensures again { (frag : Frag) → front_seen self.old.peeked ≡ saw frag → peeked result ≡ saw frag }
        ensures again_acknowledged { front_seen self.old.peeked ≡ saw_ack → peeked result ≡ saw_ack }
        ensures front { peeked result ≡ front_seen self.new.peeked }
        ensures of_call { (frag : Frag) → result ≡ Sight.Data frag → is_ack_only frag ≡ false }
        ensures ring { self.new.ring ≡ self.old.ring }
    {
        let first = self.other + 8 * self.take.place();
        let due = self.take.epoch();
        match peek_frag(
            &self.table.shared,
            &mut self.seat,
            first,
            due,
            &mut self.known,
        ) {
            None => Sight::Empty,
            Some(frag) => sight(frag),
        }
    }

    /// Takes the other side's next fragment, the one that was peeked if one was. Its slot isn't free
    /// before it is told. It is `Empty` only where this call's load found the other epoch.
    #[inline(always)]
    pub fn try_take(&mut self) -> Sight
        ensures look { SharedTakes self.old (taken result) self.new }
        ensures exact { (frag : Frag) → result ≡ Sight.Data frag → self.new.got ≡ self.old.got ++ frag ∷ [] }
        ensures data { (frag : Frag) → front_seen self.old.peeked ≡ saw frag → taken result ≡ found frag }
        ensures acknowledgement { front_seen self.old.peeked ≡ saw_ack → taken result ≡ found_ack }
        ensures ring { self.new.ring ≡ self.old.ring }
    {
        let first = self.other + 8 * self.take.place();
        let due = self.take.epoch();
        match take_frag(
            &self.table.shared,
            &mut self.seat,
            first,
            due,
            &mut self.known,
        ) {
            None => Sight::Empty,
            Some(frag) => {
                self.take.advance();
                sight(frag)
            }
        }
    }

    /// Tells what this side has taken, where at least half of the slots are taken and unacknowledged: it writes a
    /// fragment that only acknowledges. Else it answers `Nothing`, and nothing has changed.
    ///
    /// # Errors
    /// There is so much to tell, and the side has put 2^62 fragments, or no slot is known to be free, also
    /// after a look at the other direction's next control word (both E30, never E33): nothing was written.
    #[inline]
    pub fn tell(&mut self) -> Result<Told, PutFault>
        ensures tell { SharedTakes self.old (tells result) self.new }
        ensures never_spent { result ≢ Err PutFault.Spent }
        ensures ring { self.new.ring ≡ self.old.ring }
    {
        let unacknowledged = self.take.index() - self.told;
        if unacknowledged < self.take.size() as u64 / 2 {
            return Ok(Told::Nothing);
        }
        if self.put.index() == SPENT {
            return Err(PutFault::Full);
        }
        if !self.has_free(1) {
            return Err(PutFault::Full);
        }
        self.write(&ACKNOWLEDGEMENT);
        Ok(Told::Written)
    }

    /// Whether data would find room, by what this side knows.
    pub fn room(&self) -> bool
        ensures room { result ≡ side_has_room self.now }
    {
        self.put.index() < SPENT && self.free() >= 2
    }

    /// The epoch bit of the fragment that is put next.
    pub fn next_epoch(&self) -> u64
        ensures epoch { result ≡ epoch_at self.now.size (length self.now.sent) }
        ensures bit { result < 2 }
    {
        self.put.epoch()
    }

    /// Bits 48 to 63 of the fragment that is put next: how many this side has taken, modulo 65,536.
    pub fn next_told(&self) -> u16
        ensures told { result ≡ length self.now.got % 65536 }
    {
        (self.take.index() % 65_536) as u16
    }

    /// How many of its fragments this side knows to be taken.
    pub fn known(&self) -> u64
        ensures known { result ≡ self.now.known }
        ensures near { (result ≤ length self.now.sent) × (length self.now.sent ≤ result + self.now.size) × (self.now.size ≤ 1024) }
    {
        self.known
    }
}

impl PutSide for SharedSide {
    ghost puts = { SharedPuts };

    ghost has_room = { side_has_room };

    ghost epoch_of = { λ s. epoch_at s.size (length s.sent) };

    ghost told_of = { λ s. length s.got % 65536 };

    ghost known_of = { λ s. s.known };

    fn room(&self) -> bool {
        SharedSide::room(self)
    }

    fn put(&mut self, frag: &Frag) -> Result<(), PutFault> {
        self.try_put(frag)
    }

    fn next_epoch(&self) -> u64 {
        SharedSide::next_epoch(self)
    }

    fn next_told(&self) -> u16 {
        SharedSide::next_told(self)
    }

    fn known(&self) -> u64 {
        SharedSide::known(self)
    }
}

impl TakeSide for SharedSide {
    ghost takes = { SharedTakes };

    ghost front = { λ s. front_seen s.peeked };

    fn peek(&mut self) -> Sight {
        self.try_peek()
    }

    fn take(&mut self) -> Sight {
        self.try_take()
    }

    fn tell(&mut self) -> Result<Told, PutFault> {
        SharedSide::tell(self)
    }
}
