//! Where a core puts next, and takes from next, by one of its sides; and that side.

ghost use Rattle.std.specs.Prelude.{◌≡◌, ◌+◌, ◌*◌, ◌%◌, ◌^◌, ◌<◌};
ghost use Rattle.fl_link.specs.Cursor.{epoch_at};
ghost use Rattle.fl_ring.specs.Way.{slot};
ghost use Rattle.fl_history_rings.specs.Sides.{IsNear, has_room};

use fl_link::{Cursor, SPENT};

/// A side by its number, the first word of the way that it puts into, or takes from, and the fragment that is
/// put or taken next.
#[derive(Drop)]
pub struct SlotPlace {
    pub(crate) side: usize,
    pub(crate) base: usize,
    pub(crate) cursor: Cursor,
}

/// A side of a ring: it puts into one way and takes from the other.
#[derive(Drop)]
pub struct RingSide {
    pub(crate) put: SlotPlace,
    pub(crate) take: SlotPlace,
    // how many of its fragments it knows to be taken
    pub(crate) known: u64,
    // how many of the other side's it told
    pub(crate) told: u64,
}

impl SlotPlace {
    // Word `k` of the slot.
    #[inline(always)]
    pub(crate) fn word(&self, k: usize) -> usize
        requires fits { (self.now.base + 8 * self.now.cursor.size < 2 ^ 64) × (k < 8) }
        ensures { result ≡ slot self.now.base self.now.cursor.size self.now.cursor.index + k }
    {
        self.base + 8 * self.cursor.place() + k
    }
}

impl RingSide {
    /// Whether data would find room, by what this side knows.
    pub fn room(&self) -> bool
        requires near { IsNear self.now }
        ensures room { result ≡ has_room self.now }
    {
        let index = self.put.cursor.index();
        index < SPENT && self.put.cursor.size() as u64 - (index - self.known) >= 2
    }

    /// The epoch bit of the fragment that is put next.
    pub fn next_epoch(&self) -> u64
        ensures epoch { result ≡ epoch_at self.now.put.cursor.size self.now.put.cursor.index }
        ensures bit { result < 2 }
    {
        self.put.cursor.epoch()
    }

    /// Bits 48 to 63 of the fragment that is put next: how many this side has taken, modulo 65,536.
    pub fn next_told(&self) -> u16
        ensures told { result ≡ self.now.take.cursor.index % 65536 }
    {
        (self.take.cursor.index() % 65_536) as u16
    }

    /// How many of its fragments this side knows to be taken.
    pub fn known(&self) -> u64
        ensures known { result ≡ self.now.known }
    {
        self.known
    }
}
