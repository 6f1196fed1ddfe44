//! Steps of the writer in a row: a fragment put, and a look at the number told.

ghost use Rattle.std.specs.Prelude.{◌≡◌, ◌+◌, ◌*◌, ◌^◌, ◌<◌, ◌≤◌, true, false, [], ◌∷◌, ◌++◌, length};
ghost use Rattle.fl_base.specs.Control.{epoch_of};
ghost use Rattle.fl_link.specs.Cursor.{epoch_at};
ghost use Rattle.fl_ring.specs.Way.{slot};
ghost use Rattle.fl_ring.specs.SharedWay.{with_found};
ghost use Rattle.fl_ring.specs.SharedRing.{with_writing, IsNextWord};
ghost use Rattle.fl_ring.specs.SharedSeats.{IsSeated, IsWriter, Counts, sender_of, with_part, with_frag};

use crate::shared::board::{RingSeat, RingShared};
use crate::shared::plays::{FindWord, LoadTold, StoreControl, StoreWord};
use fl_base::Frag;

// Sees to it that the next payload word of the next slot is this number. A store takes the word's
// cache line for itself, so there is none where that number stands already, as zeros often do.
#[inline(always)]
fn store_word(top: &RingShared, seat: &mut RingSeat, word: usize, number: u64)
    requires seated { IsSeated top.now.table_id top.now.key seat.old }
    requires writes { seat.old.me.0.writes ≡ true }
    requires word { IsNextWord word seat.old.me.0 }
    ensures table { seat.new.table_id ≡ seat.old.table_id }
    ensures stands { seat.new.me ≡ (with_writing seat.old.me.0 (with_found seat.old.me.0.put number), seat.old.me.1) }
{
    let found = top.load::<FindWord>(seat, word);
    if found == number {
        return;
    }
    top.store::<StoreWord>(seat, word, number);
}

// Stores the payload words of the next fragment. Its slot begins at the word `first`.
#[inline(always)]
fn store_payload(top: &RingShared, seat: &mut RingSeat, first: usize, words: &[u64; 7])
    requires seated { IsSeated top.now.table_id top.now.key seat.old }
    requires writes { (seat.old.me.0.writes ≡ true) × (seat.old.me.0.put.part ≡ []) }
    requires room { length seat.old.me.0.put.sent < seat.old.me.0.put.known + seat.old.me.0.size }
    requires first { first ≡ slot 0 seat.old.me.0.size (length seat.old.me.0.put.sent) }
    ensures table { seat.new.table_id ≡ seat.old.table_id }
    ensures stored { seat.new.me ≡ (with_writing seat.old.me.0 (with_part seat.old.me.0.put words.now), seat.old.me.1) }
{
    for k in 0..7 {
        store_word(top, seat, first + k, words[k]);
    }
}

// Stores a fragment into the next slot, its payload words first and its control word last.
#[inline(always)]
pub(crate) fn put_frag(top: &RingShared, seat: &mut RingSeat, first: usize, frag: &Frag)
    requires seated { IsSeated top.now.table_id top.now.key seat.old }
    requires writes { (seat.old.me.0.writes ≡ true) × (seat.old.me.0.put.part ≡ []) }
    requires room { length seat.old.me.0.put.sent < seat.old.me.0.put.known + seat.old.me.0.size }
    requires unspent { length seat.old.me.0.put.sent < 2 ^ 62 }
    requires first { first ≡ slot 0 seat.old.me.0.size (length seat.old.me.0.put.sent) }
    requires epoch { epoch_of frag.now.control ≡ epoch_at seat.old.me.0.size (length seat.old.me.0.put.sent) }
    ensures table { seat.new.table_id ≡ seat.old.table_id }
    ensures sent { seat.new.me ≡ (with_writing seat.old.me.0 (with_frag seat.old.me.0.put frag.now), seat.old.me.1) }
{
    store_payload(top, seat, first, &frag.words);
    top.store::<StoreControl>(seat, first + 7, frag.control);
}

// Whether a slot is free. The number told is loaded only where what is known leaves none.
pub(crate) fn has_room(
    top: &RingShared,
    seat: &mut RingSeat,
    size: usize,
    index: u64,
    known: &mut u64,
) -> bool
    requires seated { IsSeated top.now.table_id top.now.key seat.old }
    requires writer { IsWriter seat.old size index known.old }
    ensures seated { IsSeated top.now.table_id top.now.key seat.new }
    ensures writer { IsWriter seat.new size index known.new }
    ensures counts { Counts (sender_of seat.old) (sender_of seat.new) }
    ensures sent { seat.new.me.0.put.sent ≡ seat.old.me.0.put.sent }
    ensures room { result ≡ true → index < known.new + size }
    ensures full { result ≡ false → (index ≡ known.new + size) × (seat.new.me.0.put.loads ≡ seat.old.me.0.put.loads + 1) }
{
    let size = size as u64;
    if index < *known + size {
        return true;
    }
    *known = top.load::<LoadTold>(seat, 8 * size as usize);
    index < *known + size
}
