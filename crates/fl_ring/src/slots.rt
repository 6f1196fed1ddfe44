//! One slot: seven payload words and a control word, from some word of a table on.

ghost use Rattle.std.specs.Prelude.{◌≡◌, ◌≢◌, ◌+◌, ◌*◌, ◌^◌, ◌%◌, ◌<◌, ◌≤◌, length, vec_len, slice_index, MatchOption};
ghost use Rattle.fl_base.specs.Control.{epoch_of, stamped};
ghost use Rattle.fl_link.specs.Cursor.{epoch_at};
ghost use Rattle.fl_ring.specs.Way.{slot, frag_at, WritesSlot};

use fl_base::{Frag, epoch_of};
use fl_link::Cursor;

// Writes a fragment into the next slot of the way that begins at word `base`, with the epoch of its round and a count that it
// tells: the payload words first, and the control word last.
#[inline]
pub(crate) fn write_next(
    words: &mut Vec<u64>,
    base: usize,
    put: &mut Cursor,
    frag: &Frag,
    told: u16,
)
    requires room { slot base put.old.size put.old.index + 8 ≤ vec_len words.old }
    requires unspent { put.old.index < 2 ^ 62 }
    ensures writes { WritesSlot (slot base put.old.size put.old.index) (stamped frag.now (epoch_at put.old.size put.old.index) told)
        words.old.items words.new.items }
    ensures next { put.new ≡ record { index = put.old.index + 1; size = put.old.size } }
{
    let stamped = frag.stamp(put.epoch(), told);
    let slot = base + 8 * put.place();
    // As a slice, so that the address of the words is read once.
    let table = words.as_mut_slice();
    for k in 0..7 {
        table[slot + k] = stamped.words[k];
    }
    table[slot + 7] = stamped.control;
    put.advance();
}

// The fragment in the slot, if its epoch is the one that is due. Each word is read once.
#[inline(always)]
pub(crate) fn look(words: &[u64], slot: usize, due: u64) -> Option<Frag>
    requires { slot + 8 ≤ length words.now }
    ensures look { MatchOption result
        (epoch_of (slice_index words.now (slot + 7)) ≢ due)
        (λ frag. (frag ≡ frag_at words.now slot) × (epoch_of (slice_index words.now (slot + 7)) ≡ due)) }
{
    let at = |k: usize| words[slot + k];
    let control = at(7);
    if epoch_of(control) != due {
        return None;
    }
    Some(Frag {
        words: [at(0), at(1), at(2), at(3), at(4), at(5), at(6)],
        control,
    })
}
