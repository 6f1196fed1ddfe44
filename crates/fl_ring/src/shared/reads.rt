//! Steps of the reader in a row: the next fragment looked at, and taken.

ghost use Rattle.std.specs.Prelude.{◌≡◌, ◌≢◌, ◌+◌, ◌*◌, ◌^◌, ◌<◌, ◌≤◌, ℕ, true, false, [], ◌∷◌, ◌++◌, length, take, MatchOption, None};
ghost use Rattle.fl_base.specs.Control.{epoch_of};
ghost use Rattle.fl_link.specs.Cursor.{epoch_at};
ghost use Rattle.fl_ring.specs.Way.{slot};
ghost use Rattle.fl_ring.specs.SharedRing.{with_reading};
ghost use Rattle.fl_ring.specs.SharedWay.{with_control, IsDue};
ghost use Rattle.fl_ring.specs.SharedSeats.{IsSeated, IsReader, with_words, Sees, Gets, Misses, receiver_of};

use crate::shared::board::{RingSeat, RingShared};
use crate::shared::plays::{LoadControl, LoadPeeked, LoadTaken, LoadWord};
use fl_base::{Frag, epoch_of};

// Loads the control word of the next fragment, and gives it if it has the epoch due.
fn load_control(top: &RingShared, seat: &mut RingSeat, first: usize, due: u64) -> Option<u64>
    requires seated { IsSeated top.now.table_id top.now.key seat.old }
    requires reads { seat.old.me.0.reads ≡ true }
    requires first { first ≡ slot 0 seat.old.me.0.size (length seat.old.me.0.take.got) }
    requires due { due ≡ epoch_at seat.old.me.0.size (length seat.old.me.0.take.got) }
    ensures table { seat.new.table_id ≡ seat.old.table_id }
    ensures found { MatchOption result
        ((c : ℕ) × (epoch_of c ≢ due) × (seat.old.me.0.take.peeked ≡ None)
        × (seat.new.me ≡ (with_reading seat.old.me.0 (with_control seat.old.me.0.size seat.old.me.0.take c), seat.old.me.1)))
        (λ c. (epoch_of c ≡ due) × (seat.new.me ≡ (with_reading seat.old.me.0 (with_control seat.old.me.0.size seat.old.me.0.take c), seat.old.me.1))) }
{
    let control = top.load::<LoadControl>(seat, first + 7);
    if epoch_of(control) != due {
        return None;
    }
    Some(control)
}

// Loads six payload words of the next fragment, whose control word has the epoch due.
fn load_six(top: &RingShared, seat: &mut RingSeat, first: usize) -> [u64; 7]
    requires seated { IsSeated top.now.table_id top.now.key seat.old }
    requires reads { (seat.old.me.0.reads ≡ true) × (seat.old.me.0.take.part ≡ []) × IsDue seat.old.me.0.size seat.old.me.0.take }
    requires first { first ≡ slot 0 seat.old.me.0.size (length seat.old.me.0.take.got) }
    ensures table { seat.new.table_id ≡ seat.old.table_id }
    ensures loaded { seat.new.me ≡ (with_reading seat.old.me.0 (with_words seat.old.me.0.take (take 6 result)), seat.old.me.1) }
    ensures seven { length result ≡ 7 }
{
    let mut words = [0; 7];
    for k in 0..6 {
        words[k] = top.load::<LoadWord>(seat, first + k);
    }
    words
}

// The next fragment, which is left in its slot.
pub(crate) fn peek_frag(
    top: &RingShared,
    seat: &mut RingSeat,
    first: usize,
    due: u64,
) -> Option<Frag>
    requires seated { IsSeated top.now.table_id top.now.key seat.old }
    requires reads { seat.old.me.0.reads ≡ true }
    requires first { first ≡ slot 0 seat.old.me.0.size (length seat.old.me.0.take.got) }
    requires due { due ≡ epoch_at seat.old.me.0.size (length seat.old.me.0.take.got) }
    ensures seat { (seat.new.me.0.reads ≡ true) × (seat.new.me.1 ≡ seat.old.me.1) }
    ensures seen { MatchOption result (Misses (receiver_of seat.old) (receiver_of seat.new)) (λ frag. Sees (receiver_of seat.old) frag (receiver_of seat.new)) }
{
    let control = load_control(top, seat, first, due)?;
    let mut words = load_six(top, seat, first);
    words[6] = top.load::<LoadPeeked>(seat, first + 6);
    Some(Frag { words, control })
}

// The next fragment, which is taken.
pub(crate) fn take_frag(
    top: &RingShared,
    seat: &mut RingSeat,
    first: usize,
    due: u64,
) -> Option<Frag>
    requires seated { IsSeated top.now.table_id top.now.key seat.old }
    requires reads { seat.old.me.0.reads ≡ true }
    requires first { first ≡ slot 0 seat.old.me.0.size (length seat.old.me.0.take.got) }
    requires due { due ≡ epoch_at seat.old.me.0.size (length seat.old.me.0.take.got) }
    ensures seat { (seat.new.me.0.reads ≡ true) × (seat.new.me.1 ≡ seat.old.me.1) }
    ensures taken { MatchOption result (Misses (receiver_of seat.old) (receiver_of seat.new))
        (λ frag. Gets (receiver_of seat.old) frag (receiver_of seat.new) × (length seat.old.me.0.take.got < 2 ^ 62)) }
{
    let control = load_control(top, seat, first, due)?;
    let mut words = load_six(top, seat, first);
    words[6] = top.load::<LoadTaken>(seat, first + 6);
    Some(Frag { words, control })
}
