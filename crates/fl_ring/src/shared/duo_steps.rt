//! Steps of one side of a ring of two directions in a row: a fragment put, looked at, taken.

ghost use Rattle.std.specs.Prelude.{◌≡◌, ◌≢◌, ◌+◌, ◌*◌, ◌%◌, ◌^◌, ◌<◌, ◌≤◌, ℕ, [], ◌∷◌, ◌++◌, length, take, MatchOption, None};
ghost use Rattle.fl_base.specs.Control.{epoch_of, told_of};
ghost use Rattle.fl_link.specs.Cursor.{epoch_at};
ghost use Rattle.fl_ring.specs.Counts.{count_from};
ghost use Rattle.fl_ring.specs.Way.{slot};
ghost use Rattle.fl_ring.specs.SharedWay.{IsDue};
ghost use Rattle.fl_ring.specs.SharedDuo.{base_of, other_of, with_mine, side_found, side_control, IsNextWord, IsPeekedControl};
ghost use Rattle.fl_ring.specs.SharedSides.{IsDuoSeated, side_with_part, side_with_frag, side_with_words, side_of_seat, SideSees, SideGets, SideMisses};

use crate::counts::count_from;
use crate::shared::duo_board::{DuoSeat, DuoShared};
use crate::shared::duo_plays::{
    DuoFindWord, DuoLoadControl, DuoLoadPeeked, DuoLoadTaken, DuoLoadWord, DuoStoreControl,
    DuoStoreWord,
};
use fl_base::{Frag, epoch_of, told_of};

// Sees to it that the next payload word of the next slot is this number. A store takes the word's
// cache line for itself, so there is none where that number stands already, as zeros often do.
#[inline(always)]
fn store_word(top: &DuoShared, seat: &mut DuoSeat, word: usize, number: u64)
    requires seated { IsDuoSeated top.now.table_id top.now.key seat.old }
    requires word { IsNextWord word seat.old.me.0 }
    ensures table { seat.new.table_id ≡ seat.old.table_id }
    ensures stands { seat.new.me ≡ (with_mine seat.old.me.0 (side_found seat.old.me.0.mine number), seat.old.me.1) }
{
    let found = top.load::<DuoFindWord>(seat, word);
    if found == number {
        return;
    }
    top.store::<DuoStoreWord>(seat, word, number);
}

// Stores the payload words of the next fragment. Its slot begins at the word `first`.
#[inline(always)]
fn store_payload(top: &DuoShared, seat: &mut DuoSeat, first: usize, words: &[u64; 7])
    requires seated { IsDuoSeated top.now.table_id top.now.key seat.old }
    requires empty { seat.old.me.0.mine.put.part ≡ [] }
    requires room { length seat.old.me.0.mine.put.sent < seat.old.me.0.mine.put.known + seat.old.me.0.size }
    requires first { first ≡ slot (base_of seat.old.me.0.holder seat.old.me.0.size) seat.old.me.0.size (length seat.old.me.0.mine.put.sent) }
    ensures table { seat.new.table_id ≡ seat.old.table_id }
    ensures stored { seat.new.me ≡ (with_mine seat.old.me.0 (side_with_part seat.old.me.0.mine words.now), seat.old.me.1) }
{
    for k in 0..7 {
        store_word(top, seat, first + k, words[k]);
    }
}

// Stores a fragment into the next slot, its payload words first and its control word last. That
// word tells how many fragments the side has got.
#[inline(always)]
pub(crate) fn put_frag(top: &DuoShared, seat: &mut DuoSeat, first: usize, frag: &Frag)
    requires seated { IsDuoSeated top.now.table_id top.now.key seat.old }
    requires empty { seat.old.me.0.mine.put.part ≡ [] }
    requires room { length seat.old.me.0.mine.put.sent < seat.old.me.0.mine.put.known + seat.old.me.0.size }
    requires unspent { length seat.old.me.0.mine.put.sent < 2 ^ 62 }
    requires first { first ≡ slot (base_of seat.old.me.0.holder seat.old.me.0.size) seat.old.me.0.size (length seat.old.me.0.mine.put.sent) }
    requires epoch { epoch_of frag.now.control ≡ epoch_at seat.old.me.0.size (length seat.old.me.0.mine.put.sent) }
    requires number { told_of frag.now.control ≡ length seat.old.me.0.mine.take.got % 65536 }
    ensures table { seat.new.table_id ≡ seat.old.table_id }
    ensures sent { seat.new.me ≡ (with_mine seat.old.me.0 (side_with_frag seat.old.me.0.mine frag.now), seat.old.me.1) }
{
    store_payload(top, seat, first, &frag.words);
    top.store::<DuoStoreControl>(seat, first + 7, frag.control);
}

// Loads the control word of the other direction's next fragment. Where it has the epoch due, its
// number becomes known; where it has the other, nothing does.
pub(crate) fn load_control(
    top: &DuoShared,
    seat: &mut DuoSeat,
    first: usize,
    due: u64,
    known: &mut u64,
) -> Option<u64>
    requires seated { IsDuoSeated top.now.table_id top.now.key seat.old }
    requires known { (seat.old.me.0.mine.put.known ≡ known.old) × (known.old ≤ 2 ^ 62) }
    requires first { first ≡ slot (other_of seat.old.me.0.holder seat.old.me.0.size) seat.old.me.0.size (length seat.old.me.0.mine.take.got) }
    requires due { due ≡ epoch_at seat.old.me.0.size (length seat.old.me.0.mine.take.got) }
    ensures table { seat.new.table_id ≡ seat.old.table_id }
    ensures known { (seat.new.me.0.mine.put.known ≡ known.new) × (known.old ≤ known.new) × (known.new ≤ length seat.old.me.0.mine.put.sent) }
    ensures found { MatchOption result
        ((c : ℕ) × (epoch_of c ≢ due) × (seat.old.me.0.mine.take.peeked ≡ None)
        × (seat.new.me ≡ (with_mine seat.old.me.0 (side_control seat.old.me.0.size seat.old.me.0.mine c), seat.old.me.1)))
        (λ c. (epoch_of c ≡ due)
        × (seat.new.me ≡ (with_mine seat.old.me.0 (side_control seat.old.me.0.size seat.old.me.0.mine c), seat.old.me.1))
        × IsPeekedControl seat.old.me.0.mine.take c) }
{
    let control = top.load::<DuoLoadControl>(seat, first + 7);
    if epoch_of(control) != due {
        return None;
    }
    *known = count_from(*known, told_of(control));
    Some(control)
}

// Loads six payload words of the next fragment, whose control word has the epoch due.
fn load_six(top: &DuoShared, seat: &mut DuoSeat, first: usize) -> [u64; 7]
    requires seated { IsDuoSeated top.now.table_id top.now.key seat.old }
    requires due { (seat.old.me.0.mine.take.part ≡ []) × IsDue seat.old.me.0.size seat.old.me.0.mine.take }
    requires first { first ≡ slot (other_of seat.old.me.0.holder seat.old.me.0.size) seat.old.me.0.size (length seat.old.me.0.mine.take.got) }
    ensures table { seat.new.table_id ≡ seat.old.table_id }
    ensures loaded { seat.new.me ≡ (with_mine seat.old.me.0 (side_with_words seat.old.me.0.mine (take 6 result)), seat.old.me.1) }
    ensures seven { length result ≡ 7 }
{
    let mut words = [0; 7];
    for k in 0..6 {
        words[k] = top.load::<DuoLoadWord>(seat, first + k);
    }
    words
}

// The other direction's next fragment, which is left in its slot.
pub(crate) fn peek_frag(
    top: &DuoShared,
    seat: &mut DuoSeat,
    first: usize,
    due: u64,
    known: &mut u64,
) -> Option<Frag>
    requires seated { IsDuoSeated top.now.table_id top.now.key seat.old }
    requires known { (seat.old.me.0.mine.put.known ≡ known.old) × (known.old ≤ 2 ^ 62) }
    requires first { first ≡ slot (other_of seat.old.me.0.holder seat.old.me.0.size) seat.old.me.0.size (length seat.old.me.0.mine.take.got) }
    requires due { due ≡ epoch_at seat.old.me.0.size (length seat.old.me.0.mine.take.got) }
    ensures known { (seat.new.me.0.mine.put.known ≡ known.new) × (known.old ≤ known.new) × (known.new ≤ length seat.old.me.0.mine.put.sent) }
    ensures seat { (seat.new.me.0.mine.put.part ≡ seat.old.me.0.mine.put.part) × (seat.new.me.1 ≡ seat.old.me.1) }
    ensures seen { MatchOption result (SideMisses (side_of_seat seat.old) (side_of_seat seat.new))
        (λ frag. SideSees (side_of_seat seat.old) frag (side_of_seat seat.new)) }
{
    let control = load_control(top, seat, first, due, known)?;
    let mut words = load_six(top, seat, first);
    words[6] = top.load::<DuoLoadPeeked>(seat, first + 6);
    Some(Frag { words, control })
}

// The other direction's next fragment, which is taken.
pub(crate) fn take_frag(
    top: &DuoShared,
    seat: &mut DuoSeat,
    first: usize,
    due: u64,
    known: &mut u64,
) -> Option<Frag>
    requires seated { IsDuoSeated top.now.table_id top.now.key seat.old }
    requires known { (seat.old.me.0.mine.put.known ≡ known.old) × (known.old ≤ 2 ^ 62) }
    requires first { first ≡ slot (other_of seat.old.me.0.holder seat.old.me.0.size) seat.old.me.0.size (length seat.old.me.0.mine.take.got) }
    requires due { due ≡ epoch_at seat.old.me.0.size (length seat.old.me.0.mine.take.got) }
    ensures known { (seat.new.me.0.mine.put.known ≡ known.new) × (known.old ≤ known.new) × (known.new ≤ length seat.old.me.0.mine.put.sent) }
    ensures seat { (seat.new.me.0.mine.put.part ≡ seat.old.me.0.mine.put.part) × (seat.new.me.1 ≡ seat.old.me.1) }
    ensures taken { MatchOption result (SideMisses (side_of_seat seat.old) (side_of_seat seat.new))
        (λ frag. SideGets (side_of_seat seat.old) frag (side_of_seat seat.new) × (length seat.old.me.0.mine.take.got < 2 ^ 62)) }
{
    let control = load_control(top, seat, first, due, known)?;
    let mut words = load_six(top, seat, first);
    words[6] = top.load::<DuoLoadTaken>(seat, first + 6);
    Some(Frag { words, control })
}
