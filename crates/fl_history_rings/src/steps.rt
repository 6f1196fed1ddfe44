//! Steps of one core in a row, by one of its sides: a fragment put, looked at, taken; a look for room.

ghost use Rattle.std.specs.Prelude.{◌≡◌, ◌+◌, ◌%◌, ◌^◌, ◌<◌, ◌≤◌, [], ◌∷◌, ◌++◌, length, take, Some};
ghost use Rattle.std.specs.Prelude.{MatchOption};
ghost use Rattle.fl_base.specs.declared.fragment.Frag.{Frag};
ghost use Rattle.fl_base.specs.Control.{epoch_of, told_of};
ghost use Rattle.fl_link.specs.Cursor.{epoch_at};
ghost use Rattle.fl_history_rings.specs.declared.board.Action.TheVariants.{Put, Found, Missed, Saw, Took};
ghost use Rattle.fl_history_rings.specs.declared.board.Insight.TheVariants.{Nothing, Reading};
ghost use Rattle.fl_history_rings.specs.Rule.{part_in, control_in, takes_at, seen_at};
ghost use Rattle.fl_history_rings.specs.Seats.{IsSeated, IsPutPlace, IsTakePlace, HasSlot, IsNextWord};
ghost use Rattle.fl_history_rings.specs.Seats.{IsReading, CountsWithin, view_at, put_insight};
ghost use Rattle.fl_history_rings.specs.Seats.{HasInHand, HasDone, HasFound, HasDoneBoth};

use crate::board::{RingsSeat, RingsShared};
use crate::place::SlotPlace;
use crate::plays::{Count, FindWord, LoadWord, Look, SeeFrag, StoreControl, StoreWord, TakeFrag};
use fl_base::{Frag, epoch_of};

// Sees to it that the next payload word of the next slot is this number. A store takes the word's cache
// line for itself, so there is none where that number stands already, as zeros often do.
#[inline(always)]
fn store_word(top: &RingsShared, seat: &mut RingsSeat, place: &SlotPlace, k: usize, number: u64)
    requires seated { IsSeated top.now.table_id top.now.key seat.old }
    requires place { IsPutPlace top.now.key.sides.items (view_at seat.old) place.now }
    requires room { HasSlot (view_at seat.old) place.now }
    requires next { IsNextWord (view_at seat.old) place.now k }
    ensures table { seat.new.table_id ≡ seat.old.table_id }
    ensures stands { HasInHand seat.old
        (put_insight place.now.side (part_in (view_at seat.old).knows ++ number ∷ [])) seat.new }
{
    let word = place.word(k);
    let found = top.load::<FindWord>(seat, word);
    if found == number {
        return;
    }
    top.store::<StoreWord>(seat, word, number);
}

// Stores the payload words of the next fragment.
#[inline(always)]
fn store_payload(top: &RingsShared, seat: &mut RingsSeat, place: &SlotPlace, words: &[u64; 7])
    requires seated { IsSeated top.now.table_id top.now.key seat.old }
    requires place { IsPutPlace top.now.key.sides.items (view_at seat.old) place.now }
    requires room { HasSlot (view_at seat.old) place.now }
    requires rest { (view_at seat.old).knows ≡ Nothing }
    ensures table { seat.new.table_id ≡ seat.old.table_id }
    ensures stored { HasInHand seat.old (put_insight place.now.side words.now) seat.new }
{
    for k in 0..7 {
        store_word(top, seat, place, k, words[k]);
    }
}

// Stores a fragment into the next slot, its payload words first and its control word last.
#[inline(always)]
pub(crate) fn put_frag(top: &RingsShared, seat: &mut RingsSeat, place: &SlotPlace, frag: &Frag)
    requires seated { IsSeated top.now.table_id top.now.key seat.old }
    requires place { IsPutPlace top.now.key.sides.items (view_at seat.old) place.now }
    requires room { HasSlot (view_at seat.old) place.now }
    requires rest { (view_at seat.old).knows ≡ Nothing }
    requires unspent { place.now.cursor.index < 2 ^ 62 }
    requires epoch { epoch_of frag.now.control ≡ epoch_at place.now.cursor.size place.now.cursor.index }
    requires number { told_of frag.now.control
        ≡ length (takes_at place.now.side (view_at seat.old).steps) % 65536 }
    ensures seated { IsSeated top.now.table_id top.now.key seat.new }
    ensures noted { HasDone seat.old place.now.side (Put frag.now) seat.new }
{
    store_payload(top, seat, place, &frag.words);
    top.store::<StoreControl>(seat, place.word(7), frag.control);
}

// Loads the control word of the next fragment for the count that it tells, and gives it if it has the epoch
// due.
pub(crate) fn count(top: &RingsShared, seat: &mut RingsSeat, place: &SlotPlace) -> Option<u64>
    requires seated { IsSeated top.now.table_id top.now.key seat.old }
    requires place { IsTakePlace top.now.key.sides.items (view_at seat.old) place.now }
    requires rest { (view_at seat.old).knows ≡ Nothing }
    ensures seated { IsSeated top.now.table_id top.now.key seat.new }
    ensures found { MatchOption result
        (HasDone seat.old place.now.side Missed seat.new)
        (λ c. HasDone seat.old place.now.side (Found c) seat.new
        × CountsWithin (view_at seat.old) place.now.side c
        × (epoch_of c ≡ epoch_at place.now.cursor.size place.now.cursor.index)) }
    ensures again { (frag : Frag) → seen_at place.now.side (view_at seat.old).steps ≡ Some frag
        → result ≡ Some frag.control }
{
    let control = top.load::<Count>(seat, place.word(7));
    if epoch_of(control) != place.cursor.epoch() {
        return None;
    }
    Some(control)
}

// Loads the control word of the next fragment, and gives it if it has the epoch due.
fn load_control(top: &RingsShared, seat: &mut RingsSeat, place: &SlotPlace) -> Option<u64>
    requires seated { IsSeated top.now.table_id top.now.key seat.old }
    requires place { IsTakePlace top.now.key.sides.items (view_at seat.old) place.now }
    requires rest { (view_at seat.old).knows ≡ Nothing }
    ensures table { seat.new.table_id ≡ seat.old.table_id }
    ensures found { MatchOption result
        (HasDone seat.old place.now.side Missed seat.new)
        (λ c. (epoch_of c ≡ epoch_at place.now.cursor.size place.now.cursor.index)
        × HasFound seat.old place.now.side c seat.new
        × CountsWithin (view_at seat.old) place.now.side c) }
    ensures again { (frag : Frag) → seen_at place.now.side (view_at seat.old).steps ≡ Some frag
        → result ≡ Some frag.control }
{
    let control = top.load::<Look>(seat, place.word(7));
    if epoch_of(control) != place.cursor.epoch() {
        return None;
    }
    Some(control)
}

// Loads six payload words of the fragment that was found.
fn load_six(top: &RingsShared, seat: &mut RingsSeat, place: &SlotPlace) -> [u64; 7]
    requires seated { IsSeated top.now.table_id top.now.key seat.old }
    requires place { IsTakePlace top.now.key.sides.items (view_at seat.old) place.now }
    requires reading { IsReading (view_at seat.old) place.now [] }
    ensures table { seat.new.table_id ≡ seat.old.table_id }
    ensures loaded { HasInHand seat.old
        (Reading place.now.side (take 6 result) (control_in (view_at seat.old).knows)) seat.new }
    ensures seven { length result ≡ 7 }
{
    let mut words = [0; 7];
    for k in 0..6 {
        words[k] = top.load::<LoadWord>(seat, place.word(k));
    }
    words
}

// The fragment that stands first, which is left in its slot.
pub(crate) fn look_at(top: &RingsShared, seat: &mut RingsSeat, place: &SlotPlace) -> Option<Frag>
    requires seated { IsSeated top.now.table_id top.now.key seat.old }
    requires place { IsTakePlace top.now.key.sides.items (view_at seat.old) place.now }
    requires rest { (view_at seat.old).knows ≡ Nothing }
    ensures seated { IsSeated top.now.table_id top.now.key seat.new }
    ensures noted { MatchOption result
        (HasDone seat.old place.now.side Missed seat.new)
        (λ frag. HasDoneBoth seat.old place.now.side (Found frag.control) (Saw frag) seat.new
        × CountsWithin (view_at seat.old) place.now.side frag.control) }
    ensures again { (frag : Frag) → seen_at place.now.side (view_at seat.old).steps ≡ Some frag
        → result ≡ Some frag }
{
    let control = load_control(top, seat, place)?;
    let mut words = load_six(top, seat, place);
    words[6] = top.load::<SeeFrag>(seat, place.word(6));
    Some(Frag { words, control })
}

// The fragment that stands first, which is taken.
pub(crate) fn take_frag(top: &RingsShared, seat: &mut RingsSeat, place: &SlotPlace) -> Option<Frag>
    requires seated { IsSeated top.now.table_id top.now.key seat.old }
    requires place { IsTakePlace top.now.key.sides.items (view_at seat.old) place.now }
    requires rest { (view_at seat.old).knows ≡ Nothing }
    ensures seated { IsSeated top.now.table_id top.now.key seat.new }
    ensures noted { MatchOption result
        (HasDone seat.old place.now.side Missed seat.new)
        (λ frag. (place.now.cursor.index < 2 ^ 62)
        × HasDoneBoth seat.old place.now.side (Found frag.control) (Took frag) seat.new
        × CountsWithin (view_at seat.old) place.now.side frag.control) }
    ensures again { (frag : Frag) → seen_at place.now.side (view_at seat.old).steps ≡ Some frag
        → result ≡ Some frag }
{
    let control = load_control(top, seat, place)?;
    let mut words = load_six(top, seat, place);
    words[6] = top.load::<TakeFrag>(seat, place.word(6));
    Some(Frag { words, control })
}
