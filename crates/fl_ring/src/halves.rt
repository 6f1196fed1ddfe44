//! One side of a ring of two directions: what it keeps beside the words.

ghost use Rattle.std.specs.Prelude.{◌≡◌, ◌≢◌, ◌+◌, ◌*◌, ◌-◌, ◌^◌, ◌/◌, ◌%◌, ◌<◌, ◌≤◌, ℕ, true, false, nat_le, nat_lt, ◌&&◌, List, ◌∷◌, [], OnOk, Ok};
ghost use Rattle.std.specs.Prelude.{Err, MatchOption};
ghost use Rattle.fl_base.specs.declared.fragment.Frag.{Frag};
ghost use Rattle.fl_base.specs.Control.{told_of, is_ack_only, bare};
ghost use Rattle.fl_link.specs.Cursor.{TheCursor};
ghost use Rattle.fl_link.specs.Looks.{Look, placed, no_room, spent, peeked, taken, tells};
ghost use Rattle.fl_link.specs.Queue.{BeginsWith};
ghost use Rattle.fl_ring.specs.Counts.{count_from};
ghost use Rattle.fl_ring.specs.Duo.{HalfPuts, HalfTakes, counts_by, free, looked};
ghost use Rattle.fl_ring.specs.Halves.{InStep, half_of, Goes};
ghost use Rattle.fl_ring.specs.declared.halves.DuoHalf.{DuoHalf};

use crate::counts::count_from;
use crate::slots::{look, write_next};
use fl_base::Frag;
use fl_link::{Cursor, PutFault, SPENT, Sight, Told};

/// A side: where its slots begin, where it stands in them and in the other side's, and what it
/// knows and told.
#[derive(Drop)]
pub struct DuoHalf {
    // the first word of the slots that it writes, and of those that it reads
    pub(crate) base: usize,
    pub(crate) other: usize,
    pub(crate) put: Cursor,
    pub(crate) take: Cursor,
    // how many of its fragments it knows to be taken
    pub(crate) known: u64,
    // how many of the other side's it told
    pub(crate) told: u64,
}

impl DuoHalf {
    /// A side that writes the slots from word `base` on and reads those from `other` on, `size` each.
    pub(crate) fn new(base: usize, other: usize, size: usize) -> DuoHalf
        requires { 0 < size }
        ensures start { result ≡ record {
          base = base;
          other = other;
          put = record { index = 0; size = size };
          take = record { index = 0; size = size };
          known = 0;
          told = 0;
        } }
    {
        DuoHalf {
            base,
            other,
            put: Cursor::new(size),
            take: Cursor::new(size),
            known: 0,
            told: 0,
        }
    }

    // Notes that the next fragment tells all that was taken, and gives the count that it tells.
    #[inline]
    fn tell_taken(&mut self) -> u16
        ensures count { result ≡ self.old.take.index % 65536 }
        ensures told { self.new ≡ record self.old { told = self.old.take.index } }
    {
        self.told = self.take.index();
        (self.told % 65_536) as u16
    }
}

// Looks at the first fragment of the other side that isn't taken yet, and knows the count that it
// tells.
#[inline(always)]
fn look_back(words: &[u64], mine: &mut DuoHalf) -> Option<Frag>
    requires { (n : ℕ) × (theirs : DuoHalf) × InStep n words.now mine.old theirs }
    ensures looks { (n : ℕ) (theirs : DuoHalf) → InStep n words.now mine.old theirs → MatchOption result
        (((half_of n words.now mine.old theirs).waiting ≡ []) × (mine.new ≡ mine.old))
        (λ frag. ((rest : List Frag) × ((half_of n words.now mine.old theirs).waiting ≡ frag ∷ rest))
        × (mine.new ≡ record mine.old { known = count_from mine.old.known (told_of frag.control) })) }
    ensures steps { (n : ℕ) (theirs : DuoHalf) → InStep n words.now mine.old theirs → InStep n words.now mine.new theirs }
{
    let slot = mine.other + 8 * mine.take.place();
    let Some(frag) = look(words, slot, mine.take.epoch()) else {
        return None;
    };
    mine.known = count_from(mine.known, frag.told());
    Some(frag)
}

// How many slots are free, as far as this side knows.
#[inline]
fn known_free(mine: &DuoHalf) -> u64
    requires { (n : ℕ) × (words : List ℕ) × (theirs : DuoHalf) × InStep n words mine.now theirs }
    ensures free { result ≡ free mine.now.put.size mine.now.put.index mine.now.known }
{
    mine.put.size() as u64 + mine.known - mine.put.index()
}

/// Whether a put at this side would find room, by what the side knows.
#[inline]
pub(crate) fn room_at(mine: &DuoHalf) -> bool
    requires { (n : ℕ) × (words : List ℕ) × (theirs : DuoHalf) × InStep n words mine.now theirs }
    ensures room { result ≡ (nat_lt mine.now.put.index (2 ^ 62) && nat_le 2 (free mine.now.put.size mine.now.put.index mine.now.known)) }
{
    mine.put.index() < SPENT && known_free(mine) >= 2
}

// Whether so many slots are free. Where too few are known to be, it looks at the other side's first
// fragment and counts again.
fn has_free(words: &[u64], mine: &mut DuoHalf, need: u64) -> bool
    requires { (n : ℕ) × (theirs : DuoHalf) × InStep n words.now mine.old theirs }
    ensures free { (n : ℕ) (theirs : DuoHalf) → InStep n words.now mine.old theirs → (result ≡ nat_le need (free n mine.old.put.index mine.new.known))
        × (mine.new ≡ record mine.old { known = counts_by n need (half_of n words.now mine.old theirs) })
        × InStep n words.now mine.new theirs }
{
    if known_free(mine) >= need {
        return true;
    }
    let _ = look_back(words, mine);
    known_free(mine) >= need
}

// A fragment that only acknowledges: bit 2 is set and nothing else.
const ACKNOWLEDGEMENT: Frag = Frag {
    words: [0; 7],
    control: 4,
};

/// Puts a fragment at this side.
#[inline]
pub(crate) fn put_at(words: &mut Vec<u64>, mine: &mut DuoHalf, frag: &Frag) -> Result<(), PutFault>
    requires steps { (n : ℕ) × (theirs : DuoHalf) × InStep n words.old.items mine.old theirs }
    requires data { is_ack_only frag.now ≡ false }
    ensures placed { OnOk result (Goes HalfPuts words.old.items mine.old (placed (bare frag.now)) words.new.items mine.new) }
    ensures full { result ≡ Err PutFault.Full → Goes HalfPuts words.old.items mine.old no_room words.new.items mine.new }
    ensures spent { result ≡ Err PutFault.Spent → Goes HalfPuts words.old.items mine.old spent words.new.items mine.new }
{
    if mine.put.index() == SPENT {
        return Err(PutFault::Spent);
    }
    if !has_free(words, mine, 2) {
        return Err(PutFault::Full);
    }
    let told = mine.tell_taken();
    write_next(words, mine.base, &mut mine.put, frag, told);
    Ok(())
}

/// Looks at the first fragment that this side may take, and leaves it.
#[inline(always)]
pub(crate) fn peek_at(words: &[u64], mine: &mut DuoHalf) -> Sight
    requires { (n : ℕ) × (theirs : DuoHalf) × InStep n words.now mine.old theirs }
    ensures look { Goes HalfTakes words.now mine.old (peeked result) words.now mine.new }
    ensures whole { (n : ℕ) (theirs : DuoHalf) → InStep n words.now mine.old theirs
        → (frag : Frag) → result ≡ Sight.Data frag → BeginsWith (half_of n words.now mine.old theirs).waiting frag }
    ensures of_call { (frag : Frag) → result ≡ Sight.Data frag → is_ack_only frag ≡ false }
{
    match look_back(words, mine) {
        None => Sight::Empty,
        Some(frag) if frag.is_ack_only() => Sight::Acknowledgement,
        Some(frag) => Sight::Data(frag),
    }
}

/// Takes the first fragment that this side may take.
#[inline(always)]
pub(crate) fn take_at(words: &[u64], mine: &mut DuoHalf) -> Sight
    requires { (n : ℕ) × (theirs : DuoHalf) × InStep n words.now mine.old theirs }
    ensures look { Goes HalfTakes words.now mine.old (taken result) words.now mine.new }
    ensures whole { (n : ℕ) (theirs : DuoHalf) → InStep n words.now mine.old theirs
        → (frag : Frag) → result ≡ Sight.Data frag → BeginsWith (half_of n words.now mine.old theirs).waiting frag }
{
    let Some(frag) = look_back(words, mine) else {
        return Sight::Empty;
    };
    mine.take.advance();
    if frag.is_ack_only() {
        return Sight::Acknowledgement;
    }
    Sight::Data(frag)
}

/// Tells what this side has taken, where that is at least half of the slots.
pub(crate) fn tell_at(words: &mut Vec<u64>, mine: &mut DuoHalf) -> Result<Told, PutFault>
    requires { (n : ℕ) × (theirs : DuoHalf) × InStep n words.old.items mine.old theirs }
    ensures tell { Goes HalfTakes words.old.items mine.old (tells result) words.new.items mine.new }
    ensures never_spent { result ≢ Err PutFault.Spent }
{
    let unacknowledged = mine.take.index() - mine.told;
    if unacknowledged < mine.take.size() as u64 / 2 {
        return Ok(Told::Nothing);
    }
    let sent = mine.put.index();
    if sent == SPENT {
        return Err(PutFault::Full);
    }
    if !has_free(words, mine, 1) {
        return Err(PutFault::Full);
    }
    let told = mine.tell_taken();
    write_next(words, mine.base, &mut mine.put, &ACKNOWLEDGEMENT, told);
    Ok(Told::Written)
}
