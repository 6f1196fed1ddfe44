//! Operations at a side of a ring of two directions. A fragment is eight numbers: its words, and its
//! control word.

ghost use Rattle.std.specs.Prelude.{◌≡◌, ◌≢◌, ◌==◌, ◌/◌, ◌%◌, ◌^◌, ◌∷◌, [], ◌++◌, length, Some, None};
ghost use Rattle.std.specs.List.{list_all};
ghost use Rattle.fl_base.specs.declared.fragment.Frag.{Frag};
ghost use Rattle.fl_c_operations.specs.Sides.{numbers_of, Puts, Takes, Peeks, Tells, UsesSide};
ghost use Rattle.fl_base.specs.Control.{is_ack_only};

use crate::answer::{Outcome, UseFault};
use crate::operation::Operation;
use fl_base::Frag;
use fl_link::{PutFault, Sight, Told};
use fl_ring::SharedSide;

/// The fragment of eight numbers.
#[inline(always)]
pub(crate) fn fragment_of(numbers: &[u64]) -> Option<Frag>
    ensures none { result ≡ None → length numbers.now ≢ 8 }
    ensures frag { (frag : Frag) → result ≡ Some frag → numbers.now ≡ numbers_of frag }
    ensures eight { (frag : Frag) → result ≡ Some frag → length numbers.now ≡ 8 }
{
    let [a, b, c, d, e, f, g, control] = numbers else {
        return None;
    };
    Some(Frag {
        words: [*a, *b, *c, *d, *e, *f, *g],
        control: *control,
    })
}

/// Writes a fragment's numbers, each by itself: a copy of all words would go through memory of its own.
#[inline(always)]
pub(crate) fn write(numbers: &mut [u64], frag: &Frag)
    requires { length numbers.old ≡ 8 }
    ensures numbers { numbers.new ≡ numbers_of frag.now }
{
    numbers[0] = frag.words[0];
    numbers[1] = frag.words[1];
    numbers[2] = frag.words[2];
    numbers[3] = frag.words[3];
    numbers[4] = frag.words[4];
    numbers[5] = frag.words[5];
    numbers[6] = frag.words[6];
    numbers[7] = frag.control;
}

// Bit 2 is set, and bits 1 and 3 to 47 are 0.
#[inline(always)]
fn has_ack_bits(control: u64) -> bool
    ensures { result ≡ (control / 2 % 2 ^ 47 == 2) }
{
    control / 2 % 140_737_488_355_328 == 2
}

#[inline(always)]
fn is_blank(words: [u64; 7]) -> bool
    ensures { result ≡ list_all (λ word. word == 0) words }
{
    words.iter().all(|word| *word == 0)
}

// What [`Frag::is_ack_only`] tells, in line: a call on a way that is seldom gone takes registers from all others.
#[inline(always)]
fn only_acknowledges(frag: &Frag) -> bool
    ensures { result ≡ is_ack_only frag.now }
{
    has_ack_bits(frag.control) && is_blank(frag.words)
}

/// Puts the fragment of these numbers.
///
/// # Errors
/// There are other than eight numbers (103); the fragment only acknowledges (63); too few slots are free (30);
/// the ring has carried all that it ever will (33).
#[inline(always)]
pub fn put(side: &mut SharedSide, numbers: &[u64]) -> Result<Outcome, UseFault>
    ensures puts { Puts side.old numbers.now result side.new }
{
    let Some(frag) = fragment_of(numbers) else {
        return Err(UseFault::WrongRoom);
    };
    if only_acknowledges(&frag) {
        return Err(UseFault::OnlyAcknowledges);
    }
    match side.try_put(&frag) {
        Ok(()) => Ok(Outcome::Placed),
        Err(PutFault::Full) => Err(UseFault::Link(PutFault::Full)),
        Err(PutFault::Spent) => Err(UseFault::Link(PutFault::Spent)),
    }
}

/// Takes what stands first; a fragment's numbers are written.
///
/// # Errors
/// There is other room than for eight numbers (103).
#[inline(always)]
pub fn take(side: &mut SharedSide, numbers: &mut [u64]) -> Result<Outcome, UseFault>
    ensures takes { Takes side.old numbers.old result side.new numbers.new }
{
    if numbers.len() != 8 {
        return Err(UseFault::WrongRoom);
    }
    match side.try_take() {
        Sight::Data(frag) => {
            write(numbers, &frag);
            Ok(Outcome::Fragment)
        }
        Sight::Acknowledgement => Ok(Outcome::Acknowledgement),
        Sight::Empty => Ok(Outcome::Nothing),
    }
}

/// What [`take`] would take, which is left there.
///
/// # Errors
/// There is other room than for eight numbers (103).
#[inline]
pub fn peek(side: &mut SharedSide, numbers: &mut [u64]) -> Result<Outcome, UseFault>
    ensures peeks { Peeks side.old numbers.old result side.new numbers.new }
{
    if numbers.len() != 8 {
        return Err(UseFault::WrongRoom);
    }
    match side.try_peek() {
        Sight::Data(frag) => {
            write(numbers, &frag);
            Ok(Outcome::Fragment)
        }
        Sight::Acknowledgement => Ok(Outcome::Acknowledgement),
        Sight::Empty => Ok(Outcome::Nothing),
    }
}

/// Tells what was taken, where that is at least half of the slots.
///
/// # Errors
/// There is something to tell, and no slot is free (30).
#[inline]
pub fn tell(side: &mut SharedSide) -> Result<Outcome, UseFault>
    ensures tells { Tells side.old result side.new }
{
    match side.tell() {
        Ok(Told::Written) => Ok(Outcome::Told),
        Ok(Told::Nothing) => Ok(Outcome::Kept),
        Err(_) => Err(UseFault::Link(PutFault::Full)),
    }
}

/// Does an operation at a side, on these numbers.
///
/// # Errors
/// Those of the operation; a side has no such operation (101).
#[inline(always)]
pub fn use_side(
    side: &mut SharedSide,
    operation: Operation,
    numbers: &mut [u64],
) -> Result<Outcome, UseFault>
    ensures uses { UsesSide side.old operation numbers.old result side.new numbers.new }
{
    match operation {
        Operation::Put => put(side, numbers),
        Operation::Take => take(side, numbers),
        Operation::Peek => peek(side, numbers),
        Operation::Tell => tell(side),
        _ => Err(UseFault::NoSuchOperation),
    }
}
