//! Whether a tape is that of a fitting call. It takes no memory: it is asked where memory was refused for the call, so that the want of
//! memory is told only where the numbers are a call's.

ghost use Rattle.std.specs.Prelude.{◌≡◌, true, false, map, nat_lt, option_copied, IfSome, IfNone};
ghost use Rattle.fl_interface.specs.Interface.{scalar, enumeration, text, sized, type_of, fields_from, arg_type_of, interface_of};
ghost use Rattle.fl_value_data.specs.Value.{TheCall};
ghost use Rattle.fl_value_data.specs.Fits.{is_text_byte};
ghost use Rattle.fl_value_data.specs.Taken.{LengthAt, NoneOf, HasTape};
ghost use Rattle.fl_c_operations.specs.After.{after_number, after_each, after_all, count_of_scalar, after_value, after_fields};
ghost use Rattle.fl_c_operations.specs.After.{after_argument, after_ranked, after_ranks, is_all};

use crate::calls::first_and_rest;
use fl_base::MsgNo;
use fl_interface::{ArgType, FixedType, Interface, Scalar};
use fl_value_data::{PlanNo, RANKS};

// How many values a scalar type has: their bits are the numbers below.
fn count_of_scalar(kind: Scalar) -> u128
    ensures exact { result ≡ count_of_scalar kind }
{
    match kind {
        Scalar::Bool => 2,
        Scalar::Uint8 | Scalar::Int8 | Scalar::Char => 0x100,
        Scalar::Uint16 | Scalar::Int16 => 0x1_0000,
        Scalar::Uint32 | Scalar::Int32 | Scalar::Iref => 0x1_0000_0000,
        Scalar::Uint64
        | Scalar::Int64
        | Scalar::Uintptr
        | Scalar::Intptr
        | Scalar::Size
        | Scalar::Errval => 0x1_0000_0000_0000_0000,
    }
}

// Whether a number is below a bound.
fn is_below(bits: u64, above: u128) -> bool
    ensures exact { result ≡ nat_lt bits above }
{
    u128::from(bits) < above
}

// What is left behind a number below a bound, if the tape begins with one.
fn after_number(tape: &[u64], above: u128) -> Option<&[u64]>
    ensures exact { option_copied result ≡ after_number (λ bits. nat_lt bits above) tape.now }
{
    let Some((bits, rest)) = first_and_rest(tape) else {
        return None;
    };
    if !is_below(bits, above) {
        return None;
    }
    Some(rest)
}

// Behind a scalar.
fn after_scalar(tape: &[u64], kind: Scalar) -> Option<&[u64]>
    ensures exact { option_copied result ≡ after_value (scalar kind) tape.now }
{
    after_number(tape, count_of_scalar(kind))
}

// Behind an enumerator's place.
fn after_enumerator(tape: &[u64], count: u32) -> Option<&[u64]>
    ensures exact { option_copied result ≡ after_value (enumeration count) tape.now }
{
    after_number(tape, u128::from(count))
}

// Behind a value of a type.
#[cycle(after)]
fn after_value<'a>(tape: &'a [u64], fixed: &FixedType) -> Option<&'a [u64]>
    ensures exact { option_copied result ≡ after_value (type_of fixed.now) tape.now }
{
    match fixed {
        FixedType::Scalar(kind) => after_scalar(tape, *kind),
        FixedType::Enumeration(count) => after_enumerator(tape, *count),
        FixedType::Structure(fields) => after_fields(tape, fields),
        FixedType::Array(count, element) => after_elements(tape, *count, element),
    }
}

// Behind the values of a struct's fields.
#[cycle(after)]
fn after_fields<'a>(tape: &'a [u64], fields: &[FixedType]) -> Option<&'a [u64]>
    ensures exact { option_copied result ≡ after_fields (fields_from (map type_of fields.now)) tape.now }
{
    let mut rest = tape;
    for field in fields {
        let Some(next) = after_value(rest, field) else {
            return None;
        };
        rest = next;
    }
    Some(rest)
}

// Behind so many values of a type.
#[cycle(after)]
fn after_elements<'a>(tape: &'a [u64], count: u32, element: &FixedType) -> Option<&'a [u64]>
    ensures exact { option_copied result ≡ after_each (after_value (type_of element.now)) count tape.now }
{
    let mut rest = tape;
    for done in 0..count {
        let Some(next) = after_value(rest, element) else {
            return None;
        };
        rest = next;
    }
    Some(rest)
}

// Whether a number is a byte that a string may hold.
fn is_text_byte(number: u64) -> bool
    ensures exact { result ≡ is_text_byte number }
{
    0 < number && number < 256
}

// Behind a byte of a string.
fn after_byte(tape: &[u64]) -> Option<&[u64]>
    ensures exact { option_copied result ≡ after_number is_text_byte tape.now }
{
    let Some((byte, rest)) = first_and_rest(tape) else {
        return None;
    };
    if !is_text_byte(byte) {
        return None;
    }
    Some(rest)
}

// Behind so many bytes of a string.
fn after_bytes(tape: &[u64], count: u32) -> Option<&[u64]>
    ensures exact { option_copied result ≡ after_each (after_number is_text_byte) count tape.now }
{
    let mut rest = tape;
    for done in 0..count {
        let Some(next) = after_byte(rest) else {
            return None;
        };
        rest = next;
    }
    Some(rest)
}

// The length that a tape begins with, at most so many, and what is left behind it.
fn read_length(tape: &[u64], most: u32) -> Option<(u32, &[u64])>
    ensures found { IfSome result (λ r. LengthAt most tape.now r.0 r.1.now) }
    ensures none { IfNone result (NoneOf (LengthAt most tape.now)) }
{
    let [length, rest @ ..] = tape else {
        return None;
    };
    if *length > u64::from(most) {
        return None;
    }
    Some((*length as u32, rest))
}

// Behind a string of at most so many bytes.
fn after_text(tape: &[u64], most: u32) -> Option<&[u64]>
    ensures exact { option_copied result ≡ after_argument (text most) tape.now }
{
    let Some((count, bytes)) = read_length(tape, most) else {
        return None;
    };
    after_bytes(bytes, count)
}

// Behind a sized array of at most so many elements.
fn after_sized<'a>(tape: &'a [u64], most: u32, element: &FixedType) -> Option<&'a [u64]>
    ensures exact { option_copied result ≡ after_argument (sized most (type_of element.now)) tape.now }
{
    let Some((count, elements)) = read_length(tape, most) else {
        return None;
    };
    after_elements(elements, count, element)
}

// Behind an argument.
fn after_argument<'a>(tape: &'a [u64], argument: &ArgType) -> Option<&'a [u64]>
    ensures exact { option_copied result ≡ after_argument (arg_type_of argument.now) tape.now }
{
    match argument {
        ArgType::Fixed(fixed) => after_value(tape, fixed),
        ArgType::Text(most) => after_text(tape, *most),
        ArgType::Sized(most, element) => after_sized(tape, *most, element),
    }
}

// Behind an argument, if it is of this rank.
fn after_ranked<'a>(
    tape: &'a [u64],
    plan: PlanNo,
    rank: u8,
    argument: &ArgType,
) -> Option<&'a [u64]>
    ensures exact { option_copied result ≡ after_ranked plan rank (arg_type_of argument.now) tape.now }
{
    if plan.rank_of(argument) != rank {
        return Some(tape);
    }
    after_argument(tape, argument)
}

// Behind those of these arguments that are of this rank.
fn after_rank<'a>(
    tape: &'a [u64],
    plan: PlanNo,
    rank: u8,
    arguments: &[ArgType],
) -> Option<&'a [u64]>
    ensures exact { option_copied result ≡ after_all (after_ranked plan rank) (map arg_type_of arguments.now) tape.now }
{
    let mut rest = tape;
    for argument in arguments {
        let Some(next) = after_ranked(rest, plan, rank, argument) else {
            return None;
        };
        rest = next;
    }
    Some(rest)
}

// Behind these arguments, which stand rank by rank.
fn after_arguments<'a>(tape: &'a [u64], plan: PlanNo, arguments: &[ArgType]) -> Option<&'a [u64]>
    ensures exact { option_copied result ≡ after_ranks plan 5 0 (map arg_type_of arguments.now) tape.now }
{
    let mut rest = tape;
    for rank in 0..RANKS {
        let Some(next) = after_rank(rest, plan, rank, arguments) else {
            return None;
        };
        rest = next;
    }
    Some(rest)
}

// Whether these arguments are all that the tape holds.
fn holds_arguments(tape: &[u64], plan: PlanNo, arguments: &[ArgType]) -> bool
    ensures exact { result ≡ is_all (after_ranks plan 5 0 (map arg_type_of arguments.now) tape.now) }
{
    match after_arguments(tape, plan, arguments) {
        Some(rest) => rest.is_empty(),
        None => false,
    }
}

/// Whether a fitting call of a message has this tape.
pub(crate) fn is_tape(msg: MsgNo, tape: &[u64], interface: &Interface, plan: PlanNo) -> bool
    ensures some { result ≡ true → (c : TheCall) × HasTape plan (interface_of interface.now) msg.0 tape.now c }
    ensures none { result ≡ false → (c : TheCall) → HasTape plan (interface_of interface.now) msg.0 tape.now c → ⊥ }
{
    let Some(message) = interface.messages.get(usize::from(msg.0)) else {
        return false;
    };
    holds_arguments(tape, plan, &message.args)
}
