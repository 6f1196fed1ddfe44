//! A call back from its tape. The tape may come from anywhere: what no fitting call has is refused.

ghost use Rattle.std.specs.Prelude.{◌≡◌, ◌<◌, ◌≤◌, ◌++◌, ◌∷◌, [], ◌^◌, List, length, true, false, map, replicate, Some, IfOk, IfSome, IfNone};
ghost use Rattle.std.specs.Option.{option_map};
ghost use Rattle.std.specs.List.{list_all};
ghost use Rattle.std.specs.Int.{to_le_bytes, w64};
ghost use Rattle.fl_interface.specs.Interface.{scalar, enumeration, text, sized, type_of, arg_type_of, interface_of};
ghost use Rattle.fl_value_data.specs.Value.{TheCall, number, string, elements, data_of, datum_of, call_of};
ghost use Rattle.fl_value_data.specs.Plan.{rank_of, never_falls};
ghost use Rattle.fl_value_data.specs.Fits.{is_text_byte};
ghost use Rattle.fl_value_data.specs.Taken.{unsigned_back, signed_back, scalar_back, ValueAt, ArgumentAt, LengthAt, BytesAt, InTurn, TheOne, NoneOf};
ghost use Rattle.fl_value_data.specs.Taken.{TheValues, MoreRead, NoneRead, types_of_rank, types_by_ranks, planned_types, arg_types, HasTape};

use crate::fitting::are_text_bytes;
use crate::order::{RANKS, declared_order};
use crate::value::{Call, PlanNo, Value};
use fl_base::MsgNo;
use fl_interface::{ArgType, FixedType, Interface, Scalar};
use std::alloc::{AllocError, Global};

/// The number below a bound that has these bits.
fn unsigned_from(bits: u64, above: u128) -> Option<i128>
    ensures same { result ≡ unsigned_back above bits }
{
    if u128::from(bits) < above {
        Some(i128::from(bits))
    } else {
        None
    }
}

/// The number that has these bits in two's complement, where half of the numbers are below 0.
fn signed_from(bits: u64, half: u64) -> Option<i128>
    requires half { half ≤ 2 ^ 63 }
    ensures same { result ≡ signed_back half bits }
{
    if bits < half {
        Some(i128::from(bits))
    } else if bits - half < half {
        Some(i128::from(bits - half) - i128::from(half))
    } else {
        None
    }
}

/// The value of a scalar that has these bits.
#[inline(always)]
fn scalar_from(scalar: Scalar, bits: u64) -> Option<i128>
    ensures same { result ≡ scalar_back scalar bits }
{
    match scalar {
        Scalar::Bool => unsigned_from(bits, 2),
        Scalar::Uint8 | Scalar::Char => unsigned_from(bits, 0x100),
        Scalar::Uint16 => unsigned_from(bits, 0x1_0000),
        Scalar::Uint32 | Scalar::Iref => unsigned_from(bits, 0x1_0000_0000),
        Scalar::Uint64 | Scalar::Uintptr | Scalar::Size | Scalar::Errval => {
            unsigned_from(bits, 0x1_0000_0000_0000_0000)
        }
        Scalar::Int8 => signed_from(bits, 0x80),
        Scalar::Int16 => signed_from(bits, 0x8000),
        Scalar::Int32 => signed_from(bits, 0x8000_0000),
        Scalar::Int64 | Scalar::Intptr => signed_from(bits, 0x8000_0000_0000_0000),
    }
}

/// The scalar that the tape begins with, and what follows it.
#[inline(always)]
fn read_scalar(tape: &[u64], kind: Scalar) -> Option<(i128, &[u64])>
    ensures found { IfSome result (λ r. TheOne (ValueAt (scalar kind) tape.now) (number r.0) r.1.now) }
    ensures none { IfNone result (NoneOf (ValueAt (scalar kind) tape.now)) }
{
    let [bits, rest @ ..] = tape else {
        return None;
    };
    let number = scalar_from(kind, *bits)?;
    Some((number, rest))
}

/// The enumerator's place that the tape begins with, and what follows it.
fn read_enumerator(tape: &[u64], count: u32) -> Option<(i128, &[u64])>
    ensures found { IfSome result (λ r. TheOne (ValueAt (enumeration count) tape.now) (number r.0) r.1.now) }
    ensures none { IfNone result (NoneOf (ValueAt (enumeration count) tape.now)) }
{
    let [bits, rest @ ..] = tape else {
        return None;
    };
    let number = unsigned_from(*bits, u128::from(count))?;
    Some((number, rest))
}

/// So many scalars that the tape begins with, and what follows them.
#[inline(never)]
fn read_scalars(
    alloc: Global,
    tape: &[u64],
    count: u32,
    kind: Scalar,
) -> Result<Option<(Vec<Value>, &[u64])>, AllocError>
    ensures found { IfOk result (λ o. IfSome o (λ r. TheValues (InTurn ValueAt (replicate count (scalar kind)) tape.now) r.0.items r.1.now)) }
    ensures none { IfOk result (λ o. IfNone o (NoneOf (InTurn ValueAt (replicate count (scalar kind)) tape.now))) }
{
    let mut values = Vec::with_capacity(alloc, tape.len().min(count as usize))?;
    let mut rest = tape;
    for done in 0..count {
        let Some((number, after)) = read_scalar(rest, kind) else {
            return Ok(None);
        };
        values.push(Value::Int(number))?;
        rest = after;
    }
    Ok(Some((values, rest)))
}

/// The value of a type that the tape begins with, and what follows it.
#[cycle(taken)]
fn read_value<'a>(
    alloc: Global,
    tape: &'a [u64],
    fixed: &FixedType,
) -> Result<Option<(Value, &'a [u64])>, AllocError>
    ensures found { IfOk result (λ o. IfSome o (λ r. TheOne (ValueAt (type_of fixed.now) tape.now) (datum_of r.0) r.1.now)) }
    ensures none { IfOk result (λ o. IfNone o (NoneOf (ValueAt (type_of fixed.now) tape.now))) }
{
    match fixed {
        FixedType::Scalar(scalar) => {
            let Some((number, rest)) = read_scalar(tape, *scalar) else {
                return Ok(None);
            };
            Ok(Some((Value::Int(number), rest)))
        }
        FixedType::Enumeration(count) => {
            let Some((number, rest)) = read_enumerator(tape, *count) else {
                return Ok(None);
            };
            Ok(Some((Value::Int(number), rest)))
        }
        FixedType::Structure(fields) => {
            let Some((values, rest)) = read_fields(alloc, tape, fields)? else {
                return Ok(None);
            };
            Ok(Some((Value::Fields(values), rest)))
        }
        FixedType::Array(count, element) => {
            let Some((values, rest)) = read_elements(alloc, tape, *count, element)? else {
                return Ok(None);
            };
            Ok(Some((Value::List(values), rest)))
        }
    }
}

/// A struct's fields that the tape begins with, and what follows them.
#[cycle(taken)]
fn read_fields<'a>(
    alloc: Global,
    tape: &'a [u64],
    fields: &[FixedType],
) -> Result<Option<(Vec<Value>, &'a [u64])>, AllocError>
    ensures found { IfOk result (λ o. IfSome o (λ r. TheOne (InTurn ValueAt (map type_of fields.now) tape.now) (map datum_of r.0.items) r.1.now)) }
    ensures none { IfOk result (λ o. IfNone o (NoneOf (InTurn ValueAt (map type_of fields.now) tape.now))) }
{
    let mut values = Vec::with_capacity(alloc, fields.len())?;
    let mut rest = tape;
    for field in fields {
        if let FixedType::Scalar(kind) = field {
            let Some((number, after)) = read_scalar(rest, *kind) else {
                return Ok(None);
            };
            values.push(Value::Int(number))?;
            rest = after;
            continue;
        }
        let Some((value, after)) = read_value(alloc, rest, field)? else {
            return Ok(None);
        };
        values.push(value)?;
        rest = after;
    }
    Ok(Some((values, rest)))
}

/// So many elements of a type that the tape begins with, and what follows them.
#[cycle(taken)]
fn read_elements<'a>(
    alloc: Global,
    tape: &'a [u64],
    count: u32,
    element: &FixedType,
) -> Result<Option<(Vec<Value>, &'a [u64])>, AllocError>
    ensures found { IfOk result (λ o. IfSome o (λ r. TheValues (InTurn ValueAt (replicate count (type_of element.now)) tape.now) r.0.items r.1.now)) }
    ensures none { IfOk result (λ o. IfNone o (NoneOf (InTurn ValueAt (replicate count (type_of element.now)) tape.now))) }
{
    if let FixedType::Scalar(kind) = element {
        return read_scalars(alloc, tape, count, *kind);
    }
    let mut values = Vec::with_capacity(alloc, tape.len().min(count as usize))?;
    let mut rest = tape;
    for done in 0..count {
        let Some((value, after)) = read_value(alloc, rest, element)? else {
            return Ok(None);
        };
        values.push(value)?;
        rest = after;
    }
    Ok(Some((values, rest)))
}

/// The length that the tape begins with, at most so many, and what follows it.
fn read_length(tape: &[u64], most: u32) -> Option<(u32, &[u64])>
    ensures found { IfSome result (λ r. LengthAt most tape.now r.0 r.1.now) }
    ensures none { IfNone result (NoneOf (LengthAt most tape.now)) }
{
    let [length, rest @ ..] = tape else {
        return None;
    };
    if *length > u64::from(most) {
        return None;
    }
    Some((*length as u32, rest))
}

/// Eight bytes as a number, the first of them lowest.
#[inline(always)]
fn pack(a: u64, b: u64, c: u64, d: u64, e: u64, f: u64, g: u64, h: u64) -> u64
    requires a { a < 256 }
    requires b { b < 256 }
    requires c { c < 256 }
    requires d { d < 256 }
    requires e { e < 256 }
    requires f { f < 256 }
    requires g { g < 256 }
    requires h { h < 256 }
    ensures bytes { to_le_bytes w64 result ≡ a ∷ b ∷ c ∷ d ∷ e ∷ f ∷ g ∷ h ∷ [] }
{
    let low = a + b * 0x100 + c * 0x1_0000 + d * 0x100_0000;
    let high = e + f * 0x100 + g * 0x1_0000 + h * 0x100_0000;
    low + high * 0x1_0000_0000
}

/// Appends numbers that are bytes, eight at a time, up to eight of which one is none or up to the last few; and tells what is left.
fn push_eights<'a>(bytes: &mut Vec<u8>, numbers: &'a [u64]) -> Result<&'a [u64], AllocError>
    ensures put { IfOk result (λ rest. bytes.new.items ++ rest.now ≡ bytes.old.items ++ numbers.now) }
{
    let mut rest = numbers;
    while let [a, b, c, d, e, f, g, h, after @ ..] = rest {
        if a | b | c | d | e | f | g | h > 0xff {
            return Ok(rest);
        }
        bytes.extend_from_slice(&pack(*a, *b, *c, *d, *e, *f, *g, *h).to_le_bytes())?;
        rest = after;
    }
    Ok(rest)
}

/// Appends numbers that are bytes, and tells whether all are.
fn push_each(bytes: &mut Vec<u8>, numbers: &[u64]) -> Result<bool, AllocError>
    ensures put { IfOk result (λ all. all ≡ true → bytes.new.items ≡ bytes.old.items ++ numbers.now) }
    ensures other { IfOk result (λ all. all ≡ false → list_all is_text_byte numbers.now ≡ false) }
{
    for number in numbers {
        if *number > 0xff {
            return Ok(false);
        }
        bytes.push(*number as u8)?;
    }
    Ok(true)
}

/// The bytes of a string that are these numbers; none is 0.
fn bytes_from(alloc: Global, numbers: &[u64]) -> Result<Option<Vec<u8>>, AllocError>
    ensures found { IfOk result (λ o. IfSome o (λ bytes. (bytes.items ≡ numbers.now) × (list_all is_text_byte numbers.now ≡ true))) }
    ensures none { IfOk result (λ o. IfNone o (list_all is_text_byte numbers.now ≡ false)) }
{
    let mut bytes = Vec::with_capacity(alloc, numbers.len())?;
    let rest = push_eights(&mut bytes, numbers)?;
    if !push_each(&mut bytes, rest)? || !are_text_bytes(&bytes) {
        return Ok(None);
    }
    Ok(Some(bytes))
}

/// So many bytes of a string that the tape begins with, and what follows them.
fn read_bytes(
    alloc: Global,
    tape: &[u64],
    count: u32,
) -> Result<Option<(Vec<u8>, &[u64])>, AllocError>
    ensures found { IfOk result (λ o. IfSome o (λ r. BytesAt count tape.now r.0.items r.1.now)) }
    ensures none { IfOk result (λ o. IfNone o (NoneOf (BytesAt count tape.now))) }
{
    let count = count as usize;
    if tape.len() < count {
        return Ok(None);
    }
    let (prefix, rest) = tape.split_at(count);
    let Some(bytes) = bytes_from(alloc, prefix)? else {
        return Ok(None);
    };
    Ok(Some((bytes, rest)))
}

/// The string of at most so many bytes that the tape begins with, and what follows it.
#[inline(never)]
fn read_string(
    alloc: Global,
    tape: &[u64],
    most: u32,
) -> Result<Option<(Vec<u8>, &[u64])>, AllocError>
    ensures found { IfOk result (λ o. IfSome o (λ r. TheOne (ArgumentAt (text most) tape.now) (string r.0.items) r.1.now)) }
    ensures none { IfOk result (λ o. IfNone o (NoneOf (ArgumentAt (text most) tape.now))) }
{
    let Some((count, bytes)) = read_length(tape, most) else {
        return Ok(None);
    };
    read_bytes(alloc, bytes, count)
}

/// The sized array of at most so many elements that the tape begins with, and what follows it.
#[inline(never)]
fn read_sized<'a>(
    alloc: Global,
    tape: &'a [u64],
    most: u32,
    element: &FixedType,
) -> Result<Option<(Vec<Value>, &'a [u64])>, AllocError>
    ensures found { IfOk result (λ o. IfSome o (λ r. TheOne (ArgumentAt (sized most (type_of element.now)) tape.now) (elements (data_of r.0.items)) r.1.now)) }
    ensures none { IfOk result (λ o. IfNone o (NoneOf (ArgumentAt (sized most (type_of element.now)) tape.now))) }
{
    let Some((count, elements)) = read_length(tape, most) else {
        return Ok(None);
    };
    read_elements(alloc, elements, count, element)
}

/// The scalar that an argument is, where the tape begins with one, and what follows it. None as well where the argument is no scalar.
#[inline(always)]
fn read_scalar_argument<'a>(tape: &'a [u64], argument: &ArgType) -> Option<(i128, &'a [u64])>
    ensures found { IfSome result (λ r. TheOne (ArgumentAt (arg_type_of argument.now) tape.now) (number r.0) r.1.now) }
{
    match argument {
        ArgType::Fixed(FixedType::Scalar(scalar)) => read_scalar(tape, *scalar),
        _ => None,
    }
}

/// The argument that the tape begins with, and what follows it. Out of line, so that a scalar prepares nothing of it.
#[inline(never)]
fn read_argument<'a>(
    alloc: Global,
    tape: &'a [u64],
    argument: &ArgType,
) -> Result<Option<(Value, &'a [u64])>, AllocError>
    ensures found { IfOk result (λ o. IfSome o (λ r. TheOne (ArgumentAt (arg_type_of argument.now) tape.now) (datum_of r.0) r.1.now)) }
    ensures none { IfOk result (λ o. IfNone o (NoneOf (ArgumentAt (arg_type_of argument.now) tape.now))) }
{
    match argument {
        ArgType::Fixed(fixed) => read_value(alloc, tape, fixed),
        ArgType::Text(most) => {
            let Some((bytes, rest)) = read_string(alloc, tape, *most)? else {
                return Ok(None);
            };
            Ok(Some((Value::Text(bytes), rest)))
        }
        ArgType::Sized(most, element) => {
            let Some((values, rest)) = read_sized(alloc, tape, *most, element)? else {
                return Ok(None);
            };
            Ok(Some((Value::List(values), rest)))
        }
    }
}

/// Puts the arguments of a rank behind the values that were read before them, and tells what follows
/// on the tape.
#[inline(always)]
fn read_rank<'a>(
    alloc: Global,
    tape: &'a [u64],
    plan: PlanNo,
    rank: u8,
    arguments: &[ArgType],
    before: Vec<Value>,
) -> Result<Option<(Vec<Value>, &'a [u64])>, AllocError>
    ensures found { IfOk result (λ o. IfSome o (λ r. MoreRead before.items tape.now (types_of_rank plan rank (arg_types arguments.now)) r.0.items r.1.now)) }
    ensures none { IfOk result (λ o. IfNone o (NoneRead before.items tape.now (types_of_rank plan rank (arg_types arguments.now)))) }
{
    let mut values = before;
    let mut rest = tape;
    for argument in arguments {
        if plan.rank_of(argument) != rank {
            continue;
        }
        if let Some((number, after)) = read_scalar_argument(rest, argument) {
            values.push(Value::Int(number))?;
            rest = after;
            continue;
        }
        let Some((value, after)) = read_argument(alloc, rest, argument)? else {
            return Ok(None);
        };
        values.push(value)?;
        rest = after;
    }
    Ok(Some((values, rest)))
}

/// All arguments rank by rank under plan 2, and what follows them on the tape.
#[inline(never)]
fn read_ranks<'a>(
    alloc: Global,
    tape: &'a [u64],
    arguments: &[ArgType],
) -> Result<Option<(Vec<Value>, &'a [u64])>, AllocError>
    ensures found { IfOk result (λ o. IfSome o (λ r. TheValues (InTurn ArgumentAt (types_by_ranks (arg_types arguments.now)) tape.now) r.0.items r.1.now)) }
    ensures none { IfOk result (λ o. IfNone o (NoneOf (InTurn ArgumentAt (types_by_ranks (arg_types arguments.now)) tape.now))) }
{
    let mut values = Vec::with_capacity(alloc, arguments.len())?;
    let mut rest = tape;
    for rank in 0..RANKS {
        let Some((more, after)) = read_rank(alloc, rest, PlanNo::Two, rank, arguments, values)?
        else {
            return Ok(None);
        };
        values = more;
        rest = after;
    }
    Ok(Some((values, rest)))
}

/// A list without values, in memory that was used before, with room for so many.
fn emptied(room: Vec<Value>, count: usize) -> Result<Vec<Value>, AllocError>
    ensures items { IfOk result (λ values. values.items ≡ []) }
{
    let mut values = room;
    values.clear();
    values.reserve(count)?;
    Ok(values)
}

/// All arguments in the plan's order, and what follows them on the tape, in the memory of `room` where that order is the declared one.
/// `kept` tells whether that order is the declared one.
fn read_arguments<'a>(
    alloc: Global,
    tape: &'a [u64],
    plan: PlanNo,
    kept: bool,
    arguments: &[ArgType],
    room: Vec<Value>,
) -> Result<Option<(Vec<Value>, &'a [u64])>, AllocError>
    requires kept { kept ≡ never_falls plan (arg_types arguments.now) }
    ensures found { IfOk result (λ o. IfSome o (λ r. TheValues (InTurn ArgumentAt (planned_types plan (arg_types arguments.now)) tape.now) r.0.items r.1.now)) }
    ensures none { IfOk result (λ o. IfNone o (NoneOf (InTurn ArgumentAt (planned_types plan (arg_types arguments.now)) tape.now))) }
{
    if kept {
        let values = emptied(room, arguments.len())?;
        return read_rank(alloc, tape, PlanNo::One, 0, arguments, values);
    }
    read_ranks(alloc, tape, arguments)
}

/// The call of a message that has this tape; none where no fitting call has it, as where a number is
/// none of its type, a length is over its bound, or the tape ends early or goes on.
///
/// # Errors
///
/// Where memory runs out.
pub fn unflatten(
    alloc: Global,
    msg: MsgNo,
    tape: &[u64],
    interface: &Interface,
    plan: PlanNo,
) -> Result<Option<Call>, AllocError>
    ensures some { IfOk result (λ o. IfSome o (λ c. HasTape plan (interface_of interface.now) msg.0 tape.now (call_of c))) }
    ensures none { IfOk result (λ o. IfNone o ((c : TheCall) → HasTape plan (interface_of interface.now) msg.0 tape.now c → ⊥)) }
    ensures only { IfOk result (λ o. (c : TheCall) → HasTape plan (interface_of interface.now) msg.0 tape.now c → option_map call_of o ≡ Some c) }
{
    unflatten_in(alloc, Vec::new(alloc), msg, tape, interface, plan)
}

/// As [`unflatten`]; the call's arguments stand in the memory of `room`, whose own values are dropped, where the plan's order is the
/// declared one.
///
/// # Errors
///
/// Where memory runs out.
pub fn unflatten_in(
    alloc: Global,
    room: Vec<Value>,
    msg: MsgNo,
    tape: &[u64],
    interface: &Interface,
    plan: PlanNo,
) -> Result<Option<Call>, AllocError>
    ensures some { IfOk result (λ o. IfSome o (λ c. HasTape plan (interface_of interface.now) msg.0 tape.now (call_of c))) }
    ensures none { IfOk result (λ o. IfNone o ((c : TheCall) → HasTape plan (interface_of interface.now) msg.0 tape.now c → ⊥)) }
    ensures only { IfOk result (λ o. (c : TheCall) → HasTape plan (interface_of interface.now) msg.0 tape.now c → option_map call_of o ≡ Some c) }
{
    let Some(message) = interface.messages.get(usize::from(msg.0)) else {
        return Ok(None);
    };
    let kept = plan.never_falls(&message.args);
    let Some((arranged, rest)) = read_arguments(alloc, tape, plan, kept, &message.args, room)?
    else {
        return Ok(None);
    };
    if !rest.is_empty() {
        return Ok(None);
    }
    let args = declared_order(alloc, plan, kept, &message.args, arranged)?;
    Ok(Some(Call { msg, args }))
}
