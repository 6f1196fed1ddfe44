//! Arguments on a packed tape, in the plan's order.

ghost use Rattle.std.specs.Prelude.{◌≡◌, ◌+◌, ◌<◌, ◌≤◌, ◌^◌, ℕ, [], map, take, drop, length, vec_len, IfOk};
ghost use Rattle.std.specs.Vec.{vec_capacity};
ghost use Rattle.fl_interface.specs.Interface.{text, sized, type_of, arg_type_of};
ghost use Rattle.fl_value_data.specs.Value.{string, elements, data_of, datum_of};
ghost use Rattle.fl_value_data.specs.Plan.{arranged, rising};
ghost use Rattle.fl_value_data.specs.Tape.{beside, kind, values_of};
ghost use Rattle.fl_value_data.specs.Taken.{InTurn, types_by_ranks, planned_types, arg_types};
ghost use Rattle.fl_value_unpack.specs.Reading.{PackedArgumentAt, OnlyOne, MoreOnly};

use crate::number::{number_of_8, split};
use crate::order::{keeps_order, wide_at};
use crate::value::{read_elements, read_one, read_scalar, read_value};
use fl_interface::{ArgType, FixedType, Scalar};
use fl_value_data::{PlanNo, RANKS, Value};
use std::alloc::{AllocError, Global};

// The string that the tape begins with, and what follows it.
#[inline(never)]
fn read_string(alloc: Global, tape: &[u8]) -> Result<(Vec<u8>, &[u8]), AllocError>
    ensures only { IfOk result (λ r. (most : ℕ) → most < 2 ^ 64
        → OnlyOne (PackedArgumentAt (text most) tape.now) (string r.0.items) r.1.now) }
{
    let count = number_of_8(tape);
    let (_length, bytes) = split(tape, 8);
    let (letters, rest) = split(bytes, count as usize);
    let letters = Vec::from_slice(alloc, letters)?;
    Ok((letters, rest))
}

// The elements of the sized array that the tape begins with, and what follows it.
#[inline(never)]
fn read_sized<'a>(
    alloc: Global,
    tape: &'a [u8],
    element: &FixedType,
) -> Result<(Vec<Value>, &'a [u8]), AllocError>
    ensures only { IfOk result (λ r. (most : ℕ) → most < 2 ^ 64
        → OnlyOne (PackedArgumentAt (sized most (type_of element.now)) tape.now) (elements (data_of r.0.items)) r.1.now) }
{
    let count = number_of_8(tape);
    let (_length, elements) = split(tape, 8);
    read_elements(alloc, elements, count, element)
}

// The argument that the tape begins with, and what follows it. Out of line, so that scalars pass it by.
#[inline(never)]
fn read_argument<'a>(
    alloc: Global,
    tape: &'a [u8],
    argument: &ArgType,
) -> Result<(Value, &'a [u8]), AllocError>
    ensures only { IfOk result (λ r. OnlyOne (PackedArgumentAt (arg_type_of argument.now) tape.now) (datum_of r.0) r.1.now) }
{
    match argument {
        ArgType::Fixed(fixed) => read_value(alloc, tape, fixed),
        ArgType::Text(most) => {
            // It has 32 bits, which the proof knows once it is read; so below.
            let _most = *most;
            let (letters, rest) = read_string(alloc, tape)?;
            Ok((Value::Text(letters), rest))
        }
        ArgType::Sized(most, element) => {
            let _most = *most;
            let (values, rest) = read_sized(alloc, tape, element)?;
            Ok((Value::List(values), rest))
        }
    }
}

// No values, with room for so many, in memory that was used before.
#[inline(always)]
fn emptied(alloc: Global, used: Vec<Value>, count: usize) -> Result<Vec<Value>, AllocError>
    ensures none { IfOk result (λ values. values.items ≡ []) }
    ensures length { IfOk result (λ values. vec_len values ≡ 0) }
    ensures room { IfOk result (λ values. count ≤ vec_capacity values) }
{
    if used.capacity() < count {
        return Vec::with_capacity(alloc, count);
    }
    let mut values = used;
    values.clear();
    Ok(values)
}

// The uint64 arguments that come first, as many as there are, and what follows them: in room for all arguments, in memory that was
// used before. They are the most common, and have the least rank, so that the others alone tell whether the plan keeps the declared
// order.
#[inline(always)]
fn read_wides<'a>(
    alloc: Global,
    room: Vec<Value>,
    tape: &'a [u8],
    arguments: &[ArgType],
) -> Result<(Vec<Value>, &'a [u8]), AllocError>
    ensures few { IfOk result (λ r. length r.0.items ≡ vec_len r.0) }
    ensures inside { IfOk result (λ r. vec_len r.0 ≤ length arguments.now) }
    ensures room { IfOk result (λ r. length arguments.now ≤ vec_capacity r.0) }
    ensures others { IfOk result (λ r. rising (λ t. t) 0 (arg_types (drop (vec_len r.0) arguments.now))
        ≡ rising (λ t. t) 0 (arg_types arguments.now)) }
    ensures only { IfOk result (λ r. OnlyOne (InTurn PackedArgumentAt (arg_types (take (vec_len r.0) arguments.now)) tape.now)
        (map datum_of r.0.items) r.1.now) }
{
    let mut values = emptied(alloc, room, arguments.len())?;
    let mut rest = tape;
    while let Some(argument) = wide_at(arguments, values.len()) {
        let (number, after) = read_one(rest, Scalar::Uint64);
        values.push_reserved(number);
        rest = after;
    }
    Ok((values, rest))
}

// Puts these arguments, in declared order, behind the values that were read before them, and tells what follows them.
#[inline(always)]
fn read_others<'a>(
    alloc: Global,
    tape: &'a [u8],
    arguments: &[ArgType],
    before: Vec<Value>,
) -> Result<(Vec<Value>, &'a [u8]), AllocError>
    requires room { vec_len before + length arguments.now ≤ vec_capacity before }
    ensures many { IfOk result (λ r. length r.0.items ≡ length before.items + length arguments.now) }
    ensures only { IfOk result (λ r. MoreOnly before.items tape.now (arg_types arguments.now) r.0.items r.1.now) }
{
    let mut values = before;
    let mut rest = tape;
    for argument in arguments {
        // A scalar is read without a call.
        if let ArgType::Fixed(FixedType::Scalar(kind)) = argument {
            let (number, next) = read_scalar(rest, *kind);
            values.push_reserved(number);
            rest = next;
            continue;
        }
        let (value, after) = read_argument(alloc, rest, argument)?;
        values.push_reserved(value);
        rest = after;
    }
    Ok((values, rest))
}

// The argument that the tape begins with, and what follows it: a scalar is read without a call.
#[inline(always)]
fn read_next<'a>(
    alloc: Global,
    tape: &'a [u8],
    argument: &ArgType,
) -> Result<(Value, &'a [u8]), AllocError>
    ensures only { IfOk result (λ r. OnlyOne (PackedArgumentAt (arg_type_of argument.now) tape.now) (datum_of r.0) r.1.now) }
{
    if let ArgType::Fixed(FixedType::Scalar(kind)) = argument {
        let (number, rest) = read_scalar(tape, *kind);
        return Ok((number, rest));
    }
    read_argument(alloc, tape, argument)
}

// So many values, to be replaced.
fn blanks(alloc: Global, count: usize) -> Result<Vec<Value>, AllocError>
    ensures count { IfOk result (λ values. length values.items ≡ count) }
{
    let mut values = Vec::with_capacity(alloc, count)?;
    for _index in 0..count {
        values.push(Value::Int(0))?;
    }
    Ok(values)
}

// All arguments, read rank by rank under plan 2 and put at their declared places, and what follows them.
#[inline(never)]
fn read_ranks<'a>(
    alloc: Global,
    tape: &'a [u8],
    arguments: &[ArgType],
) -> Result<(Vec<Value>, &'a [u8]), AllocError>
    ensures many { IfOk result (λ r. length r.0.items ≡ length arguments.now) }
    ensures only { IfOk result (λ r. OnlyOne (InTurn PackedArgumentAt (types_by_ranks (arg_types arguments.now)) tape.now)
        (values_of (arranged kind PlanNo.Two (beside arguments.now r.0.items))) r.1.now) }
{
    let mut values = blanks(alloc, arguments.len())?;
    let mut rest = tape;
    for rank in 0..RANKS {
        for (index, argument) in arguments.iter().enumerate() {
            if PlanNo::Two.rank_of(argument) != rank {
                continue;
            }
            let (value, after) = read_next(alloc, rest, argument)?;
            values[index] = value;
            rest = after;
        }
    }
    Ok((values, rest))
}

// All arguments in declared order, from where they stand in the plan's, and what follows them: in the memory of `room`, where the
// plan's order is the declared one.
#[inline(always)]
pub(crate) fn read_arguments<'a>(
    alloc: Global,
    room: Vec<Value>,
    tape: &'a [u8],
    plan: PlanNo,
    arguments: &[ArgType],
) -> Result<(Vec<Value>, &'a [u8]), AllocError>
    ensures many { IfOk result (λ r. length r.0.items ≡ length arguments.now) }
    ensures only { IfOk result (λ r. OnlyOne (InTurn PackedArgumentAt (planned_types plan (arg_types arguments.now)) tape.now)
        (values_of (arranged kind plan (beside arguments.now r.0.items))) r.1.now) }
{
    let (values, rest) = read_wides(alloc, room, tape, arguments)?;
    let others = &arguments[values.len()..];
    let kept = keeps_order(plan, others);
    if kept {
        return read_others(alloc, rest, others, values);
    }
    read_ranks(alloc, tape, arguments)
}
