//! A call as the tape that stub code runs on: its scalars' bits and its lengths, one number after
//! another, in the plan's order of arguments.

ghost use Rattle.std.specs.Prelude.{◌≡◌, ◌+◌, ◌++◌, ◌≤◌, ◌%◌, ◌-◌, length, map, take, IfOk, OnOk};
ghost use Rattle.std.specs.List.{flat_map};
ghost use Rattle.fl_interface.specs.Interface.{scalar, type_of, arg_type_of, fields_from, interface_of};
ghost use Rattle.fl_value_data.specs.Value.{datum_of, data_from, call_of};
ghost use Rattle.fl_value_data.specs.Fits.{count_of};
ghost use Rattle.fl_value_data.specs.Plan.{arranged, rank_of, by_ranks};
ghost use Rattle.fl_value_data.specs.Tape.{raw_of, value_tape, fields_tape, elements_tape, argument_tape};
ghost use Rattle.fl_value_data.specs.Tape.{tape_of_argument, beside, kind, rank_tape, tape_of};

use crate::order::RANKS;
use crate::value::{Call, PlanNo, Value};
use fl_interface::{ArgType, FixedType, Interface, Scalar};
use std::alloc::{AllocError, Global};

/// A number's low bits, two's complement, by remainders: where their count is known, the compiler makes them a cut.
#[inline(always)]
fn remainder(bits: u32, number: i128) -> u64
    requires most { bits ≤ 64 }
    ensures same { result ≡ raw_of bits number }
{
    let above = 1u128 << bits;
    if number >= 0 {
        (number as u128 % above) as u64
    } else {
        (above - 1 - (-1 - number) as u128 % above) as u64
    }
}

/// A number's low bits, two's complement.
#[inline(always)]
fn raw(bits: u32, number: i128) -> u64
    requires most { bits ≤ 64 }
    ensures same { result ≡ raw_of bits number }
{
    match bits {
        8 => remainder(8, number),
        16 => remainder(16, number),
        32 => remainder(32, number),
        64 => remainder(64, number),
        _ => remainder(bits, number),
    }
}

/// Appends the numbers of scalars of one kind.
#[inline(never)]
fn push_scalars(tape: &mut Vec<u64>, kind: Scalar, values: &[Value]) -> Result<(), AllocError>
    ensures tape { OnOk result (tape.new.items ≡ tape.old.items ++ elements_tape (scalar kind) (data_from (map datum_of values.now))) }
{
    tape.reserve(values.len())?;
    let bits = 8 * kind.size();
    for value in values {
        if let Value::Int(number) = value {
            tape.push(raw(bits, *number))?;
        }
    }
    Ok(())
}

/// Appends a value's numbers.
#[cycle(tapes)]
fn push_value(tape: &mut Vec<u64>, fixed: &FixedType, value: &Value) -> Result<(), AllocError>
    ensures tape { OnOk result (tape.new.items ≡ tape.old.items ++ value_tape (type_of fixed.now) (datum_of value.now)) }
{
    match fixed {
        FixedType::Scalar(scalar) => match value {
            Value::Int(number) => {
                tape.push(raw(8 * scalar.size(), *number))?;
                Ok(())
            }
            _ => Ok(()),
        },
        FixedType::Enumeration(_) => match value {
            Value::Int(number) => {
                tape.push(raw(32, *number))?;
                Ok(())
            }
            _ => Ok(()),
        },
        FixedType::Structure(fields) => match value {
            Value::Fields(values) => push_fields(tape, fields, values),
            _ => Ok(()),
        },
        FixedType::Array(_, element) => match value {
            Value::List(values) => push_elements(tape, element, values),
            _ => Ok(()),
        },
    }
}

/// Appends the numbers of a struct's fields.
#[cycle(tapes)]
fn push_fields(
    tape: &mut Vec<u64>,
    fields: &[FixedType],
    values: &[Value],
) -> Result<(), AllocError>
    ensures tape { OnOk result (tape.new.items ≡ tape.old.items ++ fields_tape (fields_from (map type_of fields.now)) (data_from (map datum_of values.now))) }
{
    for (index, field) in fields.iter().enumerate() {
        let Some(value) = values.get(index) else {
            return Ok(());
        };
        push_fixed(tape, field, value)?;
    }
    Ok(())
}

/// Appends the numbers of elements of one type.
#[cycle(tapes)]
fn push_elements(
    tape: &mut Vec<u64>,
    element: &FixedType,
    values: &[Value],
) -> Result<(), AllocError>
    ensures tape { OnOk result (tape.new.items ≡ tape.old.items ++ elements_tape (type_of element.now) (data_from (map datum_of values.now))) }
{
    if let FixedType::Scalar(kind) = element {
        return push_scalars(tape, *kind, values);
    }
    tape.reserve(values.len())?;
    for value in values {
        push_value(tape, element, value)?;
    }
    Ok(())
}

/// Appends bytes, one after another.
fn push_each(tape: &mut Vec<u64>, bytes: &[u8]) -> Result<(), AllocError>
    ensures tape { OnOk result (tape.new.items ≡ tape.old.items ++ bytes.now) }
{
    for byte in bytes {
        tape.push(u64::from(*byte))?;
    }
    Ok(())
}

/// Bytes as numbers, by a loop that the compiler makes vector code of.
#[inline(always)]
fn widen(bytes: &[u8]) -> [u64; 64]
    requires long { length bytes.now ≡ 64 }
    ensures same { result ≡ bytes.now }
{
    let mut numbers = [0; 64];
    let mut index = 0;
    while index < 64 {
        let number = u64::from(bytes[index]);
        numbers[index] = number;
        index += 1;
    }
    numbers
}

/// Appends bytes, eight at a time.
fn push_eights(tape: &mut Vec<u64>, bytes: &[u8]) -> Result<(), AllocError>
    ensures tape { OnOk result (tape.new.items ≡ tape.old.items ++ bytes.now) }
{
    let mut rest = bytes;
    while let [a, b, c, d, e, f, g, h, after @ ..] = rest {
        tape.extend_from_slice(&[
            u64::from(*a),
            u64::from(*b),
            u64::from(*c),
            u64::from(*d),
            u64::from(*e),
            u64::from(*f),
            u64::from(*g),
            u64::from(*h),
        ])?;
        rest = after;
    }
    push_each(tape, rest)
}

/// Appends a string's bytes, 64 at a time.
#[inline(never)]
fn push_bytes(tape: &mut Vec<u64>, bytes: &[u8]) -> Result<(), AllocError>
    ensures tape { OnOk result (tape.new.items ≡ tape.old.items ++ bytes.now) }
{
    tape.reserve(bytes.len())?;
    let mut rest = bytes;
    while rest.len() >= 64 {
        let (first, after) = rest.split_at(64);
        tape.extend_from_slice(&widen(first))?;
        rest = after;
    }
    push_eights(tape, rest)
}

/// How many values there are.
#[tactic(auto, using(crate::proofs::Counting::count_from))]
fn count(values: &[Value]) -> u64
    ensures same { result ≡ count_of (data_from (map datum_of values.now)) }
{
    values.len() as u64
}

/// Appends the numbers of a value: a scalar's, the most common, without a call.
#[inline(always)]
#[cycle(tapes)]
fn push_fixed(tape: &mut Vec<u64>, fixed: &FixedType, value: &Value) -> Result<(), AllocError>
    ensures tape { OnOk result (tape.new.items ≡ tape.old.items ++ value_tape (type_of fixed.now) (datum_of value.now)) }
{
    match fixed {
        FixedType::Scalar(scalar) => match value {
            Value::Int(number) => {
                tape.push(raw(8 * scalar.size(), *number))?;
                Ok(())
            }
            _ => Ok(()),
        },
        _ => push_value(tape, fixed, value),
    }
}

/// Appends an argument's numbers.
#[inline(always)]
fn push_argument(tape: &mut Vec<u64>, argument: &ArgType, value: &Value) -> Result<(), AllocError>
    ensures tape { OnOk result (tape.new.items ≡ tape.old.items ++ argument_tape (arg_type_of argument.now) (datum_of value.now)) }
{
    match argument {
        ArgType::Fixed(fixed) => push_fixed(tape, fixed, value),
        ArgType::Text(_) => match value {
            Value::Text(bytes) => {
                tape.push(bytes.len() as u64)?;
                push_bytes(tape, bytes)
            }
            _ => Ok(()),
        },
        ArgType::Sized(_, element) => match value {
            Value::List(values) => {
                tape.push(count(values))?;
                push_elements(tape, element, values)
            }
            _ => Ok(()),
        },
    }
}

/// Appends the numbers of a rank's arguments, in declared order.
#[inline(always)]
fn push_rank(
    tape: &mut Vec<u64>,
    plan: PlanNo,
    rank: u8,
    arguments: &[ArgType],
    values: &[Value],
) -> Result<(), AllocError>
    ensures tape { OnOk result (tape.new.items ≡ tape.old.items ++ rank_tape plan rank (beside arguments.now values.now)) }
{
    for (index, argument) in arguments.iter().enumerate() {
        let Some(value) = values.get(index) else {
            return Ok(());
        };
        if plan.rank_of(argument) != rank {
            continue;
        }
        push_argument(tape, argument, value)?;
    }
    Ok(())
}

/// Appends the numbers of all arguments, rank by rank under plan 2.
#[inline(never)]
fn push_ranks(
    tape: &mut Vec<u64>,
    arguments: &[ArgType],
    values: &[Value],
) -> Result<(), AllocError>
    ensures tape { OnOk result (tape.new.items ≡ tape.old.items ++ flat_map tape_of_argument (by_ranks kind PlanNo.Two (beside arguments.now values.now))) }
{
    for rank in 0..RANKS {
        push_rank(tape, PlanNo::Two, rank, arguments, values)?;
    }
    Ok(())
}

/// Appends the numbers of all arguments, in the plan's order.
fn push_arguments(
    tape: &mut Vec<u64>,
    plan: PlanNo,
    arguments: &[ArgType],
    values: &[Value],
) -> Result<(), AllocError>
    ensures tape { OnOk result (tape.new.items ≡ tape.old.items ++ flat_map tape_of_argument (arranged kind plan (beside arguments.now values.now))) }
{
    if plan.never_falls(arguments) {
        return push_rank(tape, PlanNo::One, 0, arguments, values);
    }
    push_ranks(tape, arguments, values)
}

/// The tape of a call, in the memory of what stood there before. In line, so that the list isn't read back just after its length was stored.
///
/// # Errors
///
/// Where memory runs out: nothing is known of what stands there then.
#[inline(always)]
pub fn flatten_into(
    tape: &mut Vec<u64>,
    call: &Call,
    interface: &Interface,
    plan: PlanNo,
) -> Result<(), AllocError>
    ensures tape { OnOk result (tape.new.items ≡ tape_of plan (interface_of interface.now) (call_of call.now)) }
{
    tape.clear();
    if let Some(message) = interface.messages.get(usize::from(call.msg.0)) {
        tape.reserve(message.args.len())?;
        push_arguments(tape, plan, &message.args, &call.args)?;
    }
    Ok(())
}

/// The tape of a call.
///
/// # Errors
///
/// Where memory runs out.
pub fn flatten(
    alloc: Global,
    call: &Call,
    interface: &Interface,
    plan: PlanNo,
) -> Result<Vec<u64>, AllocError>
    ensures tape { IfOk result (λ v. v.items ≡ tape_of plan (interface_of interface.now) (call_of call.now)) }
{
    let mut tape = Vec::new(alloc);
    flatten_into(&mut tape, call, interface, plan)?;
    Ok(tape)
}
