//! The bytes of values and arguments, side by side.

ghost use Rattle.std.specs.Prelude.{◌≡◌, ◌+◌, ◌*◌, ◌++◌, ◌≤◌, map, OnOk};
ghost use Rattle.std.specs.List.{flat_map};
ghost use Rattle.fl_interface.specs.Interface.{scalar, type_of, arg_type_of, fields_from};
ghost use Rattle.fl_interface.specs.Sizes.{scalar_size};
ghost use Rattle.fl_value_data.specs.Value.{datum_of, data_from};
ghost use Rattle.fl_value_data.specs.Fits.{count_of};
ghost use Rattle.fl_value_data.specs.Plan.{arranged, by_ranks};
ghost use Rattle.fl_value_data.specs.Tape.{raw_of, beside, kind};
ghost use Rattle.fl_value_tape.specs.Packed.{low_bytes, value_packed, fields_packed, elements_packed, argument_packed};
ghost use Rattle.fl_value_tape.specs.Packed.{packed_argument, rank_packed};

use crate::order::never_falls;
use fl_interface::{ArgType, FixedType, Scalar};
use fl_value_data::{PlanNo, RANKS, Value};
use std::alloc::AllocError;

/// A number's low bits, two's complement, by remainders: where their count is known, the compiler makes them a cut.
#[inline(always)]
fn remainder(bits: u32, number: i128) -> u64
    requires most { bits ≤ 64 }
    ensures same { result ≡ raw_of bits number }
{
    let above = 1u128 << bits;
    if number >= 0 {
        (number as u128 % above) as u64
    } else {
        (above - 1 - (-1 - number) as u128 % above) as u64
    }
}

/// Appends so many low bytes of a number.
#[inline(always)]
fn push_low(out: &mut Vec<u8>, width: u32, number: u64) -> Result<(), AllocError>
    requires few { width ≤ 8 }
    ensures packed { OnOk result (out.new.items ≡ out.old.items ++ low_bytes width number) }
{
    let bytes = number.to_le_bytes();
    out.extend_from_slice(&bytes[..width as usize])
}

/// Appends a number in so many bytes, two's complement. In line each arm is code for that width alone.
#[inline(always)]
fn push_number(out: &mut Vec<u8>, width: u32, number: i128) -> Result<(), AllocError>
    requires few { width ≤ 8 }
    ensures packed { OnOk result (out.new.items ≡ out.old.items ++ low_bytes width (raw_of (8 * width) number)) }
{
    match width {
        1 => push_low(out, 1, remainder(8, number)),
        2 => push_low(out, 2, remainder(16, number)),
        4 => push_low(out, 4, remainder(32, number)),
        8 => push_low(out, 8, remainder(64, number)),
        _ => push_low(out, width, remainder(8 * width, number)),
    }
}

/// Appends the bytes of scalars of one kind, which has so many.
#[inline(always)]
fn push_each(
    out: &mut Vec<u8>,
    width: u32,
    kind: Scalar,
    values: &[Value],
) -> Result<(), AllocError>
    requires width { width ≡ scalar_size kind }
    requires few { width ≤ 8 }
    ensures packed { OnOk result (out.new.items ≡ out.old.items ++ elements_packed (scalar kind) (data_from (map datum_of values.now))) }
{
    for value in values {
        if let Value::Int(number) = value {
            push_number(out, width, *number)?;
        }
    }
    Ok(())
}

/// As `push_each`. The width is told apart once: in line each arm is a loop for that width alone.
#[inline(never)]
fn push_scalars(out: &mut Vec<u8>, kind: Scalar, values: &[Value]) -> Result<(), AllocError>
    ensures packed { OnOk result (out.new.items ≡ out.old.items ++ elements_packed (scalar kind) (data_from (map datum_of values.now))) }
{
    match kind.size() {
        1 => push_each(out, 1, kind, values),
        2 => push_each(out, 2, kind, values),
        4 => push_each(out, 4, kind, values),
        8 => push_each(out, 8, kind, values),
        width => push_each(out, width, kind, values),
    }
}

/// Appends a value's bytes.
#[cycle(tapes)]
fn push_value(out: &mut Vec<u8>, fixed: &FixedType, value: &Value) -> Result<(), AllocError>
    ensures packed { OnOk result (out.new.items ≡ out.old.items ++ value_packed (type_of fixed.now) (datum_of value.now)) }
{
    match fixed {
        FixedType::Scalar(scalar) => match value {
            Value::Int(number) => push_number(out, scalar.size(), *number),
            _ => Ok(()),
        },
        FixedType::Enumeration(_) => match value {
            Value::Int(number) => push_number(out, 4, *number),
            _ => Ok(()),
        },
        FixedType::Structure(fields) => match value {
            Value::Fields(values) => push_fields(out, fields, values),
            _ => Ok(()),
        },
        FixedType::Array(_, element) => match value {
            Value::List(values) => push_elements(out, element, values),
            _ => Ok(()),
        },
    }
}

/// Appends the bytes of a struct's fields.
#[cycle(tapes)]
fn push_fields(out: &mut Vec<u8>, fields: &[FixedType], values: &[Value]) -> Result<(), AllocError>
    ensures packed { OnOk result (out.new.items ≡ out.old.items ++ fields_packed (fields_from (map type_of fields.now)) (data_from (map datum_of values.now))) }
{
    for (index, field) in fields.iter().enumerate() {
        let Some(value) = values.get(index) else {
            return Ok(());
        };
        push_fixed(out, field, value)?;
    }
    Ok(())
}

/// Appends the bytes of elements of one type.
#[cycle(tapes)]
fn push_elements(out: &mut Vec<u8>, element: &FixedType, values: &[Value]) -> Result<(), AllocError>
    ensures packed { OnOk result (out.new.items ≡ out.old.items ++ elements_packed (type_of element.now) (data_from (map datum_of values.now))) }
{
    if let FixedType::Scalar(kind) = element {
        return push_scalars(out, *kind, values);
    }
    for value in values {
        push_value(out, element, value)?;
    }
    Ok(())
}

/// How many values there are.
#[tactic(auto, using(fl_value_data::proofs::Counting::count_from))]
fn count(values: &[Value]) -> u64
    ensures same { result ≡ count_of (data_from (map datum_of values.now)) }
{
    values.len() as u64
}

/// Appends the bytes of a value: a scalar's, the most common, without a call.
#[inline(always)]
#[cycle(tapes)]
fn push_fixed(out: &mut Vec<u8>, fixed: &FixedType, value: &Value) -> Result<(), AllocError>
    ensures packed { OnOk result (out.new.items ≡ out.old.items ++ value_packed (type_of fixed.now) (datum_of value.now)) }
{
    match fixed {
        FixedType::Scalar(scalar) => match value {
            Value::Int(number) => push_number(out, scalar.size(), *number),
            _ => Ok(()),
        },
        _ => push_value(out, fixed, value),
    }
}

/// Appends an argument's bytes.
#[inline(always)]
fn push_argument(out: &mut Vec<u8>, argument: &ArgType, value: &Value) -> Result<(), AllocError>
    ensures packed { OnOk result (out.new.items ≡ out.old.items ++ argument_packed (arg_type_of argument.now) (datum_of value.now)) }
{
    match argument {
        ArgType::Fixed(fixed) => push_fixed(out, fixed, value),
        ArgType::Text(_) => match value {
            Value::Text(bytes) => {
                push_low(out, 8, bytes.len() as u64)?;
                out.extend_from_slice(bytes)?;
                Ok(())
            }
            _ => Ok(()),
        },
        ArgType::Sized(_, element) => match value {
            Value::List(values) => {
                push_low(out, 8, count(values))?;
                push_elements(out, element, values)
            }
            _ => Ok(()),
        },
    }
}

/// Appends the bytes of a rank's arguments, in declared order.
#[inline(always)]
fn push_rank(
    out: &mut Vec<u8>,
    plan: PlanNo,
    rank: u8,
    arguments: &[ArgType],
    values: &[Value],
) -> Result<(), AllocError>
    ensures packed { OnOk result (out.new.items ≡ out.old.items ++ rank_packed plan rank (beside arguments.now values.now)) }
{
    for (index, argument) in arguments.iter().enumerate() {
        let Some(value) = values.get(index) else {
            return Ok(());
        };
        if plan.rank_of(argument) != rank {
            continue;
        }
        push_argument(out, argument, value)?;
    }
    Ok(())
}

/// Appends the bytes of all arguments, rank by rank under plan 2.
#[inline(never)]
fn push_ranks(out: &mut Vec<u8>, arguments: &[ArgType], values: &[Value]) -> Result<(), AllocError>
    ensures packed { OnOk result (out.new.items ≡ out.old.items ++ flat_map packed_argument (by_ranks kind PlanNo.Two (beside arguments.now values.now))) }
{
    for rank in 0..RANKS {
        push_rank(out, PlanNo::Two, rank, arguments, values)?;
    }
    Ok(())
}

/// Appends the bytes of all arguments, in the plan's order: in one pass where that is the declared one.
pub(crate) fn push_arguments(
    out: &mut Vec<u8>,
    plan: PlanNo,
    arguments: &[ArgType],
    values: &[Value],
) -> Result<(), AllocError>
    ensures packed { OnOk result (out.new.items ≡ out.old.items ++ flat_map packed_argument (arranged kind plan (beside arguments.now values.now))) }
{
    if never_falls(plan, arguments) {
        return push_rank(out, PlanNo::One, 0, arguments, values);
    }
    push_ranks(out, arguments, values)
}
