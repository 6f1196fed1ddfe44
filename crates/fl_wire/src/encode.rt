//! The payload of a call.

ghost use Rattle.std.specs.Prelude.{◌≡◌, pos, ◌-◌, ◌*◌, ◌^◌, true, false, List, [], ◌∷◌, ◌++◌, map, length, take, replicate, OnOk, IfOk};
ghost use Rattle.std.specs.List.{zip, list_all};
ghost use Rattle.std.specs.Int.{to_le_bytes, w64};
ghost use Rattle.fl_interface.specs.Interface.{type_of, fields_from, arg_type_of, interface_of};
ghost use Rattle.fl_interface.specs.Sizes.{round_up, align_of, greatest_align};
ghost use Rattle.fl_value_data.specs.Value.{datum_of, data_from, call_of};
ghost use Rattle.fl_value_data.specs.Fits.{count_of, fits_of, has_type, have_types, all_have_type, are_arguments, is_argument, is_text_byte};
ghost use Rattle.fl_value_data.specs.Plan.{arranged, is_dynamic, of_rank, of_ranks};
ghost use Rattle.fl_layout.specs.Leaves.{Leaf, gap, whole, bits_of, value_onto};
ghost use Rattle.fl_layout.specs.Leaves.{fields_onto, elements_onto, bytes_onto, argument_onto, arguments_onto, start_onto};
ghost use Rattle.fl_wire.specs.Payload.{payload_bytes, payload_of};
ghost use Rattle.fl_interface.specs.Sizes.{IsAlign};
ghost use Rattle.fl_value_data.specs.Tape.{kind};
ghost use Rattle.fl_wire.specs.Widths.{fits_width, is_number_within, numbers_onto};

use crate::types::{arguments_of, ends_fixed, is_dynamic};
use fl_base::FRAG_BYTES;
use fl_interface::{ArgType, FixedType, Interface, next_multiple};
use fl_value_data::{Call, PlanNo, RANKS, Value};
use std::alloc::{AllocError, Global};

// Zeros up to the next multiple of an alignment.
#[inline(always)]
fn align_to(out: &mut Vec<u8>, align: usize) -> Result<(), AllocError>
    requires align { IsAlign align }
    ensures ok { OnOk result (out.new.items ≡ out.old.items ++ replicate (round_up (length out.old.items) align - length out.old.items) 0) }
{
    let len = out.len();
    let count = next_multiple(len, align) - len;
    if count == 0 {
        return Ok(());
    }
    out.extend_from_slice(&[0; 8][..count])
}

// A leaf without a byte: what follows starts at a multiple of the alignment.
fn put_gap(out: &mut Vec<u8>, align: usize) -> Result<(), AllocError>
    requires align { IsAlign align }
    ensures ok { OnOk result ((before : List Leaf) → out.old.items ≡ payload_bytes before → out.new.items ≡ payload_bytes (gap align ∷ before)) }
{
    align_to(out, align)
}

// So many low bytes of a number.
#[inline(always)]
fn put_low_bytes(out: &mut Vec<u8>, width: usize, number: u64) -> Result<(), AllocError>
    requires width { IsAlign width }
    ensures ok { OnOk result (out.new.items ≡ out.old.items ++ take width (to_le_bytes w64 number)) }
{
    let bytes = number.to_le_bytes();
    match width {
        1 => out.extend_from_slice(&bytes[..1]),
        2 => out.extend_from_slice(&bytes[..2]),
        4 => out.extend_from_slice(&bytes[..4]),
        _ => out.extend_from_slice(&bytes),
    }
}

// A number's low bytes, at the next multiple of their number.
#[inline(always)]
fn put_number(out: &mut Vec<u8>, width: usize, number: u64) -> Result<(), AllocError>
    requires width { IsAlign width }
    ensures ok { OnOk result ((before : List Leaf) → out.old.items ≡ payload_bytes before
        → out.new.items ≡ payload_bytes (whole width number ∷ before)) }
{
    align_to(out, width)?;
    put_low_bytes(out, width, number)
}

// How many numbers so many bytes hold.
#[inline(always)]
fn modulus(width: usize) -> i128
    requires width { IsAlign width }
    ensures modulus { result ≡ pos (2 ^ (8 * width)) }
{
    match width {
        1 => 256,
        2 => 65_536,
        4 => 4_294_967_296,
        _ => 18_446_744_073_709_551_616,
    }
}

// The bits of a number, in so many bytes, two's complement.
#[inline(always)]
fn bits(width: usize, number: i128) -> u64
    requires width { IsAlign width }
    requires fits { fits_width width number ≡ true }
    ensures bits { result ≡ bits_of width number }
{
    let raw = if number < 0 {
        number + modulus(width)
    } else {
        number
    };
    raw as u64
}

// A number, at the next multiple of so many bytes. In line each arm is code for that width alone.
#[inline(always)]
fn put_int(out: &mut Vec<u8>, width: usize, number: i128) -> Result<(), AllocError>
    requires width { IsAlign width }
    requires fits { fits_width width number ≡ true }
    ensures ok { OnOk result ((before : List Leaf) → out.old.items ≡ payload_bytes before
        → out.new.items ≡ payload_bytes (whole width (bits_of width number) ∷ before)) }
{
    match width {
        8 => put_number(out, 8, bits(8, number)),
        4 => put_number(out, 4, bits(4, number)),
        2 => put_number(out, 2, bits(2, number)),
        _ => put_number(out, 1, bits(1, number)),
    }
}

// Numbers of a width, one after another.
#[inline(always)]
fn put_each_number(out: &mut Vec<u8>, width: usize, values: &[Value]) -> Result<(), AllocError>
    requires width { IsAlign width }
    requires fit { list_all (is_number_within width) (map datum_of values.now) ≡ true }
    ensures ok { OnOk result ((before : List Leaf) → out.old.items ≡ payload_bytes before
        → out.new.items ≡ payload_bytes (numbers_onto width (map datum_of values.now) before)) }
{
    for value in values {
        if let Value::Int(number) = value {
            put_number(out, width, bits(width, *number))?;
        }
    }
    Ok(())
}

// Numbers of a width, which is told apart once: in line each arm is a loop for that width alone.
fn put_numbers(out: &mut Vec<u8>, width: usize, values: &[Value]) -> Result<(), AllocError>
    requires width { IsAlign width }
    requires fit { list_all (is_number_within width) (map datum_of values.now) ≡ true }
    ensures ok { OnOk result ((before : List Leaf) → out.old.items ≡ payload_bytes before
        → out.new.items ≡ payload_bytes (numbers_onto width (map datum_of values.now) before)) }
{
    match width {
        8 => put_each_number(out, 8, values),
        4 => put_each_number(out, 4, values),
        2 => put_each_number(out, 2, values),
        _ => put_each_number(out, 1, values),
    }
}

// A value of a type with that alignment, which is also a number's width.
#[cycle(values)]
fn put_value(
    out: &mut Vec<u8>,
    ty: &FixedType,
    align: usize,
    value: &Value,
) -> Result<(), AllocError>
    requires aligned { align ≡ align_of (type_of ty.now) }
    requires fits { has_type (type_of ty.now) (datum_of value.now) ≡ true }
    ensures ok { OnOk result ((before : List Leaf) → out.old.items ≡ payload_bytes before
        → out.new.items ≡ payload_bytes (value_onto (type_of ty.now) (datum_of value.now) before)) }
{
    match ty {
        FixedType::Scalar(_) => match value {
            Value::Int(number) => put_int(out, align, *number),
            _ => Ok(()),
        },
        FixedType::Enumeration(count) => {
            let _count = *count;
            match value {
                Value::Int(number) => put_number(out, 4, bits(4, *number)),
                _ => Ok(()),
            }
        }
        FixedType::Structure(fields) => match value {
            Value::Fields(values) => put_struct(out, fields, align, values),
            _ => Ok(()),
        },
        FixedType::Array(_, element) => match value {
            Value::List(values) => put_elements(out, element, align, values),
            _ => Ok(()),
        },
    }
}

// A value of any type: a scalar's, the most common, without a call.
#[cycle(values)]
#[inline(always)]
fn put_fixed(out: &mut Vec<u8>, fixed: &FixedType, value: &Value) -> Result<(), AllocError>
    requires fits { has_type (type_of fixed.now) (datum_of value.now) ≡ true }
    ensures ok { OnOk result ((before : List Leaf) → out.old.items ≡ payload_bytes before
        → out.new.items ≡ payload_bytes (value_onto (type_of fixed.now) (datum_of value.now) before)) }
{
    match fixed {
        FixedType::Scalar(scalar) => match value {
            Value::Int(number) => put_int(out, scalar.size() as usize, *number),
            _ => Ok(()),
        },
        _ => put_value(out, fixed, fixed.alignment() as usize, value),
    }
}

// A struct of that alignment: it begins and ends at a multiple of it.
#[cycle(values)]
fn put_struct(
    out: &mut Vec<u8>,
    fields: &[FixedType],
    align: usize,
    values: &[Value],
) -> Result<(), AllocError>
    requires aligned { align ≡ greatest_align (fields_from (map type_of fields.now)) }
    requires fit { have_types (fields_from (map type_of fields.now)) (data_from (map datum_of values.now)) ≡ true }
    ensures ok { OnOk result ((before : List Leaf) → out.old.items ≡ payload_bytes before
        → out.new.items ≡ payload_bytes (gap align ∷ fields_onto (fields_from (map type_of fields.now)) (data_from (map datum_of values.now))
        (gap align ∷ before))) }
{
    put_gap(out, align)?;
    put_fields(out, fields, values)?;
    put_gap(out, align)
}

// The fields of a struct, in order.
#[cycle(values)]
fn put_fields(out: &mut Vec<u8>, fields: &[FixedType], values: &[Value]) -> Result<(), AllocError>
    requires fit { have_types (fields_from (map type_of fields.now)) (data_from (map datum_of values.now)) ≡ true }
    ensures ok { OnOk result ((before : List Leaf) → out.old.items ≡ payload_bytes before
        → out.new.items ≡ payload_bytes (fields_onto (fields_from (map type_of fields.now)) (data_from (map datum_of values.now)) before)) }
{
    for (field, value) in fields.iter().zip(values) {
        put_fixed(out, field, value)?;
    }
    Ok(())
}

// Elements of one type, which has that alignment.
#[cycle(values)]
fn put_elements(
    out: &mut Vec<u8>,
    element: &FixedType,
    align: usize,
    values: &[Value],
) -> Result<(), AllocError>
    requires aligned { align ≡ align_of (type_of element.now) }
    requires fit { all_have_type (type_of element.now) (data_from (map datum_of values.now)) ≡ true }
    ensures ok { OnOk result ((before : List Leaf) → out.old.items ≡ payload_bytes before
        → out.new.items ≡ payload_bytes (elements_onto (type_of element.now) (data_from (map datum_of values.now)) before)) }
{
    match element {
        FixedType::Scalar(_) => put_numbers(out, align, values),
        FixedType::Enumeration(count) => {
            let _count = *count;
            put_numbers(out, 4, values)
        }
        _ => put_each(out, element, align, values),
    }
}

// Elements of one type, one by one.
#[cycle(values)]
fn put_each(
    out: &mut Vec<u8>,
    element: &FixedType,
    align: usize,
    values: &[Value],
) -> Result<(), AllocError>
    requires aligned { align ≡ align_of (type_of element.now) }
    requires fit { all_have_type (type_of element.now) (data_from (map datum_of values.now)) ≡ true }
    ensures ok { OnOk result ((before : List Leaf) → out.old.items ≡ payload_bytes before
        → out.new.items ≡ payload_bytes (elements_onto (type_of element.now) (data_from (map datum_of values.now)) before)) }
{
    for value in values {
        put_value(out, element, align, value)?;
    }
    Ok(())
}

// A string: its length in 8 bytes, then its bytes.
fn put_text(out: &mut Vec<u8>, bytes: &[u8]) -> Result<(), AllocError>
    requires text { list_all is_text_byte bytes.now ≡ true }
    ensures ok { OnOk result ((before : List Leaf) → out.old.items ≡ payload_bytes before
        → out.new.items ≡ payload_bytes (bytes_onto bytes.now (whole 8 (length bytes.now) ∷ before))) }
{
    put_number(out, 8, bytes.len() as u64)?;
    out.extend_from_slice(bytes)?;
    Ok(())
}

// A sized array: its length in 8 bytes, then its elements.
#[tactic(auto, using(crate::proofs::Encoding::count_from))]
fn put_sized(out: &mut Vec<u8>, element: &FixedType, values: &[Value]) -> Result<(), AllocError>
    requires fit { all_have_type (type_of element.now) (data_from (map datum_of values.now)) ≡ true }
    ensures ok { OnOk result ((before : List Leaf) → out.old.items ≡ payload_bytes before
        → out.new.items ≡ payload_bytes (elements_onto (type_of element.now) (data_from (map datum_of values.now))
        (whole 8 (count_of (data_from (map datum_of values.now))) ∷ before))) }
{
    put_number(out, 8, values.len() as u64)?;
    put_elements(out, element, element.alignment() as usize, values)
}

// An argument's leaves, at their places.
#[inline(always)]
fn put_argument(out: &mut Vec<u8>, ty: &ArgType, value: &Value) -> Result<(), AllocError>
    requires fits { is_argument (arg_type_of ty.now) (datum_of value.now) ≡ true }
    ensures ok { OnOk result ((before : List Leaf) → out.old.items ≡ payload_bytes before
        → out.new.items ≡ payload_bytes (argument_onto (arg_type_of ty.now) (datum_of value.now) before)) }
{
    match ty {
        ArgType::Fixed(fixed) => put_fixed(out, fixed, value),
        ArgType::Text(_) => match value {
            Value::Text(bytes) => put_text(out, bytes),
            _ => Ok(()),
        },
        ArgType::Sized(_, element) => match value {
            Value::List(values) => put_sized(out, element, values),
            _ => Ok(()),
        },
    }
}

// The next argument: behind a string or a sized array it starts at a multiple of 8.
#[inline(always)]
fn put_next(
    out: &mut Vec<u8>,
    after_dynamic: bool,
    ty: &ArgType,
    value: &Value,
) -> Result<(), AllocError>
    requires fits { is_argument (arg_type_of ty.now) (datum_of value.now) ≡ true }
    ensures ok { OnOk result ((before : List Leaf) → out.old.items ≡ payload_bytes before
        → out.new.items ≡ payload_bytes (argument_onto (arg_type_of ty.now) (datum_of value.now) (start_onto after_dynamic before))) }
{
    if after_dynamic {
        put_gap(out, 8)?;
    }
    put_argument(out, ty, value)
}

// The arguments as declared, and whether plan 2 keeps that order; where it doesn't, some of them. Where something of a fixed
// size comes last it gives up before any string is put, so that a string's bytes are mostly put once.
fn put_in_order(out: &mut Vec<u8>, types: &[ArgType], values: &[Value]) -> Result<bool, AllocError>
    requires fit { are_arguments (map arg_type_of types.now) (map datum_of values.now) ≡ true }
    ensures ok { IfOk result (λ kept. kept ≡ true → (before : List Leaf) → out.old.items ≡ payload_bytes before
        → out.new.items ≡ payload_bytes (arguments_onto false (arranged kind PlanNo.Two
        (zip (map arg_type_of types.now) (map datum_of values.now))) before)) }
{
    let fixed_last = ends_fixed(types);
    let mut least = 0;
    let mut after_dynamic = false;
    for (argument, value) in types.iter().zip(values) {
        let rank = PlanNo::Two.rank_of(argument);
        if rank < least || fixed_last && is_dynamic(argument) {
            return Ok(false);
        }
        put_next(out, after_dynamic, argument, value)?;
        after_dynamic = is_dynamic(argument);
        least = rank;
    }
    Ok(true)
}

// The arguments of one rank, one after another. What follows a string or a sized array starts at a
// multiple of 8.
fn put_rank(
    out: &mut Vec<u8>,
    plan: PlanNo,
    rank: u8,
    types: &[ArgType],
    values: &[Value],
) -> Result<(), AllocError>
    requires fit { are_arguments (map arg_type_of types.now) (map datum_of values.now) ≡ true }
    ensures ok { OnOk result ((before : List Leaf) → out.old.items ≡ payload_bytes before
        → out.new.items ≡ payload_bytes (arguments_onto false (of_rank kind plan rank
        (zip (map arg_type_of types.now) (map datum_of values.now))) before)) }
{
    let mut after_dynamic = false;
    for (ty, value) in types.iter().zip(values) {
        if plan.rank_of(ty) != rank {
            continue;
        }
        put_next(out, after_dynamic, ty, value)?;
        after_dynamic = is_dynamic(ty);
    }
    Ok(())
}

// The arguments of plan 2's ranks, one rank after another.
fn put_ranks(out: &mut Vec<u8>, types: &[ArgType], values: &[Value]) -> Result<(), AllocError>
    requires fit { are_arguments (map arg_type_of types.now) (map datum_of values.now) ≡ true }
    ensures ok { OnOk result ((before : List Leaf) → out.old.items ≡ payload_bytes before
        → out.new.items ≡ payload_bytes (arguments_onto false (of_ranks kind PlanNo.Two 5 0
        (zip (map arg_type_of types.now) (map datum_of values.now))) before)) }
{
    for rank in 0..RANKS {
        put_rank(out, PlanNo::Two, rank, types, values)?;
    }
    Ok(())
}

// The arguments of a message's call in plan 2's order, where nothing stands yet: once over them where that is the declared
// one, else once for each rank.
fn put_arranged(out: &mut Vec<u8>, types: &[ArgType], values: &[Value]) -> Result<(), AllocError>
    requires fit { are_arguments (map arg_type_of types.now) (map datum_of values.now) ≡ true }
    requires empty { out.old.items ≡ [] }
    ensures ok { OnOk result (out.new.items ≡ payload_bytes (arguments_onto false (arranged kind PlanNo.Two
        (zip (map arg_type_of types.now) (map datum_of values.now))) [])) }
{
    if put_in_order(out, types, values)? {
        return Ok(());
    }
    out.clear();
    put_ranks(out, types, values)
}

// The arguments of a message's call in the plan's order, where nothing stands yet.
fn put_arguments(
    out: &mut Vec<u8>,
    plan: PlanNo,
    types: &[ArgType],
    values: &[Value],
) -> Result<(), AllocError>
    requires fit { are_arguments (map arg_type_of types.now) (map datum_of values.now) ≡ true }
    requires empty { out.old.items ≡ [] }
    ensures ok { OnOk result (out.new.items ≡ payload_bytes (arguments_onto false (arranged kind plan
        (zip (map arg_type_of types.now) (map datum_of values.now))) [])) }
{
    match plan {
        PlanNo::One => put_rank(out, plan, 0, types, values),
        PlanNo::Two => put_arranged(out, types, values),
    }
}

/// The payload of a call, as [`payload`] makes it, in the memory of what stood there before: who knows its length makes room
/// for all of it first.
///
/// # Errors
/// Out of memory (E99), and nothing else. Nothing is known of what stands there then.
pub fn payload_into(
    out: &mut Vec<u8>,
    interface: &Interface,
    plan: PlanNo,
    call: &Call,
) -> Result<(), AllocError>
    requires fits { fits_of (interface_of interface.now) (call_of call.now) ≡ true }
    ensures payload { OnOk result (out.new.items ≡ payload_of plan (interface_of interface.now) (call_of call.now)) }
{
    out.clear();
    put_arguments(out, plan, arguments_of(interface, call.msg), &call.args)
}

/// The payload of a call: each number little-endian at its place under the plan, every other byte 0.
///
/// Each byte is written once, but under plan 2 where the arguments aren't declared in its order: some may then be written twice,
/// and it goes over their types once more for each rank. The alignment of an array's elements is found once, and that of a field that is no scalar each
/// time that a value of its struct is written.
///
/// # Errors
/// Out of memory (E99), and nothing else.
pub fn payload(
    alloc: Global,
    interface: &Interface,
    plan: PlanNo,
    call: &Call,
) -> Result<Vec<u8>, AllocError>
    requires fits { fits_of (interface_of interface.now) (call_of call.now) ≡ true }
    ensures payload { IfOk result (λ v. v.items ≡ payload_of plan (interface_of interface.now) (call_of call.now)) }
{
    let mut out = Vec::with_capacity(alloc, FRAG_BYTES)?;
    payload_into(&mut out, interface, plan, call)?;
    Ok(out)
}
