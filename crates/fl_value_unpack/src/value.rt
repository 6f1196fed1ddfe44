//! Values at the front of a packed tape.

ghost use Rattle.std.specs.Prelude.{◌≡◌, map, replicate, IfOk};
ghost use Rattle.fl_interface.specs.Interface.{scalar, structure, fields_from, type_of};
ghost use Rattle.fl_value_data.specs.Value.{number, fields, data_from, datum_of};
ghost use Rattle.fl_value_data.specs.Taken.{InTurn};
ghost use Rattle.fl_value_unpack.specs.Reading.{PackedValueAt, OnlyOne};

use crate::number::{half_of, read_enumerator, read_told};
use fl_interface::{FixedType, Scalar};
use fl_value_data::Value;
use std::alloc::{AllocError, Global};

// A number as a value.
#[inline(always)]
fn int_value(z: i128) -> Value
    ensures value { datum_of result ≡ number z }
{
    Value::Int(z)
}

// A struct's fields as a value.
#[inline(always)]
fn fields_value(values: Vec<Value>) -> Value
    ensures value { datum_of result ≡ fields (data_from (map datum_of values.items)) }
{
    Value::Fields(values)
}

// The scalar that the tape begins with, and what follows it.
#[inline(always)]
pub(crate) fn read_one(tape: &[u8], kind: Scalar) -> (Value, &[u8])
    ensures only { OnlyOne (PackedValueAt (scalar kind) tape.now) (datum_of result.0) result.1.now }
{
    let half = half_of(kind);
    let (number, rest) = read_told(tape, kind, kind.size(), half);
    (int_value(number), rest)
}

// As `read_one`, which is in line here once for each kind: the kind is told once, and not for its width and its sign each.
#[inline(always)]
pub(crate) fn read_scalar(tape: &[u8], kind: Scalar) -> (Value, &[u8])
    ensures only { OnlyOne (PackedValueAt (scalar kind) tape.now) (datum_of result.0) result.1.now }
{
    match kind {
        Scalar::Uint8 => read_one(tape, Scalar::Uint8),
        Scalar::Int8 => read_one(tape, Scalar::Int8),
        Scalar::Bool => read_one(tape, Scalar::Bool),
        Scalar::Char => read_one(tape, Scalar::Char),
        Scalar::Uint16 => read_one(tape, Scalar::Uint16),
        Scalar::Int16 => read_one(tape, Scalar::Int16),
        Scalar::Uint32 => read_one(tape, Scalar::Uint32),
        Scalar::Int32 => read_one(tape, Scalar::Int32),
        Scalar::Iref => read_one(tape, Scalar::Iref),
        Scalar::Uint64 => read_one(tape, Scalar::Uint64),
        Scalar::Int64 => read_one(tape, Scalar::Int64),
        Scalar::Uintptr => read_one(tape, Scalar::Uintptr),
        Scalar::Intptr => read_one(tape, Scalar::Intptr),
        Scalar::Size => read_one(tape, Scalar::Size),
        Scalar::Errval => read_one(tape, Scalar::Errval),
    }
}

// So many scalars of one kind that the tape begins with, and what follows them.
#[inline(always)]
fn read_many<'a>(
    alloc: Global,
    tape: &'a [u8],
    count: u64,
    kind: Scalar,
) -> Result<(Vec<Value>, &'a [u8]), AllocError>
    ensures only { IfOk result (λ r. OnlyOne (InTurn PackedValueAt (replicate count (scalar kind)) tape.now)
        (map datum_of r.0.items) r.1.now) }
{
    let half = half_of(kind);
    let mut values = Vec::with_capacity(alloc, count as usize)?;
    let mut rest = tape;
    for done in 0..count {
        let (number, after) = read_told(rest, kind, kind.size(), half);
        values.push_reserved(int_value(number));
        rest = after;
    }
    Ok((values, rest))
}

// As `read_many`, which is in line here once for each kind: so each arm is a loop for that kind alone.
#[inline(never)]
fn read_scalars<'a>(
    alloc: Global,
    tape: &'a [u8],
    count: u64,
    kind: Scalar,
) -> Result<(Vec<Value>, &'a [u8]), AllocError>
    ensures only { IfOk result (λ r. OnlyOne (InTurn PackedValueAt (replicate count (scalar kind)) tape.now)
        (map datum_of r.0.items) r.1.now) }
{
    match kind {
        Scalar::Uint8 => read_many(alloc, tape, count, Scalar::Uint8),
        Scalar::Int8 => read_many(alloc, tape, count, Scalar::Int8),
        Scalar::Bool => read_many(alloc, tape, count, Scalar::Bool),
        Scalar::Char => read_many(alloc, tape, count, Scalar::Char),
        Scalar::Uint16 => read_many(alloc, tape, count, Scalar::Uint16),
        Scalar::Int16 => read_many(alloc, tape, count, Scalar::Int16),
        Scalar::Uint32 => read_many(alloc, tape, count, Scalar::Uint32),
        Scalar::Int32 => read_many(alloc, tape, count, Scalar::Int32),
        Scalar::Iref => read_many(alloc, tape, count, Scalar::Iref),
        Scalar::Uint64 => read_many(alloc, tape, count, Scalar::Uint64),
        Scalar::Int64 => read_many(alloc, tape, count, Scalar::Int64),
        Scalar::Uintptr => read_many(alloc, tape, count, Scalar::Uintptr),
        Scalar::Intptr => read_many(alloc, tape, count, Scalar::Intptr),
        Scalar::Size => read_many(alloc, tape, count, Scalar::Size),
        Scalar::Errval => read_many(alloc, tape, count, Scalar::Errval),
    }
}

// The value of a type that the tape begins with, and what follows it.
#[cycle(unpacked)]
pub(crate) fn read_value<'a>(
    alloc: Global,
    tape: &'a [u8],
    fixed: &FixedType,
) -> Result<(Value, &'a [u8]), AllocError>
    ensures only { IfOk result (λ r. OnlyOne (PackedValueAt (type_of fixed.now) tape.now) (datum_of r.0) r.1.now) }
{
    match fixed {
        FixedType::Scalar(kind) => {
            let (value, rest) = read_scalar(tape, *kind);
            Ok((value, rest))
        }
        FixedType::Enumeration(count) => {
            // It has 32 bits, which the proof knows once it is read.
            let _count = *count;
            let (number, rest) = read_enumerator(tape);
            Ok((int_value(number), rest))
        }
        FixedType::Structure(fields) => read_struct(alloc, tape, fields),
        FixedType::Array(count, element) => {
            let (values, rest) = read_elements(alloc, tape, u64::from(*count), element)?;
            Ok((Value::List(values), rest))
        }
    }
}

// The struct of these fields that the tape begins with, and what follows it.
#[cycle(unpacked)]
#[inline(always)]
fn read_struct<'a>(
    alloc: Global,
    tape: &'a [u8],
    fields: &[FixedType],
) -> Result<(Value, &'a [u8]), AllocError>
    ensures only { IfOk result (λ r. OnlyOne (PackedValueAt (structure (fields_from (map type_of fields.now))) tape.now)
        (datum_of r.0) r.1.now) }
{
    let (values, rest) = read_fields(alloc, tape, fields)?;
    Ok((fields_value(values), rest))
}

// A struct's fields that the tape begins with, and what follows them. A scalar, the most common, is read without a call.
#[cycle(unpacked)]
fn read_fields<'a>(
    alloc: Global,
    tape: &'a [u8],
    fields: &[FixedType],
) -> Result<(Vec<Value>, &'a [u8]), AllocError>
    ensures only { IfOk result (λ r. OnlyOne (InTurn PackedValueAt (map type_of fields.now) tape.now)
        (map datum_of r.0.items) r.1.now) }
{
    let mut values = Vec::with_capacity(alloc, fields.len())?;
    let mut rest = tape;
    for field in fields {
        if let FixedType::Scalar(kind) = field {
            let (number, next) = read_scalar(rest, *kind);
            values.push_reserved(number);
            rest = next;
            continue;
        }
        let (value, after) = read_value(alloc, rest, field)?;
        values.push_reserved(value);
        rest = after;
    }
    Ok((values, rest))
}

// So many elements of a type that the tape begins with, and what follows them.
#[cycle(unpacked)]
pub(crate) fn read_elements<'a>(
    alloc: Global,
    tape: &'a [u8],
    count: u64,
    element: &FixedType,
) -> Result<(Vec<Value>, &'a [u8]), AllocError>
    ensures only { IfOk result (λ r. OnlyOne (InTurn PackedValueAt (replicate count (type_of element.now)) tape.now)
        (map datum_of r.0.items) r.1.now) }
{
    match element {
        FixedType::Scalar(kind) => read_scalars(alloc, tape, count, *kind),
        FixedType::Structure(fields) => read_structs(alloc, tape, count, fields),
        _ => read_each(alloc, tape, count, element),
    }
}

// So many structs of these fields that the tape begins with, and what follows them.
#[cycle(unpacked)]
fn read_structs<'a>(
    alloc: Global,
    tape: &'a [u8],
    count: u64,
    fields: &[FixedType],
) -> Result<(Vec<Value>, &'a [u8]), AllocError>
    ensures only { IfOk result (λ r. OnlyOne (InTurn PackedValueAt
        (replicate count (structure (fields_from (map type_of fields.now)))) tape.now) (map datum_of r.0.items) r.1.now) }
{
    let mut values = Vec::with_capacity(alloc, count as usize)?;
    let mut rest = tape;
    for done in 0..count {
        let (value, after) = read_struct(alloc, rest, fields)?;
        values.push_reserved(value);
        rest = after;
    }
    Ok((values, rest))
}

// So many elements of any type that the tape begins with, each by a call, and what follows them.
#[cycle(unpacked)]
fn read_each<'a>(
    alloc: Global,
    tape: &'a [u8],
    count: u64,
    element: &FixedType,
) -> Result<(Vec<Value>, &'a [u8]), AllocError>
    ensures only { IfOk result (λ r. OnlyOne (InTurn PackedValueAt (replicate count (type_of element.now)) tape.now)
        (map datum_of r.0.items) r.1.now) }
{
    let mut values = Vec::with_capacity(alloc, count as usize)?;
    let mut rest = tape;
    for done in 0..count {
        let (value, after) = read_value(alloc, rest, element)?;
        values.push_reserved(value);
        rest = after;
    }
    Ok((values, rest))
}
