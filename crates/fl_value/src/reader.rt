//! Values and calls from their text.

ghost use Rattle.std.specs.Prelude.{◌≡◌, ℕ, ◌+◌, ◌<◌, ◌≤◌, List, map, true, length, IfOk, IfErr, IfSome, IfNone};
ghost use Rattle.fl_value_data.specs.Value.{Datum, Data, datum_of, data_from};
ghost use Rattle.fl_value.specs.CallText.{SpellsValue, Listed, Enclosed, NoneEnclosed, Token, a_mark, is_mark, is_close, depth_of, greatest_depth};
ghost use Rattle.fl_value.specs.CallText.{Pushes};
ghost use Rattle.fl_value.specs.Fault.{Refuses};

use crate::fault::ValueFault;
use crate::tokens::{read_mark, read_number, read_short, read_text};
use fl_value_data::Value;
use std::alloc::Global;

/// For how many values there is room at first.
const FEW: usize = 8;

/// The value that the bytes begin with, its arrays and structs nested at most so deep, and what
/// follows it.
#[cycle(values)]
fn read_value(alloc: Global, bytes: &[u8], depth: u32) -> Result<(Value, &[u8]), ValueFault>
    ensures found { IfOk result (λ r. SpellsValue (datum_of r.0) bytes.now r.1.now) }
    ensures shallow { IfOk result (λ r. depth_of (datum_of r.0) ≤ depth) }
    ensures shorter { IfOk result (λ r. length r.1.now < length bytes.now) }
    ensures fault { IfErr result (λ e. Refuses e ((d : Datum) (rest : List ℕ) → depth_of d ≤ depth → SpellsValue d bytes.now rest → ⊥)) }
{
    if let Some((number, rest)) = read_number(bytes) {
        return Ok((Value::Int(number), rest));
    }
    if let Some((text, rest)) = read_text(alloc, bytes)? {
        return Ok((Value::Text(text), rest));
    }
    if let Some((values, rest)) = read_nested(alloc, bytes, b'[', b']', depth)? {
        return Ok((Value::List(values), rest));
    }
    if let Some((values, rest)) = read_nested(alloc, bytes, b'{', b'}', depth)? {
        return Ok((Value::Fields(values), rest));
    }
    Err(ValueFault::NotACall)
}

/// Puts the value that the bytes begin with behind others, and tells what follows it. Out of line, so that a short number prepares
/// nothing of it.
#[cycle(values)]
#[inline(never)]
fn push_any<'a>(
    alloc: Global,
    values: &mut Vec<Value>,
    bytes: &'a [u8],
    depth: u32,
) -> Result<&'a [u8], ValueFault>
    ensures found { IfOk result (λ rest. Pushes values.old.items values.new.items depth bytes.now rest.now) }
    ensures fault { IfErr result (λ e. Refuses e ((d : Datum) (rest : List ℕ) → depth_of d ≤ depth → SpellsValue d bytes.now rest → ⊥)) }
{
    let (value, rest) = read_value(alloc, bytes, depth)?;
    values.push(value)?;
    Ok(rest)
}

/// The same: a number of few digits, the most common value, without a call.
#[cycle(values)]
#[inline(always)]
fn push_value<'a>(
    alloc: Global,
    values: &mut Vec<Value>,
    bytes: &'a [u8],
    depth: u32,
) -> Result<&'a [u8], ValueFault>
    ensures found { IfOk result (λ rest. Pushes values.old.items values.new.items depth bytes.now rest.now) }
    ensures fault { IfErr result (λ e. Refuses e ((d : Datum) (rest : List ℕ) → depth_of d ≤ depth → SpellsValue d bytes.now rest → ⊥)) }
{
    let Some((number, rest)) = read_short(bytes) else {
        return match push_any(alloc, values, bytes, depth) {
            Ok(rest) => Ok(rest),
            Err(fault) => Err(fault),
        };
    };
    values.push(Value::Int(i128::from(number)))?;
    Ok(rest)
}

/// The values between an opening and a closing mark, and what follows them; none where the opening
/// mark doesn't stand.
#[cycle(values)]
#[inline(never)]
fn read_nested(
    alloc: Global,
    bytes: &[u8],
    opening: u8,
    closing: u8,
    depth: u32,
) -> Result<Option<(Vec<Value>, &[u8])>, ValueFault>
    requires opening { is_mark opening ≡ true }
    requires closing { is_close closing ≡ true }
    ensures found { IfOk result (λ o. IfSome o (λ r. Enclosed opening closing (data_from (map datum_of r.0.items)) bytes.now r.1.now)) }
    ensures shallow { IfOk result (λ o. IfSome o (λ r. 1 + greatest_depth (data_from (map datum_of r.0.items)) ≤ depth)) }
    ensures shorter { IfOk result (λ o. IfSome o (λ r. length r.1.now < length bytes.now)) }
    ensures none { IfOk result (λ o. IfNone o ((rest : List ℕ) → Token (a_mark opening) bytes.now rest → ⊥)) }
    ensures fault { IfErr result (λ e. Refuses e (NoneEnclosed opening closing depth bytes.now)) }
    ensures opened { IfErr result (λ e. (rest : List ℕ) × Token (a_mark opening) bytes.now rest) }
{
    let Some(inside) = read_mark(bytes, opening) else {
        return Ok(None);
    };
    if depth == 0 {
        return Err(ValueFault::NotACall);
    }
    let found = read_values(alloc, inside, closing, depth - 1, Vec::new(alloc))?;
    Ok(Some(found))
}

/// The values up to a closing mark, with a comma between any two, and what follows the mark. They stand in the memory of `room`,
/// whose own values are dropped.
#[cycle(values)]
#[inline(always)]
pub(crate) fn read_values(
    alloc: Global,
    bytes: &[u8],
    closing: u8,
    depth: u32,
    room: Vec<Value>,
) -> Result<(Vec<Value>, &[u8]), ValueFault>
    requires closing { is_close closing ≡ true }
    ensures found { IfOk result (λ r. Listed closing (data_from (map datum_of r.0.items)) bytes.now r.1.now) }
    ensures shallow { IfOk result (λ r. greatest_depth (data_from (map datum_of r.0.items)) ≤ depth) }
    ensures shorter { IfOk result (λ r. length r.1.now < length bytes.now) }
    ensures fault { IfErr result (λ e. Refuses e ((ds : Data) (rest : List ℕ) → greatest_depth ds ≤ depth → Listed closing ds bytes.now rest → ⊥)) }
{
    let mut values = room;
    values.clear();
    if let Some(rest) = read_mark(bytes, closing) {
        return Ok((values, rest));
    }
    values.reserve(FEW)?;
    let mut start = bytes;
    loop {
        let after = push_value(alloc, &mut values, start, depth)?;
        let Some(next) = read_mark(after, b',') else {
            let Some(rest) = read_mark(after, closing) else {
                return Err(ValueFault::NotACall);
            };
            return Ok((values, rest));
        };
        start = next;
    }
}
