//! Calls as text, each in one form: what answers show.

ghost use Rattle.std.specs.Prelude.{◌≡◌, ◌++◌, ◌∷◌, [], ◌<◌, ◌≤◌, List, OnOk, OnErr, IfSome, map, length};
ghost use Rattle.std.specs.List.{list_all, prefix_len};
ghost use Rattle.std.specs.Char.{digit_char};
ghost use Rattle.std.specs.Fmt.{decimal, signed_decimal};
ghost use Rattle.fl_value_data.specs.Value.{datum_of, data_from};
ghost use Rattle.fl_value.specs.Printed.{is_shown, printed_byte, printed_text, printed_value, printed_values, printed_call, separator, BeginsToAppend};

use crate::tokens::is_literal;
use fl_value_data::Value;
use itoa::Buffer;
use std::alloc::{AllocError, Global};

/// The lower-case hexadecimal digit of a number below 16.
fn hex_digit(number: u8) -> u8
    requires below { number < 16 }
    ensures same { result ≡ digit_char number }
{
    if number < 10 {
        b'0' + number
    } else {
        b'a' - 10 + number
    }
}

/// Whether a byte of a text is printed as it is.
fn is_shown(byte: u8) -> bool
    ensures same { result ≡ is_shown byte }
{
    is_literal(byte) && byte <= b'~'
}

/// Whether all bytes are printed as they are. It doesn't stop at the first that isn't, so that many are looked at at once.
fn are_shown(bytes: &[u8]) -> bool
    ensures same { result ≡ list_all is_shown bytes.now }
{
    let mut all = true;
    for byte in bytes {
        all &= is_shown(*byte);
    }
    all
}

/// How many bytes from here on are printed as they are.
fn count_shown(bytes: &[u8]) -> usize
    ensures same { result ≡ prefix_len is_shown bytes.now }
    ensures within { result ≤ length bytes.now }
{
    if are_shown(bytes) {
        return bytes.len();
    }
    for (count, byte) in bytes.iter().enumerate() {
        if !is_shown(*byte) {
            return count;
        }
    }
    bytes.len()
}

/// Appends a byte of a text.
fn print_byte(out: &mut Vec<u8>, byte: u8) -> Result<(), AllocError>
    ensures printed { OnOk result (out.new.items ≡ out.old.items ++ printed_byte byte) }
    ensures begun { OnErr result (BeginsToAppend out.old.items out.new.items (printed_byte byte)) }
{
    match byte {
        b'"' => out.extend_from_slice(b"\\\""),
        b'\\' => out.extend_from_slice(b"\\\\"),
        b' '..=b'~' => out.extend_from_slice(&[byte]),
        _ => out.extend_from_slice(&[b'\\', b'x', hex_digit(byte / 16), hex_digit(byte % 16)]),
    }
}

/// Appends a text in quotes.
#[inline(never)]
fn print_text(out: &mut Vec<u8>, bytes: &[u8]) -> Result<(), AllocError>
    ensures printed { OnOk result (out.new.items ≡ out.old.items ++ printed_text bytes.now) }
    ensures begun { OnErr result (BeginsToAppend out.old.items out.new.items (printed_text bytes.now)) }
{
    out.push(b'"')?;
    let shown = count_shown(bytes);
    out.extend_from_slice(&bytes[..shown])?;
    let rest = &bytes[shown..];
    for byte in rest {
        print_byte(out, *byte)?;
    }
    out.push(b'"')?;
    Ok(())
}

/// Appends a number of one digit.
fn print_digit(out: &mut Vec<u8>, digit: u8) -> Result<(), AllocError>
    requires below { digit < 10 }
    ensures printed { OnOk result (out.new.items ≡ out.old.items ++ decimal digit) }
    ensures begun { OnErr result (BeginsToAppend out.old.items out.new.items (decimal digit)) }
{
    out.push(b'0' + digit)?;
    Ok(())
}

/// Appends a number in its shortest form.
#[inline(always)]
fn print_number(out: &mut Vec<u8>, number: i128) -> Result<(), AllocError>
    ensures printed { OnOk result (out.new.items ≡ out.old.items ++ signed_decimal number) }
    ensures begun { OnErr result (BeginsToAppend out.old.items out.new.items (signed_decimal number)) }
{
    if 0 <= number && number < 10 {
        return print_digit(out, number as u8);
    }
    let mut buffer = Buffer::new();
    out.extend_from_slice(buffer.format(number).as_bytes())
}

/// Appends what stands between a value and the one before it.
fn print_separator(out: &mut Vec<u8>, index: usize) -> Result<(), AllocError>
    ensures printed { OnOk result (out.new.items ≡ out.old.items ++ separator index) }
    ensures begun { OnErr result (BeginsToAppend out.old.items out.new.items (separator index)) }
{
    if index == 0 {
        return Ok(());
    }
    out.extend_from_slice(b", ")
}

/// The digit that a value is printed as, where it is a number of one digit.
#[inline(always)]
fn digit_of(value: &Value) -> Option<u8>
    ensures below { IfSome result (λ digit. digit < 10) }
    ensures same { IfSome result (λ digit. printed_value (datum_of value.now) ≡ decimal digit) }
{
    match value {
        Value::Int(number) if 0 <= *number && *number < 10 => Some(*number as u8),
        _ => None,
    }
}

/// Appends a number of one digit behind another value, all at once.
#[inline(always)]
fn print_next_digit(out: &mut Vec<u8>, digit: u8) -> Result<(), AllocError>
    requires below { digit < 10 }
    ensures printed { OnOk result (out.new.items ≡ out.old.items ++ 44 ∷ 32 ∷ decimal digit) }
    ensures begun { OnErr result (BeginsToAppend out.old.items out.new.items (44 ∷ 32 ∷ decimal digit)) }
{
    out.extend_from_slice(&[b',', b' ', b'0' + digit])
}

/// Appends a value.
#[cycle(printing)]
#[inline(always)]
fn print_value(out: &mut Vec<u8>, value: &Value) -> Result<(), AllocError>
    ensures printed { OnOk result (out.new.items ≡ out.old.items ++ printed_value (datum_of value.now)) }
    ensures begun { OnErr result (BeginsToAppend out.old.items out.new.items (printed_value (datum_of value.now))) }
{
    match value {
        Value::Int(number) => print_number(out, *number),
        Value::Text(bytes) => print_text(out, bytes),
        Value::List(values) => print_nested(out, b'[', values, b']'),
        Value::Fields(values) => print_nested(out, b'{', values, b'}'),
    }
}

/// Appends values between two marks.
#[cycle(printing)]
#[inline(never)]
fn print_nested(
    out: &mut Vec<u8>,
    opening: u8,
    values: &[Value],
    closing: u8,
) -> Result<(), AllocError>
    ensures printed { OnOk result (out.new.items ≡ out.old.items ++ opening ∷ (printed_values (data_from (map datum_of values.now)) ++ closing ∷ [])) }
    ensures begun { OnErr result (BeginsToAppend out.old.items out.new.items
        (opening ∷ (printed_values (data_from (map datum_of values.now)) ++ closing ∷ []))) }
{
    out.push(opening)?;
    print_values(out, values)?;
    out.push(closing)?;
    Ok(())
}

/// Appends a value, and what stands between it and the one before it.
#[cycle(printing)]
#[inline(always)]
fn print_item(out: &mut Vec<u8>, index: usize, value: &Value) -> Result<(), AllocError>
    ensures printed { OnOk result (out.new.items ≡ out.old.items ++ (separator index ++ printed_value (datum_of value.now))) }
    ensures begun { OnErr result (BeginsToAppend out.old.items out.new.items (separator index ++ printed_value (datum_of value.now))) }
{
    if index != 0 {
        if let Some(digit) = digit_of(value) {
            return print_next_digit(out, digit);
        }
    }
    print_separator(out, index)?;
    print_value(out, value)
}

/// Appends values with `, ` between any two.
#[cycle(printing)]
#[inline(always)]
fn print_values(out: &mut Vec<u8>, values: &[Value]) -> Result<(), AllocError>
    ensures printed { OnOk result (out.new.items ≡ out.old.items ++ printed_values (data_from (map datum_of values.now))) }
    ensures begun { OnErr result (BeginsToAppend out.old.items out.new.items (printed_values (data_from (map datum_of values.now)))) }
{
    for (index, value) in values.iter().enumerate() {
        print_item(out, index, value)?;
    }
    Ok(())
}

/// Appends the text of a call: its name, and its arguments between parentheses.
///
/// # Errors
///
/// Where memory runs out; `out` may then have a prefix of the text at its end, behind what stood there.
pub fn print_call(
    _alloc: Global,
    out: &mut Vec<u8>,
    name: &[u8],
    args: &[Value],
) -> Result<(), AllocError>
    ensures printed { OnOk result (out.new.items ≡ out.old.items ++ printed_call name.now (map datum_of args.now)) }
    ensures begun { OnErr result (BeginsToAppend out.old.items out.new.items (printed_call name.now (map datum_of args.now))) }
{
    out.extend_from_slice(name)?;
    out.push(b'(')?;
    print_values(out, args)?;
    out.push(b')')?;
    Ok(())
}
