//! Which values a type has, and which calls fit an interface.

ghost use Rattle.std.specs.Prelude.{◌≡◌, ◌==◌, ◌&&◌, nat_le, nat_lt, length, map};
ghost use Rattle.std.specs.List.{list_all};
ghost use Rattle.fl_interface.specs.Interface.{type_of, arg_type_of, interface_of, fields_from};
ghost use Rattle.fl_value_data.specs.Value.{datum_of, data_from, call_of};
ghost use Rattle.fl_value_data.specs.Fits.{count_of, is_text_byte, is_scalar_value, is_enumerator, has_type};
ghost use Rattle.fl_value_data.specs.Fits.{have_types, all_have_type, is_argument, are_arguments, fits_of};

use crate::value::{Call, Value};
use fl_interface::{ArgType, FixedType, Interface, Scalar};

/// Whether a number is a value of a scalar.
fn is_scalar_value(scalar: Scalar, number: i128) -> bool
    ensures same { result ≡ is_scalar_value scalar number }
{
    match scalar {
        Scalar::Bool => 0 <= number && number < 2,
        Scalar::Uint8 | Scalar::Char => 0 <= number && number < 0x100,
        Scalar::Uint16 => 0 <= number && number < 0x1_0000,
        Scalar::Uint32 | Scalar::Iref => 0 <= number && number < 0x1_0000_0000,
        Scalar::Uint64 | Scalar::Uintptr | Scalar::Size | Scalar::Errval => {
            0 <= number && number < 0x1_0000_0000_0000_0000
        }
        Scalar::Int8 => -0x80 <= number && number < 0x80,
        Scalar::Int16 => -0x8000 <= number && number < 0x8000,
        Scalar::Int32 => -0x8000_0000 <= number && number < 0x8000_0000,
        Scalar::Int64 | Scalar::Intptr => {
            -0x8000_0000_0000_0000 <= number && number < 0x8000_0000_0000_0000
        }
    }
}

/// Whether a number is an enumerator's place.
fn is_enumerator(count: u32, number: i128) -> bool
    ensures same { result ≡ is_enumerator count number }
{
    0 <= number && number < i128::from(count)
}

/// Whether there are so many values.
#[tactic(auto, using(crate::proofs::Counting::count_from))]
fn has_count(values: &[Value], count: u32) -> bool
    ensures same { result ≡ (count_of (data_from (map datum_of values.now)) == count) }
{
    values.len() == count as usize
}

/// Whether there are so many values, or fewer.
#[tactic(auto, using(crate::proofs::Counting::count_from))]
fn has_at_most(values: &[Value], most: u32) -> bool
    ensures same { result ≡ nat_le (count_of (data_from (map datum_of values.now))) most }
{
    values.len() <= most as usize
}

/// Whether no byte is 0. It doesn't stop at the first that is, so that many are looked at at once.
fn has_no_zero(bytes: &[u8]) -> bool
    ensures same { result ≡ list_all (λ byte. nat_lt 0 byte) bytes.now }
{
    let mut all = true;
    for byte in bytes {
        if *byte == 0 {
            all = false;
        }
    }
    all
}

/// Whether all bytes are a string's: none is 0.
pub fn are_text_bytes(bytes: &[u8]) -> bool
    ensures same { result ≡ list_all is_text_byte bytes.now }
{
    has_no_zero(bytes)
}

/// Whether the bytes are a string's: none is 0, and there are at most so many.
fn is_text(bytes: &[u8], most: u32) -> bool
    ensures same { result ≡ (nat_le (length bytes.now) most && list_all is_text_byte bytes.now) }
{
    bytes.len() <= most as usize && are_text_bytes(bytes)
}

/// Whether a value is one of the type: a scalar within its range, an enumerator's place, a struct or an array of such values.
#[cycle(types)]
pub fn has_type(value: &Value, fixed: &FixedType) -> bool
    ensures same { result ≡ has_type (type_of fixed.now) (datum_of value.now) }
{
    match fixed {
        FixedType::Scalar(scalar) => match value {
            Value::Int(number) => is_scalar_value(*scalar, *number),
            _ => false,
        },
        FixedType::Enumeration(count) => match value {
            Value::Int(number) => is_enumerator(*count, *number),
            _ => false,
        },
        FixedType::Structure(fields) => match value {
            Value::Fields(values) => have_types(values, fields),
            _ => false,
        },
        FixedType::Array(count, element) => match value {
            Value::List(values) => { has_count(values, *count) && all_have_type(values, element) }
            _ => false,
        },
    }
}

/// Whether each value is one of its field's type, and there are as many values as fields.
#[cycle(types)]
fn have_types(values: &[Value], fields: &[FixedType]) -> bool
    ensures same { result ≡ have_types (fields_from (map type_of fields.now)) (data_from (map datum_of values.now)) }
{
    for (index, value) in values.iter().enumerate() {
        let Some(field) = fields.get(index) else {
            return false;
        };
        if !has_type(value, field) {
            return false;
        }
    }
    values.len() == fields.len()
}

/// Whether each value is one of the type.
#[cycle(types)]
fn all_have_type(values: &[Value], fixed: &FixedType) -> bool
    ensures same { result ≡ all_have_type (type_of fixed.now) (data_from (map datum_of values.now)) }
{
    for value in values {
        if !has_type(value, fixed) {
            return false;
        }
    }
    true
}

/// Whether a value is one of the type: a scalar's, the most common, is told without a call.
#[inline(always)]
fn has_fixed_type(value: &Value, fixed: &FixedType) -> bool
    ensures same { result ≡ has_type (type_of fixed.now) (datum_of value.now) }
{
    match fixed {
        FixedType::Scalar(scalar) => match value {
            Value::Int(number) => is_scalar_value(*scalar, *number),
            _ => false,
        },
        _ => has_type(value, fixed),
    }
}

/// Whether a value is one of an argument's type.
fn is_argument(value: &Value, argument: &ArgType) -> bool
    ensures same { result ≡ is_argument (arg_type_of argument.now) (datum_of value.now) }
{
    match argument {
        ArgType::Fixed(fixed) => has_fixed_type(value, fixed),
        ArgType::Text(most) => match value {
            Value::Text(bytes) => is_text(bytes, *most),
            _ => false,
        },
        ArgType::Sized(most, fixed) => match value {
            Value::List(values) => has_at_most(values, *most) && all_have_type(values, fixed),
            _ => false,
        },
    }
}

/// Whether each value is one of its argument's type, and there are as many values as arguments.
fn are_arguments(values: &[Value], arguments: &[ArgType]) -> bool
    ensures same { result ≡ are_arguments (map arg_type_of arguments.now) (map datum_of values.now) }
{
    for (index, value) in values.iter().enumerate() {
        let Some(argument) = arguments.get(index) else {
            return false;
        };
        if !is_argument(value, argument) {
            return false;
        }
    }
    values.len() == arguments.len()
}

/// Whether a call fits an interface: its message's number exists, and its arguments have the
/// message's types.
pub fn fits(call: &Call, interface: &Interface) -> bool
    ensures same { result ≡ fits_of (interface_of interface.now) (call_of call.now) }
{
    match interface.messages.get(usize::from(call.msg.0)) {
        None => false,
        Some(message) => are_arguments(&call.args, &message.args),
    }
}
