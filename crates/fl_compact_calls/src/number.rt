//! Calls of one number.

ghost use Rattle.std.specs.Prelude.{◌≡◌, IfSome, map, slice_get, true, false, if◌then◌else◌};
ghost use Rattle.fl_interface.specs.Interface.{arg_type_of, interface_of};
ghost use Rattle.fl_value_data.specs.Fits.{is_argument, is_signed, are_arguments, fits_of};
ghost use Rattle.fl_value_data.specs.Value.{number, datum_of};
ghost use Rattle.fl_compact_calls.specs.Held.{one_number};
ghost use Rattle.fl_compact_calls.specs.Plain.{is_plain as is_plain_type, are_plain as are_plain_types, is_plain_message};
ghost use Rattle.std.specs.Prelude.{pos};

use fl_base::MsgNo;
use fl_interface::{ArgType, FixedType, Interface, Scalar};
use fl_value_data::{Value, has_type};

// The number of a value, if it is one below 2^64.
#[inline(always)]
fn number_of(value: &Value) -> Option<u64>
    ensures number { IfSome result (λ n. datum_of value.now ≡ number (pos n)) }
{
    match value {
        Value::Int(number) if 0 <= *number && *number < 0x1_0000_0000_0000_0000 => {
            Some(*number as u64)
        }
        _ => None,
    }
}

/// The number of which values consist, if it is one below 2^64.
#[inline(always)]
pub fn one_number(values: &[Value]) -> Option<u64>
    ensures one { IfSome result (λ n. map datum_of values.now ≡ one_number n) }
{
    let [value] = values else {
        return None;
    };
    number_of(value)
}

// Whether a number is one of an argument's type.
fn is_number_of(argument: &ArgType, value: u64) -> bool
    ensures same { result ≡ is_argument (arg_type_of argument.now) (number (pos value)) }
{
    match argument {
        ArgType::Fixed(fixed) => has_type(&Value::Int(i128::from(value)), fixed),
        ArgType::Text(_) | ArgType::Sized(_, _) => false,
    }
}

// Whether arguments are one, of whose type the number is.
#[tactic(auto, using(crate::proofs::Alone::none_take, crate::proofs::Alone::several_take))]
fn take_number(arguments: &[ArgType], value: u64) -> bool
    ensures same { result ≡ are_arguments (map arg_type_of arguments.now) (one_number value) }
{
    match arguments {
        [] => false,
        [argument] => is_number_of(argument, value),
        [_, _, ..] => false,
    }
}

/// Whether a message of an interface takes a number as its one argument.
pub fn takes_number(interface: &Interface, msg: MsgNo, number: u64) -> bool
    ensures same { result ≡ fits_of (interface_of interface.now) (record { msg = msg.0; args = one_number number }) }
{
    match interface.messages.get(usize::from(msg.0)) {
        None => false,
        Some(message) => take_number(&message.args, number),
    }
}

// Whether a scalar's numbers are all from 0 on.
#[inline(always)]
fn is_unsigned(scalar: Scalar) -> bool
    ensures same { result ≡ (if is_signed scalar then false else true) }
{
    match scalar {
        Scalar::Int8 | Scalar::Int16 | Scalar::Int32 | Scalar::Int64 | Scalar::Intptr => false,
        _ => true,
    }
}

// Whether an argument's value is the number on its tape.
#[inline(always)]
fn is_plain(argument: &ArgType) -> bool
    ensures same { result ≡ is_plain_type (arg_type_of argument.now) }
{
    match argument {
        ArgType::Fixed(FixedType::Scalar(scalar)) => is_unsigned(*scalar),
        _ => false,
    }
}

// Whether arguments are one, whose value is the number on its tape.
#[inline(always)]
fn are_plain(arguments: &[ArgType]) -> bool
    ensures same { result ≡ are_plain_types (map arg_type_of arguments.now) }
{
    match arguments {
        [] => false,
        [argument] => is_plain(argument),
        [_, _, ..] => false,
    }
}

/// Whether a message of an interface has one argument alone, a scalar of numbers from 0 on: the tape of its call is then that number.
#[inline(always)]
pub fn has_plain_number(interface: &Interface, msg: MsgNo) -> bool
    ensures same { result ≡ is_plain_message (slice_get (interface_of interface.now).messages msg.0) }
{
    match interface.messages.get(usize::from(msg.0)) {
        None => false,
        Some(message) => are_plain(&message.args),
    }
}
