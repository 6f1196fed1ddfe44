//! Types that are numbers.

ghost use Rattle.std.specs.Prelude.{◌≡◌, ◌+◌, ◌-◌, ◌^◌, ◌<◌, ◌≤◌, true, false, IfSome, IfNone};
ghost use Rattle.fl_interface.specs.Interface.{arg_type_of, type_of, fixed};
ghost use Rattle.fl_interface.specs.Sizes.{scalar_size};
ghost use Rattle.fl_value_data.specs.Fits.{least_above, how_many_below};
ghost use Rattle.fl_codec.specs.NumberPlaces.{is_number};
ghost use Rattle.fl_codec.specs.Placing.{IsNumberType};

use fl_interface::{ArgType, ENUM_SIZE, FixedType, Scalar};

/// A type that is a number.
#[derive(Clone, Copy)]
pub(crate) struct NumberType {
    /// Its bytes, which are its alignment too.
    pub width: u32,
    /// The last number that a value of it has on a tape.
    pub last: u64,
}

// The last number that a value of a scalar has on a tape.
fn last_of(scalar: Scalar) -> u64
    ensures { result ≡ least_above scalar + how_many_below scalar - 1 }
{
    match scalar {
        Scalar::Bool => 1,
        Scalar::Uint8 | Scalar::Int8 | Scalar::Char => 0xff,
        Scalar::Uint16 | Scalar::Int16 => 0xffff,
        Scalar::Uint32 | Scalar::Int32 | Scalar::Iref => 0xffff_ffff,
        Scalar::Uint64
        | Scalar::Int64
        | Scalar::Uintptr
        | Scalar::Intptr
        | Scalar::Size
        | Scalar::Errval => u64::MAX,
    }
}

// The number that a fixed type is, if it is one.
fn fixed_number(fixed_type: &FixedType) -> Option<NumberType>
    ensures some { IfSome result (λ n. IsNumberType (fixed (type_of fixed_type.now)) n) }
    ensures none { IfNone result (is_number (fixed (type_of fixed_type.now)) ≡ false) }
{
    match fixed_type {
        FixedType::Scalar(scalar) => Some(NumberType {
            width: scalar.size(),
            last: last_of(*scalar),
        }),
        FixedType::Enumeration(count) => {
            if *count == 0 {
                return None;
            }
            Some(NumberType {
                width: ENUM_SIZE,
                last: u64::from(*count) - 1,
            })
        }
        _ => None,
    }
}

/// The number that an argument's type is, if it is one.
pub(crate) fn number_type(argument: &ArgType) -> Option<NumberType>
    ensures some { IfSome result (λ n. IsNumberType (arg_type_of argument.now) n) }
    ensures none { IfNone result (is_number (arg_type_of argument.now) ≡ false) }
{
    match argument {
        ArgType::Fixed(fixed_type) => fixed_number(fixed_type),
        _ => None,
    }
}
