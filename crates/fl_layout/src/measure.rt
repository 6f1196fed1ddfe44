//! How many bytes an argument takes, where it may begin, and how many numbers it has.

ghost use Rattle.std.specs.Prelude.{◌≡◌, ◌<◌, ◌^◌, map, true};
ghost use Rattle.fl_interface.specs.Interface.{type_of, arg_type_of, fields_from};
ghost use Rattle.fl_interface.specs.Limits.{is_argument_within};
ghost use Rattle.fl_layout.specs.Extents.{numbers_of, numbers_of_all, extent_of};

use crate::extent::Extent;
use fl_interface::{ArgType, FixedType};

// How many numbers a value of a type has: its scalars and enumerators.
#[cycle(numbers)]
fn count_numbers(fixed: &FixedType) -> u32
    requires fits { numbers_of (type_of fixed.now) < 2 ^ 32 }
    ensures exact { result ≡ numbers_of (type_of fixed.now) }
{
    match fixed {
        FixedType::Scalar(_) | FixedType::Enumeration(_) => 1,
        FixedType::Structure(fields) => count_all_numbers(fields),
        FixedType::Array(count, element) => {
            if *count == 0 {
                return 0;
            }
            count * count_numbers(element)
        }
    }
}

// How many numbers the fields of a struct have.
#[cycle(numbers)]
fn count_all_numbers(fields: &[FixedType]) -> u32
    requires fits { numbers_of_all (fields_from (map type_of fields.now)) < 2 ^ 32 }
    ensures exact { result ≡ numbers_of_all (fields_from (map type_of fields.now)) }
{
    let mut numbers = 0;
    for field in fields {
        numbers += count_numbers(field);
    }
    numbers
}

/// The extent of an argument.
pub(crate) fn extent(argument: &ArgType) -> Extent
    requires within { is_argument_within (arg_type_of argument.now) ≡ true }
    ensures exact { result ≡ extent_of (arg_type_of argument.now) }
{
    match argument {
        ArgType::Fixed(fixed) => Extent::Fixed {
            size: fixed.size(),
            align: fixed.alignment(),
            numbers: count_numbers(fixed),
        },
        ArgType::Text(most) => Extent::Text { most: *most },
        ArgType::Sized(most, element) => Extent::Sized {
            most: *most,
            stride: element.size(),
            numbers: count_numbers(element),
        },
    }
}
