//! Whether the plan's order of arguments is the declared one, and the arguments that tell nothing of that.

ghost use Rattle.std.specs.Prelude.{◌≡◌, ◌<◌, map, length, get_or, true, IfSome};
ghost use Rattle.fl_interface.specs.declared.interface.Scalar.TheVariants.{Uint64};
ghost use Rattle.fl_interface.specs.Interface.{scalar, fixed, arg_type_of};
ghost use Rattle.fl_value_data.specs.Plan.{rising, never_falls};

use fl_interface::{ArgType, FixedType, Scalar};
use fl_value_data::PlanNo;

// Whether an argument is a uint64.
#[inline(always)]
fn is_wide(argument: &ArgType) -> bool
    ensures wide { result ≡ true → arg_type_of argument.now ≡ fixed (scalar Uint64) }
{
    matches!(argument, ArgType::Fixed(FixedType::Scalar(Scalar::Uint64)))
}

// The argument at a place, if it is a uint64.
#[inline(always)]
pub(crate) fn wide_at(arguments: &[ArgType], place: usize) -> Option<&ArgType>
    ensures inside { IfSome result (λ a. place < length arguments.now) }
    ensures there { IfSome result (λ a. a.now ≡ get_or arguments.now place a.now) }
    ensures wide { IfSome result (λ a. arg_type_of a.now ≡ fixed (scalar Uint64)) }
{
    let argument = arguments.get(place)?;
    if !is_wide(argument) {
        return None;
    }
    Some(argument)
}

// Whether no argument's rank under plan 2 is below that of one before it.
fn is_rising(arguments: &[ArgType]) -> bool
    ensures same { result ≡ rising (λ t. t) 0 (map arg_type_of arguments.now) }
{
    let mut least = 0;
    for argument in arguments {
        let rank = PlanNo::Two.rank_of(argument);
        if rank < least {
            return false;
        }
        least = rank;
    }
    true
}

// Whether the plan keeps the declared order of arguments: their ranks never fall.
#[inline(always)]
pub(crate) fn keeps_order(plan: PlanNo, arguments: &[ArgType]) -> bool
    ensures same { result ≡ never_falls plan (map arg_type_of arguments.now) }
{
    match plan {
        PlanNo::One => true,
        PlanNo::Two => is_rising(arguments),
    }
}
