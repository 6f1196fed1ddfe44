//! Where a plan keeps the declared order of arguments.

ghost use Rattle.std.specs.Prelude.{◌≡◌, map};
ghost use Rattle.fl_interface.specs.Interface.{arg_type_of};
ghost use Rattle.fl_value_data.specs.Plan.{rising, never_falls};

use fl_interface::ArgType;
use fl_value_data::PlanNo;

/// Whether no argument's rank under plan 2 is below that of one before it.
fn is_rising(arguments: &[ArgType]) -> bool
    ensures same { result ≡ rising (λ t. t) 0 (map arg_type_of arguments.now) }
{
    let mut least = 0;
    for argument in arguments {
        let rank = PlanNo::Two.rank_of(argument);
        if rank < least {
            return false;
        }
        least = rank;
    }
    true
}

/// Whether the arguments' ranks never fall: then the plan keeps the declared order, as where all are of one rank.
pub(crate) fn never_falls(plan: PlanNo, arguments: &[ArgType]) -> bool
    ensures same { result ≡ never_falls plan (map arg_type_of arguments.now) }
{
    match plan {
        PlanNo::One => true,
        PlanNo::Two => is_rising(arguments),
    }
}
