//! The plan's order of arguments.

ghost use Rattle.std.specs.Prelude.{◌≡◌, ◌==◌, ◌++◌, map, IfOk, OnOk};
ghost use Rattle.fl_interface.specs.Interface.{arg_type_of};
ghost use Rattle.fl_value_data.specs.Plan.{arranged, of_rank, rank_of};
ghost use Rattle.fl_compile.specs.Arguments.{types_in};

use fl_interface::ArgType;
use fl_value_data::{PlanNo, RANKS};
use std::alloc::{AllocError, Global};

/// Whether an argument has a rank.
fn has_rank(plan: PlanNo, rank: u8, argument: &ArgType) -> bool
    ensures exact { result ≡ (rank_of plan (arg_type_of argument.now) == rank) }
{
    plan.rank_of(argument) == rank
}

/// Appends the arguments of a rank, as declared.
fn push_rank<'a>(
    order: &mut Vec<&'a ArgType>,
    plan: PlanNo,
    rank: u8,
    declared: &'a [ArgType],
) -> Result<(), AllocError>
    ensures pushed { OnOk result (types_in order.new.items ≡ types_in order.old.items ++ of_rank (λ t. t) plan rank (map arg_type_of declared.now)) }
{
    for argument in declared {
        if has_rank(plan, rank, argument) {
            order.push(argument)?;
        }
    }
    Ok(())
}

/// The arguments in the plan's order.
pub(crate) fn in_order<'a>(
    alloc: Global,
    plan: PlanNo,
    declared: &'a [ArgType],
) -> Result<Vec<&'a ArgType>, AllocError>
    ensures arranged { IfOk result (λ v. types_in v.items ≡ arranged (λ t. t) plan (map arg_type_of declared.now)) }
{
    let mut order = Vec::with_capacity(alloc, declared.len())?;
    for rank in 0..RANKS {
        push_rank(&mut order, plan, rank, declared)?;
    }
    Ok(order)
}
