//! The arguments of a message in a plan's order.

ghost use Rattle.std.specs.Prelude.{◌≡◌, ◌≤◌, ◌++◌, ◌^◌, ℕ, Some, map, length, true, IfOk, OnOk};
ghost use Rattle.std.specs.List.{list_all};
ghost use Rattle.fl_interface.specs.Interface.{arg_type_of, message_of};
ghost use Rattle.fl_interface.specs.Limits.{are_arguments_within, is_message_within};
ghost use Rattle.fl_value_data.specs.Plan.{rank_of, by_ranks};
ghost use Rattle.fl_value_data.specs.Value.{datum_of};
ghost use Rattle.fl_layout.specs.declared.extent.Fill.TheVariants.{Full};
ghost use Rattle.fl_layout.specs.Extents.{placing, typed, numbered, placed_of, placed_of_rank, are_within};
ghost use Rattle.fl_layout.specs.Extents.{end_of_all, filled_by, filled_up, is_short, IsFixedLength};

use crate::extent::{Fill, PlacedArg};
use crate::filling::{fixed_length, length_with, limit};
use crate::measure::extent;
use fl_interface::{ArgType, Message};
use fl_value_data::{PlanNo, RANKS, Value};
use std::alloc::{AllocError, Global};

/// What a plan keeps of a message: its arguments in the plan's order, and what would be found from them at each call.
#[derive(Debug, Drop)]
pub(crate) struct MessagePlan {
    pub placed: Vec<PlacedArg>,
    // The bytes of each call's payload, where no argument varies.
    fixed: Option<usize>,
    // The most bytes that a payload has.
    greatest: usize,
    ghost few: { length placed.items ≤ 160 },
    ghost within: { are_within placed.items ≡ true },
    ghost alike: { (n : ℕ) → fixed ≡ Some n → IsFixedLength placed.items n },
    ghost most: { greatest ≡ end_of_all 0 1 (map (filled_up Full) placed.items) },
    ghost small: { greatest ≤ 2 ^ 40 },
}

impl MessagePlan {
    /// How many bytes the payload of a call with these values has.
    #[inline(always)]
    pub(crate) fn length_with(&self, values: &[Value]) -> usize
        requires short { list_all (is_short (map datum_of values.now)) self.now.placed.items ≡ true }
        ensures exact { result ≡ end_of_all 0 1 (map (filled_by (map datum_of values.now)) self.now.placed.items) }
    {
        match self.fixed {
            Some(length) => length,
            None => length_with(&self.placed, values),
        }
    }

    /// The most bytes that a payload has.
    pub(crate) fn greatest(&self) -> usize
        ensures exact { result ≡ end_of_all 0 1 (map (filled_up Full) self.now.placed.items) }
        ensures small { result ≤ 2 ^ 40 }
    {
        self.greatest
    }
}

// Appends the arguments of a rank with their numbers and extents, as declared.
fn place_rank(
    arguments: &[ArgType],
    plan: PlanNo,
    rank: u8,
    order: &mut Vec<PlacedArg>,
) -> Result<(), AllocError>
    requires within { are_arguments_within (map arg_type_of arguments.now) ≡ true }
    requires few { length arguments.now ≤ 32 }
    ensures placed { OnOk result (order.new.items ≡ order.old.items ++ placed_of_rank plan rank (map arg_type_of arguments.now)) }
{
    for (index, argument) in arguments.iter().enumerate() {
        if plan.rank_of(argument) != rank {
            continue;
        }
        order.push(PlacedArg {
            argument: index as u32,
            extent: extent(argument),
        })?;
    }
    Ok(())
}

// The arguments with their numbers and extents, rank by rank.
fn place_by_ranks(
    alloc: Global,
    arguments: &[ArgType],
    plan: PlanNo,
) -> Result<Vec<PlacedArg>, AllocError>
    requires within { are_arguments_within (map arg_type_of arguments.now) ≡ true }
    requires few { length arguments.now ≤ 32 }
    ensures placed { IfOk result (λ v. v.items ≡ map placing (by_ranks typed plan (numbered (map arg_type_of arguments.now)))) }
{
    let mut order = Vec::with_capacity(alloc, arguments.len())?;
    for rank in 0..RANKS {
        place_rank(arguments, plan, rank, &mut order)?;
    }
    Ok(order)
}

/// What a plan keeps of a message.
pub(crate) fn plan_message(
    alloc: Global,
    message: &Message,
    plan: PlanNo,
) -> Result<MessagePlan, AllocError>
    requires within { is_message_within (message_of message.now) ≡ true }
    ensures placed { IfOk result (λ m. m.placed.items ≡ placed_of plan (message_of message.now)) }
{
    let placed = place_by_ranks(alloc, &message.args, plan)?;
    Ok(MessagePlan {
        fixed: fixed_length(&placed),
        greatest: limit(&placed, Fill::Full),
        placed,
    })
}
