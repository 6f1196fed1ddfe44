//! The plan's order of arguments: an argument's rank, and arguments from that order back into the declared one.

ghost use Rattle.std.specs.Prelude.{◌≡◌, ◌≤◌, length, map, nat_lt, IfOk};
ghost use Rattle.std.specs.List.{count_by};
ghost use Rattle.fl_interface.specs.Interface.{arg_type_of, type_of};
ghost use Rattle.fl_interface.specs.Sizes.{align_of};
ghost use Rattle.fl_value_data.specs.Value.{datum_of};
ghost use Rattle.fl_value_data.specs.Plan.{arranged, fixed_rank, rank_of, rising, never_falls};
ghost use Rattle.fl_value_data.specs.Tape.{beside, kind, values_of};

use crate::value::{PlanNo, Value};
use fl_interface::{ArgType, FixedType};
use std::alloc::{AllocError, Global};

/// How many ranks of arguments there may be: a plan lays out the arguments of rank 0 as declared, then those of rank 1,
/// and so on. Under plan 1 all have rank 0.
pub const RANKS: u8 = 5;

/// The rank of fixed arguments of an alignment under plan 2.
fn fixed_rank(align: u32) -> u8
    ensures same { result ≡ fixed_rank align }
{
    match align {
        8 => 0,
        4 => 1,
        2 => 2,
        _ => 3,
    }
}

/// The rank of a fixed argument under plan 2. A scalar's alignment is its size.
fn rank_of_fixed(fixed: &FixedType) -> u8
    ensures same { result ≡ fixed_rank (align_of (type_of fixed.now)) }
{
    match fixed {
        FixedType::Scalar(scalar) => fixed_rank(scalar.size()),
        _ => fixed_rank(fixed.alignment()),
    }
}

impl PlanNo {
    /// The rank of an argument, below [`RANKS`]: under plan 2 fixed arguments by falling alignment, then strings and sized
    /// arrays. It goes over the fields of a struct.
    pub fn rank_of(self, argument: &ArgType) -> u8
        ensures same { result ≡ rank_of self (arg_type_of argument.now) }
    {
        match self {
            PlanNo::One => 0,
            PlanNo::Two => match argument {
                ArgType::Fixed(fixed) => rank_of_fixed(fixed),
                _ => 4,
            },
        }
    }

    /// Whether the arguments' ranks never fall: then the plan keeps the declared order, as where all are of one rank.
    pub(crate) fn never_falls(self, arguments: &[ArgType]) -> bool
        ensures same { result ≡ never_falls self (map arg_type_of arguments.now) }
    {
        match self {
            PlanNo::One => true,
            PlanNo::Two => is_rising(arguments),
        }
    }
}

/// Whether no argument's rank under plan 2 is below that of one before it.
fn is_rising(arguments: &[ArgType]) -> bool
    ensures same { result ≡ rising (λ t. t) 0 (map arg_type_of arguments.now) }
{
    let mut least = 0;
    for argument in arguments {
        let rank = PlanNo::Two.rank_of(argument);
        if rank < least {
            return false;
        }
        least = rank;
    }
    true
}

/// How many of these arguments plan 2 puts before those of a rank.
fn count_before(rank: u8, arguments: &[ArgType]) -> usize
    ensures same { result ≡ count_by (λ t. nat_lt (rank_of PlanNo.Two t) rank) (map arg_type_of arguments.now) }
    ensures most { result ≤ length arguments.now }
{
    let mut count = 0;
    for argument in arguments {
        if PlanNo::Two.rank_of(argument) < rank {
            count += 1;
        }
    }
    count
}

/// The arguments' values in declared order, from those in the plan's order.
///
/// An argument's value stands behind those of the later arguments that the plan puts before it: the earlier
/// ones have been taken out. `kept` tells whether the plan's order is the declared one.
pub(crate) fn declared_order(
    alloc: Global,
    plan: PlanNo,
    kept: bool,
    arguments: &[ArgType],
    laid_out: Vec<Value>,
) -> Result<Vec<Value>, AllocError>
    requires kept { kept ≡ never_falls plan (map arg_type_of arguments.now) }
    requires as_many { length laid_out.items ≡ length arguments.now }
    ensures many { IfOk result (λ values. length values.items ≡ length arguments.now) }
    ensures back { IfOk result (λ values. values_of (arranged kind plan (beside arguments.now values.items)) ≡ map datum_of laid_out.items) }
{
    if kept {
        return Ok(laid_out);
    }
    let mut left = laid_out;
    let mut values = Vec::with_capacity(alloc, arguments.len())?;
    for (index, argument) in arguments.iter().enumerate() {
        let place = count_before(PlanNo::Two.rank_of(argument), &arguments[index + 1..]);
        values.push(left.remove(place))?;
    }
    Ok(values)
}
