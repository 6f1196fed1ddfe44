//! Laws of tapes.

ghost use Rattle.fl_value_data.specs.Plan.{RankByRank};
ghost use Rattle.fl_value_data.specs.Taken.{OneCallOfATape};

/// Fitting calls of one message that have one tape are equal, under either plan: so what [`unflatten`]
/// gives for the tape of a fitting call is that call.
pub fn law_one_call_of_a_tape()
    ensures one { OneCallOfATape }
{}

/// [`RANKS`]: crate::RANKS
pub fn law_rank_by_rank()
    ensures same { RankByRank }
{}
