//! Worked rows of the machine: events and what they are answered, told by the definitions alone.

ghost use Rattle.test_scripts.specs.Rows.{IsRow};
ghost use Rattle.test_scripts.specs.Rows as rows;

/// `one_call` of `specs/Rows`.
pub fn one_call()
    ensures row { IsRow rows.one_call }
{}

/// `two_fragments` of `specs/Rows`.
pub fn two_fragments()
    ensures row { IsRow rows.two_fragments }
{}

/// `refused_calls` of `specs/Rows`.
pub fn refused_calls()
    ensures row { IsRow rows.refused_calls }
{}

/// `one_reply` of `specs/Rows`.
pub fn one_reply()
    ensures row { IsRow rows.one_reply }
{}

/// `sixteen_wait` of `specs/Rows`.
pub fn sixteen_wait()
    ensures row { IsRow rows.sixteen_wait }
{}

/// `ring_fills` of `specs/Rows`.
pub fn ring_fills()
    ensures row { IsRow rows.ring_fills }
{}

/// `ring_goes_round` of `specs/Rows`.
pub fn ring_goes_round()
    ensures row { IsRow rows.ring_goes_round }
{}

/// `waitset` of `specs/Rows`.
pub fn waitset()
    ensures row { IsRow rows.waitset }
{}

/// `three_cores` of `specs/Rows`.
pub fn three_cores()
    ensures row { IsRow rows.three_cores }
{}

/// `refused_route` of `specs/Rows`.
pub fn refused_route()
    ensures row { IsRow rows.refused_route }
{}

/// `two_circuits` of `specs/Rows`.
pub fn two_circuits()
    ensures row { IsRow rows.two_circuits }
{}
