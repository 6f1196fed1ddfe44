//! What code makes of packed tapes: laws, as the contracts of functions that do nothing.

ghost use Rattle.fl_stub_steps.specs.Spreading.{SpreadsPacked};
ghost use Rattle.fl_stub_steps.specs.Taking.{TakesBack};

/// Of the packed form of a tape code makes the bytes that it makes of the tape.
pub fn law_spreads_packed()
    ensures spreads { SpreadsPacked }
{}

/// From the bytes that code turns a tape into, steps that mean the code take the packed form of the tape.
pub fn law_takes_back()
    ensures takes { TakesBack }
{}
