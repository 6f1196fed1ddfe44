//! States: how the parts of a state fit together.

ghost use Rattle.fl_world_refines.specs.StateLaws.{FirstIsInTurn, NextIsWritten, SmallNumbers};

/// What stands first for an end, in its queue or on its ring, is the fragment next in turn of the calls that it takes.
pub fn law_first_is_in_turn()
    ensures turn { FirstIsInTurn }
{}

/// The label that an end writes next stands, where it goes, for the next fragment of all the end's calls.
pub fn law_next_is_written()
    ensures stands { NextIsWritten }
{}

/// The numbers of circuits have 16 bits, and none is 0.
pub fn law_numbers_are_small()
    ensures small { SmallNumbers }
{}
