//! What runs of the compiler's code give: laws, as the contracts of functions that do nothing.

ghost use Rattle.fl_machine.specs.Laws.{SendsFragments, SetsCircuits, KeepsMeanings};
ghost use Rattle.fl_machine.specs.Rounds.{TakesFragments};

/// A send run of a message's code with the tape of a fitting call gives the call's fragments, on the run's circuit.
pub fn law_sends_fragments()
    ensures sends { SendsFragments }
{}

/// A receive run that is inside no call and is fed the fragments of a fitting call, whatever their epochs and the counts
/// that they tell, answers `Part` to all but the last, then `Whole`, and what is whole is that call.
pub fn law_takes_fragments()
    ensures takes { TakesFragments }
{}

/// The fragments of a call on a circuit are its fragments on another once their circuit is set to that one, and fragments
/// that mean the call, whatever their epochs and the counts told, mean it there. So what a send run gives for a circuit a
/// receive run takes once the circuit is set to 0 (`takes_fragments`).
pub fn law_sets_circuits()
    ensures sets { SetsCircuits }
    ensures means { KeepsMeanings }
{}
