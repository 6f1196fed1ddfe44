//! What holds of all code: laws, as the contracts of functions that do nothing.

ghost use Rattle.fl_stub.specs.Structure.{OneStructure};
ghost use Rattle.fl_stub.specs.Meaning.{OneSending, OneTaking};
ghost use Rattle.fl_stub.specs.Given.{GivesWhatTurns, TurnsIntoGiven};
ghost use Rattle.fl_stub.specs.Streams.{OneMark, OneLeaving};

/// Code has one structure, and is of one column.
pub fn law_one_structure()
    ensures structure { OneStructure }
{}

/// Code turns a tape into one list of bytes.
pub fn law_one_sending()
    ensures bytes { OneSending }
{}

/// Code takes one tape from bytes.
pub fn law_one_taking()
    ensures tape { OneTaking }
{}

/// What send code gives is what its meaning says, wherever that says anything.
pub fn law_gives_what_turns()
    ensures moments { GivesWhatTurns }
    ensures whole { TurnsIntoGiven }
{}

/// Receive code has one mark at a byte, whichever payload the bytes before it begin; so bytes that no payload goes on with
/// are wrong in one way.
pub fn law_one_mark()
    ensures mark { OneMark }
    ensures leaving { OneLeaving }
{}
