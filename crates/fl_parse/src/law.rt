//! Laws of parsing.

ghost use Rattle.fl_parse.specs.Outcome.{OneOutcome, OneTree, SomeOutcome};
ghost use Rattle.fl_parse.specs.RoundTrip.{RoundTrip};
ghost use Rattle.fl_parse.specs.Written.{PrintedDerives, PrintedIsText};

/// The tokens of a text have an outcome, a tree or a fault.
pub fn law_some_outcome()
    ensures some { SomeOutcome }
{}

/// The tokens of a text have one outcome at most, and one tree at most.
pub fn law_one_outcome()
    ensures outcome { OneOutcome }
    ensures tree { OneTree }
{}

/// What a tree is printed as is the text of tokens from which the same tree comes, places aside.
pub fn law_printed_tokens()
    ensures derives { PrintedDerives }
    ensures text { PrintedIsText }
{}

/// What the tree of a text is printed as is lexed and parsed to the same tree, places aside, and is no
/// longer than any text of that tree.
pub fn law_round_trip()
    ensures round_trip { RoundTrip }
{}
