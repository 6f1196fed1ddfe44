//! Laws of lexing.

ghost use Rattle.fl_lex.specs.Joined.{JoinedLexes, JoinedIsShortest, NumberIsShortest};
ghost use Rattle.fl_lex.specs.Outcome.{OneOutcome, SomeOutcome};

/// Each text has an outcome, its tokens or its first fault.
pub fn law_some_outcome()
    ensures some { SomeOutcome }
{}

/// At most one outcome stands for a text: what [`crate::lex`] answers is the only answer.
pub fn law_one_outcome()
    ensures one { OneOutcome }
{}

/// Tokens written one behind another, with one blank where two would run into one and no other, are
/// lexed as the same tokens, where the text isn't too long. No text of these tokens is shorter, and no
/// digits of a number are fewer than those without zeros before them.
pub fn law_joined_tokens()
    ensures lexed { JoinedLexes }
    ensures shortest { JoinedIsShortest }
    ensures number { NumberIsShortest }
{}
