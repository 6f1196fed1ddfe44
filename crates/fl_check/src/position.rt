//! Places of a text as people count them.

ghost use Rattle.std.specs.Prelude.{◌≡◌};
ghost use Rattle.fl_check.specs.Position.{line_at, column_at};

use std::fmt;

const LINE_FEED: u8 = 10;

/// A place of a text: its line, and its column in bytes from the line's start, both from 1.
#[derive(Clone, Copy, Debug, PartialEq, Eq)]
pub struct Position {
    pub line: usize,
    pub column: usize,
}

impl Position {
    /// The place of a byte offset in a text. An offset past the text's end has the end's place.
    pub fn of(text: &[u8], offset: usize) -> Position
        ensures line { result.line ≡ line_at text.now offset }
        ensures column { result.column ≡ column_at text.now offset }
    {
        let before = &text[..offset.min(text.len())];
        let mut line = 1;
        let mut column = 1;
        for byte in before {
            if *byte == LINE_FEED {
                line += 1;
                column = 1;
            } else {
                column += 1;
            }
        }
        Position { line, column }
    }
}

impl fmt::Display for Position {
    fn fmt<W: fmt::Write>(&self, f: &mut fmt::Formatter<W>) -> fmt::Result {
        write!(f, "line {}, column {}", self.line, self.column)
    }
}
