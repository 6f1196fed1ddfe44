//! Faults of texts in words, for people.

ghost use Rattle.std.specs.Prelude.{◌≡◌, option_map};
ghost use Rattle.fl_check.specs.Explained.{text_fault_number, text_fault_offset, place_of, place_in};

use crate::fault::CheckFault;
use crate::position::Position;
use fl_lex::LexFault;
use fl_parse::ParseFault;
use std::fmt;
use thiserror::Error;

/// Why a text is no interface: its bytes, its tokens or its declarations.
#[derive(Clone, Copy, Debug, PartialEq, Eq, Error)]
pub enum TextFault {
    /// E1 to E6.
    #[error(transparent)]
    Lex(#[from] LexFault),
    /// E7 and E8.
    #[error(transparent)]
    Parse(#[from] ParseFault),
    /// E10 to E21.
    #[error(transparent)]
    Check(#[from] CheckFault),
}

impl TextFault {
    /// The fault's number: 1 to 8, 10 to 21, or 99.
    pub fn number(&self) -> u8
        ensures number { result ≡ text_fault_number self.now }
    {
        match self {
            TextFault::Lex(fault) => fault.number(),
            TextFault::Parse(fault) => fault.number(),
            TextFault::Check(fault) => fault.number(),
        }
    }

    /// The byte offset where the fault stands; none where memory is refused.
    pub fn offset(&self) -> Option<usize>
        ensures offset { result ≡ text_fault_offset self.now }
    {
        match self {
            TextFault::Lex(fault) => fault.offset(),
            TextFault::Parse(fault) => fault.offset(),
            TextFault::Check(fault) => fault.offset(),
        }
    }

    /// The fault in words, with its place in the text that it is of.
    pub fn explain(self, text: &[u8]) -> Explained
        ensures fault { result.fault ≡ self }
        ensures place { option_map place_of result.place ≡ option_map (place_in text.now) (text_fault_offset self) }
    {
        let place = match self.offset() {
            Some(offset) => Some(Position::of(text, offset)),
            None => None,
        };
        Explained { fault: self, place }
    }
}

/// A fault in words with its place; its text is as `line 1, column 25: messages carry no capabilities`.
#[derive(Clone, Copy, Debug, PartialEq, Eq)]
pub struct Explained {
    pub fault: TextFault,
    pub place: Option<Position>,
}

impl fmt::Display for Explained {
    fn fmt<W: fmt::Write>(&self, f: &mut fmt::Formatter<W>) -> fmt::Result {
        match self.place {
            Some(place) => write!(f, "{}: {}", place, self.fault),
            None => write!(f, "{}", self.fault),
        }
    }
}
