//! What can be wrong with a text's tokens.

ghost use Rattle.std.specs.Prelude.{◌≡◌};
ghost use Rattle.fl_parse.specs.Outcome.{fault_number, fault_offset};

use thiserror::Error;

/// Why tokens are no interface, with the byte offset where the fault stands. Each has a number, which
/// transcripts show as `E7`, `E8` and `E99`.
#[derive(Clone, Copy, Debug, PartialEq, Eq, Drop, Error)]
pub enum ParseFault {
    /// E7: a token that can't stand where it does, from its start; or the text's end where a token is
    /// missing.
    #[error("this isn't expected here")]
    NotExpected(usize),
    /// E8: a token after the interface, from its start.
    #[error("this stands after the interface")]
    AfterInterface(usize),
    /// E99: out of memory.
    #[error("out of memory")]
    Memory,
}

impl ParseFault {
    /// The fault's number: 7, 8 or 99.
    pub fn number(&self) -> u8
        ensures number { result ≡ fault_number self.now }
    {
        match self {
            ParseFault::NotExpected(_) => 7,
            ParseFault::AfterInterface(_) => 8,
            ParseFault::Memory => 99,
        }
    }

    /// The byte offset where the fault stands; none where memory is refused.
    pub fn offset(&self) -> Option<usize>
        ensures offset { result ≡ fault_offset self.now }
    {
        match self {
            ParseFault::NotExpected(at) | ParseFault::AfterInterface(at) => Some(*at),
            ParseFault::Memory => None,
        }
    }
}
