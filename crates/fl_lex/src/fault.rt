//! What can be wrong with a text's bytes.

ghost use Rattle.std.specs.Prelude.{◌≡◌};
ghost use Rattle.fl_lex.specs.Outcome.{fault_number, fault_offset};

use crate::lexer::MAX_TEXT;
use std::alloc::AllocError;
use thiserror::Error;

/// Why a text has no tokens, with the byte offset where the fault stands. Each has a number, which
/// transcripts show as `E1` to `E6` and `E99`.
#[derive(Clone, Copy, Debug, PartialEq, Eq, Drop, Error)]
pub enum LexFault {
    /// E1: a byte that begins no token, a `/` that begins no comment among them.
    #[error("no token begins with this byte")]
    NoToken(usize),
    /// E2: a `/*` without its `*/`, from its start.
    #[error("this comment isn't closed")]
    OpenComment(usize),
    /// E3: a `"` without a second one on its line, from its start.
    #[error("this description isn't closed on its line")]
    OpenDescription(usize),
    /// E4: a word of more than 64 bytes, from its start.
    #[error("this word has more than 64 bytes")]
    LongWord(usize),
    /// E5: a number above 1,000,000, from its start.
    #[error("this number is above 1,000,000")]
    LargeNumber(usize),
    /// E6: a text of more than 65,536 bytes, found before all other faults, at that offset.
    #[error("the text has more than 65,536 bytes")]
    LongText,
    /// E99: out of memory.
    #[error("out of memory")]
    Memory,
}

impl LexFault {
    /// The fault's number: 1 to 6, or 99.
    pub fn number(&self) -> u8
        ensures number { result ≡ fault_number self.now }
    {
        match self {
            LexFault::NoToken(_) => 1,
            LexFault::OpenComment(_) => 2,
            LexFault::OpenDescription(_) => 3,
            LexFault::LongWord(_) => 4,
            LexFault::LargeNumber(_) => 5,
            LexFault::LongText => 6,
            LexFault::Memory => 99,
        }
    }

    /// The byte offset where the fault stands; none where memory is refused.
    pub fn offset(&self) -> Option<usize>
        ensures offset { result ≡ fault_offset self.now }
    {
        match self {
            LexFault::NoToken(at)
            | LexFault::OpenComment(at)
            | LexFault::OpenDescription(at)
            | LexFault::LongWord(at)
            | LexFault::LargeNumber(at) => Some(*at),
            LexFault::LongText => Some(MAX_TEXT),
            LexFault::Memory => None,
        }
    }
}
