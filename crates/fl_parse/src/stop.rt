//! Why a part of a text was not read.

ghost use Rattle.std.specs.Prelude.{◌≡◌};
ghost use Rattle.fl_parse.specs.declared.stop.ParseStop.TheVariants.{Memory};

use fl_lex::Token;
use std::alloc::{AllocError, AllocFailed};

/// What stopped the reading of a part.
#[derive(Drop)]
pub enum ParseStop<'t, 'a> {
    /// The first of these tokens cannot stand where it does; where there is none, the text ends early.
    Unexpected(&'t [Token<'a>]),
    /// Memory ran out.
    Memory,
}

impl From<AllocError> for ParseStop<'_, '_> {
    ghost from_gives = { λ _ e. e ≡ Memory };

    fn from(_e: AllocError) -> Self {
        ParseStop::Memory
    }
}

impl<T: Drop> From<AllocFailed<T>> for ParseStop<'_, '_> {
    ghost from_gives = { λ _ e. e ≡ Memory };

    fn from(_e: AllocFailed<T>) -> Self {
        ParseStop::Memory
    }
}
