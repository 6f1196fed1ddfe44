//! Why a call of a board is refused.

ghost use Rattle.std.specs.Prelude.{◌≡◌};
ghost use Rattle.fl_core.specs.BoardFaults.{fault_number};

use thiserror::Error;

/// Why nothing was done: the board is as it was.
#[derive(Clone, Copy, Debug, PartialEq, Eq, Drop, Error)]
pub enum BoardFault {
    /// The end isn't bound yet (E43).
    #[error("the end isn't bound yet")]
    NotBound,
    /// The end's channel is registered already (E50).
    #[error("the end's channel is registered already")]
    Registered,
    /// The end's channel isn't registered (E51).
    #[error("the end's channel is not registered")]
    NotRegistered,
    /// The dispatcher has 1,024 ends (E54).
    #[error("the dispatcher has 1,024 ends")]
    TooManyEnds,
    /// The end failed earlier: it was given a fragment that can't follow those before it (E64).
    #[error("the end failed earlier")]
    Failed,
    /// Out of memory (E99).
    #[error("out of memory")]
    Memory,
}

impl BoardFault {
    /// The fault's number, as answers show it.
    pub fn number(self) -> u8
        ensures number { result ≡ fault_number self }
    {
        match self {
            BoardFault::NotBound => 43,
            BoardFault::Registered => 50,
            BoardFault::NotRegistered => 51,
            BoardFault::TooManyEnds => 54,
            BoardFault::Failed => 64,
            BoardFault::Memory => 99,
        }
    }
}
