//! Why a run ends early.

ghost use Rattle.std.specs.Prelude.{◌≡◌};

use thiserror::Error;

/// Why a run of cores ends early.
#[derive(Clone, Copy, Debug, Error)]
pub enum CoreRunFault {
    /// Out of memory (E99).
    #[error("out of memory")]
    Memory,
}

impl CoreRunFault {
    /// The fault's number.
    pub fn number(self) -> u8
        ensures number { result ≡ 99 }
    {
        match self {
            CoreRunFault::Memory => 99,
        }
    }
}
