//! Why a call of the table of names is refused.

ghost use Rattle.std.specs.Prelude.{◌≡◌};
ghost use Rattle.fl_nameserv.specs.Faults.{fault_number};
ghost use Rattle.fl_nameserv.specs.declared.fault.NameFault.TheVariants.{Memory};

use std::alloc::{AllocError, AllocFailed};
use thiserror::Error;

/// Why nothing was done: the table is as it was.
#[derive(Clone, Copy, Debug, PartialEq, Eq, Error)]
pub enum NameFault {
    /// No service has the name, or the interface reference (E70).
    #[error("no service of this name or reference")]
    Unknown,
    /// A service has the name already (E71).
    #[error("the name is taken")]
    Taken,
    /// There is no memory for one more service (E99).
    #[error("no memory for one more service")]
    Memory,
}

impl NameFault {
    /// The fault's number, 70, 71 or 99.
    pub fn number(self) -> u8
        ensures number { result ≡ fault_number self }
    {
        match self {
            NameFault::Unknown => 70,
            NameFault::Taken => 71,
            NameFault::Memory => 99,
        }
    }
}

impl From<AllocError> for NameFault {
    ghost from_gives = { λ _ e. e ≡ Memory };

    fn from(_error: AllocError) -> NameFault {
        NameFault::Memory
    }
}

impl<T: Drop> From<AllocFailed<T>> for NameFault {
    ghost from_gives = { λ _ e. e ≡ Memory };

    fn from(_error: AllocFailed<T>) -> NameFault {
        NameFault::Memory
    }
}
