//! Why the reading of a cores file stops.

ghost use Rattle.std.specs.Prelude.{◌≡◌};
ghost use Rattle.fl_script_lines.specs.Faults.{refusal_of};
ghost use Rattle.fl_cores_file.specs.declared.stop.CoresLineFault.TheVariants.{Memory as OutOfMemory};
ghost use Rattle.fl_cores_file.specs.Verdicts.{stop_of, number_of};

use fl_script_lines::LineFault;
use std::alloc::{AllocError, AllocFailed};
use thiserror::Error;

/// Why the reading of a cores file stops at a line.
#[derive(Clone, Copy, Debug, PartialEq, Eq, Error)]
pub enum CoresLineFault {
    /// The line is refused, with the fault's number.
    #[error("a line is refused")]
    Refused(u8),
    /// Memory was refused (E99).
    #[error("out of memory")]
    Memory,
}

impl CoresLineFault {
    /// The fault's number.
    pub fn number(self) -> u8
        ensures number { result ≡ number_of self }
    {
        match self {
            CoresLineFault::Refused(number) => number,
            CoresLineFault::Memory => 99,
        }
    }
}

impl From<AllocError> for CoresLineFault {
    ghost from_gives = { λ _ e. e ≡ OutOfMemory };

    fn from(_e: AllocError) -> CoresLineFault {
        CoresLineFault::Memory
    }
}

impl<T: Drop> From<AllocFailed<T>> for CoresLineFault {
    ghost from_gives = { λ _ e. e ≡ OutOfMemory };

    fn from(_e: AllocFailed<T>) -> CoresLineFault {
        CoresLineFault::Memory
    }
}

// Stops at a command that asks nothing.
pub(crate) fn stop_by(fault: LineFault) -> CoresLineFault
    ensures stop { result ≡ stop_of (refusal_of fault) }
{
    match fault.refusal() {
        Some(number) => CoresLineFault::Refused(number),
        None => CoresLineFault::Memory,
    }
}
