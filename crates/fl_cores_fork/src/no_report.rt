//! Why a run stops.

ghost use Rattle.std.specs.Prelude.{◌≡◌};
ghost use Rattle.fl_cores_fork.specs.NoReports.{number_of};

use std::alloc::{AllocError, AllocFailed};
use thiserror::Error;

/// Why a run ends without a report, once its jobs are joined.
#[derive(Clone, Copy, Debug, Error)]
pub enum NoReport {
    /// Out of memory (E99).
    #[error("out of memory")]
    Memory,
    /// A thread doesn't start.
    #[error("a thread doesn't start")]
    Thread,
}

impl NoReport {
    /// The fault's number, 99; of a thread that doesn't start the program's status, 3.
    pub fn number(self) -> u8
        ensures number { result ≡ number_of self }
    {
        match self {
            NoReport::Memory => 99,
            NoReport::Thread => 3,
        }
    }
}

impl From<AllocError> for NoReport {
    fn from(_e: AllocError) -> NoReport {
        NoReport::Memory
    }
}
