//! Why jobs aren't joined.

ghost use Rattle.std.specs.Prelude.{◌≡◌};
ghost use Rattle.fl_cores_jobs.specs.Whole.{number_of};

use std::alloc::{AllocError, AllocFailed};
use thiserror::Error;

/// Why jobs aren't joined.
#[derive(Clone, Copy, Debug, PartialEq, Eq, Error)]
pub enum JobFault {
    /// The job at this place, from 1, is refused, with the fault's number; at place 0 a binding of the set-up, of which an end is at no core (E92) or which is
    /// one too many (E94).
    #[error("a job is refused")]
    Refused { number: u8, place: usize },
    /// Out of memory (E99).
    #[error("out of memory")]
    Memory,
}

impl JobFault {
    /// The fault's number.
    pub fn number(self) -> u8
        ensures number { result ≡ number_of self }
    {
        match self {
            JobFault::Refused { number, .. } => number,
            JobFault::Memory => 99,
        }
    }
}

impl From<AllocError> for JobFault {
    fn from(_e: AllocError) -> JobFault {
        JobFault::Memory
    }
}

impl<T: Drop> From<AllocFailed<T>> for JobFault {
    fn from(_e: AllocFailed<T>) -> JobFault {
        JobFault::Memory
    }
}
