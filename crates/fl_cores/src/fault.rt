//! Why there is no report.

ghost use Rattle.std.specs.Prelude.{◌≡◌};
ghost use Rattle.fl_cores.specs.declared.fault.CoresFault.TheVariants.{Memory as OutOfMemory};
ghost use Rattle.fl_cores.specs.Faults.{by_boot, by_joining, by_run, number_of};

use fl_cores_jobs::JobFault;
use fl_cores_parts::RunFault;
use fl_world::BootFault;
use std::alloc::{AllocError, AllocFailed};
use thiserror::Error;

/// Why there is no report of a run of cores. Every thread was joined then.
#[derive(Clone, Copy, Debug, PartialEq, Eq, Error)]
pub enum CoresFault {
    /// The event of the set-up at this place, from 1, is refused, with the fault's number; at place 0 the number of cores.
    #[error("the set-up is refused")]
    Setup { number: u8, place: usize },
    /// The job at this place, from 1, is refused, with the fault's number.
    #[error("a job is refused")]
    Job { number: u8, place: usize },
    /// Out of memory (E99).
    #[error("out of memory")]
    Memory,
    /// A thread doesn't start.
    #[error("a thread doesn't start")]
    Thread,
}

impl CoresFault {
    /// The fault's number; of a thread that doesn't start the program's status, 3.
    pub fn number(self) -> u8
        ensures number { result ≡ number_of self }
    {
        match self {
            CoresFault::Setup { number, .. } => number,
            CoresFault::Job { number, .. } => number,
            CoresFault::Memory => 99,
            CoresFault::Thread => 3,
        }
    }
}

impl From<AllocError> for CoresFault {
    ghost from_gives = { λ _ e. e ≡ OutOfMemory };

    fn from(_e: AllocError) -> CoresFault {
        CoresFault::Memory
    }
}

impl From<BootFault> for CoresFault {
    ghost from_gives = { λ fault e. e ≡ by_boot fault };

    fn from(fault: BootFault) -> CoresFault {
        match fault {
            BootFault::Refused { number, place } => CoresFault::Setup { number, place },
            BootFault::Memory => CoresFault::Memory,
        }
    }
}

impl From<JobFault> for CoresFault {
    ghost from_gives = { λ fault e. e ≡ by_joining fault };

    fn from(fault: JobFault) -> CoresFault {
        match fault {
            JobFault::Refused { number, place } => CoresFault::Job { number, place },
            JobFault::Memory => CoresFault::Memory,
        }
    }
}

impl From<RunFault> for CoresFault {
    ghost from_gives = { λ fault e. e ≡ by_run fault };

    fn from(fault: RunFault) -> CoresFault {
        match fault {
            RunFault::Refused { number, place } => CoresFault::Job { number, place },
            RunFault::Memory => CoresFault::Memory,
            RunFault::Thread => CoresFault::Thread,
        }
    }
}
