//! Why a run ends without a report.

ghost use Rattle.std.specs.Prelude.{◌≡◌};
ghost use Rattle.fl_cores_parts.specs.declared.fault.RunFault.TheVariants.{Memory as OutOfMemory};
ghost use Rattle.fl_cores_parts.specs.Faults.{by_job, by_stop, number_of};

use fl_cores_fork::NoReport;
use fl_cores_jobs::JobFault;
use thiserror::Error;

/// Why there is no report of a run of parts. Every thread was joined then.
#[derive(Clone, Copy, Debug, Error)]
pub enum RunFault {
    /// The job at this place, from 1, is refused, with the fault's number; at place 0 a binding of the set-up.
    #[error("a job is refused")]
    Refused { number: u8, place: usize },
    /// Out of memory (E99).
    #[error("out of memory")]
    Memory,
    /// A thread doesn't start.
    #[error("a thread doesn't start")]
    Thread,
}

impl RunFault {
    /// The fault's number; of a thread that doesn't start the program's status, 3.
    pub fn number(self) -> u8
        ensures number { result ≡ number_of self }
    {
        match self {
            RunFault::Refused { number, .. } => number,
            RunFault::Memory => 99,
            RunFault::Thread => 3,
        }
    }
}

impl From<NoReport> for RunFault {
    ghost from_gives = { λ stop e. e ≡ by_stop stop };

    fn from(stop: NoReport) -> RunFault {
        match stop {
            NoReport::Memory => RunFault::Memory,
            NoReport::Thread => RunFault::Thread,
        }
    }
}

impl From<JobFault> for RunFault {
    ghost from_gives = { λ fault e. e ≡ by_job fault };

    fn from(fault: JobFault) -> RunFault {
        match fault {
            JobFault::Refused { number, place } => RunFault::Refused { number, place },
            JobFault::Memory => RunFault::Memory,
        }
    }
}
