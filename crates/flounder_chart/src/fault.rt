//! Why there is no drawing.

ghost use Rattle.std.specs.Prelude.{◌≡◌};
ghost use Rattle.flounder_chart.specs.Faults.{status_of};

use std::alloc::AllocError;
use thiserror::Error;

/// Why a script isn't drawn.
#[derive(Clone, Copy, Debug, Error)]
pub enum ChartFault {
    /// The script has more bytes than `exec` runs.
    #[error("the script is over 1,048,576 bytes; exec refuses it whole (E91)")]
    TooLong,
    /// More rows than a drawing has.
    #[error("over 5,000 lines to draw; choose some by --lines A-B")]
    TooManyRows,
    /// Memory was refused.
    #[error("out of memory")]
    Memory,
}

impl ChartFault {
    /// The status with which a program ends that met it.
    pub fn status(self) -> u8
        ensures status { result ≡ status_of self }
    {
        match self {
            ChartFault::TooLong => 2,
            ChartFault::TooManyRows => 2,
            ChartFault::Memory => 3,
        }
    }
}

impl From<AllocError> for ChartFault {
    ghost use Rattle.flounder_chart.specs.declared.fault.ChartFault.TheVariants.{Memory};

    ghost from_gives = { λ _ e. e ≡ Memory };

    fn from(_error: AllocError) -> ChartFault {
        ChartFault::Memory
    }
}
