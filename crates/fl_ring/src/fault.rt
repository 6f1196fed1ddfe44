//! Why no ring was made.

ghost use Rattle.std.specs.Prelude.{◌≡◌};
ghost use Rattle.fl_ring.specs.Faults.{ring_number};

use thiserror::Error;

/// Why no ring was made.
#[derive(Clone, Copy, Debug, PartialEq, Eq, Error)]
pub enum RingFault {
    /// A ring may not have this number of slots (E32).
    #[error("a ring can't have this number of slots")]
    BadSize,
    /// There is no memory for the slots (E99).
    #[error("no memory for the slots of a ring")]
    Memory,
}

impl RingFault {
    /// The fault's number, 32 or 99.
    pub fn number(self) -> u8
        ensures number { result ≡ ring_number self }
    {
        match self {
            RingFault::BadSize => 32,
            RingFault::Memory => 99,
        }
    }
}
