//! Why fragments aren't those of any calls.

ghost use Rattle.std.specs.Prelude.{◌≡◌};
ghost use Rattle.fl_wire.specs.declared.fault.WireFault.TheVariants.{Memory};
ghost use Rattle.fl_wire.specs.Fault.{number_of};

use std::alloc::{AllocError, AllocFailed};
use thiserror::Error;

/// Why a fragment can't follow those before it.
#[derive(Clone, Copy, Debug, PartialEq, Eq, Drop, Error)]
pub enum WireFault {
    /// A call should begin, and the first bit isn't set: fault 60.
    #[error("no first fragment where one is due")]
    NotFirst,
    /// The first bit is set inside a call: fault 61.
    #[error("a first fragment inside a call")]
    FirstInside,
    /// The interface has no such message, or the call's number changed: fault 62.
    #[error("no such message, or another one inside a call")]
    UnknownMessage,
    /// A reserved bit, the circuit or a byte where nothing stands isn't 0: fault 63.
    #[error("nonzero padding or reserved bit")]
    NotZero,
    /// A number, an enumerator or a string's byte isn't of its type: fault 65.
    #[error("a value outside its type")]
    OutOfType,
    /// A length is above its bound: fault 66.
    #[error("a length over its bound")]
    TooLong,
    /// Memory ran out: fault 99.
    #[error("out of memory")]
    Memory,
}

impl WireFault {
    /// The fault's number, as answers show it.
    pub fn number(self) -> u8
        ensures number { result ≡ number_of self }
    {
        match self {
            WireFault::NotFirst => 60,
            WireFault::FirstInside => 61,
            WireFault::UnknownMessage => 62,
            WireFault::NotZero => 63,
            WireFault::OutOfType => 65,
            WireFault::TooLong => 66,
            WireFault::Memory => 99,
        }
    }
}

impl From<AllocError> for WireFault {
    ghost from_gives = { λ _ e. e ≡ Memory };

    fn from(_error: AllocError) -> WireFault {
        WireFault::Memory
    }
}

impl<T: Drop> From<AllocFailed<T>> for WireFault {
    ghost from_gives = { λ _ e. e ≡ Memory };

    fn from(_error: AllocFailed<T>) -> WireFault {
        WireFault::Memory
    }
}
