//! Why a text isn't a call, and why a call doesn't fit.

ghost use Rattle.std.specs.Prelude.{◌≡◌};
ghost use Rattle.fl_value.specs.declared.fault.ValueFault.TheVariants.{Memory};
ghost use Rattle.fl_value.specs.Fault.{number_of};

use std::alloc::{AllocError, AllocFailed};
use thiserror::Error;

/// Why there is no call.
#[derive(Clone, Copy, Debug, PartialEq, Eq, Drop, Error)]
pub enum ValueFault {
    /// The text isn't a call's: fault 90.
    #[error("not a call")]
    NotACall,
    /// The interface has no message of this name: fault 41.
    #[error("no such message")]
    NoSuchMessage,
    /// The arguments don't have the message's types: fault 42.
    #[error("the arguments don't fit the message")]
    DoesNotFit,
    /// Memory ran out: fault 99.
    #[error("out of memory")]
    Memory,
}

impl ValueFault {
    /// The fault's number, as answers show it.
    pub fn number(self) -> u8
        ensures number { result ≡ number_of self }
    {
        match self {
            ValueFault::NotACall => 90,
            ValueFault::NoSuchMessage => 41,
            ValueFault::DoesNotFit => 42,
            ValueFault::Memory => 99,
        }
    }
}

impl From<AllocError> for ValueFault {
    ghost from_gives = { λ _ e. e ≡ Memory };

    fn from(_error: AllocError) -> ValueFault {
        ValueFault::Memory
    }
}

impl<T: Drop> From<AllocFailed<T>> for ValueFault {
    ghost from_gives = { λ _ e. e ≡ Memory };

    fn from(_error: AllocFailed<T>) -> ValueFault {
        ValueFault::Memory
    }
}
