//! Why a call of a waitset is refused.

ghost use Rattle.std.specs.Prelude.{◌≡◌};
ghost use Rattle.fl_waitset.specs.Faults.{fault_number};

use thiserror::Error;

/// Why nothing was done: the waitset is as it was.
#[derive(Clone, Copy, Debug, PartialEq, Eq, Error)]
pub enum WaitFault {
    /// The channel is registered already (E50).
    #[error("the channel is registered already")]
    Registered,
    /// The channel is not registered (E51).
    #[error("the channel is not registered")]
    NotRegistered,
    /// No channel is pending, and none is polled (E52).
    #[error("no channel waits to be looked at")]
    NoEvent,
    /// The waitset has no channel of this number (E53).
    #[error("no such channel")]
    NoChannel,
    /// A waitset may not have so many channels (E54).
    #[error("over 1,024 channels")]
    TooMany,
    /// There is no memory for the channels (E99).
    #[error("no memory for the channels of a waitset")]
    Memory,
}

impl WaitFault {
    /// The fault's number, 50 to 54 or 99.
    pub fn number(self) -> u8
        ensures number { result ≡ fault_number self }
    {
        match self {
            WaitFault::Registered => 50,
            WaitFault::NotRegistered => 51,
            WaitFault::NoEvent => 52,
            WaitFault::NoChannel => 53,
            WaitFault::TooMany => 54,
            WaitFault::Memory => 99,
        }
    }
}
