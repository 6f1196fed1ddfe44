//! Why a call of an end is refused.

ghost use Rattle.std.specs.Prelude.{◌≡◌};
ghost use Rattle.fl_endpoint.specs.Faults.{fault_number};

use fl_wire::WireFault;
use thiserror::Error;

/// Why a call of an end is refused. But for [`EndFault::Wire`], which the end remembers, the end is as it was.
#[derive(Clone, Copy, Debug, PartialEq, Eq, Drop, Error)]
pub enum EndFault {
    /// The link has carried as many fragments as it ever will (E33).
    #[error("the link has carried as many fragments as it can count")]
    Spent,
    /// A call is in transmission (E40).
    #[error("a call is in transmission")]
    Busy,
    /// The interface has no such message (E41).
    #[error("no such message")]
    UnknownMessage,
    /// The arguments don't have the message's types; of a rule, the two messages' types differ (E42).
    #[error("the arguments don't fit")]
    Misfit,
    /// The end isn't bound yet (E43).
    #[error("the end isn't bound yet")]
    NotBound,
    /// A fragment that can't follow those before it came earlier (E64).
    #[error("the end failed earlier")]
    Failed,
    /// A fragment can't follow those before it (E60 to E63, E65, E66; never the wire's out of memory).
    #[error("a fragment that can't follow those before it")]
    Wire(WireFault),
    /// Out of memory (E99).
    #[error("out of memory")]
    Memory,
}

impl EndFault {
    /// The fault's number, as answers show it.
    pub fn number(self) -> u8
        ensures number { result ≡ fault_number self }
    {
        match self {
            EndFault::Spent => 33,
            EndFault::Busy => 40,
            EndFault::UnknownMessage => 41,
            EndFault::Misfit => 42,
            EndFault::NotBound => 43,
            EndFault::Failed => 64,
            EndFault::Wire(fault) => fault.number(),
            EndFault::Memory => 99,
        }
    }
}
