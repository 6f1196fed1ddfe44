//! Why a call is refused.

ghost use Rattle.std.specs.Prelude.{◌≡◌};
ghost use Rattle.fl_monitor.specs.Faults.{fault_number};
ghost use Rattle.fl_monitor.specs.declared.fault.MonitorFault.TheVariants.{Memory};

use fl_base::faults;
use std::alloc::AllocError;
use std::fmt;
use thiserror::Error;

/// Why nothing was done.
#[derive(Clone, Copy, Debug, PartialEq, Eq, Drop, Error)]
pub enum MonitorFault {
    /// A message that no monitor in its right place says: an opening out of turn, for a binding that is here already, or on
    /// a route that doesn't lead here; an answer that nobody waits for (E67).
    Misrouted,
    /// The service is of another interface than the client (E72).
    Differs,
    /// The route is none, or there is no link to its second core (E73).
    NoRoute,
    /// This core has opened 1,023 circuits on the link, and opens no more there (E74).
    UsedUp,
    /// 64 messages wait to be sent over the link (E75).
    OutboxFull,
    /// The service is of the same interface, compiled under another plan (E76).
    PlansDiffer,
    /// There is no memory for one more circuit, or for the tape of what is to be said (E99).
    Memory,
}

impl MonitorFault {
    /// The fault's number, as answers show it: 67, 72 to 76, or 99.
    pub fn number(self) -> u8
        ensures number { result ≡ fault_number self }
    {
        match self {
            MonitorFault::Misrouted => 67,
            MonitorFault::Differs => faults::OTHER_INTERFACE,
            MonitorFault::NoRoute => faults::NO_SUCH_ROUTE,
            MonitorFault::UsedUp => faults::NUMBERS_USED_UP,
            MonitorFault::OutboxFull => 75,
            MonitorFault::PlansDiffer => 76,
            MonitorFault::Memory => 99,
        }
    }
}

impl fmt::Display for MonitorFault {
    fn fmt<W: fmt::Write>(&self, f: &mut fmt::Formatter<W>) -> fmt::Result {
        f.write_str(match self {
            MonitorFault::Misrouted => "a monitor's message out of place",
            MonitorFault::Differs => "the service is of another interface",
            MonitorFault::NoRoute => "no such route",
            MonitorFault::UsedUp => "all circuits of the link are used up",
            MonitorFault::OutboxFull => "64 messages wait to be sent over the link",
            MonitorFault::PlansDiffer => "the service is compiled under another plan",
            MonitorFault::Memory => "no memory for one more circuit",
        })
    }
}

impl From<AllocError> for MonitorFault {
    ghost from_gives = { λ _ e. e ≡ Memory };

    fn from(_error: AllocError) -> MonitorFault {
        MonitorFault::Memory
    }
}
