//! Why a call of a table of circuits is refused.

ghost use Rattle.std.specs.Prelude.{◌≡◌};
ghost use Rattle.fl_hop.specs.Faults.{fault_number};
ghost use Rattle.fl_hop.specs.declared.fault.HopFault.TheVariants.{Memory};

use std::alloc::{AllocError, AllocFailed};
use std::fmt;
use thiserror::Error;

/// Why nothing was done: the table is as it was.
#[derive(Clone, Copy, Debug, PartialEq, Eq, Error)]
pub enum HopFault {
    /// A fragment of a circuit is marked as one that only acknowledges, and has nothing else to tell it from one once
    /// its circuit is set aside (E63).
    Marked,
    /// A fragment's circuit has no entry, or an opening's number isn't the neighbour's next there (E67).
    Misrouted,
    /// A link can't go to the core itself, nor a second one to the same core (E73).
    NoLink,
    /// This core has opened 1,023 circuits on the link, and opens no more there (E74).
    UsedUp,
    /// A core has at most 15 links (E94).
    Limit,
    /// There is no memory for one more link or entry (E99).
    Memory,
}

impl HopFault {
    /// The fault's number: 63, 67, 73, 74, 94 or 99.
    pub fn number(self) -> u8
        ensures number { result ≡ fault_number self }
    {
        match self {
            HopFault::Marked => 63,
            HopFault::Misrouted => 67,
            HopFault::NoLink => 73,
            HopFault::UsedUp => 74,
            HopFault::Limit => 94,
            HopFault::Memory => 99,
        }
    }
}

impl fmt::Display for HopFault {
    fn fmt<W: fmt::Write>(&self, f: &mut fmt::Formatter<W>) -> fmt::Result {
        f.write_str(match self {
            HopFault::Marked => {
                "a fragment of a circuit has the form of one that only acknowledges"
            },
            HopFault::Misrouted => "a circuit without an entry, or out of turn",
            HopFault::NoLink => "no such link",
            HopFault::UsedUp => "all circuits of the link are used up",
            HopFault::Limit => "too many links of one core",
            HopFault::Memory => "no memory for one more link or circuit",
        })
    }
}

impl From<AllocError> for HopFault {
    ghost from_gives = { λ _ e. e ≡ Memory };

    fn from(_error: AllocError) -> HopFault {
        HopFault::Memory
    }
}

impl<T: Drop> From<AllocFailed<T>> for HopFault {
    ghost from_gives = { λ _ e. e ≡ Memory };

    fn from(_error: AllocFailed<T>) -> HopFault {
        HopFault::Memory
    }
}
