//! Why a call of a core is refused.

ghost use Rattle.std.specs.Prelude.{◌≡◌};
ghost use Rattle.fl_core.specs.Faults.{open_number, link_number};

use crate::BoardFault;
use fl_monitor::MonitorFault;
use fl_wire::WireFault;
use std::fmt;
use thiserror::Error;

/// Why no circuit was begun: the core is as it was.
#[derive(Clone, Copy, Debug, Drop, Error)]
pub enum OpenFault {
    /// The client's dispatcher has 1,024 ends (E54); out of memory for the end (E99).
    Board(BoardFault),
    /// There is no such link (E73), an entry of the binding stands here (E67), the link's numbers are used up (E74), its outbox is full (E75); out of
    /// memory for the entry or the message (E99).
    Monitor(MonitorFault),
}

impl OpenFault {
    /// The fault's number, as answers show it.
    pub fn number(self) -> u8
        ensures number { result ≡ open_number self }
    {
        match self {
            OpenFault::Board(fault) => fault.number(),
            OpenFault::Monitor(fault) => fault.number(),
        }
    }
}

impl fmt::Display for OpenFault {
    fn fmt<W: fmt::Write>(&self, f: &mut fmt::Formatter<W>) -> fmt::Result {
        f.write_str(match self {
            OpenFault::Board(_) => "the client's end is refused",
            OpenFault::Monitor(_) => "the circuit is refused",
        })
    }
}

/// Why what stands first on a link was left.
#[derive(Clone, Copy, Debug, Drop, Error)]
pub enum LinkReceiveFault {
    /// With its circuit set aside it would be a fragment that only acknowledges, which no call's is (E63). What comes on the link has failed for good.
    Marked,
    /// What comes on the link failed earlier (E64).
    Failed,
    /// Its circuit has no entry here, or none that leads to an end of this core; or it is a monitors' message out of place (E67). What comes on the
    /// link has failed for good.
    Misrouted,
    /// It is on circuit 0, and says no monitors' message (E60 to E63, E66). What comes on the link has failed for good.
    Wire(WireFault),
    /// Out of memory (E99). The core is as it was.
    Memory,
}

impl LinkReceiveFault {
    /// The fault's number, as answers show it.
    pub fn number(self) -> u8
        ensures number { result ≡ link_number self }
    {
        match self {
            LinkReceiveFault::Marked => 63,
            LinkReceiveFault::Failed => 64,
            LinkReceiveFault::Misrouted => 67,
            LinkReceiveFault::Wire(fault) => fault.number(),
            LinkReceiveFault::Memory => 99,
        }
    }
}

impl fmt::Display for LinkReceiveFault {
    fn fmt<W: fmt::Write>(&self, f: &mut fmt::Formatter<W>) -> fmt::Result {
        f.write_str(match self {
            LinkReceiveFault::Marked =>
                "a fragment of a circuit has the form of one that only acknowledges",
            LinkReceiveFault::Failed => "what comes on the link failed earlier",
            LinkReceiveFault::Misrouted =>
                "a circuit without an entry, or a monitors' message out of place",
            LinkReceiveFault::Wire(_) => "no monitors' message",
            LinkReceiveFault::Memory => "out of memory",
        })
    }
}
