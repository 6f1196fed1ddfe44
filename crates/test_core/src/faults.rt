//! The numbers and the words of faults.

use fl_core::BoardFault;
use fl_endpoint::EndFault;
use fl_monitor::MonitorFault;
use fl_nameserv::NameFault;
use fl_wire::WireFault;
use std::alloc::{AllocError, Global};
use std::test::Fail;

// A fault of an end, a board, a monitor or a table of names.
#[derive(Clone, Copy)]
enum AnyFault {
    End(EndFault),
    Board(BoardFault),
    Monitor(MonitorFault),
    Name(NameFault),
}

// A fault, its number and its words.
const FAULTS: &[(AnyFault, u8, &str)] = &[
    (
        AnyFault::End(EndFault::Spent),
        33,
        "the link has carried as many fragments as it can count",
    ),
    (
        AnyFault::End(EndFault::Busy),
        40,
        "a call is in transmission",
    ),
    (
        AnyFault::End(EndFault::UnknownMessage),
        41,
        "no such message",
    ),
    (
        AnyFault::End(EndFault::Misfit),
        42,
        "the arguments don't fit",
    ),
    (
        AnyFault::End(EndFault::NotBound),
        43,
        "the end isn't bound yet",
    ),
    (
        AnyFault::End(EndFault::Failed),
        64,
        "the end failed earlier",
    ),
    (
        AnyFault::End(EndFault::Wire(WireFault::TooLong)),
        66,
        "a fragment that can't follow those before it",
    ),
    (AnyFault::End(EndFault::Memory), 99, "out of memory"),
    (
        AnyFault::Board(BoardFault::NotBound),
        43,
        "the end isn't bound yet",
    ),
    (
        AnyFault::Board(BoardFault::Registered),
        50,
        "the end's channel is registered already",
    ),
    (
        AnyFault::Board(BoardFault::NotRegistered),
        51,
        "the end's channel is not registered",
    ),
    (
        AnyFault::Board(BoardFault::TooManyEnds),
        54,
        "the dispatcher has 1,024 ends",
    ),
    (
        AnyFault::Board(BoardFault::Failed),
        64,
        "the end failed earlier",
    ),
    (AnyFault::Board(BoardFault::Memory), 99, "out of memory"),
    (
        AnyFault::Monitor(MonitorFault::Misrouted),
        67,
        "a monitor's message out of place",
    ),
    (
        AnyFault::Monitor(MonitorFault::Differs),
        72,
        "the service is of another interface",
    ),
    (
        AnyFault::Monitor(MonitorFault::NoRoute),
        73,
        "no such route",
    ),
    (
        AnyFault::Monitor(MonitorFault::UsedUp),
        74,
        "all circuits of the link are used up",
    ),
    (
        AnyFault::Monitor(MonitorFault::OutboxFull),
        75,
        "64 messages wait to be sent over the link",
    ),
    (
        AnyFault::Monitor(MonitorFault::PlansDiffer),
        76,
        "the service is compiled under another plan",
    ),
    (
        AnyFault::Monitor(MonitorFault::Memory),
        99,
        "no memory for one more circuit",
    ),
    (
        AnyFault::Name(NameFault::Unknown),
        70,
        "no service of this name or reference",
    ),
    (AnyFault::Name(NameFault::Taken), 71, "the name is taken"),
    (
        AnyFault::Name(NameFault::Memory),
        99,
        "no memory for one more service",
    ),
];

// The number and the words of a fault.
fn told(alloc: Global, fault: AnyFault) -> Result<(u8, String), AllocError> {
    Ok(match fault {
        AnyFault::End(fault) => (fault.number(), fault.to_string(alloc)?),
        AnyFault::Board(fault) => (fault.number(), fault.to_string(alloc)?),
        AnyFault::Monitor(fault) => (fault.number(), fault.to_string(alloc)?),
        AnyFault::Name(fault) => (fault.number(), fault.to_string(alloc)?),
    })
}

#[test]
fn faults(rt: HostRuntime) -> Result<(), Fail> {
    for (fault, number, words) in FAULTS {
        let (got, text) = told(rt.alloc(), *fault)?;
        assert!(rt; got == *number && text.as_str() == *words);
    }
    Ok(())
}
