//! The numbers and the words of the faults.

use fl_hop::HopFault;
use fl_link::{LinkFault, PutFault};
use fl_ring::RingFault;
use fl_waitset::WaitFault;
use std::alloc::{AllocError, Global};
use std::test::Fail;

// A fault of any of the crates.
#[derive(Clone, Copy)]
enum FaultOfLinks {
    Wait(WaitFault),
    Put(PutFault),
    Link(LinkFault),
    Ring(RingFault),
    Hop(HopFault),
}

// A fault, its number and its words.
const FAULTS: &[(FaultOfLinks, u8, &str)] = &[
    (
        FaultOfLinks::Wait(WaitFault::Registered),
        50,
        "the channel is registered already",
    ),
    (
        FaultOfLinks::Wait(WaitFault::NotRegistered),
        51,
        "the channel is not registered",
    ),
    (
        FaultOfLinks::Wait(WaitFault::NoEvent),
        52,
        "no channel waits to be looked at",
    ),
    (
        FaultOfLinks::Wait(WaitFault::NoChannel),
        53,
        "no such channel",
    ),
    (
        FaultOfLinks::Wait(WaitFault::TooMany),
        54,
        "over 1,024 channels",
    ),
    (
        FaultOfLinks::Wait(WaitFault::Memory),
        99,
        "no memory for the channels of a waitset",
    ),
    (FaultOfLinks::Put(PutFault::Full), 30, "the link is full"),
    (
        FaultOfLinks::Put(PutFault::Spent),
        33,
        "the link has carried as many fragments as it can count",
    ),
    (
        FaultOfLinks::Link(LinkFault::BadSize),
        32,
        "a link can't have this number of slots",
    ),
    (
        FaultOfLinks::Link(LinkFault::Memory),
        99,
        "no memory for the slots of a link",
    ),
    (
        FaultOfLinks::Ring(RingFault::BadSize),
        32,
        "a ring can't have this number of slots",
    ),
    (
        FaultOfLinks::Ring(RingFault::Memory),
        99,
        "no memory for the slots of a ring",
    ),
    (
        FaultOfLinks::Hop(HopFault::Marked),
        63,
        "a fragment of a circuit has the form of one that only acknowledges",
    ),
    (
        FaultOfLinks::Hop(HopFault::Misrouted),
        67,
        "a circuit without an entry, or out of turn",
    ),
    (FaultOfLinks::Hop(HopFault::NoLink), 73, "no such link"),
    (
        FaultOfLinks::Hop(HopFault::UsedUp),
        74,
        "all circuits of the link are used up",
    ),
    (
        FaultOfLinks::Hop(HopFault::Limit),
        94,
        "too many links of one core",
    ),
    (
        FaultOfLinks::Hop(HopFault::Memory),
        99,
        "no memory for one more link or circuit",
    ),
];

// The number and the words of a fault.
fn told(alloc: Global, fault: FaultOfLinks) -> Result<(u8, String), AllocError> {
    Ok(match fault {
        FaultOfLinks::Wait(fault) => (fault.number(), fault.to_string(alloc)?),
        FaultOfLinks::Put(fault) => (fault.number(), fault.to_string(alloc)?),
        FaultOfLinks::Link(fault) => (fault.number(), fault.to_string(alloc)?),
        FaultOfLinks::Ring(fault) => (fault.number(), fault.to_string(alloc)?),
        FaultOfLinks::Hop(fault) => (fault.number(), fault.to_string(alloc)?),
    })
}

#[test]
fn faults(rt: HostRuntime) -> Result<(), Fail> {
    for (fault, number, words) in FAULTS {
        let (got, text) = told(rt.alloc(), *fault)?;
        assert!(rt; got == *number && text.as_str() == *words);
    }
    Ok(())
}
