//! Links, numbers, and each way in which an entry comes and goes.

use fl_base::{Circuit, CoreId, EndId, LinkId, Side};
use fl_hop::{Circuits, Hop, HopFault, HopTarget};
use std::alloc::Global;

// What an entry of a binding says, before its answer and then.
macro_rules! hop {
    ($binding:expr, $way:expr, $answered:expr) => {
        Hop {
            binding: $binding,
            way: $way,
            answered: $answered,
        }
    };
}

// The end of a binding, as a way.
macro_rules! end {
    ($binding:expr, $side:expr) => {
        HopTarget::End(EndId {
            binding: $binding,
            side: $side,
        })
    };
}

// What a core's table is asked, and what it has to answer.
enum CircuitsCall {
    Core(CoreId),
    AddLink(CoreId, Result<LinkId, HopFault>),
    Links(usize),
    LinkTo(CoreId, Option<LinkId>),
    Neighbour(LinkId, Option<CoreId>),
    Open(LinkId, usize, Result<Circuit, HopFault>),
    PassOn(LinkId, Circuit, LinkId, usize, Result<Circuit, HopFault>),
    Arrive(LinkId, Circuit, usize, Result<(), HopFault>),
    Refuse(LinkId, Circuit, Result<(), HopFault>),
    Answer(LinkId, Circuit, Result<Hop, HopFault>),
    Remove(LinkId, Circuit, Option<Hop>),
    Stands(usize, bool),
    OpenedHere(LinkId, Circuit, bool),
    HopOf(LinkId, Circuit, Option<Hop>),
    RouteOf(LinkId, Circuit, Option<HopTarget>),
    Next(LinkId, Option<Circuit>),
    NextDue(LinkId, Option<Circuit>),
}

// Asks a table, and says whether it answers so.
fn answers(circuits: &mut Circuits, asked: &CircuitsCall) -> bool {
    match asked {
        CircuitsCall::Core(core) => circuits.core() == *core,
        CircuitsCall::AddLink(core, link) => circuits.add_link(*core) == *link,
        CircuitsCall::Links(count) => circuits.links().len() == *count,
        CircuitsCall::LinkTo(core, link) => circuits.link_to(*core) == *link,
        CircuitsCall::Neighbour(link, core) => circuits.neighbour(*link) == *core,
        CircuitsCall::Open(link, binding, circuit) => circuits.open(*link, *binding) == *circuit,
        CircuitsCall::PassOn(back, circuit, onward, binding, next) => {
            circuits.pass_on(*back, *circuit, *onward, *binding) == *next
        }
        CircuitsCall::Arrive(link, circuit, binding, done) => {
            circuits.arrive(*link, *circuit, *binding) == *done
        }
        CircuitsCall::Refuse(link, circuit, done) => circuits.refuse(*link, *circuit) == *done,
        CircuitsCall::Answer(link, circuit, hop) => circuits.answer(*link, *circuit) == *hop,
        CircuitsCall::Remove(link, circuit, hop) => circuits.remove(*link, *circuit) == *hop,
        CircuitsCall::Stands(binding, is) => circuits.stands(*binding) == *is,
        CircuitsCall::OpenedHere(link, circuit, is) => {
            circuits.opened_here(*link, *circuit) == *is
        }
        CircuitsCall::HopOf(link, circuit, hop) => circuits.hop_of(*link, *circuit) == *hop,
        CircuitsCall::RouteOf(link, circuit, way) => circuits.route_of(*link, *circuit) == *way,
        CircuitsCall::Next(link, circuit) => circuits.next(*link) == *circuit,
        CircuitsCall::NextDue(link, circuit) => circuits.next_due(*link) == *circuit,
    }
}

const BACK: LinkId = LinkId(0);

const ONWARD: LinkId = LinkId(1);

const ASIDE: LinkId = LinkId(2);

// A core in the middle of three: what its table is asked in turn.
const ASKED: &[CircuitsCall] = &[
    // links of a core: one to each other core, numbered from 0
    CircuitsCall::Core(CoreId(1)),
    CircuitsCall::AddLink(CoreId(0), Ok(BACK)),
    CircuitsCall::AddLink(CoreId(2), Ok(ONWARD)),
    CircuitsCall::AddLink(CoreId(1), Err(HopFault::NoLink)),
    CircuitsCall::AddLink(CoreId(2), Err(HopFault::NoLink)),
    CircuitsCall::AddLink(CoreId(3), Ok(ASIDE)),
    CircuitsCall::Links(3),
    CircuitsCall::LinkTo(CoreId(2), Some(ONWARD)),
    CircuitsCall::LinkTo(CoreId(4), None),
    CircuitsCall::Neighbour(ONWARD, Some(CoreId(2))),
    CircuitsCall::Neighbour(LinkId(3), None),
    // of two cores the lower one gives odd numbers, the higher one even ones
    CircuitsCall::Next(BACK, Some(Circuit(2))),
    CircuitsCall::NextDue(BACK, Some(Circuit(1))),
    CircuitsCall::Open(ONWARD, 9, Ok(Circuit(1))),
    CircuitsCall::OpenedHere(ONWARD, Circuit(1), true),
    // an opening is passed on, one arrives at an end, one out of turn does neither, and one is refused
    CircuitsCall::PassOn(BACK, Circuit(1), ONWARD, 7, Ok(Circuit(3))),
    CircuitsCall::PassOn(BACK, Circuit(3), BACK, 8, Err(HopFault::NoLink)),
    CircuitsCall::Arrive(BACK, Circuit(2), 8, Err(HopFault::Misrouted)),
    CircuitsCall::Arrive(BACK, Circuit(3), 8, Ok(())),
    CircuitsCall::Refuse(BACK, Circuit(5), Ok(())),
    CircuitsCall::NextDue(BACK, Some(Circuit(7))),
    CircuitsCall::OpenedHere(BACK, Circuit(3), false),
    CircuitsCall::Stands(7, true),
    CircuitsCall::Stands(5, false),
    // entries lead both ways
    CircuitsCall::HopOf(
        BACK,
        Circuit(1),
        Some(hop!(7, HopTarget::Link(ONWARD, Circuit(3)), false)),
    ),
    CircuitsCall::RouteOf(ONWARD, Circuit(3), Some(HopTarget::Link(BACK, Circuit(1)))),
    CircuitsCall::RouteOf(BACK, Circuit(3), Some(end!(8, Side::Server))),
    CircuitsCall::RouteOf(BACK, Circuit(5), None),
    // an answer is taken once, for an opening of this core's own, and goes back to the entry's other side
    CircuitsCall::Answer(BACK, Circuit(1), Err(HopFault::Misrouted)),
    CircuitsCall::Answer(
        ONWARD,
        Circuit(3),
        Ok(hop!(7, HopTarget::Link(BACK, Circuit(1)), false)),
    ),
    CircuitsCall::Answer(ONWARD, Circuit(3), Err(HopFault::Misrouted)),
    CircuitsCall::Answer(
        ONWARD,
        Circuit(1),
        Ok(hop!(9, end!(9, Side::Client), false)),
    ),
    // both sides of an entry go together
    CircuitsCall::Remove(
        ONWARD,
        Circuit(3),
        Some(hop!(7, HopTarget::Link(BACK, Circuit(1)), true)),
    ),
    CircuitsCall::RouteOf(BACK, Circuit(1), None),
    CircuitsCall::Remove(BACK, Circuit(1), None),
    CircuitsCall::Next(ONWARD, Some(Circuit(5))),
];

#[test]
fn openings(rt: HostRuntime) {
    let mut circuits = Circuits::new(rt.alloc(), CoreId(1));
    for asked in ASKED {
        assert!(rt; answers(&mut circuits, asked));
    }
}

// Two neighbours, and the links to them.
const LITTLE: &[(u8, u16)] = &[(0, 0), (2, 1)];

// Whether a refused call left the table as it was, and one that wasn't refused did its work.
fn with_little_memory(alloc: Global) -> bool {
    let mut circuits = Circuits::new(alloc, CoreId(1));
    for (core, place) in LITTLE {
        match circuits.add_link(CoreId(*core)) {
            Ok(link) => {
                if link != LinkId(*place) {
                    return false;
                }
            }
            Err(fault) => return fault == HopFault::Memory
                && circuits.links().len() == usize::from(*place),
        }
    }
    match circuits.pass_on(BACK, Circuit(1), ONWARD, 0) {
        Ok(circuit) => circuit == Circuit(1) && circuits.next(ONWARD) == Some(Circuit(3)),
        Err(fault) => {
            fault == HopFault::Memory
                && circuits.next(ONWARD) == Some(Circuit(1))
                && circuits.next_due(BACK) == Some(Circuit(1))
                && circuits.route_of(BACK, Circuit(1)).is_none()
        }
    }
}

// Where memory is refused, nothing has changed.
#[test]
fn refused_without_memory(rt: HostRuntime) {
    assert!(rt; with_little_memory(rt.alloc()));
}
