//! How ends and links are wired: which sides they use.

use fl_base::{EndId, LinkId};

/// How an end is joined to the other end of its binding. Queues and sides of rings stand outside of a core, and each is known to it by a number.
#[derive(Clone, Copy)]
pub enum EndWiring {
    /// Both ends are at this core, with a queue each way: the end puts to one and takes from the other.
    Queues { out: usize, from: usize },
    /// The end puts to this side of a ring and takes from it.
    Ring(usize),
    /// The end puts to the side of this link, on a circuit, and takes from an arrival queue of its own, named by its place among those of the core.
    Circuit { link: LinkId, arrivals: usize },
}

/// Where an end puts its fragments: the side that a write is lent.
#[derive(Clone, Copy, PartialEq, Eq)]
pub enum Outlet {
    /// A queue within the core.
    Queue(usize),
    /// A side of a ring: the end's own, or that of its circuit's link.
    Side(usize),
}

/// Where an end takes fragments from: the side that a turn is lent, and so is what registers or acknowledges.
#[derive(Clone, Copy, PartialEq, Eq)]
pub enum Inlet {
    /// A queue within the core.
    Queue(usize),
    /// A side of a ring.
    Side(usize),
    /// The arrival queue of an end of a circuit, which the core keeps: nothing is lent.
    Arrivals,
}

/// An end at a core: its name and its wiring.
#[derive(Clone, Copy)]
pub struct WiredEnd {
    /// Which end it is.
    pub name: EndId,
    /// How it is joined to the other end of its binding.
    pub wiring: EndWiring,
}

/// A link at a core.
#[derive(Clone, Copy)]
pub struct LinkSide {
    /// The core's side of the link's ring, by its number.
    pub side: usize,
    /// Whether a fragment came there that can't be: then no more is looked at (E64).
    pub failed: bool,
}

/// Where fragments for an end of a circuit arrive.
#[derive(Clone, Copy)]
pub struct ArrivalPlace {
    /// The end's place.
    pub end: usize,
    /// The place of its arrival queue, among those of the core.
    pub queue: usize,
}
