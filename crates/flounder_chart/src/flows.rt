//! Which fragment goes where, told by a script's commands and their answers alone: what is put stands in a
//! queue until it is taken, and the first put is the first taken.

use crate::run::{Actor, Carried, DrawnEnd, Passage, Queue, Spot};
use fl_base::Side;
use std::alloc::Global;
use std::collections::VecDeque;

/// Cores that a script may have.
pub(crate) const CORES: u32 = 16;

/// A binding: the dispatchers of its two ends, the cores of its circuit, if it is one, and what waits for
/// each end.
#[derive(Drop)]
pub(crate) struct DrawnBinding {
    pub client: usize,
    pub server: usize,
    /// From the client's core to the server's; of no core where it is no circuit.
    pub route: Vec<u32>,
    pub to_client: Queue,
    pub to_server: Queue,
}

impl DrawnBinding {
    /// The dispatcher of an end.
    pub(crate) fn dispatcher(&self, side: Side) -> Actor {
        match side {
            Side::Client => Actor::Dispatcher(self.client),
            Side::Server => Actor::Dispatcher(self.server),
        }
    }

    // What waits for an end.
    fn queue(&mut self, side: Side) -> &mut Queue {
        match side {
            Side::Client => &mut self.to_client,
            Side::Server => &mut self.to_server,
        }
    }

    // The core behind this one on the way to an end.
    fn next_core(&self, core: u32, side: Side) -> Option<u32> {
        let mut before = None;
        let mut is_behind = false;
        for other in &self.route {
            if is_behind {
                return Some(*other);
            }
            if *other == core {
                if let Side::Client = side {
                    return before;
                }
                is_behind = true;
            }
            before = Some(*other);
        }
        None
    }

    // The core of an end.
    fn core(&self, side: Side) -> Option<u32> {
        match side {
            Side::Client => self.route.first().copied(),
            Side::Server => self.route.last().copied(),
        }
    }
}

/// All queues of a run, and what passed through them; whole unless memory was refused.
#[derive(Drop)]
pub(crate) struct Flows {
    pub bindings: Vec<DrawnBinding>,
    // From core a to core b: at a * 16 + b.
    links: Vec<Queue>,
    pub passages: Vec<Passage>,
    pub is_whole: bool,
}

fn other(end: DrawnEnd) -> DrawnEnd {
    let side = match end.side {
        Side::Client => Side::Server,
        Side::Server => Side::Client,
    };
    DrawnEnd {
        binding: end.binding,
        side,
    }
}

fn link_place(from: u32, to: u32) -> usize {
    from.saturating_mul(CORES).saturating_add(to) as usize
}

impl Flows {
    /// Nothing is there yet.
    pub(crate) fn new(alloc: Global) -> Flows {
        let mut links = Vec::new(alloc);
        let mut is_whole = true;
        for _place in 0..CORES * CORES {
            let is_made = links.push(VecDeque::new(alloc)).is_ok();
            is_whole = is_whole && is_made;
        }
        Flows {
            bindings: Vec::new(alloc),
            links,
            passages: Vec::new(alloc),
            is_whole,
        }
    }

    // Adds a passage, that stands in no queue yet; says which it is.
    fn begin(&mut self, passage: Passage) -> usize {
        let place = self.passages.len();
        let is_kept = self.passages.push(passage).is_ok();
        self.is_whole = self.is_whole && is_kept;
        place
    }

    // Takes a passage: who put it, and the end that it goes to, if it carries a call.
    fn end(&mut self, place: usize, row: usize) -> Option<(Actor, Option<DrawnEnd>)> {
        let passage = self.passages.get_mut(place)?;
        passage.taken = Some(row);
        Some((passage.from.actor, passage.bound))
    }

    // Puts a fragment where an end finds it; says whose end that is.
    fn put_before(&mut self, end: DrawnEnd, carried: Carried, from: Spot) -> Option<Actor> {
        let toward = self.bindings.get(end.binding)?.dispatcher(end.side);
        let place = self.begin(Passage {
            carried,
            from,
            toward,
            bound: Some(end),
            taken: None,
        });
        let binding = self.bindings.get_mut(end.binding)?;
        let is_put = binding.queue(end.side).push_back(place).is_ok();
        self.is_whole = self.is_whole && is_put;
        Some(toward)
    }

    /// Puts a fragment onto the link from a core to another; says whose monitor is to take it.
    pub(crate) fn put_on_link(
        &mut self,
        carried: Carried,
        from: Spot,
        cores: (u32, u32),
        bound: Option<DrawnEnd>,
    ) -> Option<Actor> {
        let toward = Actor::Monitor(cores.1);
        let place = self.begin(Passage {
            carried,
            from,
            toward,
            bound,
            taken: None,
        });
        let queue = self.links.get_mut(link_place(cores.0, cores.1))?;
        let is_put = queue.push_back(place).is_ok();
        self.is_whole = self.is_whole && is_put;
        Some(toward)
    }

    /// An end writes a fragment: into the queue or ring of its binding, or onto the first link of its
    /// circuit. Says who is to take it.
    pub(crate) fn write(&mut self, end: DrawnEnd, row: usize) -> Option<Actor> {
        let binding = self.bindings.get(end.binding)?;
        let actor = binding.dispatcher(end.side);
        let from = Spot { row, actor };
        match binding.core(end.side) {
            Some(core) => self.go_on(other(end), from, core),
            None => self.put_before(other(end), Carried::Call, from),
        }
    }

    /// An end acknowledges; says to whom.
    pub(crate) fn acknowledge(&mut self, end: DrawnEnd, row: usize) -> Option<Actor> {
        let actor = self.bindings.get(end.binding)?.dispatcher(end.side);
        self.put_before(other(end), Carried::Acknowledgement, Spot { row, actor })
    }

    /// An end takes what stands first before it; says who put it.
    pub(crate) fn take(&mut self, end: DrawnEnd, row: usize) -> Option<Actor> {
        let binding = self.bindings.get_mut(end.binding)?;
        let place = binding.queue(end.side).pop_front()?;
        let (source, _bound) = self.end(place, row)?;
        Some(source)
    }

    /// An end is looked at, and no call stands before it: what only acknowledges is taken.
    pub(crate) fn look(&mut self, end: DrawnEnd, row: usize) -> Option<Actor> {
        let binding = self.bindings.get_mut(end.binding)?;
        let place = *binding.queue(end.side).front()?;
        match self.passages.get(place)?.carried {
            Carried::Acknowledgement => self.take(end, row),
            _ => None,
        }
    }

    /// A core takes what stands first on its link from another: who put it, and the end that it goes to, if
    /// it carries a call.
    pub(crate) fn take_from_link(
        &mut self,
        row: usize,
        core: u32,
        neighbour: u32,
    ) -> Option<(Actor, Option<DrawnEnd>)> {
        let queue = self.links.get_mut(link_place(neighbour, core))?;
        let place = queue.pop_front()?;
        self.end(place, row)
    }

    /// A call's fragment goes on from a core: onto the next link, or to the end. Says who is to take it.
    pub(crate) fn go_on(&mut self, end: DrawnEnd, from: Spot, core: u32) -> Option<Actor> {
        let binding = self.bindings.get(end.binding)?;
        match binding.next_core(core, end.side) {
            Some(next) => self.put_on_link(Carried::Call, from, (core, next), Some(end)),
            None => self.put_before(end, Carried::Call, from),
        }
    }
}
