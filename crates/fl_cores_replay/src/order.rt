//! The events of cores in one order.

use crate::no_script::RecordFault;
use crate::replay::Replayed;
use crate::replayed_core::{CoreEvent, CoreStep};
use crate::replayed_side::{ReplayedPut, ReplayedSight};
use std::alloc::{AllocError, Global};
use std::collections::VecDeque;

/// An event, and its core.
#[derive(Clone, Copy)]
pub(crate) struct OrderedEvent {
    pub(crate) core: usize,
    pub(crate) event: CoreEvent,
}

// How far a side of a ring is.
#[derive(Drop)]
struct SideState {
    size: usize,
    sent: usize,
    taken: usize,
    // how many of its fragments it knows to be taken
    known: usize,
    // of each fragment that the other side put and this one didn't take, how many that told to be taken
    told: VecDeque<usize>,
}

// The other side of a ring.
fn across(side: usize) -> usize {
    side ^ 1
}

#[derive(Drop)]
struct Order {
    sides: Vec<SideState>,
    // by core how many of its events are done
    done: Vec<usize>,
    events: Vec<OrderedEvent>,
}

impl SideState {
    fn new(alloc: Global, size: usize) -> SideState {
        SideState {
            size,
            sent: 0,
            taken: 0,
            known: 0,
            told: VecDeque::new(alloc),
        }
    }

    // Whether so many slots are free, by what it knows, or would find at once.
    fn has_room(&self, need: usize) -> bool {
        let wanted = self.sent.saturating_add(need);
        if self.size.saturating_add(self.known) >= wanted {
            return true;
        }
        match self.told.front() {
            None => false,
            Some(told) => self.size.saturating_add(*told) >= wanted,
        }
    }

    // It knows what the other side's first fragment tells.
    fn learn(&mut self) {
        if let Some(told) = self.told.front() {
            self.known = self.known.max(*told);
        }
    }
}

// The sides of rings of these sizes.
fn all_sides(alloc: Global, sizes: &[usize]) -> Result<Vec<SideState>, AllocError> {
    let mut sides = Vec::new(alloc);
    for size in sizes {
        sides.reserve(2)?;
        sides.push_reserved(SideState::new(alloc, *size));
        sides.push_reserved(SideState::new(alloc, *size));
    }
    Ok(sides)
}

impl Order {
    fn new(alloc: Global, cores: usize, sizes: &[usize]) -> Result<Order, AllocError> {
        let sides = all_sides(alloc, sizes)?;
        let done = vec![in alloc; 0; cores]?;
        Ok(Order {
            sides,
            done,
            events: Vec::new(alloc),
        })
    }

    // Whether the core of the side across is behind all its looks that found nothing where the side's next
    // fragment will stand.
    fn is_looked_for(&self, replayed: &Replayed<'_>, side: usize) -> bool {
        let Some(state) = self.sides.get(side) else {
            return false;
        };
        let Some(missed) = replayed.missed_behind(across(side), state.sent) else {
            return false;
        };
        match self.done.get(missed.core) {
            None => false,
            Some(done) => *done >= missed.steps,
        }
    }

    // Whether a fragment stands there to be seen.
    fn may_see(&self, sight: ReplayedSight) -> bool {
        match self.sides.get(sight.side) {
            None => false,
            Some(state) => !state.told.is_empty(),
        }
    }

    fn may_put(&self, replayed: &Replayed<'_>, put: ReplayedPut) -> bool {
        match self.sides.get(put.side) {
            None => false,
            Some(state) => state.has_room(put.need) && self.is_looked_for(replayed, put.side),
        }
    }

    fn may_come(&self, replayed: &Replayed<'_>, step: &CoreStep) -> bool {
        if let Some(sight) = step.sight {
            if !self.may_see(sight) {
                return false;
            }
        }
        match step.put {
            None => true,
            Some(put) => self.may_put(replayed, put),
        }
    }

    fn put(&mut self, side: usize, need: usize) -> Result<(), AllocError> {
        let Some(state) = self.sides.get_mut(side) else {
            return Ok(());
        };
        if state.size.saturating_add(state.known) < state.sent.saturating_add(need) {
            state.learn();
        }
        state.sent = state.sent.saturating_add(1);
        let told = state.taken;
        let Some(other) = self.sides.get_mut(across(side)) else {
            return Ok(());
        };
        match other.told.push_back(told) {
            Ok(()) => Ok(()),
            Err(_) => Err(AllocError),
        }
    }

    fn see(&mut self, side: usize, is_taken: bool) {
        if let Some(state) = self.sides.get_mut(side) {
            state.learn();
            if is_taken {
                let _ = state.told.pop_front();
                state.taken = state.taken.saturating_add(1);
            }
        }
    }

    // Does an event, and tells it.
    fn tell(&mut self, core: usize, step: &CoreStep) -> Result<(), AllocError> {
        if let Some(put) = step.put {
            self.put(put.side, put.need)?;
        }
        if let Some(sight) = step.sight {
            self.see(sight.side, sight.is_taken);
        }
        let event = step.event;
        self.events.push(OrderedEvent { core, event })?;
        Ok(())
    }

    // The next event of a core.
    fn next_step(&self, replayed: &Replayed<'_>, core: usize) -> Option<CoreStep> {
        match self.done.get(core) {
            None => None,
            Some(done) => replayed.step(core, *done),
        }
    }

    fn pass(&mut self, core: usize) {
        if let Some(done) = self.done.get_mut(core) {
            *done = done.saturating_add(1);
        }
    }

    // Does the next event of a core, if it may come now.
    fn next(&mut self, replayed: &Replayed<'_>, core: usize) -> Result<bool, AllocError> {
        let Some(step) = self.next_step(replayed, core) else {
            return Ok(false);
        };
        if !step.is_left_out {
            if !self.may_come(replayed, &step) {
                return Ok(false);
            }
            self.tell(core, &step)?;
        }
        self.pass(core);
        Ok(true)
    }

    // The events of each core in turn, as many as may come.
    fn round(&mut self, replayed: &Replayed<'_>, cores: usize) -> Result<bool, AllocError> {
        let mut moved = false;
        for core in 0..cores {
            for _ in 0..u64::MAX {
                if !self.next(replayed, core)? {
                    break;
                }
                moved = true;
            }
        }
        Ok(moved)
    }

    fn is_whole(&self, replayed: &Replayed<'_>) -> bool {
        for (core, done) in self.done.iter().enumerate() {
            if replayed.step(core, *done).is_some() {
                return false;
            }
        }
        true
    }
}

/// The events of cores in an order in which each finds what it found.
pub(crate) fn order_events(
    alloc: Global,
    replayed: &Replayed<'_>,
    sizes: &[usize],
) -> Result<Vec<OrderedEvent>, RecordFault> {
    let cores = replayed.count();
    let mut order = Order::new(alloc, cores, sizes)?;
    for _ in 0..u64::MAX {
        if !order.round(replayed, cores)? {
            break;
        }
    }
    if order.is_whole(replayed) {
        return Ok(order.events);
    }
    Err(RecordFault::NoOrder)
}
