//! Calls and writes of ends.

ghost use Rattle.std.specs.Prelude.{◌≡◌, ◌<◌, length, slice_get, Some, IfOk, OnErr};
ghost use Rattle.fl_value_data.specs.Value.{call_of};
ghost use Rattle.fl_core.specs.View.{TheCore};
ghost use Rattle.fl_world_refines.specs.Sending.{MakesCall, PreviewsOver, Previews, HasOutlet, WritesFragment};
ghost use Rattle.fl_model.specs.Views.{answer_of, brief_of};
ghost use Rattle.fl_world_events.specs.Places.{HasEnd};
ghost use Rattle.fl_world_events.specs.Last.{NotRefused};
ghost use Rattle.fl_world_events.specs.Parts.{CallsWith};
ghost use Rattle.fl_world.specs.Parts.{AtUnmadeOrNone};

use crate::world::World;
use fl_base::{EndId, faults};
use fl_core::Outlet;
use fl_model::{Answer, BriefAnswer};
use fl_value_data::Call;
use fl_world_events::{
    EndLocation, call_in, call_kept, ring_at, show_by_queue, show_by_ring, write_by_queue,
    write_by_ring,
};
use std::alloc::AllocError;

// ---- calls

impl World {
    /// An end makes a call.
    ///
    /// # Errors
    /// Out of memory.
    #[inline(always)]
    pub(crate) fn call(&mut self, e: EndId, call: &Call) -> Result<BriefAnswer, AllocError>
        ensures calls { IfOk result (λ a. MakesCall e (call_of call.now) self.old (brief_of a) self.new) }
        ensures kept { OnErr result (self.new ≡ self.old) }
        ensures last { OnErr result (NotRefused (MakesCall e (call_of call.now) self.old)) }
    {
        match self.location(e) {
            EndLocation::Nowhere => Ok(BriefAnswer::Refused(faults::WRONG_NAME)),
            EndLocation::Unmade => self.call_unmade(e.binding, call),
            EndLocation::Made(n, place) => call_in(&mut self.cores[n], place, call),
        }
    }

    // In line, though it is seldom: an answer from out of line would lie in memory, and with it the usual one.
    #[inline(always)]
    fn call_unmade(&mut self, n: usize, call: &Call) -> Result<BriefAnswer, AllocError>
        requires binding { n < length self.old.bindings }
        ensures calls { IfOk result (λ a. AtUnmadeOrNone self.old n (CallsWith (call_of call.now) (brief_of a)) (brief_of a) self.new) }
        ensures kept { OnErr result (self.new ≡ self.old) }
        ensures last { OnErr result (NotRefused (λ a w. AtUnmadeOrNone self.old n (CallsWith (call_of call.now) a) a w)) }
    {
        let mut spare = Vec::new(self.alloc);
        let binding = &mut self.bindings[n];
        call_kept(binding, call, &mut spare)
    }
}

// ---- shows

impl World {
    /// An end shows the fragment that it would write next.
    #[inline(never)]
    pub(crate) fn show(&mut self, e: EndId) -> Answer
        ensures shows { Previews e self.old (answer_of result) self.new }
    {
        match self.location(e) {
            EndLocation::Nowhere => Answer::Refused(faults::WRONG_NAME),
            EndLocation::Unmade => Answer::Refused(faults::NOT_BOUND),
            EndLocation::Made(n, place) => match self.outlet(n, place) {
                Outlet::Queue(q) => self.show_over_queue(n, place, q),
                Outlet::Side(m) => self.show_over_side(n, place, m),
            },
        }
    }

    // Where the end at a place of a core puts.
    #[inline(always)]
    fn outlet(&self, n: usize, place: usize) -> Outlet
        requires end { HasEnd self.now.cores n place }
        ensures outlet { HasOutlet self.now n place result }
    {
        self.cores[n].outlet(place)
    }

    fn show_over_queue(&self, n: usize, place: usize, q: usize) -> Answer
        requires end { HasEnd self.now.cores n place }
        ensures shows { (k : TheCore) → slice_get self.now.cores n ≡ Some k → PreviewsOver self.now k place (Outlet.Queue q) (answer_of result) self.now }
    {
        match self.queues.get(q) {
            None => Answer::Nothing,
            Some(queue) => show_by_queue(&self.cores[n], place, queue),
        }
    }

    fn show_over_side(&mut self, n: usize, place: usize, m: usize) -> Answer
        requires end { HasEnd self.old.cores n place }
        ensures shows { (k : TheCore) → slice_get self.old.cores n ≡ Some k → PreviewsOver self.old k place (Outlet.Side m) (answer_of result) self.new }
    {
        let Some(ring) = self.rings.get_mut(ring_at(m)) else {
            return Answer::Nothing;
        };
        show_by_ring(&self.cores[n], place, ring, m)
    }
}

// ---- writes

impl World {
    /// An end writes its next fragment.
    #[inline(always)]
    pub(crate) fn write(&mut self, e: EndId) -> BriefAnswer
        ensures writes { WritesFragment e self.old (brief_of result) self.new }
    {
        match self.location(e) {
            EndLocation::Nowhere => BriefAnswer::Refused(faults::WRONG_NAME),
            EndLocation::Unmade => BriefAnswer::Refused(faults::NOT_BOUND),
            EndLocation::Made(n, place) => match self.outlet(n, place) {
                Outlet::Queue(q) => match self.queues.get_mut(q) {
                    None => BriefAnswer::Nothing,
                    Some(queue) => write_by_queue(&mut self.cores[n], place, queue),
                },
                Outlet::Side(m) => match self.rings.get_mut(ring_at(m)) {
                    None => BriefAnswer::Nothing,
                    Some(ring) => write_by_ring(&mut self.cores[n], place, ring, m),
                },
            },
        }
    }
}
