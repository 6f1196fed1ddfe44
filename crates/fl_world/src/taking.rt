//! Turns of dispatchers, and what ends say of themselves.

ghost use Rattle.std.specs.Prelude.{◌≡◌, ◌<◌, slice_get, Some, IfOk, OnErr};
ghost use Rattle.fl_core.specs.View.{TheCore, inlet_of};
ghost use Rattle.fl_world_refines.specs.Lending.{answer_at};
ghost use Rattle.fl_world_refines.specs.Taking.{HasTurn, AcksOver, Acknowledges, HasInlet};
ghost use Rattle.fl_world_refines.specs.Taking.{RegistersOver, RegistersChannel};
ghost use Rattle.fl_world_refines.specs.Taking.{DeregistersChannel, SetsReply};
ghost use Rattle.fl_model.specs.Views.{answer_of, brief_of, turned_of, id_of};
ghost use Rattle.fl_value_data.specs.Value.{call_of};
ghost use Rattle.fl_world_events.specs.Places.{HasEnd};
ghost use Rattle.fl_world.specs.Handling.{HandlesFrom, WantsToHandle};
ghost use Rattle.fl_world.specs.Places.{IsDueOver, TurnsFrom};

use crate::world::World;
use fl_base::{EndId, MsgNo, faults};
use fl_compact_calls::CompactCall;
use fl_core::Inlet;
use fl_model::{Answer, BriefAnswer, DispatcherId, TurnedAnswer};
use fl_world_events::{
    DueEnd, EndLocation, ack_by_ring, deregister_in, register_by_queue, register_by_ring,
    register_in, ring_at, rule_in, rule_kept, tell_nothing, turn_by_queue, turn_by_ring, turn_in,
};
use std::alloc::AllocError;

// ---- turns

impl World {
    /// A dispatcher has a turn.
    ///
    /// # Errors
    /// Out of memory, only where it would handle a call.
    #[inline(always)]
    pub(crate) fn turn(
        &mut self,
        d: DispatcherId,
        handled: &mut CompactCall,
    ) -> Result<TurnedAnswer, AllocError>
        ensures turns { IfOk result (λ a. HasTurn (id_of d) self.old (turned_of a (call_of handled.new)) self.new) }
        ensures kept { OnErr result (self.new ≡ self.old) }
        ensures last { OnErr result (WantsToHandle (id_of d) self.old) }
    {
        let Some(core) = self.cores.get(d.core as usize) else {
            return Ok(TurnedAnswer::Refused(faults::WRONG_NAME));
        };
        let board = core.board();
        if d.place >= board.dispatchers() {
            return Ok(TurnedAnswer::Refused(faults::WRONG_NAME));
        }
        let Some(e) = board.due(d.place) else {
            return Ok(TurnedAnswer::Nothing);
        };
        let n = d.core as usize;
        let at = DueEnd {
            dispatcher: d.place,
            end: e,
            name: core.name(e),
        };
        match core.inlet(e) {
            Inlet::Queue(q) => self.turn_over_queue(n, at, q, handled),
            Inlet::Side(m) => self.turn_over_side(n, at, m, handled),
            Inlet::Arrivals => self.turn_over_arrivals(n, at, handled),
        }
    }

    #[inline(never)]
    fn turn_over_queue(
        &mut self,
        n: usize,
        at: DueEnd,
        q: usize,
        handled: &mut CompactCall,
    ) -> Result<TurnedAnswer, AllocError>
        requires due { IsDueOver self.old.cores n at (Inlet.Queue q) }
        ensures turns { IfOk result (λ a. TurnsFrom (Inlet.Queue q) n at self.old (turned_of a (call_of handled.new)) self.new) }
        ensures kept { OnErr result (self.new ≡ self.old) }
        ensures wants { OnErr result (HandlesFrom (Inlet.Queue q) n at self.old) }
    {
        match self.queues.get_mut(q) {
            None => Ok(TurnedAnswer::Nothing),
            Some(queue) => turn_by_queue(&mut self.cores[n], at, queue, handled),
        }
    }

    #[inline(never)]
    fn turn_over_side(
        &mut self,
        n: usize,
        at: DueEnd,
        m: usize,
        handled: &mut CompactCall,
    ) -> Result<TurnedAnswer, AllocError>
        requires due { IsDueOver self.old.cores n at (Inlet.Side m) }
        ensures turns { IfOk result (λ a. TurnsFrom (Inlet.Side m) n at self.old (turned_of a (call_of handled.new)) self.new) }
        ensures kept { OnErr result (self.new ≡ self.old) }
        ensures wants { OnErr result (HandlesFrom (Inlet.Side m) n at self.old) }
    {
        match self.rings.get_mut(ring_at(m)) {
            None => Ok(TurnedAnswer::Nothing),
            Some(ring) => turn_by_ring(&mut self.cores[n], at, ring, m, handled),
        }
    }

    #[inline(never)]
    fn turn_over_arrivals(
        &mut self,
        n: usize,
        at: DueEnd,
        handled: &mut CompactCall,
    ) -> Result<TurnedAnswer, AllocError>
        requires due { IsDueOver self.old.cores n at Inlet.Arrivals }
        ensures turns { IfOk result (λ a. TurnsFrom Inlet.Arrivals n at self.old (turned_of a (call_of handled.new)) self.new) }
        ensures kept { OnErr result (self.new ≡ self.old) }
        ensures wants { OnErr result (HandlesFrom Inlet.Arrivals n at self.old) }
    {
        let core = &mut self.cores[n];
        turn_in(core, at, handled)
    }
}

// ---- acknowledgements

impl World {
    /// An end tells what was taken at its ring.
    #[inline(never)]
    pub(crate) fn ack(&mut self, e: EndId) -> BriefAnswer
        ensures acks { Acknowledges e self.old (brief_of result) self.new }
    {
        match self.location(e) {
            EndLocation::Nowhere => BriefAnswer::Refused(faults::WRONG_NAME),
            EndLocation::Unmade => BriefAnswer::Refused(faults::NOT_BOUND),
            EndLocation::Made(n, place) => {
                let core = &self.cores[n];
                match core.inlet(place) {
                    Inlet::Side(m) => self.ack_over_side(n, place, m),
                    Inlet::Queue(_) => tell_nothing(core, place),
                    Inlet::Arrivals => tell_nothing(core, place),
                }
            }
        }
    }

    fn ack_over_side(&mut self, n: usize, place: usize, m: usize) -> BriefAnswer
        requires end { HasEnd self.old.cores n place }
        requires inlet { HasInlet self.old n place (Inlet.Side m) }
        ensures acks { (k : TheCore) → AcksOver (Inlet.Side m) k n (answer_at place (brief_of result)) self.old self.new }
    {
        let Some(ring) = self.rings.get_mut(ring_at(m)) else {
            return BriefAnswer::Nothing;
        };
        ack_by_ring(&self.cores[n], place, ring, m)
    }
}

// ---- registrations

impl World {
    /// An end's channel is registered.
    #[inline(never)]
    pub(crate) fn register(&mut self, e: EndId) -> Answer
        ensures registers { RegistersChannel e self.old (answer_of result) self.new }
    {
        match self.location(e) {
            EndLocation::Nowhere => Answer::Refused(faults::WRONG_NAME),
            EndLocation::Unmade => Answer::Refused(faults::NOT_BOUND),
            EndLocation::Made(n, place) => match self.cores[n].inlet(place) {
                Inlet::Queue(q) => self.register_over_queue(n, place, q),
                Inlet::Side(m) => self.register_over_side(n, place, m),
                Inlet::Arrivals => register_in(&mut self.cores[n], place),
            },
        }
    }

    fn register_over_queue(&mut self, n: usize, place: usize, q: usize) -> Answer
        requires end { HasEnd self.old.cores n place }
        requires inlet { (k : TheCore) → slice_get self.old.cores n ≡ Some k → inlet_of k place ≡ Some (Inlet.Queue q) }
        ensures registers { RegistersOver (Inlet.Queue q) n place self.old (answer_of result) self.new }
    {
        match self.queues.get_mut(q) {
            None => Answer::Nothing,
            Some(queue) => register_by_queue(&mut self.cores[n], place, queue),
        }
    }

    fn register_over_side(&mut self, n: usize, place: usize, m: usize) -> Answer
        requires end { HasEnd self.old.cores n place }
        requires inlet { (k : TheCore) → slice_get self.old.cores n ≡ Some k → inlet_of k place ≡ Some (Inlet.Side m) }
        ensures registers { RegistersOver (Inlet.Side m) n place self.old (answer_of result) self.new }
    {
        match self.rings.get_mut(ring_at(m)) {
            None => Answer::Nothing,
            Some(ring) => register_by_ring(&mut self.cores[n], place, ring, m),
        }
    }

    /// An end's channel is deregistered.
    #[inline(never)]
    pub(crate) fn deregister(&mut self, e: EndId) -> Answer
        ensures deregisters { DeregistersChannel e self.old (answer_of result) self.new }
    {
        match self.location(e) {
            EndLocation::Nowhere => Answer::Refused(faults::WRONG_NAME),
            EndLocation::Unmade => Answer::Refused(faults::NOT_BOUND),
            EndLocation::Made(n, place) => deregister_in(&mut self.cores[n], place),
        }
    }
}

// ---- reply rules

impl World {
    /// An end gets a reply rule.
    #[inline(never)]
    pub(crate) fn reply(&mut self, e: EndId, message: MsgNo, answer: MsgNo) -> Answer
        ensures rules { SetsReply e message.0 answer.0 self.old (answer_of result) self.new }
    {
        match self.location(e) {
            EndLocation::Nowhere => Answer::Refused(faults::WRONG_NAME),
            EndLocation::Unmade => rule_kept(&mut self.bindings[e.binding], message, answer),
            EndLocation::Made(n, place) => rule_in(&mut self.cores[n], place, message, answer),
        }
    }
}
