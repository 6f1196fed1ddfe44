//! A world does what the machine does: scripts run on it.

ghost use Rattle.fl_world_refines.specs.ShowsState.{Shows};

use crate::world::World;
use fl_base::EndId;
use fl_compact_calls::CompactCall;
use fl_model::{Answer, BriefAnswer, DispatcherId, Event, Machine, TurnedAnswer};
use fl_value_data::Call;
use fl_world_refines::{law_fresh_world_shows, law_steps_agree};
use std::alloc::{AllocError, Global};

impl Machine for World {
    ghost shows = { Shows };

    fn new(alloc: Global) -> Result<World, AllocError> {
        law_fresh_world_shows();
        World::with_cores(alloc, 1)
    }

    fn step(&mut self, event: Event<'_>) -> Result<Answer, AllocError> {
        self.replay(&event)
    }

    // Events that scripts repeat are done by themselves, so that none prepares what another needs.
    #[inline(always)]
    fn step_call(&mut self, end: EndId, call: &Call) -> Result<BriefAnswer, AllocError> {
        law_steps_agree();
        let outcome = self.call(end, call);
        self.close_brief_by(outcome);
        outcome
    }

    #[inline(always)]
    fn step_write(&mut self, end: EndId) -> Result<BriefAnswer, AllocError> {
        law_steps_agree();
        let answer = self.write(end);
        self.close_brief(answer);
        Ok(answer)
    }

    #[inline(always)]
    fn step_turn(
        &mut self,
        dispatcher: DispatcherId,
        handled: &mut CompactCall,
    ) -> Result<TurnedAnswer, AllocError> {
        law_steps_agree();
        let outcome = self.turn(dispatcher, handled);
        self.close_turned_by(outcome);
        outcome
    }

    #[inline(always)]
    fn step_show(&mut self, end: EndId) -> Result<Answer, AllocError> {
        law_steps_agree();
        let answer = self.show(end);
        self.close(&answer);
        Ok(answer)
    }

    #[inline(always)]
    fn step_ack(&mut self, end: EndId) -> Result<BriefAnswer, AllocError> {
        law_steps_agree();
        let answer = self.ack(end);
        self.close_brief(answer);
        Ok(answer)
    }

    #[inline(always)]
    fn step_forward(&mut self, core: u32, neighbour: u32) -> Result<BriefAnswer, AllocError> {
        law_steps_agree();
        let outcome = self.forward(core, neighbour);
        self.close_brief_by(outcome);
        outcome
    }
}
