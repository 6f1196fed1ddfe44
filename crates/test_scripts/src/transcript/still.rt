//! A system that stays as it is at its start: each event is out of memory.

use fl_base::EndId;
use fl_compact_calls::CompactCall;
use fl_model::{Answer, BriefAnswer, DispatcherId, Event, Machine, TurnedAnswer};
use fl_value_data::Call;
use std::alloc::{AllocError, Global};

#[derive(Drop)]
pub struct Still;

impl Machine for Still {
    ghost use Rattle.std.specs.Prelude.{◌≡◌};
    ghost use Rattle.fl_model.specs.State.{start};

    ghost shows = { λ m s. s ≡ start };

    fn new(_alloc: Global) -> Result<Still, AllocError> {
        Ok(Still)
    }

    fn step(&mut self, _event: Event<'_>) -> Result<Answer, AllocError> {
        Err(AllocError)
    }

    fn step_call(&mut self, _end: EndId, _call: &Call) -> Result<BriefAnswer, AllocError> {
        Err(AllocError)
    }

    fn step_write(&mut self, _end: EndId) -> Result<BriefAnswer, AllocError> {
        Err(AllocError)
    }

    fn step_turn(
        &mut self,
        _dispatcher: DispatcherId,
        _handled: &mut CompactCall,
    ) -> Result<TurnedAnswer, AllocError> {
        Err(AllocError)
    }

    fn step_show(&mut self, _end: EndId) -> Result<Answer, AllocError> {
        Err(AllocError)
    }

    fn step_ack(&mut self, _end: EndId) -> Result<BriefAnswer, AllocError> {
        Err(AllocError)
    }

    fn step_forward(&mut self, _core: u32, _neighbour: u32) -> Result<BriefAnswer, AllocError> {
        Err(AllocError)
    }
}
