//! A system that does what the machine does.

ghost use Rattle.std.specs.Prelude.{IfOk, OnErr};
ghost use Rattle.fl_model.specs.State.{State, start};
ghost use Rattle.fl_value_data.specs.Value.{call_of};
ghost use Rattle.fl_model.specs.Events as machine;
ghost use Rattle.fl_model.specs.Views.{event_of, answer_of, brief_of, turned_of, id_of};
ghost use Rattle.fl_model.specs.Steps.{Steps};

use crate::answer::{Answer, BriefAnswer, TurnedAnswer};
use crate::event::{DispatcherId, Event};
use fl_base::EndId;
use fl_compact_calls::CompactCall;
use fl_value_data::Call;
use std::alloc::{AllocError, Global};

/// A system that does what the machine does.
///
/// Its relation `shows` says which of the machine's states it shows.
pub trait Machine {
    ghost shows: { Self → State → Type 0 };

    /// The system at its start: one core, and nothing on it.
    ///
    /// # Errors
    /// Out of memory.
    fn new(alloc: Global) -> Result<Self, AllocError>
        ensures start { IfOk result (λ m. shows m start) };

    /// Does one event.
    ///
    /// # Errors
    /// Out of memory; the system shows what it showed.
    fn step(&mut self, event: Event<'_>) -> Result<Answer, AllocError>
        ensures steps { IfOk result (λ a. Steps shows self.old self.new (event_of event.entry) (answer_of a)) }
        ensures kept { OnErr result ((s : State) → shows self.old s → shows self.new s) };

    /// The same for a call that an end makes, which is lent. This event and the next five are those that scripts repeat, told by their parts.
    ///
    /// # Errors
    /// As for [`Machine::step`].
    fn step_call(&mut self, end: EndId, call: &Call) -> Result<BriefAnswer, AllocError>
        ensures steps { IfOk result (λ a. Steps shows self.old self.new (machine.call end (call_of call.now)) (brief_of a)) }
        ensures kept { OnErr result ((s : State) → shows self.old s → shows self.new s) };

    /// An end writes its next fragment.
    ///
    /// # Errors
    /// As for [`Machine::step`].
    fn step_write(&mut self, end: EndId) -> Result<BriefAnswer, AllocError>
        ensures steps { IfOk result (λ a. Steps shows self.old self.new (machine.write end) (brief_of a)) }
        ensures kept { OnErr result ((s : State) → shows self.old s → shows self.new s) };

    /// A dispatcher has a turn. A call that is handled takes the place of `handled`, whatever stands there; else that may be any.
    ///
    /// # Errors
    /// As for [`Machine::step`].
    fn step_turn(
        &mut self,
        dispatcher: DispatcherId,
        handled: &mut CompactCall,
    ) -> Result<TurnedAnswer, AllocError>
        ensures steps { IfOk result (λ a. Steps shows self.old self.new (machine.turn (id_of dispatcher)) (turned_of a (call_of handled.new))) }
        ensures kept { OnErr result ((s : State) → shows self.old s → shows self.new s) };

    /// An end shows the fragment that it would write next.
    ///
    /// # Errors
    /// As for [`Machine::step`].
    fn step_show(&mut self, end: EndId) -> Result<Answer, AllocError>
        ensures steps { IfOk result (λ a. Steps shows self.old self.new (machine.show end) (answer_of a)) }
        ensures kept { OnErr result ((s : State) → shows self.old s → shows self.new s) };

    /// An end tells what was taken at its ring.
    ///
    /// # Errors
    /// As for [`Machine::step`].
    fn step_ack(&mut self, end: EndId) -> Result<BriefAnswer, AllocError>
        ensures steps { IfOk result (λ a. Steps shows self.old self.new (machine.ack end) (brief_of a)) }
        ensures kept { OnErr result ((s : State) → shows self.old s → shows self.new s) };

    /// A core forwards what stands first on its link to a neighbour.
    ///
    /// # Errors
    /// As for [`Machine::step`].
    fn step_forward(&mut self, core: u32, neighbour: u32) -> Result<BriefAnswer, AllocError>
        ensures steps { IfOk result (λ a. Steps shows self.old self.new (machine.forward core neighbour) (brief_of a)) }
        ensures kept { OnErr result ((s : State) → shows self.old s → shows self.new s) };
}
