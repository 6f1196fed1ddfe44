//! Whatever event is asked: one step of the machine, and many.

ghost use Rattle.std.specs.Prelude.{◌≡◌, true, map, is_some, IfOk, OnErr};
ghost use Rattle.fl_value_data.specs.Value.{TheCall, call_of};
ghost use Rattle.fl_model.specs.Views.{event_of, answer_of, brief_of, turned_of, id_of};
ghost use Rattle.fl_model.specs.State.{State};
ghost use Rattle.fl_world_refines.specs.ShowsState.{Shows};
ghost use Rattle.fl_world_refines.specs.Step.{Does, settled, settled_by, Steps};
ghost use Rattle.fl_world_refines.specs.Sending.{MakesCall};
ghost use Rattle.fl_world_refines.specs.Taking.{HasTurn};
ghost use Rattle.fl_world_refines.specs.Linking.{Forwards};
ghost use Rattle.fl_world_events.specs.Last.{NotRefused};
ghost use Rattle.fl_world.specs.Handling.{WantsToHandle};
ghost use Rattle.fl_world.specs.Hearing.{WantsToSay};
ghost use Rattle.fl_world.specs.Stepping.{StepsAlike, may_want_memory, fault_in, is_interface};
ghost use Rattle.fl_world.specs.Stepping.{WantsMemory, RunsAlike, ShowsAfterSome};

use crate::world::World;
use fl_base::{EndId, MsgNo};
use fl_compact_calls::CompactCall;
use fl_model::{Answer, BriefAnswer, DispatcherId, Event, TurnedAnswer};
use fl_value_data::Call;
use fl_world_refines::law_steps_agree;
use std::alloc::AllocError;

// Whether the event adds an interface.
fn is_interface(event: &Event<'_>) -> bool
    ensures interface { result ≡ is_interface (event_of event.now) }
{
    matches!(event, Event::AddInterface { .. })
}

// Whether the event was refused.
#[inline(always)]
fn is_refused(answer: &Answer) -> bool
    ensures refused { result ≡ is_some (fault_in (answer_of answer.now)) }
{
    matches!(answer, Answer::Refused(_))
}

// The same of an answer in brief.
#[inline(always)]
fn is_brief_refused(answer: BriefAnswer) -> bool
    ensures refused { result ≡ is_some (fault_in (brief_of answer)) }
{
    matches!(answer, BriefAnswer::Refused(_))
}

// The same of a turn's answer.
#[inline(always)]
fn is_turn_refused(answer: TurnedAnswer) -> bool
    ensures refused { (call : TheCall) → result ≡ is_some (fault_in (turned_of answer call)) }
{
    matches!(answer, TurnedAnswer::Refused(_))
}

// ---- answers that events give in brief

impl World {
    // A call that an end makes.
    #[inline(never)]
    fn call_whole(&mut self, end: EndId, call: &Call) -> Result<Answer, AllocError>
        ensures calls { IfOk result (λ a. MakesCall end (call_of call.now) self.old (answer_of a) self.new) }
        ensures kept { OnErr result (self.new ≡ self.old) }
        ensures last { OnErr result (NotRefused (MakesCall end (call_of call.now) self.old)) }
    {
        match self.call(end, call) {
            Ok(answer) => Ok(answer.whole()),
            Err(error) => Err(error),
        }
    }

    // A turn, with the call that it handled.
    #[inline(never)]
    fn turn_whole(&mut self, dispatcher: DispatcherId) -> Result<Answer, AllocError>
        ensures turns { IfOk result (λ a. HasTurn (id_of dispatcher) self.old (answer_of a) self.new) }
        ensures kept { OnErr result (self.new ≡ self.old) }
        ensures last { OnErr result (WantsToHandle (id_of dispatcher) self.old) }
    {
        let mut handled = CompactCall::of_number(&mut self.number, MsgNo(0), 0);
        match self.turn(dispatcher, &mut handled) {
            Ok(answer) => Ok(answer.whole(handled)),
            Err(error) => Err(error),
        }
    }

    // What stands first on a link is forwarded.
    #[inline(never)]
    fn forward_whole(&mut self, core: u32, neighbour: u32) -> Result<Answer, AllocError>
        ensures forwards { IfOk result (λ a. Forwards core neighbour self.old (answer_of a) self.new) }
        ensures kept { OnErr result (self.new ≡ self.old) }
        ensures last { OnErr result (WantsToSay core neighbour self.old) }
    {
        match self.forward(core, neighbour) {
            Ok(answer) => Ok(answer.whole()),
            Err(error) => Err(error),
        }
    }
}

// ---- any event

impl World {
    // What the event does. Most kinds of event are functions out of line, so that none prepares what another needs; a call, a write and
    // a turn are in line, here and where they are asked by themselves (`machine.rt`).
    fn does(&mut self, event: &Event<'_>) -> Result<Answer, AllocError>
        ensures does { IfOk result (λ a. Does (event_of event.now) self.old (answer_of a) self.new) }
        ensures kept { OnErr result (self.new ≡ self.old) }
        ensures memory { OnErr result (may_want_memory (event_of event.now) ≡ true) }
        ensures last { OnErr result (WantsMemory (event_of event.now) self.old) }
    {
        match event {
            Event::AddInterface { interface, plan } => self.add_interface(interface, *plan),
            Event::SetCores(n) => self.set_cores(*n),
            Event::AddLink { a, b, slots } => self.add_link(*a, *b, *slots),
            Event::AddDispatcher(core) => self.add_dispatcher(*core),
            Event::Export {
                name,
                dispatcher,
                interface,
            } => self.export(name, *dispatcher, *interface),
            Event::Bind {
                client,
                interface,
                service,
                back_end,
            } => self.bind(*client, *interface, service, *back_end),
            Event::Call(end, call) => self.call_whole(*end, call),
            Event::Show(end) => Ok(self.show(*end)),
            Event::Write(end) => Ok(self.write(*end).whole()),
            Event::Turn(dispatcher) => self.turn_whole(*dispatcher),
            Event::Ack(end) => Ok(self.ack(*end).whole()),
            Event::Register(end) => Ok(self.register(*end)),
            Event::Deregister(end) => Ok(self.deregister(*end)),
            Event::Reply {
                end,
                message,
                answer,
            } => Ok(self.reply(*end, *message, *answer)),
            Event::MonitorWrite { core, neighbour } => Ok(self.monitor_write(*core, *neighbour)),
            Event::Forward { core, neighbour } => self.forward_whole(*core, *neighbour),
            Event::MonitorAck { core, neighbour } => { Ok(self.monitor_ack(*core, *neighbour)) }
        }
    }

    // After any answer but a refusal the number of cores stands.
    #[inline(always)]
    pub(crate) fn close(&mut self, answer: &Answer)
        ensures closed { self.new ≡ settled_by (answer_of answer.now) self.old }
    {
        if is_refused(answer) {
            return;
        }
        self.may_set_cores = false;
    }

    // The same after an answer in brief.
    #[inline(always)]
    pub(crate) fn close_brief(&mut self, answer: BriefAnswer)
        ensures closed { self.new ≡ settled_by (brief_of answer) self.old }
    {
        if is_brief_refused(answer) {
            return;
        }
        self.may_set_cores = false;
    }

    // The same for what an event that is answered in brief came to.
    #[inline(always)]
    pub(crate) fn close_brief_by(&mut self, outcome: Result<BriefAnswer, AllocError>)
        ensures closed { IfOk outcome (λ a. self.new ≡ settled_by (brief_of a) self.old) }
        ensures kept { OnErr outcome (self.new ≡ self.old) }
    {
        if let Ok(answer) = outcome {
            self.close_brief(answer);
        }
    }

    // The same after a turn's answer, whatever call was handled.
    #[inline(always)]
    fn close_turned(&mut self, answer: TurnedAnswer)
        ensures closed { (call : TheCall) → self.new ≡ settled_by (turned_of answer call) self.old }
    {
        if is_turn_refused(answer) {
            return;
        }
        self.may_set_cores = false;
    }

    // The same for what a turn came to.
    #[inline(always)]
    pub(crate) fn close_turned_by(&mut self, outcome: Result<TurnedAnswer, AllocError>)
        ensures closed { IfOk outcome (λ a. (call : TheCall) → self.new ≡ settled_by (turned_of a call) self.old) }
        ensures kept { OnErr outcome (self.new ≡ self.old) }
    {
        if let Ok(answer) = outcome {
            self.close_turned(answer);
        }
    }

    // The same for what an event came to, where it lies: an answer is large to move.
    #[inline(always)]
    pub(crate) fn close_by(&mut self, outcome: &Result<Answer, AllocError>)
        ensures closed { IfOk outcome.now (λ a. self.new ≡ settled_by (answer_of a) self.old) }
        ensures kept { OnErr outcome.now (self.new ≡ self.old) }
    {
        if let Ok(answer) = outcome {
            self.close(answer);
        }
    }

    // The same, but interfaces may be added before it is set.
    fn settle_by(&mut self, event: &Event<'_>, outcome: &Result<Answer, AllocError>)
        ensures settled { IfOk outcome.now (λ a. self.new ≡ settled (event_of event.now) (answer_of a) self.old) }
        ensures kept { OnErr outcome.now (self.new ≡ self.old) }
    {
        if is_interface(event) {
            return;
        }
        self.close_by(outcome);
    }

    /// Does one event, which is lent: nothing of it is copied but what the world keeps.
    ///
    /// # Errors
    /// Out of memory, for events that make something, make or handle calls, or hear messages, where they
    /// aren't refused. Nothing has changed.
    pub fn replay(&mut self, event: &Event<'_>) -> Result<Answer, AllocError>
        ensures steps { IfOk result (λ a. Steps (event_of event.now) self.old (answer_of a) self.new) }
        ensures agrees { IfOk result (λ a. StepsAlike (event_of event.now) self.old (answer_of a) self.new) }
        ensures kept { OnErr result (self.new ≡ self.old) }
        ensures memory { OnErr result (may_want_memory (event_of event.now) ≡ true) }
        ensures last { OnErr result (WantsMemory (event_of event.now) self.old) }
    {
        law_steps_agree();
        let outcome = self.does(event);
        self.settle_by(event, &outcome);
        outcome
    }

    /// Does one event: a step of the machine.
    ///
    /// # Errors
    /// Out of memory, for events that make something, make or handle calls, or hear messages, where they
    /// aren't refused. Nothing has changed.
    pub fn step(&mut self, event: Event<'_>) -> Result<Answer, AllocError>
        ensures steps { IfOk result (λ a. Steps (event_of event.entry) self.old (answer_of a) self.new) }
        ensures agrees { IfOk result (λ a. StepsAlike (event_of event.entry) self.old (answer_of a) self.new) }
        ensures kept { OnErr result (self.new ≡ self.old) }
        ensures memory { OnErr result (may_want_memory (event_of event.entry) ≡ true) }
        ensures last { OnErr result (WantsMemory (event_of event.entry) self.old) }
    {
        self.replay(&event)
    }

    /// Does events in order, and gives their answers.
    ///
    /// # Errors
    /// Out of memory. The first events were done, and no others.
    pub fn run(&mut self, events: &[Event<'_>]) -> Result<Vec<Answer>, AllocError>
        ensures runs { IfOk result (λ answers. (s : State) → Shows self.old s
            → RunsAlike s (map event_of events.now) (map answer_of answers.items) self.new) }
        ensures stops { OnErr result ((s : State) → Shows self.old s → ShowsAfterSome s (map event_of events.now) self.new) }
    {
        let mut answers = Vec::new(self.alloc);
        for event in events {
            let answer = self.replay(event)?;
            answers.push(answer)?;
        }
        Ok(answers)
    }
}
