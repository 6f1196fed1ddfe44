//! Turns of dispatchers, and what ends say of themselves.

ghost use Rattle.std.specs.Prelude.{◌≡◌, ◌<◌, length, Some, None, IsSome, IfOk, OnErr};
ghost use Rattle.fl_link.specs.Queue.{QueueTakes};
ghost use Rattle.fl_ring.specs.Side.{SideTakes};
ghost use Rattle.fl_endpoint.specs.Accounts.{Sound};
ghost use Rattle.fl_core.specs.BoardView.{due};
ghost use Rattle.fl_core.specs.BoardEvents.{Holds, Acks};
ghost use Rattle.fl_core.specs.BoardTurns.{Turns, over};
ghost use Rattle.fl_core.specs.View.{arrivals_of};
ghost use Rattle.fl_core.specs.Ends.{OnBoard};
ghost use Rattle.fl_world_refines.specs.Lending.{answer_at};
ghost use Rattle.fl_world_refines.specs.Taking.{turn_answer, as_turn, TurnsWith, TurnsArrivals};
ghost use Rattle.fl_world_refines.specs.Taking.{AcksWith};
ghost use Rattle.fl_world_refines.specs.Taking.{TellsNothing, IsRegistered, RegistersWith, RegistersArrivals};
ghost use Rattle.fl_world_refines.specs.Taking.{DeregistersIn, IsRuled};
ghost use Rattle.fl_world_refines.specs.Linking.{ack_answer};
ghost use Rattle.fl_model.specs.Views.{answer_of, brief_of, turned_of};
ghost use Rattle.fl_value_data.specs.Value.{call_of};
ghost use Rattle.fl_world_events.specs.Parts.{InCore, ByQueue, ByRing, KeptOrNone, RulesIn, RulesWith};
ghost use Rattle.fl_world_events.specs.Wants.{HandlesCall, HandlesOnRing, HandlesArrival};

use crate::lending::{law_whole, which_at};
use fl_base::{EndId, MsgNo, faults};
use fl_compact_calls::CompactCall;
use fl_core::{AckAnswer, BoardFault, Core, TurnAnswer};
use fl_endpoint::EndFault;
use fl_link::QueueLink;
use fl_model::{Answer, BriefAnswer, TurnedAnswer};
use fl_ring::{OneDuo, law_forgets_looks};
use fl_world_refines::Binding;
use std::alloc::AllocError;

// ---- turns

/// The end that is due at a dispatcher of a core.
#[derive(Clone, Copy)]
pub struct DueEnd {
    /// The dispatcher's place.
    pub dispatcher: usize,
    /// The end's place on the board.
    pub end: usize,
    /// Which end it is.
    pub name: EndId,
}

// What is answered for a turn that looked at an end. A call that was handled takes the place of one of before, whose memory is
// the core's for its next call.
#[inline(always)]
fn answer_turn(
    core: &mut Core,
    answer: TurnAnswer,
    end: EndId,
    handled: &mut CompactCall,
) -> TurnedAnswer
    ensures turned { turned_of result (call_of handled.new) ≡ turn_answer end answer }
    ensures same { core.new ≡ core.old }
{
    match answer {
        TurnAnswer::Handle(call) => {
            if let Some(memory) = call.put_in(handled) {
                core.give_back(memory);
            }
            TurnedAnswer::Handle(end)
        }
        TurnAnswer::Part => TurnedAnswer::Part(end),
        TurnAnswer::Ready => TurnedAnswer::Ready(end),
        TurnAnswer::Quiet => TurnedAnswer::Quiet(end),
        TurnAnswer::Full => TurnedAnswer::Full,
        TurnAnswer::Nothing => TurnedAnswer::Nothing,
        TurnAnswer::Refused(fault) => TurnedAnswer::Refused(fault.number()),
    }
}

// What is known of an end at any time. It does nothing.
fn law_sound(core: &Core, e: usize)
    requires there { e < length core.now.board.seats }
    ensures sound { Holds core.now.board e (λ s. Sound s.end) }
{
    core.board().law_end_sound(e);
}

/// A dispatcher of a core has a turn, over the queue of the end that is due.
///
/// # Errors
/// Out of memory, only where it would handle a call.
#[inline(always)]
pub fn turn_by_queue(
    core: &mut Core,
    at: DueEnd,
    queue: &mut QueueLink,
    handled: &mut CompactCall,
) -> Result<TurnedAnswer, AllocError>
    requires there { at.dispatcher < length core.old.board.dispatchers }
    requires due { due core.old.board at.dispatcher ≡ Some at.end }
    requires end { at.end < length core.old.board.seats }
    requires lent { arrivals_of core.old at.end ≡ None }
    ensures turns { IfOk result (λ a. ByQueue
        (TurnsWith QueueTakes (as_turn at.dispatcher at.end at.name (turned_of a (call_of handled.new)))) core.old queue.old core.new queue.new) }
    ensures kept { OnErr result (core.new ≡ core.old) }
    ensures left { OnErr result (queue.new ≡ queue.old) }
    ensures wants { OnErr result (HandlesCall QueueTakes at.dispatcher at.end core.old.board queue.old) }
{
    law_whole(core);
    law_sound(core, at.end);
    let answer = core.turn(at.dispatcher, at.end, queue);
    law_whole(core);
    match answer {
        Ok(answer) => Ok(answer_turn(core, answer, at.name, handled)),
        Err(error) => Err(error),
    }
}

// The same over side m of a ring. Where memory is refused the side knows what its look told it.
#[inline(always)]
fn turn_over(
    core: &mut Core,
    at: DueEnd,
    ring: &mut OneDuo,
    m: usize,
) -> Result<TurnAnswer, AllocError>
    requires there { at.dispatcher < length core.old.board.dispatchers }
    requires due { due core.old.board at.dispatcher ≡ Some at.end }
    requires end { at.end < length core.old.board.seats }
    requires lent { arrivals_of core.old at.end ≡ None }
    ensures turns { ByRing m (λ k p k2 q. OnBoard k (λ b c. Turns SideTakes at.dispatcher at.end (over b p) result (over c q)) k2)
        core.old ring.old core.new ring.new }
    ensures kept { OnErr result (core.new ≡ core.old) }
{
    law_whole(core);
    let mut side = ring.side(which_at(m));
    let answer = core.turn(at.dispatcher, at.end, &mut side);
    law_whole(core);
    answer
}

/// A dispatcher of a core has a turn, over side m of a ring. Where memory is refused the ring is as it was.
///
/// # Errors
/// Out of memory, only where it would handle a call.
#[inline(always)]
pub fn turn_by_ring(
    core: &mut Core,
    at: DueEnd,
    ring: &mut OneDuo,
    m: usize,
    handled: &mut CompactCall,
) -> Result<TurnedAnswer, AllocError>
    requires there { at.dispatcher < length core.old.board.dispatchers }
    requires due { due core.old.board at.dispatcher ≡ Some at.end }
    requires end { at.end < length core.old.board.seats }
    requires lent { arrivals_of core.old at.end ≡ None }
    ensures turns { IfOk result (λ a. ByRing m
        (TurnsWith SideTakes (as_turn at.dispatcher at.end at.name (turned_of a (call_of handled.new))))
        core.old ring.old core.new ring.new) }
    ensures kept { OnErr result (core.new ≡ core.old) }
    ensures left { OnErr result (ring.new ≡ ring.old) }
    ensures wants { OnErr result (HandlesOnRing m at.dispatcher at.end core.old.board ring.old) }
{
    let known = ring.known(which_at(m));
    law_sound(core, at.end);
    match turn_over(core, at, ring, m) {
        Ok(answer) => Ok(answer_turn(core, answer, at.name, handled)),
        Err(error) => {
            law_forgets_looks();
            ring.forget(which_at(m), known);
            Err(error)
        }
    }
}

/// A dispatcher of a core has a turn, where the end that is due has an arrival queue.
///
/// # Errors
/// Out of memory, only where it would handle a call.
pub fn turn_in(
    core: &mut Core,
    at: DueEnd,
    handled: &mut CompactCall,
) -> Result<TurnedAnswer, AllocError>
    requires there { at.dispatcher < length core.old.board.dispatchers }
    requires due { due core.old.board at.dispatcher ≡ Some at.end }
    requires end { at.end < length core.old.board.seats }
    requires own { IsSome (arrivals_of core.old at.end) }
    ensures turns { IfOk result (λ a. InCore (TurnsArrivals (as_turn at.dispatcher at.end at.name (turned_of a (call_of handled.new)))) core.old core.new) }
    ensures kept { OnErr result (core.new ≡ core.old) }
    ensures wants { OnErr result (HandlesArrival at.dispatcher at.end core.old) }
{
    law_whole(core);
    law_sound(core, at.end);
    let answer = core.turn_arrivals(at.dispatcher, at.end);
    law_whole(core);
    match answer {
        Ok(answer) => Ok(answer_turn(core, answer, at.name, handled)),
        Err(error) => Err(error),
    }
}

// ---- acknowledgements

// What is answered for what an end's acknowledgement came to.
pub(crate) fn answer_ack(answer: AckAnswer) -> BriefAnswer
    ensures acked { brief_of result ≡ ack_answer answer }
{
    match answer {
        AckAnswer::Done => BriefAnswer::Done,
        AckAnswer::Nothing => BriefAnswer::Nothing,
        AckAnswer::Full => BriefAnswer::Full,
    }
}

/// The end at a place of a core's board acknowledges, over side m of a ring.
pub fn ack_by_ring(core: &Core, place: usize, ring: &mut OneDuo, m: usize) -> BriefAnswer
    requires place { place < length core.now.board.seats }
    requires lent { arrivals_of core.now place ≡ None }
    ensures acks { ByRing m (AcksWith (answer_at place (brief_of result))) core.now ring.old core.now ring.new }
{
    law_whole(core);
    let mut side = ring.side(which_at(m));
    match core.ack(place, &mut side) {
        Ok(answer) => answer_ack(answer),
        Err(fault) => BriefAnswer::Refused(fault.number()),
    }
}

/// The end at a place of a core's board takes from a queue, which has nothing to tell.
pub fn tell_nothing(core: &Core, place: usize) -> BriefAnswer
    requires place { place < length core.now.board.seats }
    ensures tells { Holds core.now.board place (λ s. TellsNothing s.end (brief_of result)) }
{
    if core.board().end(place).is_bound() {
        BriefAnswer::Nothing
    } else {
        BriefAnswer::Refused(faults::NOT_BOUND)
    }
}

// ---- registrations

// What is answered for an end that is registered or deregistered.
fn answer_register(outcome: Result<(), BoardFault>) -> Answer
    ensures registered { IsRegistered outcome (answer_of result) }
{
    match outcome {
        Ok(()) => Answer::Done,
        Err(fault) => Answer::Refused(fault.number()),
    }
}

/// The channel of the end at a place of a core's board is registered, over its queue.
pub fn register_by_queue(core: &mut Core, place: usize, queue: &mut QueueLink) -> Answer
    requires place { place < length core.old.board.seats }
    requires lent { arrivals_of core.old place ≡ None }
    ensures registers { ByQueue (RegistersWith QueueTakes (answer_at place (answer_of result))) core.old queue.old core.new queue.new }
{
    law_whole(core);
    let outcome = core.register(place, queue);
    law_whole(core);
    answer_register(outcome)
}

/// The channel of the end at a place of a core's board is registered, over side m of a ring.
pub fn register_by_ring(core: &mut Core, place: usize, ring: &mut OneDuo, m: usize) -> Answer
    requires place { place < length core.old.board.seats }
    requires lent { arrivals_of core.old place ≡ None }
    ensures registers { ByRing m (RegistersWith SideTakes (answer_at place (answer_of result))) core.old ring.old core.new ring.new }
{
    law_whole(core);
    let mut side = ring.side(which_at(m));
    let outcome = core.register(place, &mut side);
    law_whole(core);
    answer_register(outcome)
}

/// The channel of an end that has an arrival queue is registered.
pub fn register_in(core: &mut Core, place: usize) -> Answer
    requires own { IsSome (arrivals_of core.old place) }
    ensures registers { InCore (RegistersArrivals (answer_at place (answer_of result))) core.old core.new }
{
    law_whole(core);
    let outcome = core.register_arrivals(place);
    law_whole(core);
    answer_register(outcome)
}

/// The channel of the end at a place of a core's board is deregistered.
pub fn deregister_in(core: &mut Core, place: usize) -> Answer
    requires place { place < length core.old.board.seats }
    ensures deregisters { InCore (DeregistersIn (answer_at place (answer_of result))) core.old core.new }
{
    law_whole(core);
    let outcome = core.deregister(place);
    law_whole(core);
    answer_register(outcome)
}

// ---- reply rules

// What is answered for an end that gets a reply rule.
fn answer_rule(outcome: Result<(), EndFault>) -> Answer
    ensures ruled { IsRuled outcome (answer_of result) }
{
    match outcome {
        Ok(()) => Answer::Done,
        Err(fault) => Answer::Refused(fault.number()),
    }
}

/// The end at a place of a core's board gets a rule.
pub fn rule_in(core: &mut Core, place: usize, message: MsgNo, answer: MsgNo) -> Answer
    requires place { place < length core.old.board.seats }
    ensures rules { InCore (RulesIn place message.0 answer.0 (answer_of result)) core.old core.new }
{
    law_whole(core);
    let outcome = core.reply_rule(place, message, answer);
    law_whole(core);
    answer_rule(outcome)
}

/// The end that a binding keeps gets a rule.
pub fn rule_kept(binding: &mut Binding, message: MsgNo, answer: MsgNo) -> Answer
    ensures rules { KeptOrNone (RulesWith message.0 answer.0 (answer_of result)) (answer_of result) binding.old binding.new }
{
    match &mut binding.unmade {
        None => Answer::Refused(faults::WRONG_NAME),
        Some(end) => answer_rule(end.reply_rule(message, answer)),
    }
}
