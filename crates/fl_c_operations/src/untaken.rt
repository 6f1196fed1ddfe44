//! A receive of what an end didn't take at its first look. Out of line, so that what is taken there has nothing of it.

ghost use Rattle.std.specs.Prelude.{◌≡◌, ◌≢◌, true, take, Ok, None, IsSome, IfSome, IfNone};
ghost use Rattle.fl_ring.specs.SharedSides.{TheSide, SharedTakes};
ghost use Rattle.fl_endpoint.specs.Lent.{IsPlaceOf, receipt, ReceivesAt};
ghost use Rattle.fl_c_operations.specs.declared.answer.Outcome.TheVariants.{Handled};
ghost use Rattle.fl_c_operations.specs.Seen.{IsAfterLook};
ghost use Rattle.fl_c_operations.specs.Glances.{TakesShort};
ghost use Rattle.fl_c_operations.specs.View.{handled_by, held_as, IsBetween, IsHeld};
ghost use Rattle.fl_c_operations.specs.Ends.{received_as, unread_in, ReceivesNext, read_as, taken_as, AnswersTakeCall};

use crate::answer::{Answered, Outcome, UseFault};
use crate::by_stub::TapedCall;
use crate::looked::LookedSide;
use crate::transmitting::TransmittingEnd;
use crate::unread::{UnreadCall, read_unread, stays};
use fl_endpoint::{EndFault, ReceiveAnswer};
use fl_machine::Reassemblies;
use fl_wire::law_one_reading;
use std::alloc::Global;

// What a receive comes to, as it is told, and the call that stays to be read.
fn received(
    answer: Result<ReceiveAnswer, EndFault>,
) -> (Result<Outcome, UseFault>, Option<UnreadCall>)
    ensures told { result.0 ≡ received_as answer }
    ensures unread { result.1 ≡ unread_in answer }
{
    match answer {
        Ok(ReceiveAnswer::Handle(call)) => (Ok(Outcome::Handled), Some(UnreadCall::Whole(call))),
        Ok(ReceiveAnswer::Part) => (Ok(Outcome::PartTaken), None),
        Ok(ReceiveAnswer::Quiet) => (Ok(Outcome::Acknowledgement), None),
        Ok(ReceiveAnswer::Empty) => (Ok(Outcome::Nothing), None),
        Ok(ReceiveAnswer::HeldBack) => (Ok(Outcome::Held), None),
        Err(fault) => (Err(UseFault::End(fault)), None),
    }
}

// Takes what stands first, by a side that may have seen it.
fn receive_lent(
    end: &mut TransmittingEnd,
    side: &mut LookedSide,
    calls: &mut Reassemblies,
) -> Result<ReceiveAnswer, EndFault>
    requires place { IsPlaceOf end.old calls.old 0 }
    ensures receives { (p : TheSide) → IsAfterLook end.old p side.old.seen side.old.side
        → ReceivesAt SharedTakes (receipt end.old p result end.new side.new.side) calls.old 0 calls.new }
    ensures place { IsPlaceOf end.new calls.new 0 }
{
    end.receive(side, calls, 0)
}

// Takes the fragment that a side has seen, where it is the only one of a call of a message that has no codec. It may take none.
fn take_taped(end: &TransmittingEnd, side: &mut LookedSide) -> Option<TapedCall>
    ensures some { IfSome result (λ call. (p : TheSide) → IsAfterLook end.now p side.old.seen side.old.side
        → IsSome side.old.seen × TakesShort end.now p call.msg.0 (take call.count call.numbers) side.new.side) }
    ensures none { IfNone result ((side.new.side ≡ side.old.side) × (side.new.seen ≡ side.old.seen)) }
{
    let Some(frag) = side.seen() else {
        return None;
    };
    let Some(call) = end.taped_call(frag) else {
        return None;
    };
    let _ = side.take_seen();
    Some(call)
}

/// Takes what stands first, by a side that may have seen it where no call is under way. A call that becomes whole stays until it is
/// read.
#[inline(never)]
pub(crate) fn receive_untaken(
    end: &mut TransmittingEnd,
    side: &mut LookedSide,
    calls: &mut Reassemblies,
    handled: &mut Option<UnreadCall>,
    between: &mut bool,
) -> Result<Outcome, UseFault>
    requires place { IsPlaceOf end.old calls.old 0 }
    requires idle { between.old ≡ true → IsBetween calls.old }
    requires seen { IsSome side.old.seen → between.old ≡ true }
    ensures receives { (p : TheSide) → IsAfterLook end.old p side.old.seen side.old.side
        → ReceivesNext (held_as end.old p calls.old None) result (held_as end.new side.new.side calls.new (handled_by end.new.program handled.new)) }
    ensures held { (p : TheSide) → IsAfterLook end.old p side.old.seen side.old.side → IsHeld end.new calls.new between.new }
    ensures none { handled.new ≡ None → result ≢ Ok Handled }
    ensures some { IsSome handled.new → result ≡ Ok Handled }
{
    if let Some(call) = take_taped(end, side) {
        law_one_reading();
        *handled = Some(UnreadCall::Taped(call));
        return Ok(Outcome::Handled);
    }
    let (outcome, unread) = received(receive_lent(end, side, calls));
    *between = unread.is_some();
    *handled = unread;
    outcome
}

// What a read that isn't refused comes to behind a call that was handled.
fn read_through(outcome: Outcome) -> Outcome
    ensures told { result ≡ read_as outcome }
{
    match outcome {
        Outcome::CallRead { count } => Outcome::CallTaken { count },
        _ => outcome,
    }
}

// What a read comes to there.
fn taken(read: Result<Outcome, UseFault>) -> Result<Outcome, UseFault>
    ensures told { result ≡ taken_as read }
{
    match read {
        Ok(outcome) => Ok(read_through(outcome)),
        Err(fault) => Err(stays(fault)),
    }
}

/// The same, and reads the call that becomes whole.
#[inline(never)]
pub(crate) fn take_untaken(
    alloc: Global,
    end: &mut TransmittingEnd,
    side: &mut LookedSide,
    calls: &mut Reassemblies,
    handled: &mut Option<UnreadCall>,
    between: &mut bool,
    spare: &mut Vec<u64>,
    room: &mut [u64],
) -> Answered
    requires place { IsPlaceOf end.old calls.old 0 }
    requires idle { between.old ≡ true → IsBetween calls.old }
    requires seen { IsSome side.old.seen → between.old ≡ true }
    ensures takes { (p : TheSide) → IsAfterLook end.old p side.old.seen side.old.side → AnswersTakeCall (held_as end.old p calls.old None) room.old result
        (held_as end.new side.new.side calls.new (handled_by end.new.program handled.new)) room.new }
    ensures held { (p : TheSide) → IsAfterLook end.old p side.old.seen side.old.side → IsHeld end.new calls.new between.new }
{
    let outcome = receive_untaken(end, side, calls, handled, between);
    if handled.is_none() {
        return Answered::of(outcome);
    }
    Answered::of(taken(read_unread(alloc, end.program(), handled, spare, room)))
}
