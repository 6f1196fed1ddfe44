//! One end of a binding, over a queue to which it puts and from which it takes.
//!
//! The end, the queue and the place of the end's calls are each made by a function of its own, which lends it: so each is let go
//! once, and nothing is decided where one is owned.

ghost use Rattle.std.specs.Prelude.{◌≡◌, [], OnOk};
ghost use Rattle.fl_endpoint.specs.Lent.{IsPlaceOf};

use crate::end_rows::{AT_LAST, EXAMPLES, EndAction, EndExample, NUMBERS, Received};
use crate::texts::program;
use fl_base::{Circuit, Frag, MsgNo};
use fl_compact_calls::{CompactCall, NumberCall};
use fl_core::{law_one_dispatcher_changes, law_one_end_changes, law_turn_accounts};
use fl_endpoint::{
    End, EndFault, ReceiveAnswer, WriteAnswer, law_accounts_add_up, law_bind_accounts,
    law_call_accounts, law_exchange_accounts, law_handles_in_order, law_on_another_circuit,
    law_receive_accounts, law_replies_add_up, law_rule_accounts, law_since_made,
    law_takes_in_order, law_write_accounts,
};
use fl_link::QueueLink;
use fl_machine::Reassemblies;
use fl_value::{ValueFault, print_call, read_call};
use fl_value_data::{Call, PlanNo};
use std::alloc::{AllocError, Global};
use std::test::Fail;

fn bound_end(
    alloc: Global,
    plan: PlanNo,
    text: &[u8],
    circuit: Circuit,
) -> Result<End, AllocError> {
    End::new(alloc, program(alloc, text, plan)?, circuit)
}

fn unbound_end(alloc: Global, plan: PlanNo, text: &[u8]) -> Result<End, AllocError> {
    End::unbound(alloc, program(alloc, text, plan)?)
}

// An example's end.
fn make_end(alloc: Global, plan: PlanNo, example: &EndExample) -> Result<End, AllocError> {
    match example.circuit {
        Some(circuit) => bound_end(alloc, plan, example.text, circuit),
        None => unbound_end(alloc, plan, example.text),
    }
}

// Makes a call.
fn make_call(alloc: Global, end: &mut End, call: &Call) -> Result<(), EndFault>
    ensures program { end.new.program ≡ end.old.program }
{
    end.call(call, &mut Vec::new(alloc))
}

// Makes a call as it was read. The texts of the examples are calls of their interfaces.
fn make_read(alloc: Global, end: &mut End, read: Result<Call, ValueFault>) -> Result<(), EndFault>
    ensures program { end.new.program ≡ end.old.program }
{
    match read {
        Ok(call) => make_call(alloc, end, &call),
        Err(_) => Err(EndFault::Memory),
    }
}

// Makes the call of a text.
fn say(alloc: Global, end: &mut End, text: &[u8]) -> Result<(), EndFault>
    ensures program { end.new.program ≡ end.old.program }
{
    let read = read_call(alloc, text, end.program().interface());
    make_read(alloc, end, read)
}

// Whether an end answers so to the call of a text.
fn says(
    alloc: Global,
    end: &mut End,
    text: &[u8],
    answer: &Result<(), EndFault>,
) -> Result<bool, AllocError>
    ensures program { end.new.program ≡ end.old.program }
{
    match say(alloc, end, text) {
        Err(EndFault::Memory) => Err(AllocError),
        said => Ok(said == *answer),
    }
}

// Makes a call that is held in little memory.
fn make_compact(alloc: Global, end: &mut End, call: &CompactCall) -> Result<(), EndFault>
    ensures program { end.new.program ≡ end.old.program }
{
    end.call_compact(call, &mut Vec::new(alloc))
}

// The same of a call as it was read.
fn make_kept(alloc: Global, end: &mut End, read: Result<Call, ValueFault>) -> Result<(), EndFault>
    ensures program { end.new.program ≡ end.old.program }
{
    let Ok(call) = read else {
        return Err(EndFault::Memory);
    };
    match CompactCall::keep(alloc, call) {
        Ok(call) => make_compact(alloc, end, &call),
        Err(_) => Err(EndFault::Memory),
    }
}

// Whether an end answers so to the call of a text, which is held in little memory.
fn says_held(
    alloc: Global,
    end: &mut End,
    text: &[u8],
    answer: &Result<(), EndFault>,
) -> Result<bool, AllocError>
    ensures program { end.new.program ≡ end.old.program }
{
    let read = read_call(alloc, text, end.program().interface());
    match make_kept(alloc, end, read) {
        Err(EndFault::Memory) => Err(AllocError),
        said => Ok(said == *answer),
    }
}

fn sets(end: &mut End, msg: MsgNo, reply: MsgNo, answer: &Result<(), EndFault>) -> bool
    ensures program { end.new.program ≡ end.old.program }
{
    end.reply_rule(msg, reply) == *answer
}

fn binds(end: &mut End, circuit: Circuit) -> bool
    ensures program { end.new.program ≡ end.old.program }
{
    end.bind(circuit);
    true
}

// Whether an end is on this circuit, and is bound, busy, failed, and has rules.
fn looks(end: &End, circuit: Option<Circuit>, is: &[bool; 4]) -> bool {
    let [bound, busy, failed, rules] = *is;
    end.circuit() == circuit
        && end.is_bound() == bound
        && end.is_busy() == busy
        && end.is_failed() == failed
        && end.has_rules() == rules
}

// Whether an end answers so that takes no memory and needs no queue.
fn asks(end: &mut End, action: &EndAction) -> bool
    ensures program { end.new.program ≡ end.old.program }
{
    match action {
        EndAction::Rule(msg, reply, answer) => sets(end, *msg, *reply, answer),
        EndAction::RuleFor(msg, reply) => end.rule_for(*msg) == *reply,
        EndAction::Bind(circuit) => binds(end, *circuit),
        EndAction::Look(circuit, is) => looks(end, *circuit, is),
        EndAction::Waiting(count) => end.replies_waiting() == *count,
        _ => false,
    }
}

fn shows(end: &End, out: &QueueLink, answer: &Result<Option<Frag>, EndFault>) -> bool {
    end.show(out) == *answer
}

fn writes(end: &mut End, out: &mut QueueLink, answer: &Result<WriteAnswer, EndFault>) -> bool
    ensures program { end.new.program ≡ end.old.program }
{
    end.write(out) == *answer
}

// Whether there is room for a fragment of this control word and these words, which is put.
fn puts(out: &mut QueueLink, control: u64, words: &[u64; 7]) -> bool {
    let frag = Frag {
        words: *words,
        control,
    };
    out.put(&frag).is_ok()
}

// Whether an end answers so that takes no fragment.
fn does(
    alloc: Global,
    end: &mut End,
    out: &mut QueueLink,
    action: &EndAction,
) -> Result<bool, AllocError>
    ensures program { end.new.program ≡ end.old.program }
{
    match action {
        EndAction::Call(text, answer) => says(alloc, end, text, answer),
        EndAction::Held(text, answer) => says_held(alloc, end, text, answer),
        EndAction::Show(answer) => Ok(shows(end, out, answer)),
        EndAction::Write(answer) => Ok(writes(end, out, answer)),
        EndAction::Put(control, words) => Ok(puts(out, *control, words)),
        _ => Ok(asks(end, action)),
    }
}

// The text of a call that an end handles.
fn print(alloc: Global, said: &mut Vec<u8>, end: &End, call: &Call) -> Result<(), AllocError> {
    match end
        .program()
        .interface()
        .messages
        .get(usize::from(call.msg.0))
    {
        Some(message) => print_call(alloc, said, &message.name.bytes, &call.args),
        None => Ok(()),
    }
}

fn is_text(alloc: Global, end: &End, call: &Call, text: &[u8]) -> Result<bool, AllocError> {
    let mut said = Vec::new(alloc);
    print(alloc, &mut said, end, call)?;
    Ok(said.as_slice() == text)
}

// What came of a fragment.
type Came = Result<ReceiveAnswer, EndFault>;

// Whether the call of this text is handled.
fn is_handled(alloc: Global, end: &End, came: &Came, text: &[u8]) -> Result<bool, AllocError> {
    match came {
        Ok(ReceiveAnswer::Handle(call)) => {
            let mut number = NumberCall::new(alloc)?;
            is_text(alloc, end, call.lend(&mut number), text)
        }
        _ => Ok(false),
    }
}

// Whether a fragment is refused by the fault of this number.
fn is_refused(came: &Came, number: u8) -> bool {
    match came {
        Ok(_) => false,
        Err(fault) => fault.number() == number,
    }
}

// Whether what came of a fragment is this.
fn is_wanted(alloc: Global, end: &End, came: &Came, wanted: &Received) -> Result<bool, AllocError> {
    match wanted {
        Received::Handled(text) => is_handled(alloc, end, came, text),
        Received::Part => Ok(matches!(came, Ok(ReceiveAnswer::Part))),
        Received::Quiet => Ok(matches!(came, Ok(ReceiveAnswer::Quiet))),
        Received::Empty => Ok(matches!(came, Ok(ReceiveAnswer::Empty))),
        Received::Refused(number) => Ok(is_refused(came, *number)),
    }
}

// The same; where memory ran out for a call it runs out here.
fn is_wanted_with_memory(
    alloc: Global,
    end: &End,
    came: &Came,
    wanted: &Received,
) -> Result<bool, AllocError> {
    if matches!(came, Err(EndFault::Memory)) {
        return Err(AllocError);
    }
    is_wanted(alloc, end, came, wanted)
}

// What comes of the next fragment.
fn receive(end: &mut End, calls: &mut Reassemblies, out: &mut QueueLink) -> Came
    requires place { IsPlaceOf end.old calls.old 0 }
    ensures place { IsPlaceOf end.new calls.new 0 }
{
    end.receive(out, calls, 0)
}

// Whether the next fragment comes to this.
fn receives(
    alloc: Global,
    end: &mut End,
    calls: &mut Reassemblies,
    out: &mut QueueLink,
    wanted: &Received,
) -> Result<bool, AllocError>
    requires place { IsPlaceOf end.old calls.old 0 }
    ensures place { IsPlaceOf end.new calls.new 0 }
{
    let came = receive(end, calls, out);
    is_wanted_with_memory(alloc, end, &came, wanted)
}

// Whether the next fragment makes the call of this text whole.
fn is_whole(
    alloc: Global,
    end: &mut End,
    calls: &mut Reassemblies,
    out: &mut QueueLink,
    text: &[u8],
) -> Result<bool, AllocError>
    requires place { IsPlaceOf end.old calls.old 0 }
    ensures place { IsPlaceOf end.new calls.new 0 }
{
    let came = receive(end, calls, out);
    is_handled(alloc, end, &came, text)
}

// The same of what came of a fragment, or of the next where memory ran out.
fn is_whole_or_again(
    alloc: Global,
    end: &mut End,
    calls: &mut Reassemblies,
    out: &mut QueueLink,
    came: &Came,
    text: &[u8],
) -> Result<bool, AllocError>
    requires place { IsPlaceOf end.old calls.old 0 }
    ensures place { IsPlaceOf end.new calls.new 0 }
{
    if matches!(came, Err(EndFault::Memory)) {
        return is_whole(alloc, end, calls, out, text);
    }
    is_handled(alloc, end, came, text)
}

// Whether a call becomes whole by the next fragment, which stays where there is no memory for it.
fn is_whole_at_last(
    alloc: Global,
    end: &mut End,
    calls: &mut Reassemblies,
    out: &mut QueueLink,
    text: &[u8],
) -> Result<bool, AllocError>
    requires place { IsPlaceOf end.old calls.old 0 }
    ensures place { IsPlaceOf end.new calls.new 0 }
{
    let came = receive(end, calls, out);
    is_whole_or_again(alloc, end, calls, out, &came, text)
}

// Whether an end answers so to an action.
fn answers(
    alloc: Global,
    end: &mut End,
    calls: &mut Reassemblies,
    out: &mut QueueLink,
    action: &EndAction,
) -> Result<bool, AllocError>
    requires place { IsPlaceOf end.old calls.old 0 }
    ensures place { IsPlaceOf end.new calls.new 0 }
{
    match action {
        EndAction::Receive(wanted) => receives(alloc, end, calls, out, wanted),
        EndAction::AtLast(text) => is_whole_at_last(alloc, end, calls, out, text),
        _ => does(alloc, end, out, action),
    }
}

// Whether an end answers so to actions, one after another.
fn goes(
    alloc: Global,
    end: &mut End,
    calls: &mut Reassemblies,
    out: &mut QueueLink,
    actions: &[EndAction],
) -> Result<bool, AllocError>
    requires place { IsPlaceOf end.old calls.old 0 }
    ensures place { IsPlaceOf end.new calls.new 0 }
{
    for action in actions {
        if !answers(alloc, end, calls, out, action)? {
            return Ok(false);
        }
    }
    Ok(true)
}

// The first place, for the calls that come to an end.
fn add_first(end: &End, calls: &mut Reassemblies) -> Result<(), AllocError>
    requires none { calls.old ≡ [] }
    ensures place { OnOk result (IsPlaceOf end.now calls.new 0) }
{
    end.add_place(calls)
}

// Whether an end answers so, from a beginning on.
fn goes_on(
    alloc: Global,
    end: &mut End,
    calls: &mut Reassemblies,
    out: &mut QueueLink,
    start: &[EndAction],
    rows: &[EndAction],
) -> Result<bool, AllocError>
    requires none { calls.old ≡ [] }
{
    add_first(end, calls)?;
    if !goes(alloc, end, calls, out, start)? {
        return Ok(false);
    }
    goes(alloc, end, calls, out, rows)
}

// The same, with its calls at a place of their own.
fn goes_with_place(
    alloc: Global,
    end: &mut End,
    out: &mut QueueLink,
    start: &[EndAction],
    rows: &[EndAction],
) -> Result<bool, AllocError> {
    let mut calls = Reassemblies::new(alloc);
    goes_on(alloc, end, &mut calls, out, start, rows)
}

// The same, over a queue with room for eight fragments.
fn goes_over_queue(
    alloc: Global,
    end: &mut End,
    start: &[EndAction],
    rows: &[EndAction],
) -> Result<bool, AllocError> {
    match QueueLink::local(alloc, 8) {
        Ok(mut out) => goes_with_place(alloc, end, &mut out, start, rows),
        Err(_) => Err(AllocError),
    }
}

// The same of a new end.
fn new_end_goes(
    alloc: Global,
    plan: PlanNo,
    example: &EndExample,
    start: &[EndAction],
) -> Result<bool, AllocError> {
    let mut end = make_end(alloc, plan, example)?;
    goes_over_queue(alloc, &mut end, start, example.rows)
}

// Whether a new end answers so, from each of the beginnings on.
fn holds(alloc: Global, plan: PlanNo, example: &EndExample) -> Result<bool, AllocError> {
    for start in example.starts {
        if !new_end_goes(alloc, plan, example, start)? {
            return Ok(false);
        }
    }
    Ok(true)
}

fn holds_under_both(alloc: Global, example: &EndExample) -> Result<bool, AllocError> {
    if !holds(alloc, PlanNo::One, example)? {
        return Ok(false);
    }
    holds(alloc, PlanNo::Two, example)
}

#[test]
fn ends(rt: HostRuntime) -> Result<(), Fail> {
    for example in EXAMPLES {
        assert!(rt; holds_under_both(rt.alloc(), example)?);
    }
    Ok(())
}

// A call that becomes whole at last, or of which there is nothing to show where memory runs out before.
#[test]
fn receives_without_memory(rt: HostRuntime) {
    assert!(rt; holds(rt.alloc(), PlanNo::One, &AT_LAST) != Ok(false));
}

#[test]
fn laws(_rt: HostRuntime) {
    law_accounts_add_up();
    law_replies_add_up();
    law_call_accounts();
    law_write_accounts::<QueueLink>();
    law_receive_accounts::<QueueLink>();
    law_bind_accounts();
    law_rule_accounts();
    law_exchange_accounts();
    law_since_made();
    law_handles_in_order();
    law_takes_in_order();
    law_on_another_circuit();
    law_one_end_changes();
    law_one_dispatcher_changes();
    law_turn_accounts::<QueueLink>();
}

// Whether an end takes a call of a number of this message, for which it wants no memory.
fn takes_number(alloc: Global, end: &mut End, spare: &mut NumberCall, msg: MsgNo) -> bool {
    let call = CompactCall::of_number(spare, msg, 1);
    make_compact(alloc, end, &call).is_ok()
}

// The same of a new end, where there is memory for that.
fn new_end_takes_number(alloc: Global, spare: &mut NumberCall, msg: MsgNo) -> bool {
    match bound_end(alloc, PlanNo::Two, NUMBERS, Circuit(0)) {
        Ok(mut end) => takes_number(alloc, &mut end, spare, msg),
        Err(_) => true,
    }
}

// Whether a number of a signed message and one of an enum are taken.
fn numbers_are_taken(alloc: Global) -> bool {
    match NumberCall::new(alloc) {
        Ok(mut spare) => {
            new_end_takes_number(alloc, &mut spare, MsgNo(0))
                && new_end_takes_number(alloc, &mut spare, MsgNo(2))
        }
        Err(_) => true,
    }
}

#[test]
fn numbers_without_memory(rt: HostRuntime) {
    assert!(rt; numbers_are_taken(rt.alloc()));
}
