//! What came of a run: the report.

ghost use Rattle.std.specs.Prelude.{ℕ, ◌≡◌, ◌≢◌, ◌+◌, ◌*◌, ◌++◌, ◌<◌, ◌≤◌, [], false, if◌then◌else◌, map, take, length, slice_get, Some, IfOk, IfSome, OnOk};
ghost use Rattle.std.specs.Option.{option_map};
ghost use Rattle.std.specs.List.{list_any, flat_map, AllZip};
ghost use Rattle.fl_base.specs.Given.{given};
ghost use Rattle.fl_value_data.specs.Value.{datum_of, call_of};
ghost use Rattle.fl_core.specs.View.{slot_of};
ghost use Rattle.fl_core.specs.Jobs.{calls_of_job, calls_of_jobs};
ghost use Rattle.fl_cores_file.specs.Report.{complete, turns_out};
ghost use Rattle.fl_cores_file.specs.Reports.{both_of, report_of, ending_of};
ghost use Rattle.fl_cores_jobs.specs.EndWork.{end_work_of, end_of, reply_by};
ghost use Rattle.fl_cores_jobs.specs.Joined.{HasEndWork, core_at};
ghost use Rattle.fl_cores_jobs.specs.State.{joined_of};
ghost use Rattle.fl_cores_fork.specs.Runs.{seats_left};
ghost use Rattle.fl_cores_fork.specs.Tells.{progress_left, handled_by, handled_at, sent_by, sent_at, waiting_left, made_at, both_at, refusal_at, by_binding};
ghost use Rattle.fl_cores_fork.specs.Tells.{turns_in, left_off, was_told, Tells};
ghost use Rattle.fl_cores_fork.specs.Taking.{KeepsFrom, AreOnce, KeepsOthers, KeepsJobs, HavePlaces, with_jobs};
ghost use Rattle.fl_cores_fork.specs.CoreThreads.{hand_left, hands_left, outcome_of, has_left_off, has_been_told};

use crate::core_thread::FinishedCore;
use fl_base::{EndId, MsgNo, Side};
use fl_compact_calls::{CompactCall, NumberCall};
use fl_core::{CoreJob, slot_of};
use fl_core_run::{EndProgress, RunEnd};
use fl_cores_file::{CallsByEnd, Ending, Report};
use fl_cores_jobs::{BindingCores, EndWork, JoinedJobs};
use fl_value_data::{Call, Value};
use std::alloc::{AllocError, Global};
use std::mem;

// ---- copies of calls

#[cycle(copies)]
fn copy_values(alloc: Global, values: &[Value]) -> Result<Vec<Value>, AllocError>
    ensures equal { IfOk result (λ copies. map datum_of copies.items ≡ map datum_of values.now) }
{
    let mut copies = Vec::with_capacity(alloc, values.len())?;
    for value in values {
        copies.push(copy_value(alloc, value)?)?;
    }
    Ok(copies)
}

#[cycle(copies)]
fn copy_value(alloc: Global, value: &Value) -> Result<Value, AllocError>
    ensures equal { IfOk result (λ copy. datum_of copy ≡ datum_of value.now) }
{
    match value {
        Value::Int(n) => Ok(Value::Int(*n)),
        Value::Text(bytes) => Ok(Value::Text(bytes.to_vec(alloc)?)),
        Value::List(values) => Ok(Value::List(copy_values(alloc, values)?)),
        Value::Fields(values) => Ok(Value::Fields(copy_values(alloc, values)?)),
    }
}

// The call with another message.
fn copy_as(alloc: Global, msg: MsgNo, call: &Call) -> Result<Call, AllocError>
    ensures copy { IfOk result (λ copy. call_of copy ≡ record { msg = msg.0; args = map datum_of call.now.args.items }) }
{
    Ok(Call {
        msg,
        args: copy_values(alloc, &call.args)?,
    })
}

// ---- the calls that an end came to send

// The call of a job, if it is one, is moved behind these.
fn move_call(
    spare: &mut NumberCall,
    calls: &mut Vec<CompactCall>,
    job: &mut CoreJob,
) -> Result<(), AllocError>
    ensures moved { OnOk result (map call_of calls.new.items ≡ map call_of calls.old.items ++ calls_of_job (Some job.old)) }
    ensures end { end_of job.new ≡ end_of job.old }
{
    match job {
        CoreJob::Open(_) => Ok(()),
        CoreJob::Reply { .. } => Ok(()),
        CoreJob::Call { call, .. } => {
            let none = CompactCall::of_number(spare, MsgNo(0), 0);
            calls.push(mem::replace(call, none))?;
            Ok(())
        }
    }
}

// That of the job at a place.
fn move_at(
    spare: &mut NumberCall,
    calls: &mut Vec<CompactCall>,
    jobs: &mut Vec<CoreJob>,
    place: usize,
) -> Result<(), AllocError>
    ensures moved { OnOk result (map call_of calls.new.items ≡ map call_of calls.old.items ++ calls_of_job (slice_get jobs.old.items place)) }
    ensures ends { map end_of jobs.new.items ≡ map end_of jobs.old.items }
    ensures others { (n : ℕ) → n ≢ place → slice_get jobs.new.items n ≡ slice_get jobs.old.items n }
{
    match jobs.get_mut(place) {
        None => Ok(()),
        Some(job) => move_call(spare, calls, job),
    }
}

// Those of the jobs at these places.
fn move_calls(
    alloc: Global,
    jobs: &mut Vec<CoreJob>,
    places: &[usize],
) -> Result<Vec<CompactCall>, AllocError>
    requires once { AreOnce places.now }
    ensures moved { IfOk result (λ calls. map call_of calls.items ≡ calls_of_jobs jobs.old.items places.now) }
    ensures rest { OnOk result (KeepsOthers places.now (length places.now) jobs.old.items jobs.new.items) }
{
    let mut spare = NumberCall::new(alloc)?;
    let mut calls = Vec::new(alloc);
    for k in 0..places.len() {
        move_at(&mut spare, &mut calls, jobs, places[k])?;
    }
    Ok(calls)
}

// The same call of another message.
fn reply_as(
    alloc: Global,
    spare: &mut NumberCall,
    answer: MsgNo,
    call: &CompactCall,
) -> Result<CompactCall, AllocError>
    ensures reply { IfOk result (λ reply. call_of reply ≡ record { msg = answer.0; args = map datum_of call.now.args.items }) }
{
    match call.number() {
        Some(number) => Ok(CompactCall::of_number(spare, answer, number)),
        None => {
            let copy = copy_as(alloc, answer, call.lend(spare))?;
            CompactCall::keep(alloc, copy)
        }
    }
}

// The reply to a call by a rule, if there is one, is added.
fn add_reply(
    alloc: Global,
    spare: &mut NumberCall,
    calls: &mut Vec<CompactCall>,
    end_work: &EndWork,
    call: &CompactCall,
) -> Result<(), AllocError>
    ensures added { OnOk result (map call_of calls.new.items ≡ map call_of calls.old.items ++ reply_by end_work.now.rules.items (call_of call.now)) }
{
    match end_work.rule_for(call.msg()) {
        None => Ok(()),
        Some(answer) => {
            let reply = reply_as(alloc, spare, answer, call)?;
            calls.push(reply)?;
            Ok(())
        }
    }
}

// The replies by an end's rules to the calls that it handled are added.
fn add_replies(
    alloc: Global,
    calls: &mut Vec<CompactCall>,
    end_work: &EndWork,
    handled: &[CompactCall],
) -> Result<(), AllocError>
    ensures added { OnOk result (map call_of calls.new.items
        ≡ map call_of calls.old.items ++ flat_map (reply_by end_work.now.rules.items) (map call_of handled.now)) }
{
    let mut spare = NumberCall::new(alloc)?;
    for call in handled {
        add_reply(alloc, &mut spare, calls, end_work, call)?;
    }
    Ok(())
}

// The first of these places.
fn first(places: &[usize], count: usize) -> &[usize]
    ensures first { result.now ≡ take count places.now }
{
    match places.get(..count) {
        Some(first) => first,
        None => places,
    }
}

// The calls of an end's jobs that are done, moved out of these, and the replies by its rules.
fn sent_by(
    alloc: Global,
    jobs: &mut Vec<CoreJob>,
    end_work: &EndWork,
    progress: &EndProgress,
) -> Result<Vec<CompactCall>, AllocError>
    requires once { AreOnce end_work.now.jobs.items }
    ensures sent { IfOk result (λ calls. map call_of calls.items ≡ sent_by jobs.old.items (end_work_of end_work.now) progress.now) }
    ensures rest { OnOk result (KeepsOthers end_work.now.jobs.items (length end_work.now.jobs.items) jobs.old.items jobs.new.items) }
{
    let mut calls = move_calls(alloc, jobs, first(&end_work.jobs, progress.done()))?;
    add_replies(alloc, &mut calls, end_work, progress.handled())?;
    Ok(calls)
}

// ---- ends

/// The core of an end.
pub fn core_at(bindings: &[BindingCores], end: EndId) -> Option<usize>
    ensures core { result ≡ core_at bindings.now end }
{
    match bindings.get(end.binding) {
        None => None,
        Some(bound) => Some(bound.core(end.side)),
    }
}

// The end's progress of an end, as its core left it.
fn progress_left<'a>(
    done: &'a [FinishedCore],
    joined: &JoinedJobs,
    end: EndId,
) -> Option<&'a EndProgress>
    requires few { end.binding < 1024 }
    ensures progress { option_map (λ progress. progress.now) result ≡ progress_left (joined_of joined.now) (map outcome_of done.now) end }
{
    let core = core_at(&joined.bindings, end)?;
    let one = done.get(core)?;
    one.core_thread.running.progresses.get(slot_of(end))
}

// The calls that the end's progress at a place handled, moved out of it: what is left there is an end's progress that handled none.
fn take_handled(alloc: Global, progresses: &mut Vec<EndProgress>, place: usize) -> Vec<CompactCall>
    ensures handled { map call_of result.items ≡ given (slice_get progresses.old.items place) [] handled_by }
    ensures others { (n : ℕ) → place < n → slice_get progresses.new.items n ≡ slice_get progresses.old.items n }
{
    match progresses.get_mut(place) {
        None => Vec::new(alloc),
        Some(progress) => {
            let none = EndProgress::new(alloc, Vec::new(alloc), 0);
            mem::replace(progress, none).into_handled()
        }
    }
}

// Those of a core's end's progress.
fn take_from(alloc: Global, one: &mut FinishedCore, place: usize) -> Vec<CompactCall>
    ensures handled { map call_of result.items ≡ given (slice_get (outcome_of one.old).run.progresses place) [] handled_by }
    ensures rest { KeepsFrom (place + 1) (outcome_of one.old) (outcome_of one.new) }
    ensures hand { hand_left one.new ≡ hand_left one.old }
{
    take_handled(alloc, &mut one.core_thread.running.progresses, place)
}

// Those of an end's.
fn take_at(
    alloc: Global,
    done: &mut Vec<FinishedCore>,
    joined: &JoinedJobs,
    end: EndId,
) -> Vec<CompactCall>
    requires few { end.binding < 1024 }
    ensures handled { map call_of result.items ≡ handled_at (joined_of joined.now) (map outcome_of done.old.items) end }
    ensures rest { AllZip (KeepsFrom (slot_of end + 1)) (map outcome_of done.old.items) (map outcome_of done.new.items) }
    ensures hands { hands_left done.new.items ≡ hands_left done.old.items }
{
    match core_at(&joined.bindings, end) {
        None => Vec::new(alloc),
        Some(core) => match done.get_mut(core) {
            None => Vec::new(alloc),
            Some(one) => take_from(alloc, one, slot_of(end)),
        },
    }
}

// The calls that an end came to send.
fn sent_at(
    alloc: Global,
    jobs: &mut Vec<CoreJob>,
    done: &[FinishedCore],
    joined: &JoinedJobs,
    end: EndId,
) -> Result<Vec<CompactCall>, AllocError>
    requires few { end.binding < 1024 }
    requires end_work { slot_of end < length joined.now.end_works.items }
    requires places { HavePlaces (joined_of joined.now).end_works jobs.old.items }
    ensures sent { IfOk result (λ calls. map call_of calls.items ≡ sent_at (with_jobs jobs.old.items (joined_of joined.now)) (map outcome_of done.now) end) }
    ensures rest { OnOk result (KeepsJobs (slot_of end + 1) jobs.old.items jobs.new.items) }
{
    match progress_left(done, joined, end) {
        None => Ok(Vec::new(alloc)),
        Some(progress) => sent_by(alloc, jobs, &joined.end_works[slot_of(end)], progress),
    }
}

// How many replies wait at an end, as its core left it.
fn waiting_left(done: &[FinishedCore], joined: &JoinedJobs, end: EndId) -> usize
    ensures waiting { result ≡ waiting_left (joined_of joined.now) (map outcome_of done.now) end }
{
    match core_at(&joined.bindings, end) {
        None => 0,
        Some(core) => match done.get(core) {
            None => 0,
            Some(one) => one.core_thread.running.replies_waiting(end),
        },
    }
}

// The calls that an end made: it accepted all that it came to send but the replies that wait.
fn made_at(
    alloc: Global,
    jobs: &mut Vec<CoreJob>,
    done: &[FinishedCore],
    joined: &JoinedJobs,
    end: EndId,
) -> Result<Vec<CompactCall>, AllocError>
    requires few { end.binding < 1024 }
    requires end_work { slot_of end < length joined.now.end_works.items }
    requires places { HavePlaces (joined_of joined.now).end_works jobs.old.items }
    ensures made { IfOk result (λ calls. map call_of calls.items ≡ made_at (with_jobs jobs.old.items (joined_of joined.now)) (map outcome_of done.now) end) }
    ensures rest { OnOk result (KeepsJobs (slot_of end + 1) jobs.old.items jobs.new.items) }
{
    let mut calls = sent_at(alloc, jobs, done, joined, end)?;
    let accepted = calls
        .as_slice()
        .len()
        .saturating_sub(waiting_left(done, joined, end));
    calls.truncate(accepted);
    Ok(calls)
}

// The number for which the opening of a binding was refused.
fn refusal_at(done: &[FinishedCore], joined: &JoinedJobs, binding: usize) -> Option<u32>
    requires few { binding < 1024 }
    ensures refused { result ≡ refusal_at (joined_of joined.now) (map outcome_of done.now) binding }
{
    let client = EndId {
        binding,
        side: Side::Client,
    };
    match progress_left(done, joined, client) {
        None => None,
        Some(progress) => if progress.refused() == 0 {
            None
        } else {
            Some(progress.refused())
        },
    }
}

// ---- bindings

// The calls that both ends of a binding handled, moved out of their ends' progress.
fn both_handled(
    alloc: Global,
    done: &mut Vec<FinishedCore>,
    joined: &JoinedJobs,
    binding: usize,
) -> CallsByEnd
    requires few { binding < 1024 }
    ensures handled { both_of result ≡ both_at (handled_at (joined_of joined.now) (map outcome_of done.old.items)) binding }
    ensures rest { AllZip (KeepsFrom (2 * (binding + 1))) (map outcome_of done.old.items) (map outcome_of done.new.items) }
    ensures hands { hands_left done.new.items ≡ hands_left done.old.items }
{
    let side = Side::Client;
    let client = take_at(alloc, done, joined, EndId { binding, side });
    let side = Side::Server;
    let server = take_at(alloc, done, joined, EndId { binding, side });
    CallsByEnd { client, server }
}

// The calls that they made.
fn both_made(
    alloc: Global,
    jobs: &mut Vec<CoreJob>,
    done: &[FinishedCore],
    joined: &JoinedJobs,
    binding: usize,
) -> Result<CallsByEnd, AllocError>
    requires few { binding < 1024 }
    requires end_works { 2 * binding + 1 < length joined.now.end_works.items }
    requires places { HavePlaces (joined_of joined.now).end_works jobs.old.items }
    ensures made { IfOk result (λ both. both_of both ≡ both_at (made_at (with_jobs jobs.old.items (joined_of joined.now)) (map outcome_of done.now)) binding) }
    ensures rest { OnOk result (KeepsJobs (2 * (binding + 1)) jobs.old.items jobs.new.items) }
{
    let side = Side::Client;
    let client = made_at(alloc, jobs, done, joined, EndId { binding, side })?;
    let side = Side::Server;
    let server = made_at(alloc, jobs, done, joined, EndId { binding, side })?;
    Ok(CallsByEnd { client, server })
}

// What was handled, by binding, moved out of the ends' progress.
fn all_handled(
    alloc: Global,
    done: &mut Vec<FinishedCore>,
    joined: &JoinedJobs,
) -> Result<Vec<CallsByEnd>, AllocError>
    requires few { length joined.now.bindings.items ≤ 1024 }
    ensures handled { IfOk result (λ all. map both_of all.items
        ≡ by_binding (joined_of joined.now) (both_at (handled_at (joined_of joined.now) (map outcome_of done.old.items)))) }
    ensures rest { OnOk result (AllZip (KeepsFrom (2 * length joined.now.bindings.items)) (map outcome_of done.old.items) (map outcome_of done.new.items)) }
    ensures hands { OnOk result (hands_left done.new.items ≡ hands_left done.old.items) }
{
    let mut all = Vec::new(alloc);
    for binding in 0..joined.bindings.as_slice().len() {
        all.push(both_handled(alloc, done, joined, binding))?;
    }
    Ok(all)
}

// What was made, by binding.
fn all_made(
    alloc: Global,
    jobs: &mut Vec<CoreJob>,
    done: &[FinishedCore],
    joined: &JoinedJobs,
) -> Result<Vec<CallsByEnd>, AllocError>
    requires few { length joined.now.bindings.items ≤ 1024 }
    requires end_works { HasEndWork joined.now.bindings.items joined.now.end_works.items }
    requires places { HavePlaces (joined_of joined.now).end_works jobs.old.items }
    ensures made { IfOk result (λ all. map both_of all.items
        ≡ by_binding (joined_of joined.now) (both_at (made_at (with_jobs jobs.old.items (joined_of joined.now)) (map outcome_of done.now)))) }
{
    let mut all = Vec::new(alloc);
    for binding in 0..joined.bindings.as_slice().len() {
        all.push(both_made(alloc, jobs, done, joined, binding)?)?;
    }
    Ok(all)
}

// Which openings were refused, by binding.
#[tactic(auto, using(crate::proofs::Lists::by_more))]
fn all_refused(
    alloc: Global,
    done: &[FinishedCore],
    joined: &JoinedJobs,
) -> Result<Vec<Option<u32>>, AllocError>
    requires few { length joined.now.bindings.items ≤ 1024 }
    ensures refused { IfOk result (λ all. all.items ≡ by_binding (joined_of joined.now) (refusal_at (joined_of joined.now) (map outcome_of done.now))) }
{
    let mut all = Vec::new(alloc);
    for binding in 0..joined.bindings.as_slice().len() {
        all.push(refusal_at(done, joined, binding))?;
    }
    Ok(all)
}

// ---- how the cores ended

fn left_off(one: &FinishedCore) -> bool
    ensures left_off { result ≡ has_left_off one.now }
{
    match one.part.end {
        RunEnd::Unfinished => true,
        RunEnd::Finished | RunEnd::Told => false,
    }
}

fn was_told(one: &FinishedCore) -> bool
    ensures told { result ≡ has_been_told one.now }
{
    match one.part.end {
        RunEnd::Told => true,
        RunEnd::Finished | RunEnd::Unfinished => false,
    }
}

fn some_left_off(done: &[FinishedCore]) -> bool
    ensures any { result ≡ list_any has_left_off done.now }
{
    done.iter().any(left_off)
}

fn some_was_told(done: &[FinishedCore]) -> bool
    ensures any { result ≡ list_any has_been_told done.now }
{
    done.iter().any(was_told)
}

#[tactic(auto, using(crate::proofs::Lists::any_left))]
fn any_left_off(done: &[FinishedCore]) -> bool
    ensures any { result ≡ list_any left_off (map outcome_of done.now) }
{
    some_left_off(done)
}

#[tactic(auto, using(crate::proofs::Lists::any_told))]
fn any_was_told(done: &[FinishedCore]) -> bool
    ensures any { result ≡ list_any was_told (map outcome_of done.now) }
{
    some_was_told(done)
}

// All finished, or a core reached its limit. Where one was told of a stop, another had none of the memory that it wanted.
fn ending_of(done: &[FinishedCore]) -> Result<Ending, AllocError>
    ensures none_told { IfOk result (λ _. list_any was_told (map outcome_of done.now) ≡ false) }
    ensures ending { IfOk result (λ e. ending_of e ≡ (if list_any left_off (map outcome_of done.now) then turns_out else complete)) }
{
    if any_was_told(done) {
        return Err(AllocError);
    }
    if any_left_off(done) {
        return Ok(Ending::TurnsOut);
    }
    Ok(Ending::Complete)
}

// How many turns of each core were counted.
fn turns_of(alloc: Global, done: &[FinishedCore]) -> Result<Vec<u64>, AllocError>
    ensures turns { IfOk result (λ v. v.items ≡ map turns_in (map outcome_of done.now)) }
{
    let mut turns = Vec::new(alloc);
    for one in done {
        turns.push(one.part.turns)?;
    }
    Ok(turns)
}

/// The report of a run with these jobs, by what the cores came to. The calls are moved into it; the cores' seats and sides of rings stay.
#[tactic(auto, using(crate::proofs::Taking::same_seats))]
pub fn tell(
    alloc: Global,
    jobs: Vec<CoreJob>,
    joined: &JoinedJobs,
    done: &mut Vec<FinishedCore>,
) -> Result<Report, AllocError>
    requires few { length joined.now.bindings.items ≤ 1024 }
    requires end_works { HasEndWork joined.now.bindings.items joined.now.end_works.items }
    requires places { HavePlaces (joined_of joined.now).end_works jobs.items }
    ensures tells { IfOk result (λ r. Tells (with_jobs jobs.items (joined_of joined.now)) (map outcome_of done.old.items) (report_of r)) }
    ensures seats { OnOk result (seats_left (map outcome_of done.new.items) ≡ seats_left (map outcome_of done.old.items)) }
    ensures hands { OnOk result (hands_left done.new.items ≡ hands_left done.old.items) }
{
    let mut jobs = jobs;
    let ending = ending_of(done)?;
    let made = all_made(alloc, &mut jobs, done, joined)?;
    let refused = all_refused(alloc, done, joined)?;
    let turns = turns_of(alloc, done)?;
    let handled = all_handled(alloc, done, joined)?;
    Ok(Report {
        made,
        handled,
        refused,
        turns,
        ending,
    })
}
