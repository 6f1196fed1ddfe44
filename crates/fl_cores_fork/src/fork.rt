//! A thread for each core.

ghost use Rattle.std.specs.Prelude.{ℕ, ◌≡◌, ◌+◌, ◌<◌, ◌∷◌, ◌++◌, [], length, slice_get, Some, IfOk, IfErr, IfSome, IsOkAnd};
ghost use Rattle.std.specs.Thread.{IsSync};
ghost use Rattle.std.specs.List.{AllZip};
ghost use Rattle.fl_hop.specs.Joined.{Sound as IsTable};
ghost use Rattle.fl_endpoint.specs.Accounts.{Sound as IsEnd};
ghost use Rattle.fl_monitor.specs.Monitors.{HasOutboxes};
ghost use Rattle.fl_core.specs.BoardSound.{IsBoard};
ghost use Rattle.fl_core.specs.BoardView.{TheEndAtChannel};
ghost use Rattle.fl_core.specs.Sound.{IsCore};
ghost use Rattle.fl_cores_fork.specs.declared.no_report.NoReport.TheVariants as stop;
ghost use Rattle.fl_cores_fork.specs.CoreThreads.{IsReady, AllReady, CoreThreadRan};

use crate::core_thread::{CoreThread, FinishedCore};
use crate::crossing::{core_thread_sent, done_sent, law_job_shared, law_pace_shared};
use crate::no_report::NoReport;
use crate::noting::{records_if, run_thread};
use crate::pace::{Pace, PacedGate};
use fl_core::{Core, CoreJob};
use fl_core_run::Gate;
use fl_cores_shares::SideRecord;
use fl_cores_table::EndSeat;
use fl_hop::law_never_shared;
use std::alloc::{AllocError, Global};
use std::snapshot::Snapshot;
use std::sync::Wait;
use std::thread;
use std::thread::{Promise, PromisedHandle, Scope, Threads};

// What a core's thread hands on: what came of its core thread.
#[derive(Drop)]
struct RunInputs<'a> {
    was: Snapshot<CoreThread>,
    jobs: &'a [CoreJob],
    limit: u64,
}

impl<'a> Promise<Result<FinishedCore, AllocError>> for RunInputs<'a> {
    ghost kept_by = { λ p r. IfOk r (λ d. CoreThreadRan p.jobs.now p.limit p.was.value d) };
}

// What is known of the end at a place. It does nothing.
fn law_sound_at(core: &Core, e: usize)
    requires there { e < length core.now.board.seats }
    ensures end { (seat : TheEndAtChannel) → slice_get core.now.board.seats e ≡ Some seat → IsEnd seat.end }
{
    core.board().law_end_sound(e);
}

// What is known of a core, of each of its ends, and of its circuits. It does nothing.
pub(crate) fn law_sound(core: &Core)
    ensures core { IsCore core.now }
    ensures board { IsBoard core.now.board }
    ensures outboxes { HasOutboxes core.now.monitor }
    ensures ends { (place : ℕ) (seat : TheEndAtChannel) → slice_get core.now.board.seats place ≡ Some seat → IsEnd seat.end }
    ensures table { IsTable core.now.monitor.circuits }
{
    core.law_sound();
    law_never_shared(core.monitor().circuits());
    for e in 0..core.board().ends() {
        law_sound_at(core, e);
    }
}

// A core's whole run on its thread, in step with the others.
fn run_paced<R: Wait, G: Gate>(
    rt: &R,
    gate: &G,
    pace: &Pace,
    core_thread: CoreThread,
    jobs: &[CoreJob],
    limit: u64,
    records: Option<Vec<SideRecord>>,
) -> Result<FinishedCore, AllocError>
    requires ready { IsReady core_thread }
    ensures ran { IfOk result (λ d. CoreThreadRan jobs.now limit core_thread d) }
{
    let gate = PacedGate { gate, pace };
    let ran = run_thread(rt, &gate, core_thread, jobs, limit, records);
    pace.end();
    ran
}

// A thread for a core, or none where no thread can be made. What a recorded run wants memory for is made before the
// thread is; where there is no memory for it, the run isn't recorded.
fn start<'s, 'e: 's, R: Threads + Wait + Sync, G: Gate + Sync>(
    scope: &Scope<'s, &'e ()>,
    rt: &'e R,
    gate: &'e G,
    pace: &'e Pace,
    core_thread: CoreThread,
    jobs: &'e [CoreJob],
    limit: u64,
    is_recorded: bool,
) -> Option<PromisedHandle<Result<FinishedCore, AllocError>, RunInputs<'e>>>
    requires shared { IsSync R.row }
    requires gate { IsSync G.row }
    requires ready { IsReady core_thread }
    ensures was { IfSome result (λ child. child.promise.was.value ≡ core_thread) }
    ensures jobs { IfSome result (λ child. child.promise.jobs.now ≡ jobs.now) }
    ensures limit { IfSome result (λ child. child.promise.limit ≡ limit) }
{
    core_thread_sent();
    done_sent();
    law_job_shared();
    law_pace_shared();
    let promise = RunInputs {
        was: Snapshot::of(&core_thread),
        jobs,
        limit,
    };
    let records = records_if(is_recorded, &core_thread);
    let run = move || -> Result<FinishedCore, AllocError>
        requires shared { IsSync R.row }
        requires gate { IsSync G.row }
        requires ready { IsReady core_thread }
        ensures ran { IfOk result (λ d. CoreThreadRan jobs.entry.now limit core_thread d) }
    { run_paced(rt, gate, pace, core_thread, jobs, limit, records) };
    scope.spawn_with(promise, run).ok()
}

// The last core behind those that ran before it.
fn push_last(
    rest: Vec<FinishedCore>,
    last: Result<FinishedCore, AllocError>,
) -> Result<Vec<FinishedCore>, NoReport>
    ensures pushed { IfOk result (λ all. IsOkAnd last (λ d. all.items ≡ rest.items ++ d ∷ [])) }
    ensures memory { IfErr result (λ e. e ≡ stop.Memory) }
{
    let mut all = rest;
    match last {
        Ok(done) => match all.push(done) {
            Ok(()) => Ok(all),
            Err(_) => Err(NoReport::Memory),
        },
        Err(_) => Err(NoReport::Memory),
    }
}

// Runs each core on a thread of this scope, the last one first, and joins them all.
fn run_in<'s, 'e: 's, R: Threads + Wait + Sync, G: Gate + Sync>(
    scope: &Scope<'s, &'e ()>,
    rt: &'e R,
    alloc: Global,
    gate: &'e G,
    pace: &'e Pace,
    own: EndSeat,
    todo: Vec<CoreThread>,
    jobs: &'e [CoreJob],
    limit: u64,
    is_recorded: bool,
) -> (Result<Vec<FinishedCore>, NoReport>, EndSeat)
    requires shared { IsSync R.row }
    requires gate { IsSync G.row }
    requires own { own.knows.stopped < own.knows.seats }
    requires ready { AllReady todo.items }
    ensures each { IfOk result.0 (λ all. AllZip (CoreThreadRan jobs.now limit) todo.items all.items) }
    ensures own { IfOk result.0 (λ _. result.1 ≡ own) }
    ensures told { IfErr result.0 (λ e. e ≡ stop.Thread → result.1.knows.stopped ≡ own.knows.stopped + 1) }
{
    let mut own = own;
    let mut todo = todo;
    let Some(last) = todo.pop() else {
        return (Ok(Vec::new(alloc)), own);
    };
    let Some(child) = start(scope, rt, gate, pace, last, jobs, limit, is_recorded) else {
        own.stop();
        pace.end();
        return (Err(NoReport::Thread), own);
    };
    let (rest, own) = run_in(
        scope,
        rt,
        alloc,
        gate,
        pace,
        own,
        todo,
        jobs,
        limit,
        is_recorded,
    );
    let last = child.join(rt);
    match rest {
        Ok(rest) => (push_last(rest, last), own),
        Err(fault) => (Err(fault), own),
    }
}

/// Runs each core on a thread of its own, and joins all threads. The seat is the caller's own: by it the cores are told where a thread doesn't start. It comes
/// back in either case. Where that is wanted, the cores' sides of rings note what they do.
pub fn run_each<R: Threads + Wait + Sync, G: Gate + Sync>(
    rt: &R,
    alloc: Global,
    gate: &G,
    own: EndSeat,
    todo: Vec<CoreThread>,
    jobs: &[CoreJob],
    limit: u64,
    is_recorded: bool,
) -> (Result<Vec<FinishedCore>, NoReport>, EndSeat)
    requires own { own.knows.stopped < own.knows.seats }
    requires ready { AllReady todo.items }
    ensures each { IfOk result.0 (λ all. AllZip (CoreThreadRan jobs.now limit) todo.items all.items) }
    ensures own { IfOk result.0 (λ _. result.1 ≡ own) }
    ensures told { IfErr result.0 (λ e. e ≡ stop.Thread → result.1.knows.stopped ≡ own.knows.stopped + 1) }
{
    let shared = Pace::of(&todo, jobs);
    let pace = &shared;
    thread::scope(
        thread::scope_env(),
        rt,
        move |scope| -> (Result<Vec<FinishedCore>, NoReport>, EndSeat)
            requires shared { IsSync R.row }
            requires gate { IsSync G.row }
            requires own { own.knows.stopped < own.knows.seats }
            requires ready { AllReady todo.items }
            ensures each { IfOk result.0 (λ all. AllZip (CoreThreadRan jobs.entry.now limit) todo.items all.items) }
            ensures own { IfOk result.0 (λ _. result.1 ≡ own) }
            ensures told { IfErr result.0 (λ e. e ≡ stop.Thread → result.1.knows.stopped ≡ own.knows.stopped + 1) }
        {
            run_in(
                scope,
                rt,
                alloc,
                gate,
                pace,
                own,
                todo,
                jobs,
                limit,
                is_recorded,
            )
        },
    )
}
