//! A core's run on its thread; and over sides that note what they do.

ghost use Rattle.std.specs.Prelude.{◌≡◌, ◌<◌, false, length, None, IfOk};
ghost use Rattle.fl_core_run.specs.OpeningStatus.{AreWords};
ghost use Rattle.fl_cores_fork.specs.CoreThreads.{noted_run, noting_run, RanNoted, IsReady, CoreThreadRan};

use crate::core_thread::{CoreThread, FinishedCore};
use crate::fork::law_sound;
use core::mem::replace_with;
use fl_core::CoreJob;
use fl_core_run::{CoreSides, Gate, Part, RunSeat, RunningCore, TurnPlan, core_run};
use fl_cores_shares::SideRecord;
use fl_history_shares::NotingSides;
use fl_history_sides::HistorySides;
use std::alloc::{AllocError, Global};
use std::sync::Wait;

// The same core over sides that note.
fn over_noting(
    running: RunningCore<HistorySides>,
    records: Vec<SideRecord>,
) -> RunningCore<NotingSides>
    ensures same { noting_run result ≡ noted_run running }
{
    let (running, sides) = running.with_rings(());
    let (running, _) = running.with_rings(NotingSides::over(sides, records));
    running
}

// And over its own again, with what these noted.
fn over_own(running: RunningCore<NotingSides>) -> (RunningCore<HistorySides>, Vec<SideRecord>)
    ensures same { noted_run result.0 ≡ noting_run running }
{
    let alloc = running.alloc;
    let (running, noting) = running.with_rings(());
    let (sides, records) = noting.into_parts(alloc);
    let (running, _) = running.with_rings(sides);
    (running, records)
}

// What the core's turns write is moved into memory of the thread on which this is called, where there is some.
fn take_own_memory(running: &mut RunningCore<HistorySides>)
    ensures same { noted_run running.new ≡ noted_run running.old }
{
    running.take_own_memory();
    running.rings.take_own_memory(running.alloc);
}

// The core's run, over its own sides.
fn run_own<R: Wait, G: Gate>(
    rt: &R,
    gate: &G,
    running: &mut RunningCore<HistorySides>,
    plan: &TurnPlan,
    jobs: &[CoreJob],
    limit: u64,
    run_seat: &mut RunSeat,
) -> Result<Part, AllocError>
    requires as_many { length run_seat.old.words.items ≡ length plan.now.ends.items }
    requires may { AreWords run_seat.old.words.items run_seat.old.seat.knows }
    requires silent { (run_seat.old.seat.knows.finished < length run_seat.old.seat.knows.cores)
        × (run_seat.old.seat.knows.stopped < run_seat.old.seat.knows.seats) }
    ensures ran { IfOk result (λ part. RanNoted jobs.now limit plan.now (noted_run running.old) run_seat.old part
        (noted_run running.new) run_seat.new) }
{
    match core_run(rt, running, plan, jobs, limit, run_seat, gate) {
        Ok(part) => {
            law_sound(&running.core);
            running.rings.shows();
            Ok(part)
        }
        Err(_) => Err(AllocError),
    }
}

// The core's run, over sides that note.
fn run_over<R: Wait, G: Gate>(
    rt: &R,
    gate: &G,
    running: &mut RunningCore<NotingSides>,
    plan: &TurnPlan,
    jobs: &[CoreJob],
    limit: u64,
    run_seat: &mut RunSeat,
) -> Result<Part, AllocError>
    requires as_many { length run_seat.old.words.items ≡ length plan.now.ends.items }
    requires may { AreWords run_seat.old.words.items run_seat.old.seat.knows }
    requires silent { (run_seat.old.seat.knows.finished < length run_seat.old.seat.knows.cores)
        × (run_seat.old.seat.knows.stopped < run_seat.old.seat.knows.seats) }
    ensures ran { IfOk result (λ part. RanNoted jobs.now limit plan.now (noting_run running.old) run_seat.old part
        (noting_run running.new) run_seat.new) }
{
    match core_run(rt, running, plan, jobs, limit, run_seat, gate) {
        Ok(part) => {
            law_sound(&running.core);
            running.rings.shows();
            Ok(part)
        }
        Err(_) => Err(AllocError),
    }
}

// What a run came to, beside its core.
#[derive(Drop)]
struct EndedRun {
    part: Part,
    run_seat: RunSeat,
    records: Option<Vec<SideRecord>>,
}

// A core's whole run over its own sides.
fn run_plain<R: Wait, G: Gate>(
    rt: &R,
    gate: &G,
    running: RunningCore<HistorySides>,
    run_seat: RunSeat,
    plan: &TurnPlan,
    jobs: &[CoreJob],
    limit: u64,
) -> (RunningCore<HistorySides>, Result<EndedRun, AllocError>)
    requires as_many { length run_seat.words.items ≡ length plan.now.ends.items }
    requires may { AreWords run_seat.words.items run_seat.seat.knows }
    requires silent { (run_seat.seat.knows.finished < length run_seat.seat.knows.cores)
        × (run_seat.seat.knows.stopped < run_seat.seat.knows.seats) }
    ensures ran { IfOk result.1 (λ n. RanNoted jobs.now limit plan.now (noted_run running) run_seat n.part
        (noted_run result.0) n.run_seat) }
{
    let mut running = running;
    let mut run_seat = run_seat;
    match run_own(rt, gate, &mut running, plan, jobs, limit, &mut run_seat) {
        Ok(part) => (
            running,
            Ok(EndedRun {
                part,
                run_seat,
                records: None,
            }),
        ),
        Err(_) => (running, Err(AllocError)),
    }
}

// The same over sides that note; and the core over its own sides again.
fn run_noted<R: Wait, G: Gate>(
    rt: &R,
    gate: &G,
    running: RunningCore<HistorySides>,
    records: Vec<SideRecord>,
    run_seat: RunSeat,
    plan: &TurnPlan,
    jobs: &[CoreJob],
    limit: u64,
) -> (RunningCore<HistorySides>, Result<EndedRun, AllocError>)
    requires as_many { length run_seat.words.items ≡ length plan.now.ends.items }
    requires may { AreWords run_seat.words.items run_seat.seat.knows }
    requires silent { (run_seat.seat.knows.finished < length run_seat.seat.knows.cores)
        × (run_seat.seat.knows.stopped < run_seat.seat.knows.seats) }
    ensures ran { IfOk result.1 (λ n. RanNoted jobs.now limit plan.now (noted_run running) run_seat n.part
        (noted_run result.0) n.run_seat) }
{
    let mut run_seat = run_seat;
    let mut running = over_noting(running, records);
    let ran = run_over(rt, gate, &mut running, plan, jobs, limit, &mut run_seat);
    let (running, records) = over_own(running);
    match ran {
        Ok(part) => (
            running,
            Ok(EndedRun {
                part,
                run_seat,
                records: Some(records),
            }),
        ),
        Err(_) => (running, Err(AllocError)),
    }
}

// A core's whole run, over sides that note where there are records for that. What it writes lies in the thread's own memory meanwhile: the core
// in this frame, and its lists in what is asked for here.
fn run_either<R: Wait, G: Gate>(
    rt: &R,
    gate: &G,
    running: RunningCore<HistorySides>,
    records: Option<Vec<SideRecord>>,
    run_seat: RunSeat,
    plan: &TurnPlan,
    jobs: &[CoreJob],
    limit: u64,
) -> (RunningCore<HistorySides>, Result<EndedRun, AllocError>)
    requires as_many { length run_seat.words.items ≡ length plan.now.ends.items }
    requires may { AreWords run_seat.words.items run_seat.seat.knows }
    requires silent { (run_seat.seat.knows.finished < length run_seat.seat.knows.cores)
        × (run_seat.seat.knows.stopped < run_seat.seat.knows.seats) }
    ensures ran { IfOk result.1 (λ n. RanNoted jobs.now limit plan.now (noted_run running) run_seat n.part
        (noted_run result.0) n.run_seat) }
{
    let mut running = running;
    take_own_memory(&mut running);
    match records {
        Some(records) => run_noted(rt, gate, running, records, run_seat, plan, jobs, limit),
        None => run_plain(rt, gate, running, run_seat, plan, jobs, limit),
    }
}

// Room for so many records more than are asked for: so the records of two cores, for which memory is asked one behind the
// other, share no cache line, nor lines that are fetched together.
const APART: usize = 16;

// So many records in which nothing is noted yet, with room for the first notes.
fn fresh_records(alloc: Global, count: usize) -> Result<Vec<SideRecord>, AllocError> {
    let mut records = Vec::with_capacity(alloc, count.saturating_add(APART))?;
    for _ in 0..count {
        records.push(SideRecord::with_room(alloc)?)?;
    }
    Ok(records)
}

/// All that a core's recorded run wants memory for, but for notes beyond the first of each side: a record for each, where
/// the run is to be recorded and there is memory for that. They are there before the core's thread is: so want of memory costs the
/// record, not the report.
pub(crate) fn records_if(is_recorded: bool, core_thread: &CoreThread) -> Option<Vec<SideRecord>>
    ensures none { is_recorded ≡ false → result ≡ None }
{
    if !is_recorded {
        return None;
    }
    let count = core_thread.running.rings.count();
    fresh_records(core_thread.running.alloc, count).ok()
}

/// A core's whole run on its thread: over sides that note what they do, where there are records for that. Where there are
/// none, the run isn't recorded.
pub(crate) fn run_thread<R: Wait, G: Gate>(
    rt: &R,
    gate: &G,
    core_thread: CoreThread,
    jobs: &[CoreJob],
    limit: u64,
    records: Option<Vec<SideRecord>>,
) -> Result<FinishedCore, AllocError>
    requires ready { IsReady core_thread }
    ensures ran { IfOk result (λ d. CoreThreadRan jobs.now limit core_thread d) }
{
    let CoreThread {
        running,
        plan,
        run_seat,
    } = core_thread;
    let mut running = running;
    let ended = replace_with(
        &mut *running,
        (records, run_seat),
        |own, (records, run_seat)| run_either(rt, gate, own, records, run_seat, &plan, jobs, limit),
    );
    let EndedRun {
        part,
        run_seat,
        records,
    } = ended?;
    Ok(FinishedCore {
        core_thread: CoreThread {
            running,
            plan,
            run_seat,
        },
        part,
        records,
    })
}
