//! A core's whole run.

ghost use Rattle.std.specs.Prelude.{◌≡◌, ◌+◌, ◌<◌, length, OnOk, IfOk, OnErr};
ghost use Rattle.fl_core_run.specs.Run.{run_by};
ghost use Rattle.fl_core_run.specs.OpeningStatus.{AreWords, ExchangesAll, SaidNothing};
ghost use Rattle.fl_core_run.specs.Finished.{is_finished};
ghost use Rattle.fl_core_run.specs.Ran.{run_seat_of, task, moment, Counted, SomeTurns, HaveEnded, CoreRan};
ghost use Rattle.fl_core_run.specs.Stops.{StopsInTurn};

use crate::core_sides::CoreSides;
use crate::fault::CoreRunFault;
use crate::finish::is_finished;
use crate::gate::Gate;
use crate::opening_status::exchange_all;
use crate::plan::TurnPlan;
use crate::rest::rest;
use crate::run_seat::RunSeat;
use crate::running::RunningCore;
use fl_core::CoreJob;
use fl_cores_table::STOP;
use std::alloc::AllocError;
use std::sync::Wait;

/// How a core's counted turns came to an end.
#[derive(Clone, Copy, PartialEq, Eq)]
pub enum RunEnd {
    /// Nothing was left to do.
    Finished,
    /// As many turns as are allowed were taken, and something is left to do.
    Unfinished,
    /// Another core stopped, or a thread was refused.
    Told,
}

/// A core's share of the report, beside what its ends' progress have.
#[derive(Clone, Copy)]
pub struct Part {
    /// How many turns were counted.
    pub turns: u64,
    pub end: RunEnd,
}

// Whether nothing is left to do, once refusals are told and learned.
fn take_stock<S: CoreSides>(run: &RunningCore<S>, plan: &TurnPlan, run_seat: &mut RunSeat) -> bool
    requires as_many { length run_seat.old.words.items ≡ length plan.now.ends.items }
    requires may { AreWords run_seat.old.words.items run_seat.old.seat.knows }
    ensures finished { result ≡ is_finished (run_by S.states run.now) plan.now.ends.items run_seat.new.words.items }
    ensures exchanges { ExchangesAll
        (run_by S.states run.now) plan.now.ends.items (run_seat_of run_seat.old) (run_seat_of run_seat.new) }
    ensures seat { SaidNothing run_seat.old.seat run_seat.new.seat }
    ensures as_many { length run_seat.new.words.items ≡ length plan.now.ends.items }
    ensures may { AreWords run_seat.new.words.items run_seat.new.seat.knows }
{
    exchange_all(run, &plan.ends, &mut run_seat.words, &mut run_seat.seat);
    is_finished(run, &plan.ends, &run_seat.words)
}

// Turns that are counted: until nothing is left to do, or the limit is reached, or another core stopped.
#[tactic(auto, using(crate::proofs::Stock::seen_words, crate::proofs::Stock::quiet_then))]
fn counted_turns<S: CoreSides, G: Gate>(
    run: &mut RunningCore<S>,
    plan: &TurnPlan,
    jobs: &[CoreJob],
    limit: u64,
    run_seat: &mut RunSeat,
    gate: &G,
) -> Result<Part, AllocError>
    requires as_many { length run_seat.old.words.items ≡ length plan.now.ends.items }
    requires may { AreWords run_seat.old.words.items run_seat.old.seat.knows }
    ensures counted { IfOk result (λ part. Counted S.ways (task plan.now jobs.now limit)
        (moment (run_by S.states run.old) (run_seat_of run_seat.old)) part (moment (run_by S.states run.new) (run_seat_of run_seat.new))) }
    ensures part { OnErr result (StopsInTurn S.ways plan.now jobs.now
        (run_by S.states run.old) (run_by S.states run.new)) }
    ensures seat { SaidNothing run_seat.old.seat run_seat.new.seat }
{
    let core = run.core.monitor().circuits().core();
    for turns in 0..limit {
        if take_stock(run, plan, run_seat) {
            return Ok(Part {
                turns,
                end: RunEnd::Finished,
            });
        }
        if run_seat.seat.load_ended() >= STOP {
            return Ok(Part {
                turns,
                end: RunEnd::Told,
            });
        }
        gate.before_turn(core);
        run.turn(plan, jobs)?;
        rest(run.idle);
    }
    if take_stock(run, plan, run_seat) {
        return Ok(Part {
            turns: limit,
            end: RunEnd::Finished,
        });
    }
    Ok(Part {
        turns: limit,
        end: RunEnd::Unfinished,
    })
}

// Turns that aren't counted: until all cores have ended, or one stopped.
#[tactic(auto, using(crate::proofs::Idle::idle))]
fn idle_turns<R: Wait, S: CoreSides, G: Gate>(
    rt: &R,
    run: &mut RunningCore<S>,
    plan: &TurnPlan,
    jobs: &[CoreJob],
    run_seat: &mut RunSeat,
    gate: &G,
) -> Result<(), AllocError>
    ensures turned { OnOk result (SomeTurns S.ways plan.now jobs.now
        (run_by S.states run.old) (run_by S.states run.new)) }
    ensures part { OnErr result (StopsInTurn S.ways plan.now jobs.now
        (run_by S.states run.old) (run_by S.states run.new)) }
    ensures others { OnOk result (HaveEnded plan.now.cores run_seat.new.seat.knows.seen) }
    ensures seat { SaidNothing run_seat.old.seat run_seat.new.seat }
    ensures stored { run_seat.new.seat.knows.stored ≡ run_seat.old.seat.knows.stored }
    ensures heard { run_seat.new.seat.knows.heard ≡ run_seat.old.seat.knows.heard }
{
    let core = run.core.monitor().circuits().core();
    for _ in rt.forever() {
        let ended = run_seat.seat.load_ended();
        if ended >= STOP || ended == plan.cores {
            break;
        }
        gate.before_turn(core);
        run.turn(plan, jobs)?;
        rest(run.idle);
    }
    Ok(())
}

// The whole run, but for what is told where memory is refused.
fn run_through<R: Wait, S: CoreSides, G: Gate>(
    rt: &R,
    run: &mut RunningCore<S>,
    plan: &TurnPlan,
    jobs: &[CoreJob],
    limit: u64,
    run_seat: &mut RunSeat,
    gate: &G,
) -> Result<Part, AllocError>
    requires as_many { length run_seat.old.words.items ≡ length plan.now.ends.items }
    requires may { AreWords run_seat.old.words.items run_seat.old.seat.knows }
    requires once { run_seat.old.seat.knows.finished < length run_seat.old.seat.knows.cores }
    ensures ran { IfOk result (λ part. CoreRan S.ways (task plan.now jobs.now limit)
        (moment (run_by S.states run.old) (run_seat_of run_seat.old)) part (moment (run_by S.states run.new) (run_seat_of run_seat.new))) }
    ensures part { OnErr result (StopsInTurn S.ways plan.now jobs.now
        (run_by S.states run.old) (run_by S.states run.new)) }
    ensures stopped { run_seat.new.seat.knows.stopped ≡ run_seat.old.seat.knows.stopped }
    ensures seats { run_seat.new.seat.knows.seats ≡ run_seat.old.seat.knows.seats }
{
    let part = counted_turns(run, plan, jobs, limit, run_seat, gate)?;
    match part.end {
        RunEnd::Told => Ok(part),
        RunEnd::Unfinished => {
            run_seat.seat.finish();
            Ok(part)
        }
        RunEnd::Finished => {
            run_seat.seat.finish();
            idle_turns(rt, run, plan, jobs, run_seat, gate)?;
            Ok(part)
        }
    }
}

/// A core's whole run, on its thread. Before each turn it looks whether something is left to do and whether another core stopped. It tells when nothing is left
/// to do, or the limit is reached; in the first case it goes on, with turns that aren't counted, until all cores have told so.
///
/// # Errors
/// Out of memory. That it stops is told then; it took so many whole turns, and a part of one more.
pub fn core_run<R: Wait, S: CoreSides, G: Gate>(
    rt: &R,
    run: &mut RunningCore<S>,
    plan: &TurnPlan,
    jobs: &[CoreJob],
    limit: u64,
    run_seat: &mut RunSeat,
    gate: &G,
) -> Result<Part, CoreRunFault>
    requires as_many { length run_seat.old.words.items ≡ length plan.now.ends.items }
    requires may { AreWords run_seat.old.words.items run_seat.old.seat.knows }
    requires silent { (run_seat.old.seat.knows.finished < length run_seat.old.seat.knows.cores)
        × (run_seat.old.seat.knows.stopped < run_seat.old.seat.knows.seats) }
    ensures ran { IfOk result (λ part. CoreRan S.ways (task plan.now jobs.now limit)
        (moment (run_by S.states run.old) (run_seat_of run_seat.old)) part (moment (run_by S.states run.new) (run_seat_of run_seat.new))) }
    ensures part { OnErr result (StopsInTurn S.ways plan.now jobs.now
        (run_by S.states run.old) (run_by S.states run.new)) }
    ensures told { OnErr result (run_seat.new.seat.knows.stopped ≡ run_seat.old.seat.knows.stopped + 1) }
{
    match run_through(rt, run, plan, jobs, limit, run_seat, gate) {
        Ok(part) => Ok(part),
        Err(_) => {
            run_seat.seat.stop();
            Err(CoreRunFault::Memory)
        }
    }
}
