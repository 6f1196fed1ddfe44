//! What is done for a dispatcher: a turn.

ghost use Rattle.std.specs.Prelude.{◌≡◌, ◌<◌, true, length, Some, IfSome, OnOk, OnErr};
ghost use Rattle.fl_value_data.specs.declared.value.Call.{Call as TheCall};
ghost use Rattle.fl_core.specs.BoardView.{due};
ghost use Rattle.fl_core.specs.declared.turn_answer.TurnAnswer.TheVariants.{Handle};
ghost use Rattle.fl_core.specs.View.{inlet_of};
ghost use Rattle.fl_core_run.specs.Run.{run_by, lends_in};
ghost use Rattle.fl_core_run.specs.Inside.{OfProgress};
ghost use Rattle.fl_core_run.specs.LogEntries.{dispatcher_turn, TurnsOver, NotesTurned};
ghost use Rattle.fl_core_run.specs.Steps.{awaits, TakesTurn};
ghost use Rattle.fl_core_run.specs.Turn.{Swept};
ghost use Rattle.fl_core_run.specs.Stops.{LeavesTurn, StopsIn};

use crate::core_sides::CoreSides;
use crate::ends::next_job;
use crate::lent::lent_due;
use crate::over;
use crate::running::{RunningCore, law_sound, law_sound_at};
use fl_core::{CoreJob, Inlet, TurnAnswer};
use std::alloc::AllocError;

// A turn of a dispatcher at the end that is due, over where it takes from.
fn turn_over<S: CoreSides>(
    run: &mut RunningCore<S>,
    dispatcher: usize,
    e: usize,
    inlet: Inlet,
) -> Result<TurnAnswer, AllocError>
    requires there { dispatcher < length run.old.core.board.dispatchers }
    requires due { due run.old.core.board dispatcher ≡ Some e }
    requires inlet { inlet_of run.old.core e ≡ Some inlet }
    requires lent { lends_in (run_by S.states run.old) inlet ≡ true }
    ensures turns { TurnsOver S.ways (dispatcher_turn dispatcher e result) inlet
        (run_by S.states run.old) (run_by S.states run.new) }
{
    match inlet {
        Inlet::Queue(n) => run.core.turn(dispatcher, e, &mut run.queues[n]),
        Inlet::Side(n) => over::turn(&mut run.core, &mut run.rings, n, dispatcher, e),
        Inlet::Arrivals => run.core.turn_arrivals(dispatcher, e),
    }
}

// Notes what came of a turn: that it found something, and a call that was handled.
fn note<S: CoreSides>(
    run: &mut RunningCore<S>,
    progress: Option<usize>,
    answer: TurnAnswer,
) -> Result<(), AllocError>
    requires there { IfSome progress (λ n. n < length run.old.progresses.items) }
    ensures notes { OnOk result (OfProgress progress (run_by S.states run.old)
        (λ name. NotesTurned name answer (run_by S.states run.old) (run_by S.states run.new))) }
    ensures left { OnErr result ((call : TheCall) × (answer ≡ Handle call) × (run_by S.states run.new ≡ run_by S.states run.old)) }
{
    match answer {
        TurnAnswer::Handle(call) => {
            run.idle = 0;
            match progress {
                None => Ok(()),
                Some(place) => run.progresses[place].take(call),
            }
        }
        TurnAnswer::Part | TurnAnswer::Ready => {
            run.idle = 0;
            Ok(())
        }
        TurnAnswer::Quiet | TurnAnswer::Full | TurnAnswer::Nothing | TurnAnswer::Refused(_) => {
            Ok(())
        }
    }
}

// Whether an end with this progress is still to be opened, or a reply rule still to be set there.
pub(crate) fn awaits<S: CoreSides>(
    run: &RunningCore<S>,
    jobs: &[CoreJob],
    progress: Option<usize>,
) -> bool
    requires there { IfSome progress (λ n. n < length run.now.progresses.items) }
    ensures awaits { OfProgress progress (run_by S.states run.now)
        (λ name. result ≡ awaits jobs.now (run_by S.states run.now) name) }
{
    match next_job(run, jobs, progress) {
        None => false,
        Some(job) => match job {
            CoreJob::Open(_) => true,
            CoreJob::Reply { .. } => true,
            CoreJob::Call { .. } => false,
        },
    }
}

// One turn of a dispatcher, at the end that is due; it waits while that end has something to wait for.
pub(crate) fn turn<S: CoreSides>(
    run: &mut RunningCore<S>,
    jobs: &[CoreJob],
    dispatcher: usize,
) -> Result<(), AllocError>
    ensures turns { OnOk result (TakesTurn S.ways jobs.now dispatcher
        (run_by S.states run.old) (run_by S.states run.new)) }
    ensures left { OnErr result (LeavesTurn S.ways jobs.now dispatcher
        (run_by S.states run.old) (run_by S.states run.new)) }
{
    law_sound(run);
    let Some(at) = lent_due(run, dispatcher) else {
        return Ok(());
    };
    law_sound_at(run, at.end);
    let name = run.core.name(at.end);
    let progress = run.progress_of(name);
    if awaits(run, jobs, progress) {
        return Ok(());
    }
    let answer = turn_over(run, dispatcher, at.end, at.inlet)?;
    note(run, progress, answer)
}

/// A turn for each dispatcher.
pub(crate) fn turn_all<S: CoreSides>(
    run: &mut RunningCore<S>,
    jobs: &[CoreJob],
    dispatchers: usize,
) -> Result<(), AllocError>
    ensures turns { OnOk result (Swept (TakesTurn S.ways jobs.now) dispatchers
        (run_by S.states run.old) (run_by S.states run.new)) }
    ensures stops { OnErr result (StopsIn (TakesTurn S.ways jobs.now) (LeavesTurn S.ways jobs.now) dispatchers
        (run_by S.states run.old) (run_by S.states run.new)) }
{
    for dispatcher in 0..dispatchers {
        turn(run, jobs, dispatcher)?;
    }
    Ok(())
}
