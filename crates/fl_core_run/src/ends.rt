//! What is done for an end: its next job, a write, an acknowledgement.

ghost use Rattle.std.specs.Prelude.{◌≡◌, ◌<◌, true, length, Some, None, IfSome, IfNone, IfOk, OnOk, OnErr};
ghost use Rattle.fl_value_data.specs.Value.{call_of};
ghost use Rattle.fl_core.specs.View.{place_of};
ghost use Rattle.fl_core_run.specs.Run.{run_by, AtProgress, lends_out, lent_post, next_at, next_job};
ghost use Rattle.fl_core_run.specs.EndProgress.{advanced, progress_place};
ghost use Rattle.fl_core_run.specs.Inside.{HasLeft, OfProgress, OfPlace, IsPlaceOf};
ghost use Rattle.fl_core_run.specs.LogEntries.{WritesOver};
ghost use Rattle.fl_core_run.specs.Steps.{lacks_to_call, Tries, WritesFrom, Serves, Acknowledges, CallsAt, reply_rule, RulesAt};
ghost use Rattle.fl_core_run.specs.Turn.{ForEach};
ghost use Rattle.fl_core_run.specs.Wants.{AcceptsAt, DoesJob};
ghost use Rattle.fl_core_run.specs.Stops.{LeavesJob, StopsAmong};

use crate::core_sides::CoreSides;
use crate::lent::{lent_post, lent_ring_end};
use crate::opening::open;
use crate::over;
use crate::running::{RunningCore, law_sound, law_sound_at};
use fl_base::{EndId, MsgNo};
use fl_compact_calls::CompactCall;
use fl_core::{CoreJob, Outlet};
use fl_endpoint::{EndFault, WriteAnswer};
use std::alloc::AllocError;

// Each end is found once: where its progress is, and where it is at the core. Both are handed on, as places.

// ---- jobs

// The job that is next by an end's progress.
#[inline(always)]
pub(crate) fn next_job<'a, S: CoreSides>(
    run: &RunningCore<S>,
    jobs: &'a [CoreJob],
    progress: Option<usize>,
) -> Option<&'a CoreJob>
    requires there { IfSome progress (λ n. n < length run.now.progresses.items) }
    ensures next { IfSome result (λ job. next_at jobs.now (run_by S.states run.now) progress ≡ Some job.now) }
    ensures none { IfNone result (next_at jobs.now (run_by S.states run.now) progress ≡ None) }
    ensures left { IfSome result (λ _. HasLeft run.now.progresses.items progress) }
{
    match progress {
        None => None,
        Some(place) => match run.progresses[place].next() {
            None => None,
            Some(job) => jobs.get(job),
        },
    }
}

// Whether memory was refused.
fn is_memory(answer: Result<(), EndFault>) -> bool
    ensures memory { result ≡ lacks_to_call answer }
{
    match answer {
        Ok(()) => false,
        Err(fault) => matches!(fault, EndFault::Memory),
    }
}

// The next job by an end's progress is done.
pub(crate) fn advance<S: CoreSides>(run: &mut RunningCore<S>, progress: Option<usize>)
    requires left { HasLeft run.old.progresses.items progress }
    ensures advanced { OfProgress progress (run_by S.states run.old) (λ name. AtProgress name advanced
        (run_by S.states run.old) (run_by S.states run.new)) }
{
    match progress {
        None => (),
        Some(place) => run.progresses[place].advance(),
    }
}

// Tries to make the next call of an end, where that is; one that is refused waits. Tells where the end is.
fn try_call<S: CoreSides>(
    run: &mut RunningCore<S>,
    name: EndId,
    progress: Option<usize>,
    next: &CompactCall,
) -> Result<Option<usize>, AllocError>
    requires found { progress_place run.old.progresses.items name ≡ progress }
    requires left { HasLeft run.old.progresses.items progress }
    ensures calls { OnOk result (CallsAt S.ways name next.now (place_of run.old.core name)
        (run_by S.states run.old) (run_by S.states run.new)) }
    ensures place { IfOk result (λ place. IsPlaceOf run.new.core name place) }
    ensures kept { OnErr result (run_by S.states run.new ≡ run_by S.states run.old) }
    ensures accepts { OnErr result (AcceptsAt run.old.core name (call_of next.now)) }
{
    law_sound(run);
    match run.core.place(name) {
        None => Ok(None),
        Some(e) => {
            law_sound_at(run, e);
            // it would be refused, once it was looked at whether it fits
            if run.core.board().end(e).is_busy() {
                return Ok(Some(e));
            }
            let answer = run.core.call_compact(e, next);
            if is_memory(answer) {
                return Err(AllocError);
            }
            match answer {
                Ok(()) => advance(run, progress),
                Err(_) => (),
            }
            Ok(Some(e))
        }
    }
}

// Sets the rule that is the next job of an end, where that is. Tells where the end is.
fn try_rule<S: CoreSides>(
    run: &mut RunningCore<S>,
    name: EndId,
    progress: Option<usize>,
    msg: MsgNo,
    reply: MsgNo,
) -> Option<usize>
    requires found { progress_place run.old.progresses.items name ≡ progress }
    requires left { HasLeft run.old.progresses.items progress }
    ensures rules { RulesAt S.ways (reply_rule name msg reply) (place_of run.old.core name)
        (run_by S.states run.old) (run_by S.states run.new) }
    ensures place { IsPlaceOf run.new.core name result }
{
    law_sound(run);
    match run.core.place(name) {
        None => None,
        Some(e) => {
            law_sound_at(run, e);
            let _ = run.core.reply_rule(e, msg, reply);
            advance(run, progress);
            Some(e)
        }
    }
}

/// Tries the next job of an end. Tells where the end is then; where the job made it, that is found behind it.
///
/// # Errors
/// Out of memory, only where the job would be done. Nothing has happened then.
pub(crate) fn try_job<S: CoreSides>(
    run: &mut RunningCore<S>,
    jobs: &[CoreJob],
    name: EndId,
) -> Result<Option<usize>, AllocError>
    ensures tries { OnOk result (Tries S.ways name (next_job jobs.now (run_by S.states run.old) name)
        (run_by S.states run.old) (run_by S.states run.new)) }
    ensures place { IfOk result (λ place. IsPlaceOf run.new.core name place) }
    ensures kept { OnErr result (run_by S.states run.new ≡ run_by S.states run.old) }
    ensures does { OnErr result (DoesJob
        (run_by S.states run.old) name (next_job jobs.now (run_by S.states run.old) name)) }
{
    let progress = run.progress_of(name);
    match next_job(run, jobs, progress) {
        None => Ok(run.core.place(name)),
        Some(job) => match job {
            CoreJob::Open(request) => {
                open(run, progress, request.get())?;
                Ok(run.core.place(name))
            }
            CoreJob::Call { call, .. } => try_call(run, name, progress, call),
            CoreJob::Reply { msg, reply, .. } => Ok(try_rule(run, name, progress, *msg, *reply)),
        },
    }
}

// ---- writes

// Writes a fragment of the end at a place to where it puts.
fn write_to<S: CoreSides>(
    run: &mut RunningCore<S>,
    e: usize,
    outlet: Outlet,
) -> Result<WriteAnswer, EndFault>
    requires there { e < length run.old.core.board.seats }
    requires lent { lends_out (run_by S.states run.old) outlet ≡ true }
    ensures wrote { WritesOver S.ways e outlet result (run_by S.states run.old) (run_by S.states run.new) }
{
    match outlet {
        Outlet::Queue(n) => run.core.write(e, &mut run.queues[n]),
        Outlet::Side(n) => over::write(&mut run.core, &mut run.rings, n, e),
    }
}

// One write of the end at a place, if it is at the core.
pub(crate) fn write<S: CoreSides>(run: &mut RunningCore<S>, place: Option<usize>)
    requires there { IfSome place (λ e. e < length run.old.core.board.seats) }
    ensures writes { OfPlace place (run_by S.states run.old)
        (λ name. WritesFrom S.ways name (lent_post (run_by S.states run.old) name)
        (run_by S.states run.old) (run_by S.states run.new)) }
{
    law_sound(run);
    let Some(e) = place else {
        return;
    };
    law_sound_at(run, e);
    // nothing would be written
    if !run.core.board().end(e).is_busy() {
        return;
    }
    let Some(post) = lent_post(run, e) else {
        return;
    };
    let answer = write_to(run, e, post.outlet);
    if matches!(answer, Ok(WriteAnswer::Written { .. })) {
        run.idle = 0;
    }
}

/// For each end its next job, where that can be done, and one write.
///
/// # Errors
/// As [`try_job`].
pub(crate) fn serve_all<S: CoreSides>(
    run: &mut RunningCore<S>,
    ends: &[EndId],
    jobs: &[CoreJob],
) -> Result<(), AllocError>
    ensures serves { OnOk result (ForEach ends.now (Serves S.ways jobs.now)
        (run_by S.states run.old) (run_by S.states run.new)) }
    ensures stops { OnErr result (StopsAmong ends.now (Serves S.ways jobs.now) (LeavesJob jobs.now)
        (run_by S.states run.old) (run_by S.states run.new)) }
{
    for k in 0..ends.len() {
        let place = try_job(run, jobs, ends[k])?;
        write(run, place);
    }
    Ok(())
}

// ---- acknowledgements

// One acknowledgement of an end, where it is a ring's.
pub(crate) fn ack<S: CoreSides>(run: &mut RunningCore<S>, name: EndId)
    ensures acks { Acknowledges S.ways name (run_by S.states run.old) (run_by S.states run.new) }
{
    law_sound(run);
    match lent_ring_end(run, name) {
        None => (),
        Some(ring_end) => {
            let _ = over::ack(&run.core, &mut run.rings, ring_end.side, ring_end.end);
        }
    }
}

/// An acknowledgement for each end of a ring.
pub(crate) fn ack_all<S: CoreSides>(run: &mut RunningCore<S>, ends: &[EndId])
    ensures acks { ForEach ends.now (Acknowledges S.ways) (run_by S.states run.old) (run_by S.states run.new) }
{
    for k in 0..ends.len() {
        ack(run, ends[k]);
    }
}
