//! A run of parts, from their jobs to the report.

ghost use Rattle.std.specs.Prelude.{◌≡◌, ◌≤◌, List, map, length, IfOk, IfErr, OnOk};
ghost use Rattle.atomic_table.specs.Seated.{TableId};
ghost use Rattle.fl_history_rings.specs.declared.board.SideEnd.{SideEnd};
ghost use Rattle.fl_history_shares.specs.Settled.{AreAt, AreAtOne, AreSettled};
ghost use Rattle.fl_cores_table.specs.Counter.{opening_view};
ghost use Rattle.fl_cores_file.specs.Reports.{report_of};
ghost use Rattle.fl_cores_file.specs.Views.{job_of};
ghost use Rattle.fl_cores_jobs.specs.Joined.{AreBindings, HasEndWork};
ghost use Rattle.fl_cores_jobs.specs.State.{joined_of};
ghost use Rattle.fl_cores_fork.specs.Runs.{seats_left};
ghost use Rattle.fl_cores_fork.specs.Tells.{Tells};
ghost use Rattle.fl_cores_fork.specs.CoreThreads.{outcome_of, hands_left};
ghost use Rattle.fl_cores_fork.specs.Taking.{HavePlaces};
ghost use Rattle.fl_cores_parts.specs.Faults.{IsRunFault};
ghost use Rattle.fl_cores_parts.specs.Heard.{HeardAsTold};
ghost use Rattle.fl_cores_parts.specs.CoreThreads.{IsRest};
ghost use Rattle.fl_cores_parts.specs.Ran.{Keeps, CoresRan, RanFrom};

use crate::fault::RunFault;
use crate::recording::Recording;
use crate::settling::put_together;
use crate::wiring::wire;
use fl_core_run::Gate;
use fl_cores_file::{Job, Report};
use fl_cores_fork::{FinishedCore, NoReport, run_each, tell};
use fl_cores_jobs::{JoinedJobs, join_jobs};
use fl_cores_table::{EndSeat, SeatPlan};
use fl_world_refines::Parts;
use std::alloc::{AllocError, Global};
use std::mem;
use std::sync::Wait;
use std::thread::Threads;

// Of each job that opens a binding the core that does it.
fn owners_of(alloc: Global, owners: &[usize]) -> Result<Vec<u64>, AllocError>
    ensures owners { IfOk result (λ v. v.items ≡ owners.now) }
{
    let mut copies = Vec::new(alloc);
    for owner in owners {
        copies.push(*owner as u64)?;
    }
    Ok(copies)
}

// Everybody's seat on the table of a run.
pub(crate) fn seat_of_all(
    alloc: Global,
    cores: usize,
    owners: &[usize],
) -> Result<EndSeat, AllocError>
    requires few { cores ≤ 16 }
    requires jobs { length owners.now ≤ 65536 }
    ensures all { IfOk result (λ seat. seat.knows ≡ opening_view cores owners.now) }
{
    let plan = SeatPlan {
        cores: cores as u64,
        owners: owners_of(alloc, owners)?,
    };
    EndSeat::new(alloc, plan)
}

// The report of cores that ran. Their seats are put in the run's own, and they are gathered at their table; the jobs' calls are in the report then.
fn report_on(
    alloc: Global,
    joined: &mut JoinedJobs,
    own: EndSeat,
    done: Vec<FinishedCore>,
) -> Result<Report, AllocError>
    requires few { length joined.old.bindings.items ≤ 1024 }
    requires end_works { HasEndWork joined.old.bindings.items joined.old.end_works.items }
    requires places { HavePlaces (joined_of joined.old).end_works joined.old.jobs.items }
    requires rest { IsRest own (length joined.old.owners.items) (seats_left (map outcome_of done.items)) }
    requires one { AreAtOne (hands_left done.items) }
    ensures tells { IfOk result (λ r. Tells (joined_of joined.old) (map outcome_of done.items) (report_of r)) }
    ensures heard { OnOk result (HeardAsTold (length joined.old.owners.items) (seats_left (map outcome_of done.items))) }
    ensures settled { OnOk result ((table : TableId) (ends : List SideEnd) → AreAt table ends (hands_left done.items)
        → AreSettled ends (hands_left done.items)) }
{
    let mut done = done;
    let jobs = mem::replace(&mut joined.jobs, Vec::new(alloc));
    let report = tell(alloc, jobs, joined, &mut done)?;
    let count = joined.owners.as_slice().len();
    put_together(alloc, own, count, done)?;
    Ok(report)
}

// The run of parts with the jobs that were joined to them.
fn run_joined<R: Threads + Wait + Sync, G: Gate + Sync>(
    rt: &R,
    alloc: Global,
    parts: Parts,
    joined: JoinedJobs,
    limit: u64,
    gate: &G,
    recording: &mut Recording,
) -> Result<Report, NoReport>
    requires few { length parts.cores.items ≤ 16 }
    requires bindings { AreBindings (length parts.cores.items) joined.bindings.items joined.owners.items }
    requires end_works { HasEndWork joined.bindings.items joined.end_works.items }
    requires places { HavePlaces (joined_of joined).end_works joined.jobs.items }
    ensures ran { IfOk result (λ r. CoresRan parts (joined_of joined) limit (report_of r)) }
{
    let mut joined = joined;
    let mut own = seat_of_all(alloc, parts.cores.as_slice().len(), &joined.owners)?;
    let wired = wire(alloc, parts, &joined, &mut own)?;
    let (ran, own) = run_each(
        rt,
        alloc,
        gate,
        own,
        wired.core_threads,
        &joined.jobs,
        limit,
        recording.is_on,
    );
    let mut done = ran?;
    recording.put(alloc, &mut done);
    Ok(report_on(alloc, &mut joined, own, done)?)
}

/// Runs the cores of a world's parts on threads of their own, each with its jobs, until each has finished or
/// counted so many turns. What their sides note is kept, where the recording is on.
///
/// # Errors
/// [`RunFault`]: a job is refused, out of memory, or a thread doesn't start. Every thread was joined then.
#[tactic(auto, using(crate::proofs::Keeping::keeps_ran, crate::proofs::EndWork::have_places, crate::proofs::Faults::no_report))]
pub fn run_parts<R: Threads + Wait + Sync, G: Gate + Sync>(
    rt: &R,
    alloc: Global,
    parts: Parts,
    jobs: Vec<Job<'_>>,
    limit: u64,
    gate: &G,
    recording: &mut Recording,
) -> Result<Report, RunFault>
    requires few { length parts.cores.items ≤ 16 }
    ensures ran { IfOk result (λ r. RanFrom parts (map job_of jobs.entry.items) limit (report_of r)) }
    ensures keeps { IfOk result (λ r. Keeps (length parts.cores.items) limit (report_of r)) }
    ensures refused { IfErr result (λ fault. IsRunFault parts (map job_of jobs.entry.items) fault) }
{
    let mut parts = parts;
    let joined = join_jobs(alloc, &mut parts, jobs)?;
    let report = run_joined(rt, alloc, parts, joined, limit, gate, recording)?;
    Ok(report)
}
