//! What a run begins with, once more.

ghost use Rattle.std.specs.Prelude.{◌≡◌, ◌≤◌, length, map, IfOk, IfErr};
ghost use Rattle.fl_core_run.specs.Run.{run_of, over};
ghost use Rattle.fl_cores_file.specs.Views.{job_of};
ghost use Rattle.fl_cores_jobs.specs.Joined.{AreBindings, HasEndWork};
ghost use Rattle.fl_cores_jobs.specs.State.{joined_of};
ghost use Rattle.fl_cores_fork.specs.CoreThreads.{AllReady, core_thread_of, noted_run};
ghost use Rattle.fl_cores_parts.specs.Dealing.{Wirings};
ghost use Rattle.fl_cores_parts.specs.Faults.{by_job, IsRunFault};
ghost use Rattle.fl_cores_parts.specs.Wired.{WiredFrom};

use crate::run::seat_of_all;
use crate::wiring::{WiredThreads, wire};
use fl_core_run::{RunningCore, TurnPlan};
use fl_cores_file::Job;
use fl_cores_fork::CoreThread;
use fl_cores_jobs::{JobFault, JoinedJobs, join_jobs};
use fl_world_refines::Parts;
use std::alloc::{AllocError, Global};

/// What the cores of a run begin with. It is let go by a call, so that cores are dropped in this crate alone.
pub struct WiredCores {
    /// Each core with what its thread works on.
    pub core_threads: Vec<CoreThread>,
    /// Their jobs.
    pub joined: JoinedJobs,
    /// By side of a ring, its core.
    pub owners: Vec<usize>,
}

/// A core over sides of its own kind, and what its turns visit.
#[derive(Drop)]
pub struct CoreOver<S> {
    pub running: RunningCore<Vec<S>>,
    pub plan: TurnPlan,
}

/// The cores of a run over sides of their own kind, and their jobs. It is let go by a call, too.
pub struct CoresOver<S> {
    pub cores: Vec<CoreOver<S>>,
    pub joined: JoinedJobs,
}

// What the threads of cores are given, with the jobs that were joined.
fn wire_joined(alloc: Global, parts: Parts, joined: &JoinedJobs) -> Result<WiredThreads, AllocError>
    requires few { length parts.cores.items ≤ 16 }
    requires bindings { AreBindings (length parts.cores.items) joined.now.bindings.items joined.now.owners.items }
    requires end_works { HasEndWork joined.now.bindings.items joined.now.end_works.items }
    ensures ready { IfOk result (λ w. AllReady w.core_threads.items) }
    ensures wires { IfOk result (λ w. Wirings parts (joined_of joined.now) (map core_thread_of w.core_threads.items) w.owners.items) }
{
    let mut own = seat_of_all(alloc, parts.cores.as_slice().len(), &joined.owners)?;
    wire(alloc, parts, joined, &mut own)
}

/// What the cores of [`run_parts`](crate::run_parts) begin with: no thread is started.
///
/// # Errors
/// [`JobFault`]: a job is refused, or out of memory.
#[tactic(auto, using(crate::proofs::Faults::no_report))]
pub fn wire_parts(alloc: Global, parts: Parts, jobs: Vec<Job<'_>>) -> Result<WiredCores, JobFault>
    requires few { length parts.cores.items ≤ 16 }
    ensures wired { IfOk result (λ w. WiredFrom parts (map job_of jobs.entry.items) w) }
    ensures refused { IfErr result (λ fault. IsRunFault parts (map job_of jobs.entry.items) (by_job fault)) }
{
    let mut parts = parts;
    let joined = join_jobs(alloc, &mut parts, jobs)?;
    match wire_joined(alloc, parts, &joined) {
        Ok(threads) => Ok(WiredCores {
            core_threads: threads.core_threads,
            joined,
            owners: threads.owners,
        }),
        Err(_) => Err(JobFault::Memory),
    }
}

// The core of a thread, over these sides.
fn core_over<S>(thread: CoreThread, sides: Vec<S>) -> CoreOver<S>
    ensures running { run_of result.running ≡ over sides.items (noted_run thread.running.value) }
    ensures plan { result.plan ≡ thread.plan }
{
    let CoreThread {
        running,
        plan,
        run_seat: _,
    } = thread;
    let (running, _) = Box::into_inner(running).with_rings(sides);
    CoreOver { running, plan }
}

// The cores of threads, each over its sides.
fn all_over<S: Drop>(
    alloc: Global,
    core_threads: Vec<CoreThread>,
    sides: Vec<Vec<S>>,
) -> Result<Vec<CoreOver<S>>, AllocError> {
    let mut cores = Vec::new(alloc);
    let mut sides = sides.into_iter();
    for thread in core_threads {
        let own = match sides.next() {
            Some(own) => own,
            None => Vec::new(alloc),
        };
        cores.reserve(1)?;
        cores.push_reserved(core_over(thread, own));
    }
    Ok(cores)
}

impl WiredCores {
    /// The same cores over other sides: these, by core.
    ///
    /// # Errors
    /// Out of memory.
    pub fn over<S: Drop>(
        self,
        alloc: Global,
        sides: Vec<Vec<S>>,
    ) -> Result<CoresOver<S>, AllocError> {
        let WiredCores {
            core_threads,
            joined,
            owners,
        } = self;
        drop(owners);
        let cores = all_over(alloc, core_threads, sides)?;
        Ok(CoresOver { cores, joined })
    }

    /// Lets all go.
    pub fn let_go(self) {
        let WiredCores {
            core_threads,
            joined,
            owners,
        } = self;
        drop(core_threads);
        drop(joined);
        drop(owners);
    }
}

impl<S: Drop> CoresOver<S> {
    /// Lets all go.
    pub fn let_go(self) {
        let CoresOver { cores, joined } = self;
        drop(cores);
        drop(joined);
    }
}
