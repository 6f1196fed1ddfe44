//! A run of cores, from their set-up to the report.

ghost use Rattle.std.specs.Prelude.{◌≡◌, ◌≤◌, Some, None, List, map, position, length, IfOk, IfErr};
ghost use Rattle.fl_model.specs.Views.{event_of};
ghost use Rattle.fl_cores_file.specs.Reports.{report_of};
ghost use Rattle.fl_world.specs.Booting.{config_of, IsFaultOf};
ghost use Rattle.fl_cores_file.specs.Jobs.{Job as TheJob};
ghost use Rattle.fl_cores_file.specs.Views.{job_of};
ghost use Rattle.fl_cores_file_laws.specs.SetUps.{sets_up};
ghost use Rattle.fl_cores.specs.Promised.{is_other, asks_other, cores_by, IsAccepted, Made, Reports, IsFault, IsLater, WantsNoThread};
ghost use Rattle.fl_cores_parts.specs.Ran.{Keeps, RanFrom};
ghost use Rattle.fl_cores_parts.specs.Wired.{WiredFrom};
ghost use Rattle.fl_cores.specs.Wired.{Wires};

use crate::fault::CoresFault;
use fl_base::faults;
use fl_core_run::Gate;
use fl_cores_file::{Job, Report};
use fl_cores_file_laws::law_files_join;
use fl_cores_parts::{Recording, WiredCores, run_parts, wire_parts};
use fl_model::{BackEnd, Event};
use fl_world::{BootFault, Config, World};
use fl_world_refines::Parts;
use std::alloc::Global;
use std::sync::Wait;
use std::thread::Threads;

// Whether an event makes something at once, beside the cores, whose number the configuration has: nothing else belongs to a set-up.
fn sets_up(event: &Event<'_>) -> bool
    ensures of_set_up { result ≡ sets_up (event_of event.now) }
{
    match event {
        Event::AddInterface { .. }
        | Event::AddLink { .. }
        | Event::AddDispatcher(_)
        | Event::Export { .. } => true,
        Event::Bind { back_end, .. } => match back_end {
            BackEnd::Local(_) | BackEnd::Ump(_) => true,
            BackEnd::Hop(_) => false,
        },
        Event::SetCores(_) => false,
        Event::Call(_, _)
        | Event::Show(_)
        | Event::Write(_)
        | Event::Turn(_)
        | Event::Ack(_)
        | Event::Register(_)
        | Event::Deregister(_)
        | Event::Reply { .. }
        | Event::MonitorWrite { .. }
        | Event::Forward { .. }
        | Event::MonitorAck { .. } => false,
    }
}

fn is_other(event: &Event<'_>) -> bool
    ensures other { result ≡ asks_other event.now }
{
    !sets_up(event)
}

fn place_of_other(events: &[Event<'_>]) -> Option<usize>
    ensures place { result ≡ position asks_other events.now }
{
    events.iter().position(is_other)
}

// The place of the first event that doesn't belong to a set-up.
#[tactic(auto, using(crate::proofs::Booted::first_is))]
fn first_other(events: &[Event<'_>]) -> Option<usize>
    ensures first { result ≡ position is_other (map event_of events.now) }
{
    place_of_other(events)
}

// What a set-up makes, taken apart.
#[tactic(auto, using(crate::proofs::Booted::all_making, crate::proofs::Booted::accepted, crate::proofs::Booted::cores_are))]
fn boot(alloc: Global, config: &Config<'_>) -> Result<Parts, BootFault>
    requires making { position is_other (config_of config.now).setup ≡ None }
    ensures made { IfOk result (λ p. Made (config_of config.now) p) }
    ensures accepted { IfOk result (λ _. IsAccepted (config_of config.now)) }
    ensures cores { IfOk result (λ p. length p.cores.items ≡ cores_by (config_of config.now)) }
    ensures few { IfOk result (λ p. length p.cores.items ≤ 16) }
    ensures refused { IfErr result (λ fault. IsFaultOf (config_of config.now) fault) }
{
    match World::boot(alloc, config) {
        Ok(world) => Ok(world.into_parts()),
        Err(fault) => Err(fault),
    }
}

// The run of what a set-up made, with these jobs.
#[tactic(auto, using(crate::proofs::Booted::later_fault))]
fn run_made<R: Threads + Wait + Sync, G: Gate + Sync>(
    rt: &R,
    alloc: Global,
    parts: Parts,
    jobs: Vec<Job<'_>>,
    limit: u64,
    gate: &G,
    recording: &mut Recording,
) -> Result<Report, CoresFault>
    requires few { length parts.cores.items ≤ 16 }
    ensures ran { IfOk result (λ r. RanFrom parts (map job_of jobs.entry.items) limit (report_of r)) }
    ensures keeps { IfOk result (λ r. Keeps (length parts.cores.items) limit (report_of r)) }
    ensures later { IfErr result (λ fault. IsLater parts (map job_of jobs.entry.items) fault) }
{
    match run_parts(rt, alloc, parts, jobs, limit, gate, recording) {
        Ok(report) => Ok(report),
        Err(fault) => Err(CoresFault::from(fault)),
    }
}

// Why there is no run of a set-up whose event at this place, from 0, is the first that belongs to none: an event before it is refused, or it is.
#[tactic(auto, using(crate::proofs::Booted::other_events))]
fn refuse_other(alloc: Global, config: &Config<'_>, place: usize) -> CoresFault
    requires first { position is_other (config_of config.now).setup ≡ Some place }
    ensures refused { (jobs : List TheJob) → IsFault (config_of config.now) jobs result }
    ensures no_thread { WantsNoThread result }
{
    let (before, _) = config.setup.as_slice().split_at(place);
    match World::rehearse(alloc, config.cores, before) {
        Ok(()) => CoresFault::Setup {
            number: faults::NOT_NOW,
            place: place + 1,
        },
        Err(fault) => CoresFault::from(fault),
    }
}

// Runs cores on threads of their own, each with its jobs, until each has finished or counted so many turns; the fault is the first event of the set-up
// that is refused, else the first job, else memory or a thread. What the cores' sides note is kept, where the recording is on.
#[tactic(auto, using(crate::proofs::Booted::not_booted, crate::proofs::Booted::late_fault))]
pub(crate) fn run_recorded<R: Threads + Wait + Sync, G: Gate + Sync>(
    rt: &R,
    alloc: Global,
    config: &Config<'_>,
    jobs: Vec<Job<'_>>,
    limit: u64,
    gate: &G,
    recording: &mut Recording,
) -> Result<Report, CoresFault>
    ensures reports { IfOk result (λ r. Reports (config_of config.now) (map job_of jobs.entry.items) limit (report_of r)) }
    ensures refused { IfErr result (λ fault. IsFault (config_of config.now) (map job_of jobs.entry.items) fault) }
{
    law_files_join();
    if let Some(place) = first_other(&config.setup) {
        return Err(refuse_other(alloc, config, place));
    }
    let parts = boot(alloc, config)?;
    run_made(rt, alloc, parts, jobs, limit, gate, recording)
}

// The same, where nothing is noted.
pub(crate) fn run_jobs<R: Threads + Wait + Sync, G: Gate + Sync>(
    rt: &R,
    alloc: Global,
    config: &Config<'_>,
    jobs: Vec<Job<'_>>,
    limit: u64,
    gate: &G,
) -> Result<Report, CoresFault>
    ensures reports { IfOk result (λ r. Reports (config_of config.now) (map job_of jobs.entry.items) limit (report_of r)) }
    ensures refused { IfErr result (λ fault. IsFault (config_of config.now) (map job_of jobs.entry.items) fault) }
{
    let mut recording = Recording::new(false);
    run_recorded(rt, alloc, config, jobs, limit, gate, &mut recording)
}

// What the cores of a run begin with, as its threads would have them; the fault is that of the run but for threads.
#[tactic(auto, using(crate::proofs::Booted::not_booted, crate::proofs::Booted::late_fault, crate::proofs::Booted::boot_wants_none))]
pub(crate) fn wire_cores(
    alloc: Global,
    config: &Config<'_>,
    jobs: Vec<Job<'_>>,
) -> Result<WiredCores, CoresFault>
    ensures wires { IfOk result (λ w. Wires (config_of config.now) (map job_of jobs.entry.items) w) }
    ensures refused { IfErr result (λ fault. IsFault (config_of config.now) (map job_of jobs.entry.items) fault) }
    ensures no_thread { IfErr result (λ fault. WantsNoThread fault) }
{
    law_files_join();
    if let Some(place) = first_other(&config.setup) {
        return Err(refuse_other(alloc, config, place));
    }
    let parts = boot(alloc, config)?;
    wire_made(alloc, parts, jobs)
}

// The same of what a set-up made.
#[tactic(auto, using(crate::proofs::Booted::joined_fault, crate::proofs::Booted::joining_wants_none))]
fn wire_made(alloc: Global, parts: Parts, jobs: Vec<Job<'_>>) -> Result<WiredCores, CoresFault>
    requires few { length parts.cores.items ≤ 16 }
    ensures wired { IfOk result (λ w. WiredFrom parts (map job_of jobs.entry.items) w) }
    ensures later { IfErr result (λ fault. IsLater parts (map job_of jobs.entry.items) fault) }
    ensures no_thread { IfErr result (λ fault. WantsNoThread fault) }
{
    match wire_parts(alloc, parts, jobs) {
        Ok(wired) => Ok(wired),
        Err(refusal) => Err(CoresFault::from(refusal)),
    }
}
