//! Runs of cores, and of cores files, whose reports are honest.

ghost use Rattle.std.specs.Prelude.{◌≡◌, map, IfOk, IfErr, OnErr};
ghost use Rattle.fl_cores_file.specs.Reports.{report_of};
ghost use Rattle.fl_cores_file.specs.Views.{job_of};
ghost use Rattle.fl_world.specs.Booting.{config_of};
ghost use Rattle.fl_cores.specs.Promised.{IsFault, IsFaultOfText};
ghost use Rattle.fl_cores.specs.Honesty.{ReportsHonestly, Appends};

use crate::fault::CoresFault;
use crate::law_following::law_runs_follow;
use crate::law_reports::{law_runs_end_as_told, law_runs_of_one_core, law_runs_report_honestly};
use crate::run::run_jobs;
use crate::text::{CoresEnd, run_text};
use fl_core_run::Gate;
use fl_cores_file::{Job, Report};
use fl_cores_parts::Recording;
use fl_world::Config;
use std::alloc::Global;
use std::sync::Wait;
use std::thread::Threads;

/// Runs cores on threads of their own, each with its jobs, until each has finished or counted so many turns,
/// and reports honestly what each end made and handled, and how the run ended. In its turns each core goes on
/// as the machine does, event by event, on what it knows of the machine's state. With one core the report is
/// a function of the configuration, the jobs and the limit.
///
/// # Errors
/// [`CoresFault`]: a number of cores outside 1 to 16 (94, at place 0); else the first event of the set-up that
/// is refused, by the world or since no set-up has it (93: one that makes nothing at once, as a call or a
/// circuit, or that sets the number of cores, which the configuration has); else the first job that is
/// refused; or out of memory, or of threads. Every thread was joined then.
pub fn run_cores<R: Threads + Wait + Sync, G: Gate + Sync>(
    rt: &R,
    alloc: Global,
    config: &Config<'_>,
    jobs: Vec<Job<'_>>,
    limit: u64,
    gate: &G,
) -> Result<Report, CoresFault>
    ensures reports { IfOk result (λ r. ReportsHonestly (config_of config.now) (map job_of jobs.entry.items) limit (report_of r)) }
    ensures refused { IfErr result (λ fault. IsFault (config_of config.now) (map job_of jobs.entry.items) fault) }
{
    law_runs_report_honestly();
    law_runs_end_as_told();
    law_runs_follow();
    law_runs_of_one_core();
    run_jobs(rt, alloc, config, jobs, limit, gate)
}

/// Runs a cores file, and appends what is told of that: an honest report, or the line that is refused.
///
/// # Errors
/// Out of memory, whatever the text is; else the text is a cores file, and a thread of its run doesn't start. Nothing is
/// appended then.
pub fn run_cores_text<R: Threads + Wait + Sync, G: Gate + Sync>(
    rt: &R,
    alloc: Global,
    text: &[u8],
    limit: u64,
    gate: &G,
    out: &mut Vec<u8>,
) -> Result<CoresEnd, CoresFault>
    ensures told { IfOk result (λ end. Appends text.now limit end out.old.items out.new.items) }
    ensures kept { OnErr result (out.new.items ≡ out.old.items) }
    ensures fault { IfErr result (λ fault. IsFaultOfText text.now fault) }
{
    let mut recording = Recording::new(false);
    run_cores_text_recorded(rt, alloc, text, limit, gate, out, &mut recording)
}

/// Runs a cores file, and appends what is told of that, as [`run_cores_text`]. What its cores' sides note is kept, where the
/// recording is on.
///
/// # Errors
/// As of that.
pub fn run_cores_text_recorded<R: Threads + Wait + Sync, G: Gate + Sync>(
    rt: &R,
    alloc: Global,
    text: &[u8],
    limit: u64,
    gate: &G,
    out: &mut Vec<u8>,
    recording: &mut Recording,
) -> Result<CoresEnd, CoresFault>
    ensures told { IfOk result (λ end. Appends text.now limit end out.old.items out.new.items) }
    ensures kept { OnErr result (out.new.items ≡ out.old.items) }
    ensures fault { IfErr result (λ fault. IsFaultOfText text.now fault) }
{
    law_runs_report_honestly();
    law_runs_end_as_told();
    law_runs_follow();
    law_runs_of_one_core();
    run_text(rt, alloc, text, limit, gate, out, recording)
}
