//! A cores file run.

ghost use Rattle.std.specs.Prelude.{◌≡◌, ◌≤◌, IfOk, IfErr, OnErr};
ghost use Rattle.fl_cores_file.specs.Files.{file_from};
ghost use Rattle.fl_cores.specs.Promised.{config_in, Appends, AppendsReport, IsFault, IsFaultOfText};

use crate::fault::CoresFault;
use crate::run::run_recorded;
use fl_core_run::Gate;
use fl_cores_file::{CoresFile, CoresText, Ending, print_refusal, print_report, read_cores_text};
use fl_cores_file_laws::{law_files_join, law_set_ups_are_the_machines};
use fl_cores_parts::Recording;
use fl_world::Config;
use std::alloc::Global;
use std::sync::Wait;
use std::thread::Threads;

/// What a cores file came to.
#[derive(Clone, Copy, Debug, PartialEq, Eq)]
pub enum CoresEnd {
    /// All cores finished.
    Complete,
    /// A core had not when its turns were used up.
    TurnsOut,
    /// A line was refused.
    Refused,
}

// A cores file that was read is run, and its report is told.
fn run_file<R: Threads + Wait + Sync, G: Gate + Sync>(
    rt: &R,
    alloc: Global,
    file: CoresFile<'_>,
    limit: u64,
    gate: &G,
    out: &mut Vec<u8>,
    recording: &mut Recording,
) -> Result<CoresEnd, CoresFault>
    requires few { file.cores ≤ 16 }
    ensures told { IfOk result (λ end. AppendsReport (file_from file.entry) limit end out.old.items out.new.items) }
    ensures kept { OnErr result (out.new.items ≡ out.old.items) }
    ensures fault { IfErr result (λ fault. IsFault (config_in (file_from file.entry)) (file_from file.entry).jobs fault) }
{
    let CoresFile {
        cores,
        setup,
        jobs,
        names,
        numbers,
    } = file;
    let config = Config {
        // (a file has at most 16)
        cores: cores as u8,
        setup,
    };
    let report = run_recorded(rt, alloc, &config, jobs, limit, gate, recording)?;
    let file = CoresFile {
        cores,
        setup: config.setup,
        jobs: Vec::new(alloc),
        names,
        numbers,
    };
    print_report(alloc, out, &file, &report)?;
    match report.ending {
        Ending::Complete => Ok(CoresEnd::Complete),
        Ending::TurnsOut => Ok(CoresEnd::TurnsOut),
    }
}

// Runs a cores file and appends what is told of that: its report, or the line that is refused.
pub(crate) fn run_text<R: Threads + Wait + Sync, G: Gate + Sync>(
    rt: &R,
    alloc: Global,
    text: &[u8],
    limit: u64,
    gate: &G,
    out: &mut Vec<u8>,
    recording: &mut Recording,
) -> Result<CoresEnd, CoresFault>
    ensures told { IfOk result (λ end. Appends text.now limit end out.old.items out.new.items) }
    ensures kept { OnErr result (out.new.items ≡ out.old.items) }
    ensures fault { IfErr result (λ fault. IsFaultOfText text.now fault) }
{
    law_set_ups_are_the_machines();
    law_files_join();
    match read_cores_text(alloc, text)? {
        CoresText::File(file) => run_file(rt, alloc, file, limit, gate, out, recording),
        CoresText::Refused { line, number } => {
            print_refusal(alloc, out, line, number)?;
            Ok(CoresEnd::Refused)
        }
    }
}
