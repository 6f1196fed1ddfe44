//! The command `cores`.

ghost use Rattle.std.specs.Prelude.{◌≡◌, ◌⊎◌, ◌∷◌, [], MatchResult, OnOk, IfErr, option_map};
ghost use Rattle.flounder_commands.specs.FileEffects.{Does, was_read};
ghost use Rattle.flounder_commands.specs.Parts.{EndsSo};
ghost use Rattle.flounder_commands.specs.Status.{status_of};
ghost use Rattle.flounder_commands.specs.Streams.{output_of};
ghost use Rattle.flounder_run.specs.Commands.{DoesCores, RunsCores, TellsCores, RecordsCores, KeepsScript, WritesScript};
ghost use Rattle.flounder_run.specs.Commands.{cores_status, end_status, unprinted_status};

use fl_core_run::Gate;
use fl_cores::{CoresEnd, CoresFault, Recording, run_cores_text, run_cores_text_recorded};
use fl_cores_replay::{NoScript, script_of};
use flounder_commands::{
    Fault, FileKind, FileName, FileStore, explain_line, fault_of_reading, fault_of_writing, finish,
    print, tell_unfinished,
};
use std::alloc::{AllocError, Global};
use std::io::{BufWriter, Write};
use std::sync::Wait;
use std::thread::{Threads, yield_now};

/// `cores FILE --turns N`, and with `--script OUT` where a file for a script is named.
pub(crate) fn cores_command<
    T: Threads + Wait + Sync,
    G: Gate + Sync,
    F: FileStore,
    W: Write + Drop,
    E: Write,
>(
    rt: &T,
    gate: &G,
    alloc: Global,
    file: &str,
    turns: u64,
    script: Option<&str>,
    files: &mut F,
    output: &mut BufWriter<W>,
    errors: &mut E,
) -> u8
    ensures ran { Does (F.effects files.old) (F.effects files.new)
        (DoesCores file.now turns (option_map (λ out. out.now) script.entry) (output_of W.contents output.old output.new) result) }
{
    match script {
        None => cores_file(rt, gate, alloc, file, turns, files, output, errors),
        Some(out) => recorded_file(rt, gate, alloc, file, turns, out, files, output, errors),
    }
}

// Bytes that are asked for once and given back.
const LARGEST: usize = 16_777_216;

// Asks for a large block and gives it back untouched. From then on an allocator that hands blocks back to the system by their size,
// as that of glibc, keeps those that are smaller: what one step of a run gives back serves the next, and no page of it is met anew.
fn keep_memory(alloc: Global) {
    let _room: Result<Vec<u8>, AllocError> = Vec::with_capacity(alloc, LARGEST);
}

// `cores FILE --turns N`: runs a cores file on threads, and prints what is told of that: the report, or the line
// that is refused. `gate` is called before each turn.
fn cores_file<T: Threads + Wait + Sync, G: Gate + Sync, F: FileStore, W: Write + Drop, E: Write>(
    rt: &T,
    gate: &G,
    alloc: Global,
    file: &str,
    turns: u64,
    files: &mut F,
    output: &mut BufWriter<W>,
    errors: &mut E,
) -> u8
    ensures ran { Does (F.effects files.old) (F.effects files.new)
        (RunsCores file.now turns (output_of W.contents output.old output.new) result) }
{
    keep_memory(alloc);
    match files.read(alloc, file, FileKind::Cores) {
        Ok(content) => cores_read(rt, gate, alloc, file, &content, turns, output, errors),
        Err(error) => finish(Err(fault_of_reading(file, error)), errors),
    }
}

// Runs a cores file that was read, and prints what is told of that.
fn cores_read<T: Threads + Wait + Sync, G: Gate + Sync, W: Write + Drop, E: Write>(
    rt: &T,
    gate: &G,
    alloc: Global,
    file: &str,
    content: &[u8],
    turns: u64,
    output: &mut BufWriter<W>,
    errors: &mut E,
) -> u8
    ensures ran { RunsCores file.now turns (output_of W.contents output.old output.new) result (was_read file.now content.now ∷ []) }
{
    let mut told = Vec::new(alloc);
    match run_cores_text(rt, alloc, content, turns, gate, &mut told) {
        Ok(end) => {
            let outcome = print_told(file, turns, end, &told, output);
            finish_told(alloc, outcome, file, content, end, &told, errors)
        }
        Err(fault) => tell_no_report(fault, errors),
    }
}

// `cores FILE --turns N --script OUT`: the same, and the run is recorded. Where its report was printed, a script that does what
// the cores did is written to OUT, if one is found; else standard error says why not, and the status stays.
fn recorded_file<T: Threads + Wait + Sync, G: Gate + Sync, F: FileStore, W: Write + Drop, E: Write>(
    rt: &T,
    gate: &G,
    alloc: Global,
    file: &str,
    turns: u64,
    out: &str,
    files: &mut F,
    output: &mut BufWriter<W>,
    errors: &mut E,
) -> u8
    ensures ran { Does (F.effects files.old) (F.effects files.new)
        (RecordsCores file.now turns out.now (output_of W.contents output.old output.new) result) }
{
    match files.read(alloc, file, FileKind::Cores) {
        Ok(content) => recorded_read(
            rt, gate, alloc, file, &content, turns, out, files, output, errors,
        ),
        Err(error) => finish(Err(fault_of_reading(file, error)), errors),
    }
}

// Runs and records a cores file that was read, prints what is told of that, and writes a script of the run.
fn recorded_read<T: Threads + Wait + Sync, G: Gate + Sync, F: FileStore, W: Write + Drop, E: Write>(
    rt: &T,
    gate: &G,
    alloc: Global,
    file: &str,
    content: &[u8],
    turns: u64,
    out: &str,
    files: &mut F,
    output: &mut BufWriter<W>,
    errors: &mut E,
) -> u8
    ensures ran { Does (F.effects files.old) (F.effects files.new)
        (λ effects. RecordsCores file.now turns out.now (output_of W.contents output.old output.new) result (was_read file.now content.now ∷ effects)) }
{
    let mut told = Vec::new(alloc);
    let mut recording = Recording::new(true);
    match run_cores_text_recorded(rt, alloc, content, turns, gate, &mut told, &mut recording) {
        Ok(end) => {
            let outcome = print_told(file, turns, end, &told, output);
            let status = finish_told(alloc, outcome, file, content, end, &told, errors);
            if status == 0 || status == 5 {
                keep_script(
                    alloc, content, out, &recording, &told, status, files, errors,
                )
            } else {
                status
            }
        }
        Err(fault) => tell_no_report(fault, errors),
    }
}

// Writes a script of a run with this report, if one is found, and answers the run's status; another where memory is wanting or the
// file can't be written.
fn keep_script<F: FileStore, E: Write>(
    alloc: Global,
    content: &[u8],
    out: &str,
    recording: &Recording,
    told: &[u8],
    status: u8,
    files: &mut F,
    errors: &mut E,
) -> u8
    ensures kept { Does (F.effects files.old) (F.effects files.new) (KeepsScript out.now content.now told.now status result) }
{
    match script_of(alloc, content, recording, told) {
        Ok(script) => write_script(out, &script, status, files, errors),
        Err(reason) => no_script(out, reason, status, errors),
    }
}

// Tells why there is no script, and answers the run's status; another where memory is wanting.
fn no_script<E: Write>(out: &str, reason: NoScript, status: u8, errors: &mut E) -> u8
    ensures status { (result ≡ status) ⊎ (result ≡ 3) }
{
    match reason {
        NoScript::Memory => finish(Err(Fault::Memory), errors),
        _ => {
            tell_no_script(out, reason, errors);
            status
        }
    }
}

fn tell_no_script<E: Write>(out: &str, reason: NoScript, errors: &mut E) {
    let out = FileName(out);
    let _told = write!(
        errors,
        "no script of this run is written to {out}: {reason}\n"
    );
}

// Writes a script, and answers the run's status, or that of the write where it fails.
fn write_script<F: FileStore, E: Write>(
    out: &str,
    script: &[u8],
    status: u8,
    files: &mut F,
    errors: &mut E,
) -> u8
    ensures wrote { Does (F.effects files.old) (F.effects files.new) (WritesScript out.now script.now status result) }
{
    match files.write(out, script) {
        Ok(()) => status,
        Err(error) => finish(Err(fault_of_writing(out, error)), errors),
    }
}

// Tells of a fault, and answers the status; then tells in words which line is refused, or what was left undone.
fn finish_told<E: Write>(
    alloc: Global,
    outcome: Result<(), Fault<'_>>,
    file: &str,
    content: &[u8],
    end: CoresEnd,
    told: &[u8],
    errors: &mut E,
) -> u8
    ensures done { OnOk outcome.entry (result ≡ 0) }
    ensures fault { IfErr outcome.entry (λ f. result ≡ status_of f) }
{
    let status = finish(outcome, errors);
    tell_more(alloc, status, file, content, end, told, errors);
    status
}

// Tells in words which line is refused; or, where standard output took the report, what was left undone.
fn tell_more<E: Write>(
    alloc: Global,
    status: u8,
    file: &str,
    content: &[u8],
    end: CoresEnd,
    told: &[u8],
    errors: &mut E,
) {
    match end {
        CoresEnd::Refused => explain_line(alloc, file, content, told, errors),
        CoresEnd::TurnsOut if status == 5 => tell_unfinished(alloc, content, told, errors),
        _ => {}
    }
}

// Prints what is told of cores, and answers what is wrong where they didn't all finish, or where standard output took a part alone.
// Its reader goes first then: woken by the last write it may wait for this thread's processor, and a script takes long.
fn print_told<'a, W: Write + Drop>(
    file: &'a str,
    turns: u64,
    end: CoresEnd,
    told: &[u8],
    output: &mut BufWriter<W>,
) -> Result<(), Fault<'a>>
    ensures told { EndsSo result (λ status. TellsCores end told.now (output_of W.contents output.old output.new) status) }
{
    match print(told, output) {
        Ok(()) => {
            yield_now();
            outcome_of(file, turns, end)
        }
        Err(fault) => Err(fault_unprinted(file, end, fault)),
    }
}

// What is wrong where standard output took only a part of what is told of cores: a refused line, since that was found first, else the
// write that failed.
fn fault_unprinted<'a>(file: &'a str, end: CoresEnd, failed: Fault<'a>) -> Fault<'a>
    requires failed { status_of failed ≡ 4 }
    ensures status { status_of result ≡ unprinted_status end }
{
    match end {
        CoresEnd::Refused => Fault::Line {
            file: FileName(file),
        },
        CoresEnd::Complete | CoresEnd::TurnsOut => failed,
    }
}

/// What is wrong where the cores of a file didn't all finish.
pub fn outcome_of(file: &str, turns: u64, end: CoresEnd) -> Result<(), Fault<'_>>
    ensures status { MatchResult result (λ _. end_status end ≡ 0) (λ fault. status_of fault ≡ end_status end) }
{
    match end {
        CoresEnd::Complete => Ok(()),
        CoresEnd::Refused => Err(Fault::Line {
            file: FileName(file),
        }),
        CoresEnd::TurnsOut => Err(Fault::TurnsOut { turns }),
    }
}

/// Tells why a run of cores came to no report, and answers the status.
pub fn tell_no_report<E: Write>(fault: CoresFault, errors: &mut E) -> u8
    ensures status { result ≡ cores_status fault }
{
    let _told = write!(errors, "{fault}\n");
    match fault {
        CoresFault::Setup { .. } => 2,
        CoresFault::Job { .. } => 2,
        CoresFault::Memory => 3,
        CoresFault::Thread => 3,
    }
}
