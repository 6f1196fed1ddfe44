//! A whole run of the program: words and what it reads in, standard output, standard error and a status out.

ghost use Rattle.std.specs.Prelude.{map};
ghost use Rattle.flounder_args.specs.Words.{asked_by};
ghost use Rattle.flounder_commands.specs.FileEffects.{Does};
ghost use Rattle.flounder_commands.specs.Streams.{streams_of};
ghost use Rattle.flounder_run.specs.Commands.{Performs, Runs};

use crate::chart::chart_file;
use crate::cores::cores_command;
use fl_core_run::Gate;
use fl_world::World;
use flounder_args::{Request, hint, read_words};
use flounder_commands::{
    FileStore, FindsRefusals, Watch, compile_file, finish, header_file, run_script, show_file,
    tell_usage,
};
use std::alloc::Global;
use std::convert::AsStr;
use std::io::{BufWriter, Read, Write};
use std::sync::Wait;
use std::thread::Threads;

/// Does what the words ask for, and answers the status. All that is printed has reached the writer behind `output`
/// where the status is 0.
///
/// Faults are found in the order usage, reading the file, its content, writing; out of memory where it happens.
/// Only the first is told, on `errors`. `gate` is called before each turn of cores that run.
pub fn run<
    T: Threads + Wait + Sync,
    G: Gate + Sync,
    S: AsStr,
    F: FileStore,
    R: Read + Watch,
    W: FindsRefusals + Watch + Drop,
    E: Write,
>(
    rt: &T,
    gate: &G,
    alloc: Global,
    words: &[S],
    files: &mut F,
    input: &mut R,
    output: &mut BufWriter<W>,
    errors: &mut E,
) -> u8
    ensures runs { Does (F.effects files.old) (F.effects files.new)
        (Runs (map S.text words.entry.now) (streams_of R.remaining W.contents input.old input.new output.old output.new) result) }
{
    match read_words(alloc, words) {
        Ok(request) => perform(rt, gate, alloc, request, files, input, output, errors),
        Err(error) => finish(tell_usage(alloc, error, hint(words), output), errors),
    }
}

/// Does what was asked for, and answers the status.
fn perform<
    T: Threads + Wait + Sync,
    G: Gate + Sync,
    F: FileStore,
    R: Read + Watch,
    W: FindsRefusals + Watch + Drop,
    E: Write,
>(
    rt: &T,
    gate: &G,
    alloc: Global,
    request: Request<'_>,
    files: &mut F,
    input: &mut R,
    output: &mut BufWriter<W>,
    errors: &mut E,
) -> u8
    ensures done { Does (F.effects files.old) (F.effects files.new)
        (Performs (asked_by request.entry) (streams_of R.remaining W.contents input.old input.new output.old output.new) result) }
{
    match request {
        Request::Exec { explain, strict } => {
            run_script::<World, _, _, _>(alloc, explain, strict, input, output, errors)
        }
        Request::Show { file, names } => show_file(alloc, file, names, files, output, errors),
        Request::Compile { file, out } => compile_file(alloc, file, out, files, errors),
        Request::Cores {
            file,
            turns,
            script,
        } => cores_command(rt, gate, alloc, file, turns, script, files, output, errors),
        Request::Chart { file, lines } => chart_file(alloc, file, lines, files, output, errors),
        Request::Header { file } => header_file(alloc, file, files, output, errors),
    }
}
