//! The commands `exec`, `show` and `compile`.

ghost use Rattle.std.specs.Prelude.{◌≡◌, ◌∷◌, [], true, OnOk, IfErr};
ghost use Rattle.fl_script_exec.specs.Reading.{status_of as exec_status};
ghost use Rattle.flounder_commands.specs.Status.{status_of};
ghost use Rattle.flounder_commands.specs.FileEffects.{Adds, Does, was_read, was_written};
ghost use Rattle.flounder_commands.specs.Streams.{output_of, streams_of};
ghost use Rattle.flounder_commands.specs.Commands.{Compiles, Views, Execs, EndsRun};
ghost use Rattle.flounder_commands.specs.Parts.{EndsSo, IsUnmade, TellsTable};

use crate::explain::explain_script;
use crate::fault::{Fault, Reason, fault_of_content, fault_of_reading, fault_of_writing, finish};
use crate::files::{FileKind, FileStore};
use crate::output::print;
use crate::watched::{FindsRefusals, Watch};
use fl_model::Machine;
use fl_script_exec::{ExecFault, exec};
use flounder_show::{compile_text, name_arguments, show_content};
use std::alloc::Global;
use std::io;
use std::io::{BufWriter, Read, Write};

// From here on what is read and written is kept, if it is to be told. Who types a script is told how it ends.
fn start<R: Watch, W: Watch, E: Write>(explain: bool, input: &R, output: &W, errors: &mut E) {
    if explain {
        input.keep();
        output.keep();
    }
    if input.is_typed() {
        let _told = write!(
            errors,
            "a script is read from the terminal; Ctrl-D ends it\n"
        );
    }
}

// Tells the refused lines, if they are to be told.
fn tell_refused<R: Watch, W: Watch, E: Write>(
    alloc: Global,
    explain: bool,
    input: &R,
    output: &W,
    errors: &mut E,
) {
    if !explain {
        return;
    }
    match (input.kept(), output.kept()) {
        (Some(script), Some(transcript)) => explain_script(alloc, script, transcript, errors),
        _ => {
            let _told = write!(errors, "refused lines can't be told: out of memory\n");
        }
    }
}

// The status of a script that was run to its end.
fn end_status<W: FindsRefusals>(strict: bool, output: &W) -> u8
    ensures ends { EndsRun strict (W.contents output.now) result }
{
    let is_refused = output.has_refusal();
    if strict && is_refused { 2 } else { 0 }
}

// Why a script was cut short.
fn cut_short<'a, R: Watch, W: Watch>(fault: ExecFault, input: &R, output: &W) -> Fault<'a>
    ensures fault { status_of result ≡ exec_status fault }
{
    let reason = match fault {
        ExecFault::Memory => None,
        ExecFault::Read => input.failure(),
        ExecFault::Write => output.failure(),
    };
    Fault::Exec {
        fault,
        reason: Reason(reason),
    }
}

/// `exec`: runs the script on `input` on a new machine, and prints its transcript. What a script that was cut short left in
/// the buffer is written out, too. `explain` tells its refused lines on `errors`; `strict` gives them a status.
pub fn run_script<M: Machine + Drop, R: Read + Watch, W: FindsRefusals + Watch + Drop, E: Write>(
    alloc: Global,
    explain: bool,
    strict: bool,
    input: &mut R,
    output: &mut BufWriter<W>,
    errors: &mut E,
) -> u8
    ensures ran { Execs M.shows strict (streams_of R.remaining W.contents input.old input.new output.old output.new) result }
{
    start(explain, input, output.get_ref(), errors);
    let outcome = exec::<M, _, _>(alloc, input, output);
    let flushed = output.flush();
    tell_refused(alloc, explain, input, output.get_ref(), errors);
    match outcome {
        Err(fault) => finish(Err(cut_short(fault, input, output.get_ref())), errors),
        Ok(()) => match flushed {
            Ok(()) => end_status(strict, output.get_ref()),
            Err(error) => finish(Err(unflushed(error)), errors),
        },
    }
}

// What was put couldn't be written out.
fn unflushed<'a>(error: io::Error) -> Fault<'a>
    ensures status { status_of result ≡ 4 }
{
    Fault::Exec {
        fault: ExecFault::Write,
        reason: Reason(Some(error)),
    }
}

/// `show FILE`: prints the plan table of a file's content, with `names` its arguments' names too.
pub fn show_file<F: FileStore, W: Write + Drop, E: Write>(
    alloc: Global,
    file: &str,
    names: bool,
    files: &mut F,
    output: &mut BufWriter<W>,
    errors: &mut E,
) -> u8
    ensures shown { Does (F.effects files.old) (F.effects files.new) (Views file.now names (output_of W.contents output.old output.new) result) }
{
    match files.read(alloc, file, FileKind::TextOrImage) {
        Ok(content) => finish(show_read(alloc, file, names, &content, output), errors),
        Err(error) => finish(Err(fault_of_reading(file, error)), errors),
    }
}

// Prints the plan table of a file that was read.
fn show_read<'a, W: Write + Drop>(
    alloc: Global,
    file: &'a str,
    names: bool,
    content: &'a [u8],
    output: &mut BufWriter<W>,
) -> Result<(), Fault<'a>>
    ensures shown { EndsSo result (λ status. Views file.now names (output_of W.contents output.old output.new) status (was_read file.now content.now ∷ [])) }
{
    match show_content(alloc, content) {
        Ok(table) => print_table(alloc, names, content, &table, output),
        Err(fault) => Err(fault_of_content(alloc, file, content, fault)),
    }
}

// Prints a table with its arguments' names.
fn print_named<'a, W: Write + Drop>(
    alloc: Global,
    content: &[u8],
    table: &[u8],
    output: &mut BufWriter<W>,
) -> Result<(), Fault<'a>>
    ensures told { EndsSo result (TellsTable true table.now (output_of W.contents output.old output.new)) }
{
    let Ok(named) = name_arguments(alloc, content, table) else {
        return Err(Fault::Memory);
    };
    print(&named, output)
}

// Prints a table, with its arguments' names if they are asked for.
fn print_table<'a, W: Write + Drop>(
    alloc: Global,
    names: bool,
    content: &[u8],
    table: &[u8],
    output: &mut BufWriter<W>,
) -> Result<(), Fault<'a>>
    ensures told { EndsSo result (TellsTable names table.now (output_of W.contents output.old output.new)) }
{
    if names {
        print_named(alloc, content, table, output)
    } else {
        print(table, output)
    }
}

/// `compile FILE OUT`: writes the image of the interface that a file's text stands for. The other file is touched
/// only where the text is accepted.
pub fn compile_file<F: FileStore, E: Write>(
    alloc: Global,
    file: &str,
    out: &str,
    files: &mut F,
    errors: &mut E,
) -> u8
    ensures compiled { Does (F.effects files.old) (F.effects files.new) (Compiles file.now out.now result) }
{
    match files.read(alloc, file, FileKind::Text) {
        Ok(content) => finish(compile_read(alloc, file, &content, out, files), errors),
        Err(error) => finish(Err(fault_of_reading(file, error)), errors),
    }
}

// Writes the image of a file that was read.
fn compile_read<'a, F: FileStore>(
    alloc: Global,
    file: &'a str,
    content: &'a [u8],
    out: &'a str,
    files: &mut F,
) -> Result<(), Fault<'a>>
    ensures compiled { EndsSo result (λ status. Does (F.effects files.old) (F.effects files.new)
        (λ effects. Compiles file.now out.now status (was_read file.now content.now ∷ effects))) }
{
    match compile_text(alloc, content) {
        Ok(image) => write_image(out, &image, files),
        Err(fault) => Err(fault_of_content(alloc, file, content, fault)),
    }
}

fn write_image<'a, F: FileStore>(out: &'a str, image: &[u8], files: &mut F) -> Result<(), Fault<'a>>
    ensures written { OnOk result (Adds (F.effects files.old) (F.effects files.new) (was_written out.now image.now)) }
    ensures failed { IfErr result (λ fault. IsUnmade out.now (F.effects files.old) (F.effects files.new) (status_of fault)) }
{
    match files.write(out, image) {
        Ok(()) => Ok(()),
        Err(error) => Err(fault_of_writing(out, error)),
    }
}
