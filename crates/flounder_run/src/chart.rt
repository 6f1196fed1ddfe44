//! The command `chart`.

ghost use Rattle.std.specs.Prelude.{◌≡◌, ◌∷◌, [], Some, option_map};
ghost use Rattle.flounder_chart.specs.Faults.{status_of as chart_status};
ghost use Rattle.flounder_chart.specs.Lines.{count_of};
ghost use Rattle.flounder_commands.specs.FileEffects.{Does, was_read};
ghost use Rattle.flounder_commands.specs.Streams.{output_of};
ghost use Rattle.flounder_run.specs.Charts.{Charts, Draws};

use fl_world::World;
use flounder_chart::{ChartFault, Lines, chart_script};
use flounder_commands::{FileKind, FileName, FileStore, fault_of_reading, finish, print};
use std::alloc::Global;
use std::io::{BufWriter, Write};

/// `chart FILE`: prints a drawing of the run of a file's script, of all of its lines or of those that a word
/// such as `40-60` tells.
pub(crate) fn chart_file<F: FileStore, W: Write + Drop, E: Write>(
    alloc: Global,
    file: &str,
    lines: Option<&str>,
    files: &mut F,
    output: &mut BufWriter<W>,
    errors: &mut E,
) -> u8
    ensures charted { Does (F.effects files.old) (F.effects files.new)
        (Charts file.now (option_map (λ word. word.now) lines.entry)
        (output_of W.contents output.old output.new) result) }
{
    match lines {
        None => chart_lines(alloc, file, None, files, output, errors),
        Some(word) => chart_told(alloc, file, word, files, output, errors),
    }
}

// The same of the lines that a word tells.
fn chart_told<F: FileStore, W: Write + Drop, E: Write>(
    alloc: Global,
    file: &str,
    word: &str,
    files: &mut F,
    output: &mut BufWriter<W>,
    errors: &mut E,
) -> u8
    ensures charted { Does (F.effects files.old) (F.effects files.new)
        (Charts file.now (Some word.now) (output_of W.contents output.old output.new) result) }
{
    match Lines::read(word) {
        None => tell_no_lines(errors),
        Some(lines) => chart_lines(alloc, file, Some(lines), files, output, errors),
    }
}

// Tells that there are no such lines, and answers the status.
fn tell_no_lines<E: Write>(errors: &mut E) -> u8
    ensures status { result ≡ 1 }
{
    let _told = write!(
        errors,
        "--lines wants two numbers, as 40-60: the first is 1 or more, and the last isn't below it\n"
    );
    1
}

// Prints a drawing of these lines of a file's script, or of all.
fn chart_lines<F: FileStore, W: Write + Drop, E: Write>(
    alloc: Global,
    file: &str,
    lines: Option<Lines>,
    files: &mut F,
    output: &mut BufWriter<W>,
    errors: &mut E,
) -> u8
    ensures drawn { Does (F.effects files.old) (F.effects files.new)
        (Draws file.now (option_map (λ l. count_of l.first l.last) lines) (output_of W.contents output.old output.new) result) }
{
    match files.read(alloc, file, FileKind::Script) {
        Ok(script) => chart_read(alloc, file, &script, lines, output, errors),
        Err(error) => finish(Err(fault_of_reading(file, error)), errors),
    }
}

// Prints a drawing of a script that was read.
fn chart_read<W: Write + Drop, E: Write>(
    alloc: Global,
    file: &str,
    script: &[u8],
    lines: Option<Lines>,
    output: &mut BufWriter<W>,
    errors: &mut E,
) -> u8
    ensures drawn { Draws file.now (option_map (λ l. count_of l.first l.last) lines) (output_of W.contents output.old output.new) result
        (was_read file.now script.now ∷ []) }
{
    match chart_script::<World>(alloc, script, lines) {
        Ok(drawing) => finish(print(&drawing, output), errors),
        Err(fault) => tell_no_drawing(file, fault, errors),
    }
}

// Tells why there is no drawing, and answers the status.
fn tell_no_drawing<E: Write>(file: &str, fault: ChartFault, errors: &mut E) -> u8
    ensures status { result ≡ chart_status fault }
{
    let file = FileName(file);
    let _told = write!(errors, "{file}: {fault}\n");
    fault.status()
}
