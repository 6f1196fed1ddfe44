//! A script's drawing.

ghost use Rattle.std.specs.Prelude.{◌≡◌, ◌<◌, ◌≤◌, ◌+◌, length, option_map, OnOk, IfOk, IfErr};
ghost use Rattle.flounder_svg.specs.Xml.{IsDocument};
ghost use Rattle.flounder_chart.specs.Faults.{IsFaultOf, IsFaultOfRows};
ghost use Rattle.flounder_chart.specs.Lines.{count_of, IsWithin};

use crate::chosen::Lines;
use crate::drawing::{Shown, draw};
use crate::fault::ChartFault;
use crate::reading::read_run;
use crate::run::{ChartRow, Run};
use fl_model::Machine;
use fl_script_exec::{ExecFault, MAX_SCRIPT, exec};
use std::alloc::Global;

/// Rows that a drawing has at most.
pub const MAX_ROWS: usize = 5_000;

/// Runs a script, and draws its run, as SVG: a lane for each dispatcher and for each monitor that has a
/// link, a row for each line that has an answer and for each comment, an arrow for each fragment. Where
/// lines are given, the whole script is run, and the rows of these lines are drawn.
///
/// # Errors
/// [`ChartFault`].
pub fn chart_script<M: Machine + Drop>(
    alloc: Global,
    script: &[u8],
    lines: Option<Lines>,
) -> Result<Vec<u8>, ChartFault>
    ensures document { IfOk result (λ drawing. IsDocument drawing.items) }
    ensures fits { OnOk result (length script.now ≤ 1048576) }
    ensures fault { IfErr result (λ fault. IsFaultOf script.now (option_map (λ l. count_of l.first l.last) lines) fault) }
{
    if script.len() > MAX_SCRIPT {
        return Err(ChartFault::TooLong);
    }
    match transcript_of::<M>(alloc, script) {
        Ok(transcript) => chart_transcript(alloc, script, &transcript, lines),
        Err(fault) => Err(fault),
    }
}

// The same for a script that was run, from its transcript.
fn chart_transcript(
    alloc: Global,
    script: &[u8],
    transcript: &[u8],
    lines: Option<Lines>,
) -> Result<Vec<u8>, ChartFault>
    requires fits { length script.now ≤ 1048576 }
    ensures document { IfOk result (λ drawing. IsDocument drawing.items) }
    ensures fault { IfErr result (λ fault. IsFaultOf script.now (option_map (λ l. count_of l.first l.last) lines) fault) }
{
    match read_run(alloc, script, transcript) {
        Ok(run) => chart_run(alloc, &run, lines),
        Err(error) => Err(ChartFault::from(error)),
    }
}

// The same for a run.
fn chart_run(alloc: Global, run: &Run<'_>, lines: Option<Lines>) -> Result<Vec<u8>, ChartFault>
    ensures document { IfOk result (λ drawing. IsDocument drawing.items) }
    ensures fault { IfErr result (λ fault. IsFaultOfRows (length run.now.rows.items) (option_map (λ l. count_of l.first l.last) lines) fault) }
{
    let shown = shown_rows(&run.rows, lines);
    if shown.end.saturating_sub(shown.first) > MAX_ROWS {
        return Err(ChartFault::TooManyRows);
    }
    match draw(alloc, run, shown) {
        Ok(drawing) => Ok(drawing),
        Err(error) => Err(ChartFault::from(error)),
    }
}

// The script's transcript; it is written into memory, so that nothing but memory can be refused.
fn transcript_of<M: Machine + Drop>(alloc: Global, script: &[u8]) -> Result<Vec<u8>, ChartFault>
    ensures memory { IfErr result (λ fault. fault ≡ ChartFault.Memory) }
{
    let mut transcript = Vec::new(alloc);
    let mut input = script;
    match exec::<M, _, _>(alloc, &mut input, &mut transcript) {
        Ok(()) => Ok(transcript),
        Err(ExecFault::Memory) => Err(ChartFault::Memory),
        Err(ExecFault::Read) => Err(ChartFault::Memory),
        Err(ExecFault::Write) => Err(ChartFault::Memory),
    }
}

// The rows of these lines, or all.
fn shown_rows(rows: &[ChartRow<'_>], lines: Option<Lines>) -> Shown
    ensures few { result.end ≤ length rows.now }
    ensures within { IsWithin result.first result.end (option_map (λ l. count_of l.first l.last) lines) }
{
    let Some(lines) = lines else {
        return Shown {
            first: 0,
            end: rows.len(),
        };
    };
    rows_within(rows, lines)
}

// The rows of these lines. There are no more rows than lines, since each begins on a line of its own.
fn rows_within(rows: &[ChartRow<'_>], lines: Lines) -> Shown
    ensures few { result.end ≤ length rows.now }
    ensures within { result.end ≤ result.first + count_of lines.first lines.last }
{
    let mut shown = Shown { first: 0, end: 0 };
    for row in rows {
        if row.number < lines.first {
            shown.first = shown.first.saturating_add(1);
        }
        if row.number <= lines.last {
            shown.end = shown.end.saturating_add(1);
        }
    }
    let most = shown.first.saturating_add(lines.count());
    Shown {
        first: shown.first,
        end: shown.end.min(rows.len()).min(most),
    }
}
