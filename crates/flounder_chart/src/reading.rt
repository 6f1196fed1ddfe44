//! A script and its transcript, line by line: each line that has an answer beside its answer.

ghost use Rattle.std.specs.Prelude.{◌≡◌, ◌≤◌, ◌+◌, length, List, IfOk};
ghost use Rattle.fl_script_lines.specs.Items.{Item as TheItem, ItemsOf};

use crate::run::{ChartRow, RowKind, Run};
use crate::tracing::{Acted, Trace, TracedRun};
use bstr::ByteSlice;
use fl_script_lines::{RawItem, next_part, read_command};
use std::alloc::{AllocError, Global};

// The first line of a text, without its line feed, and what stands behind it.
fn next_line(bytes: &[u8]) -> (&[u8], &[u8]) {
    bytes.split_once_str(b"\n").unwrap_or((bytes, b""))
}

fn count_lines(bytes: &[u8]) -> usize {
    let mut count: usize = 0;
    for byte in bytes {
        if *byte == b'\n' {
            count = count.saturating_add(1);
        }
    }
    count
}

/// A script's run, told by its transcript.
///
/// # Errors
/// Out of memory.
pub(crate) fn read_run<'a>(
    alloc: Global,
    script: &'a [u8],
    transcript: &'a [u8],
) -> Result<Run<'a>, AllocError>
    ensures rows { IfOk result
        (λ run. (items : List TheItem) × (ItemsOf script.now items × (length run.rows.items ≤ length items))) }
{
    let mut trace = Trace::new(alloc);
    let mut rows = Vec::new(alloc);
    let is_kept = read_rows(script, transcript, &mut trace, &mut rows);
    let TracedRun {
        passages,
        dispatchers,
        linked,
        is_whole,
    } = trace.told();
    if !(is_whole && is_kept) {
        return Err(AllocError);
    }
    Ok(Run {
        rows,
        passages,
        dispatchers,
        linked,
    })
}

// The rows of a script, behind none; says whether memory served for all of them.
fn read_rows<'a>(
    script: &'a [u8],
    transcript: &'a [u8],
    trace: &mut Trace<'a>,
    rows: &mut Vec<ChartRow<'a>>,
) -> bool
    requires { length rows.now.items ≡ 0 }
    ensures rows { (items : List TheItem) × (ItemsOf script.now items × (length rows.new.items ≤ length items)) }
{
    let mut rest = script;
    let mut answers = transcript;
    let mut number: usize = 1;
    let mut is_whole = true;
    'items: while !rest.is_empty() {
        let (part, behind) = next_part(rest);
        let lines = &rest[..rest.len() - behind.len()];
        let (answer, answers_behind) = answer_of(part, answers);
        let source = RowSource {
            lines,
            number,
            answer,
        };
        let row = read_row(part, source, trace, rows.len());
        let is_kept = push_some(rows, row);
        is_whole = is_whole && is_kept;
        number = number.saturating_add(count_lines(lines));
        rest = behind;
        answers = answers_behind;
    }
    is_whole
}

// Adds an item's row, if it has one; says whether memory served.
fn push_some<'a>(rows: &mut Vec<ChartRow<'a>>, row: Option<ChartRow<'a>>) -> bool
    ensures one { length rows.new.items ≤ length rows.old.items + 1 }
{
    match row {
        Some(row) => rows.push(row).is_ok(),
        None => true,
    }
}

// An item's answer, if it has one, and the answers behind it.
fn answer_of<'a>(part: RawItem<'_>, answers: &'a [u8]) -> (&'a [u8], &'a [u8]) {
    match part {
        RawItem::Silent => (b"", answers),
        _ => next_line(answers),
    }
}

// An item's lines, the number of the first, and its answer.
#[derive(Clone, Copy)]
struct RowSource<'a> {
    lines: &'a [u8],
    number: usize,
    answer: &'a [u8],
}

// The row of an item, if it has one.
fn read_row<'a>(
    part: RawItem<'a>,
    source: RowSource<'a>,
    trace: &mut Trace<'a>,
    place: usize,
) -> Option<ChartRow<'a>> {
    let text = source.lines.trim_ascii();
    match part {
        RawItem::Silent => comment(text, source.number),
        RawItem::Block(_, interface) => {
            Some(line(interface.trim_ascii(), source, Acted::alone(None)))
        }
        RawItem::Command(verb, words) => {
            let acted = match read_command(verb, words) {
                Some(command) => trace.take_up(command, source.answer, place),
                None => Acted::alone(None),
            };
            Some(line(text, source, acted))
        }
        RawItem::Unread | RawItem::OpenBlock => Some(line(text, source, Acted::alone(None))),
    }
}

// The row of a comment; a blank line has none.
fn comment(text: &[u8], number: usize) -> Option<ChartRow<'_>> {
    if text.is_empty() {
        return None;
    }
    Some(ChartRow {
        kind: RowKind::Comment,
        number,
        text,
        answer: b"",
        actor: None,
        source: None,
        goal: None,
    })
}

fn line<'a>(text: &'a [u8], source: RowSource<'a>, acted: Acted) -> ChartRow<'a> {
    let RowSource { number, answer, .. } = source;
    let Acted {
        actor,
        source,
        goal,
    } = acted;
    ChartRow {
        kind: RowKind::Line,
        number,
        text,
        answer,
        actor,
        source,
        goal,
    }
}
