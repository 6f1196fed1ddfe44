//! The lines of a cores file, apart by what they come to.

use fl_script_lines::{BackEndText, Command, Item, Line, next_item};
use std::alloc::{AllocError, Global};

/// The lines of a cores file.
#[derive(Drop)]
pub(crate) struct FileLines<'a> {
    /// Those that set up, one behind the other, and reply rules that are set before the cores run.
    pub(crate) setup: Vec<u8>,
    /// Those of the other jobs.
    pub(crate) jobs: Vec<&'a [u8]>,
}

// What a line comes to.
enum LineKind {
    Nothing,
    Setup,
    Job,
}

fn kind_of(command: &Command<'_>) -> LineKind {
    match command {
        Command::Bind { back_end, .. } => match back_end {
            BackEndText::Hop(_) => LineKind::Job,
            BackEndText::Local(_) | BackEndText::Ump(_) => LineKind::Setup,
        },
        Command::Call(_, _) | Command::Reply { .. } => LineKind::Job,
        _ => LineKind::Setup,
    }
}

fn kind_of_item(item: &Item<'_>) -> LineKind {
    match item {
        Item::Line(Line::Command(command)) => kind_of(command),
        Item::Line(_) | Item::OpenBlock => LineKind::Nothing,
        Item::Block(_, _) => LineKind::Setup,
    }
}

// Whether the job of a place is done before the cores run.
fn is_done_before(done_before: &[bool], job: usize) -> bool {
    match done_before.get(job) {
        None => false,
        Some(is_done) => *is_done,
    }
}

/// Appends a line, with a line feed.
pub(crate) fn put_line(out: &mut Vec<u8>, line: &[u8]) -> Result<(), AllocError> {
    out.extend_from_slice(line)?;
    if !line.ends_with(b"\n") {
        out.push(b'\n')?;
    }
    Ok(())
}

/// The lines of a cores file, of whose jobs these are done before the cores run.
pub(crate) fn split_file<'a>(
    alloc: Global,
    text: &'a [u8],
    done_before: &[bool],
) -> Result<FileLines<'a>, AllocError> {
    let mut lines = FileLines {
        setup: Vec::new(alloc),
        jobs: Vec::new(alloc),
    };
    let mut rest = text;
    let mut job: usize = 0;
    while !rest.is_empty() {
        let (item, behind) = next_item(rest);
        let (line, _) = rest.split_at(rest.len() - behind.len());
        match kind_of_item(&item) {
            LineKind::Nothing => {}
            LineKind::Setup => put_line(&mut lines.setup, line)?,
            LineKind::Job => {
                if is_done_before(done_before, job) {
                    put_line(&mut lines.setup, line)?;
                } else {
                    lines.jobs.push(line)?;
                }
                job = job.wrapping_add(1);
            }
        }
        rest = behind;
    }
    Ok(lines)
}
