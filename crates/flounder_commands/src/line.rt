//! How the program tells of a line that is refused.

use crate::excerpt::LineShown;
use crate::names::FileName;
use crate::told::RefusedText;
use crate::words::words_of;
use fl_script_lines::Verb;
use flounder_show::{TextRefusal, cause_of, refusal_of};
use std::alloc::Global;
use std::fmt;
use std::io::Write;

/// Where a line stands: in a file, or on standard input.
#[derive(Clone, Copy)]
pub(crate) enum LineSource<'a> {
    File(&'a str),
    Input,
}

/// A line of a source, from 1, and a column, from 1, where there is one.
#[derive(Clone, Copy)]
struct LinePlace<'a> {
    source: LineSource<'a>,
    line: usize,
    column: Option<usize>,
}

impl fmt::Display for LinePlace<'_> {
    fn fmt<W: fmt::Write>(&self, f: &mut fmt::Formatter<W>) -> fmt::Result {
        let line = self.line;
        match (self.source, self.column) {
            (LineSource::File(file), Some(column)) => {
                write!(f, "{}:{line}:{column}", FileName(file))
            }
            (LineSource::File(file), None) => write!(f, "{}:{line}", FileName(file)),
            (LineSource::Input, Some(column)) => write!(f, "line {line}, column {column}"),
            (LineSource::Input, None) => write!(f, "line {line}"),
        }
    }
}

/// An item of a script: the line on which it begins, from 1, what it is by its first word, and its text,
/// which is the interface's of a block; and the end whose opening was refused, or nothing where the item
/// itself is.
#[derive(Clone, Copy)]
pub(crate) struct ItemAt<'a> {
    pub line: usize,
    pub verb: Verb,
    pub text: &'a [u8],
    pub is_block: bool,
    pub opening: &'a [u8],
}

/// What is refused: an opening, of which the end is told, or the line.
#[derive(Clone, Copy)]
struct Refused<'a> {
    opening: &'a [u8],
    number: u32,
}

impl fmt::Display for Refused<'_> {
    fn fmt<W: fmt::Write>(&self, f: &mut fmt::Formatter<W>) -> fmt::Result {
        if !self.opening.is_empty() {
            write!(
                f,
                "the opening of {} is refused, ",
                self.opening.escape_ascii()
            )?;
        }
        write!(f, "E{}", self.number)
    }
}

// Tells of a line that isn't a block's, by the fault's number.
fn tell_line<E: Write>(source: LineSource<'_>, item: ItemAt<'_>, number: u32, errors: &mut E) {
    let place = LinePlace {
        source,
        line: item.line,
        column: None,
    };
    let shown = if item.is_block {
        LineShown(b"idl")
    } else {
        LineShown(item.text)
    };
    let refused = Refused {
        opening: item.opening,
        number,
    };
    let _told = match words_of(number, item.verb) {
        Some(words) => {
            let fault = words.fault;
            let remedy = words.remedy;
            write!(
                errors,
                "{place}: {refused}: {fault}{shown}\nhelp: {remedy}\n"
            )
        }
        None => write!(errors, "{place}: {refused}{shown}\n"),
    };
}

// Tells of a block whose text has a fault.
fn tell_block<E: Write>(
    alloc: Global,
    source: LineSource<'_>,
    item: ItemAt<'_>,
    refusal: TextRefusal<'_>,
    errors: &mut E,
) {
    let fault = refusal.explained.fault;
    let number = fault.number();
    let place = match refusal.explained.place {
        Some(at) => LinePlace {
            source,
            line: item.line.saturating_add(at.line),
            column: Some(at.column),
        },
        None => LinePlace {
            source,
            line: item.line,
            column: None,
        },
    };
    let told = RefusedText {
        content: item.text,
        refusal,
        cause: cause_of(alloc, item.text, fault),
    };
    let _told = write!(errors, "{place}: E{number}: {told}\n");
}

/// Tells of a refused item, by the number of its fault.
pub(crate) fn tell_item<E: Write>(
    alloc: Global,
    source: LineSource<'_>,
    item: ItemAt<'_>,
    number: u32,
    errors: &mut E,
) {
    let refusal = if item.is_block {
        refusal_of(alloc, item.text)
    } else {
        None
    };
    match refusal {
        Some(refusal) if u32::from(refusal.explained.fault.number()) == number => {
            tell_block(alloc, source, item, refusal, errors)
        }
        _ => tell_line(source, item, number, errors),
    }
}
