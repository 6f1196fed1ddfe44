//! How the program tells of a text or an image that is refused.

use crate::excerpt::Excerpt;
use crate::names::FileName;
use fl_check::Position;
use flounder_show::{Cause, ShowFault, TextRefusal};
use std::fmt;

const MAGIC: &[u8] = b"FLND";

const BYTE_ORDER_MARK: &[u8] = b"\xef\xbb\xbf";

/// A file whose content is refused, and why. It is printed on several lines: the fault's number alone, with
/// its byte offset in a text; then `FILE:LINE:COLUMN:` (of an image `FILE:`) and the fault in words; then
/// what stands there, where something does, with a mark below the place; then what would be right. Lines and
/// columns count from 1, a column in bytes.
#[derive(Clone, Copy)]
pub struct RefusedFile<'a> {
    /// The file's name, as the words of the command line have it.
    pub file: &'a str,
    /// What the file holds.
    pub content: &'a [u8],
    /// Why that is refused, or out of memory.
    pub fault: ShowFault<'a>,
    /// What more is known of that.
    pub cause: Option<Cause>,
}

impl fmt::Display for RefusedFile<'_> {
    fn fmt<W: fmt::Write>(&self, f: &mut fmt::Formatter<W>) -> fmt::Result {
        let file = FileName(self.file);
        match self.fault {
            ShowFault::Refused(refusal) => {
                let number = refusal.explained.fault.number();
                write!(f, "E{number} at {}\n{file}:", refusal.offset)?;
                tell_place(refusal.explained.place, f)?;
                let told = RefusedText {
                    content: self.content,
                    refusal,
                    cause: self.cause,
                };
                write!(f, " {told}")
            }
            ShowFault::NoImage(refusal) => {
                let number = refusal.fault.number();
                write!(f, "E{number}\n{file}: {}", refusal.fault)
            }
            ShowFault::Memory => f.write_str("out of memory"),
        }
    }
}

fn tell_place<W: fmt::Write>(place: Option<Position>, f: &mut fmt::Formatter<W>) -> fmt::Result {
    match place {
        Some(place) => write!(f, "{}:{}:", place.line, place.column),
        None => Ok(()),
    }
}

/// Why a text is refused: the fault in words, what stands there, and what would be right.
#[derive(Clone, Copy)]
pub(crate) struct RefusedText<'a> {
    pub content: &'a [u8],
    pub refusal: TextRefusal<'a>,
    pub cause: Option<Cause>,
}

impl fmt::Display for RefusedText<'_> {
    fn fmt<W: fmt::Write>(&self, f: &mut fmt::Formatter<W>) -> fmt::Result {
        self.tell_fault(f)?;
        let excerpt = Excerpt::at(self.content, self.refusal.offset);
        write!(f, "{excerpt}")?;
        match remedy(self.content, self.refusal.explained.fault.number()) {
            Some(remedy) => write!(f, "\nhelp: {remedy}"),
            None => Ok(()),
        }
    }
}

impl RefusedText<'_> {
    // The fault in words, and what more is known of it.
    fn tell_fault<W: fmt::Write>(&self, f: &mut fmt::Formatter<W>) -> fmt::Result {
        let fault = self.refusal.explained.fault;
        let Some(cause) = self.cause else {
            return write!(f, "{fault}");
        };
        match cause {
            Cause::Expected(expected) => {
                if self.refusal.offset >= self.content.len() {
                    return write!(f, "the text ends here, where {expected} is expected");
                }
                write!(f, "{expected} is expected here")
            }
            Cause::First { at } => {
                let first = Position::of(self.content, at);
                write!(
                    f,
                    "{fault}: the first is at {}:{}",
                    first.line, first.column
                )
            }
            Cause::BuiltIn => write!(f, "{fault}: a type of this name is built in"),
            Cause::Count { things, most } => {
                write!(f, "{fault}: there may be {most} {things} at most")
            }
            Cause::NameLength { bytes, most } => {
                write!(
                    f,
                    "this rpc's name has {bytes} bytes, where {most} are the most"
                )
            }
            _ => tell_excess(cause, f),
        }
    }
}

// How much is too much.
fn tell_excess<W: fmt::Write>(cause: Cause, f: &mut fmt::Formatter<W>) -> fmt::Result {
    match cause {
        Cause::Size { bytes } => {
            write!(f, "this type has {bytes} bytes, where 4096 are the most")
        }
        Cause::Depth { levels } => {
            write!(
                f,
                "structs and arrays nest {levels} deep in this type, where 16 is the most"
            )
        }
        Cause::ArrayDepth { levels } => {
            write!(
                f,
                "fixed arrays nest {levels} deep in this type, where 7 is the most"
            )
        }
        Cause::Payload { bytes } => {
            write!(
                f,
                "this message's payload may have {bytes} bytes, where 32768 are the most"
            )
        }
        _ => Ok(()),
    }
}

// What would be right, for a fault of this number in a text.
fn remedy(content: &[u8], number: u8) -> Option<&'static str> {
    if content.starts_with(BYTE_ORDER_MARK) {
        return Some("the file begins with a byte order mark: save it without one");
    }
    if content.starts_with(MAGIC) {
        return Some("the file is an image: give the interface's text, or use show");
    }
    match number {
        1 => Some("a text has words, decimal numbers, { } ( ) [ ] , ; and comments alone"),
        2 => Some("end the comment with */; comments don't nest"),
        3 => Some("end the description with a \" on the same line"),
        4 => Some("make it shorter"),
        5 => Some("make it smaller"),
        6 => Some("split the interface"),
        7 => Some("compare with the grammar in docs/INTERFACES.md"),
        8 => Some("a file holds one interface: put another into a file of its own"),
        10 | 12 | 13 => Some("choose another name"),
        11 => Some("declare the type above what uses it, or mend its name"),
        14 => Some("leave the argument out"),
        15 => Some("give it one member at least"),
        16 => Some("write a count from 1 to 1024, or use a sized array"),
        17 | 21 => Some("use smaller bounds, or several messages"),
        18 => Some("use an array of char, which has a fixed size"),
        19 => Some("split the interface; the name of an rpc has at most 55 bytes"),
        20 => Some("write a bound from 1 to 4096"),
        _ => None,
    }
}
