//! The line of a text at a place, with a mark below it.

use std::fmt;

// So many bytes are shown before and behind a place.
const MOST_BEFORE: usize = 64;

const MOST_BEHIND: usize = 40;

/// What stands on the line of a place: up to 64 bytes before it and 40 from it on, and below them a mark at
/// the place. It is printed on two lines, each with a line feed before it; of an empty line nothing is
/// printed.
#[derive(Clone, Copy)]
pub struct Excerpt<'a> {
    before: &'a [u8],
    behind: &'a [u8],
}

fn is_line_feed(byte: &u8) -> bool {
    *byte == b'\n'
}

impl<'a> Excerpt<'a> {
    /// That of a text at an offset in bytes, which may be its end.
    pub fn at(text: &'a [u8], offset: usize) -> Excerpt<'a> {
        let (before, behind) = text.split_at(offset.min(text.len()));
        let start = match before.iter().rposition(is_line_feed) {
            Some(at) => at + 1,
            None => 0,
        };
        let end = behind.iter().position(is_line_feed).unwrap_or(behind.len());
        let line = &before[start..];
        Excerpt {
            before: &line[line.len().saturating_sub(MOST_BEFORE)..],
            behind: &behind[..end.min(MOST_BEHIND)],
        }
    }
}

// Whether a byte is shown as it is; a tab is shown as a blank.
fn is_shown(byte: u8) -> bool {
    byte == b' ' || byte.is_ascii_graphic()
}

fn show<W: fmt::Write>(bytes: &[u8], f: &mut fmt::Formatter<W>) -> fmt::Result {
    for byte in bytes {
        match *byte {
            b'\t' => f.write_str(" ")?,
            b if is_shown(b) => write!(f, "{}", char::from(b))?,
            b => write!(f, "\\x{b:02x}")?,
        }
    }
    Ok(())
}

// As many blanks as these bytes are shown wide.
fn space<W: fmt::Write>(bytes: &[u8], f: &mut fmt::Formatter<W>) -> fmt::Result {
    for byte in bytes {
        let blanks = if is_shown(*byte) || *byte == b'\t' {
            " "
        } else {
            "    "
        };
        f.write_str(blanks)?;
    }
    Ok(())
}

/// A whole line, its first 104 bytes, behind a line feed; of an empty line nothing is printed.
#[derive(Clone, Copy)]
pub struct LineShown<'a>(pub &'a [u8]);

impl fmt::Display for LineShown<'_> {
    fn fmt<W: fmt::Write>(&self, f: &mut fmt::Formatter<W>) -> fmt::Result {
        if self.0.is_empty() {
            return Ok(());
        }
        f.write_str("\n    ")?;
        show(&self.0[..self.0.len().min(MOST_BEFORE + MOST_BEHIND)], f)
    }
}

impl fmt::Display for Excerpt<'_> {
    fn fmt<W: fmt::Write>(&self, f: &mut fmt::Formatter<W>) -> fmt::Result {
        if self.before.is_empty() && self.behind.is_empty() {
            return Ok(());
        }
        f.write_str("\n    ")?;
        show(self.before, f)?;
        show(self.behind, f)?;
        f.write_str("\n    ")?;
        space(self.before, f)?;
        f.write_str("^")
    }
}
