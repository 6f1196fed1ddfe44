//! Names of files as they are printed.

use std::fmt;

/// A file's name on one line: a control character is escaped, and whatever else shows nothing by itself.
#[derive(Clone, Copy)]
pub struct FileName<'a>(pub &'a str);

impl fmt::Display for FileName<'_> {
    fn fmt<W: fmt::Write>(&self, f: &mut fmt::Formatter<W>) -> fmt::Result {
        for c in self.0.chars() {
            match c {
                '\'' | '"' | '\\' => write!(f, "{c}")?,
                _ => write!(f, "{}", c.escape_debug())?,
            }
        }
        Ok(())
    }
}
