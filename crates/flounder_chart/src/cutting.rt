//! Texts that are cut where they would be too wide.

use bstr::ByteSlice;

// How many columns a character takes: two where it is written as wide as two letters, none where it is a
// blank behind a blank, which is not drawn.
fn width(c: char, is_behind_blank: bool) -> usize {
    match c {
        ' ' | '\t' | '\r' | '\n' if is_behind_blank => 0,
        '\u{1100}'..='\u{115f}' | '\u{2e80}'..='\u{ffdf}' | '\u{1f300}'..='\u{3fffd}' => 2,
        _ => 1,
    }
}

fn is_blank(c: char) -> bool {
    matches!(c, ' ' | '\t' | '\r' | '\n')
}

/// The columns that a text takes.
pub(crate) fn columns(text: &[u8]) -> usize {
    let mut taken: usize = 0;
    let mut behind_blank = false;
    for c in text.chars() {
        taken = taken.saturating_add(width(c, behind_blank));
        behind_blank = is_blank(c);
    }
    taken
}

/// The beginning of a text that takes no more than so many columns.
fn beginning(text: &[u8], most: usize) -> &[u8] {
    let mut taken: usize = 0;
    let mut behind_blank = false;
    for (start, _, c) in text.char_indices() {
        taken = taken.saturating_add(width(c, behind_blank));
        if taken > most {
            return text.get(..start).unwrap_or(text);
        }
        behind_blank = is_blank(c);
    }
    text
}

/// A text that fits into so many columns, or its beginning, which leaves one for an ellipsis.
pub(crate) fn fitted(text: &[u8], most: usize) -> (&[u8], bool) {
    if columns(text) <= most {
        return (text, false);
    }
    (beginning(text, most.saturating_sub(1)), true)
}
