//! A script's refused lines, each in words.

use crate::line::{ItemAt, LineSource, tell_item};
use fl_script_lines::{RawItem, Verb, next_part};
use std::alloc::Global;
use std::io::Write;

/// A script's items as they are told line by line, so far.
#[derive(Drop)]
pub(crate) struct Items<'a> {
    source: &'a [u8],
    // Where the line begins, in bytes from the script's start, and its number, from 1.
    at: usize,
    line: usize,
    // The block that is open: its line, and where its text begins.
    open: Option<(usize, usize)>,
}

// A line without its end.
fn without_end(line: &[u8]) -> &[u8] {
    match line.strip_suffix(b"\n".as_slice()) {
        Some(text) => text.strip_suffix(b"\r".as_slice()).unwrap_or(text),
        None => line,
    }
}

// The item that a line outside blocks is, if it has an answer by itself; a block's head opens one.
fn outside<'a>(items: &mut Items<'_>, line: &'a [u8], behind: usize) -> Option<ItemAt<'a>> {
    let text = without_end(line);
    if line.is_empty() {
        return None;
    }
    let (part, _) = next_part(line);
    let verb = match part {
        RawItem::Silent => return None,
        RawItem::Command(verb, _) => verb,
        RawItem::Unread => Verb::Unknown,
        RawItem::OpenBlock | RawItem::Block(_, _) => {
            items.open = Some((items.line, behind));
            return None;
        }
    };
    Some(ItemAt {
        line: items.line,
        verb,
        text,
        is_block: false,
        opening: b"",
    })
}

impl<'a> Items<'a> {
    /// None was told yet.
    pub(crate) fn new(source: &'a [u8]) -> Items<'a> {
        Items {
            source,
            at: 0,
            line: 1,
            open: None,
        }
    }

    /// The item that ends with the next line, if one does.
    pub(crate) fn next(&mut self, line: &'a [u8]) -> Option<ItemAt<'a>> {
        let start = self.at;
        let behind = start.saturating_add(line.len());
        let found = match self.open {
            None => outside(self, line, behind),
            Some((head, text)) if without_end(line) == b".".as_slice() => {
                self.open = None;
                Some(ItemAt {
                    line: head,
                    verb: Verb::Idl,
                    text: self.source.get(text..start).unwrap_or(b""),
                    is_block: true,
                    opening: b"",
                })
            }
            Some(_) => None,
        };
        self.at = behind;
        self.line = self.line.saturating_add(1);
        found
    }

    // The block that the script's end leaves open.
    fn last(&self) -> Option<ItemAt<'a>> {
        let (head, _) = self.open?;
        Some(ItemAt {
            line: head,
            verb: Verb::Idl,
            text: b"idl",
            is_block: false,
            opening: b"",
        })
    }
}

/// The number of the fault that an answer tells: of a refused line, or of an opening that was refused.
pub(crate) fn refused_number(answer: &[u8]) -> Option<u32> {
    let behind = answer.strip_prefix(b"refused E".as_slice())?;
    let digits = behind.split(|byte| *byte == b' ').next()?;
    let mut number = 0u32;
    for digit in digits {
        if !digit.is_ascii_digit() {
            return None;
        }
        number = number
            .saturating_mul(10)
            .saturating_add(u32::from(digit.saturating_sub(b'0')));
    }
    Some(number)
}

// The end whose opening an answer tells as refused, `refused En P.c`; nothing of a refused line.
fn opening_of(answer: &[u8]) -> &[u8] {
    let mut words = answer.split(|byte| *byte == b' ').skip(2);
    match words.next() {
        Some(word) if word.iter().any(|byte| *byte == b'.') => word,
        _ => b"",
    }
}

// Tells of an item, if its answer tells that it is refused.
fn tell_answered<E: Write>(alloc: Global, item: ItemAt<'_>, answer: Option<&[u8]>, errors: &mut E) {
    let Some(answer) = answer else {
        return;
    };
    if let Some(number) = refused_number(answer) {
        let told = ItemAt {
            line: item.line,
            verb: item.verb,
            text: item.text,
            is_block: item.is_block,
            opening: opening_of(answer),
        };
        tell_item(alloc, LineSource::Input, told, number, errors);
    }
}

/// Tells each line of a script that is refused: where it stands, what is wrong, and what to do. `transcript`
/// has the script's answers, as far as there are some.
pub(crate) fn explain_script<E: Write>(
    alloc: Global,
    script: &[u8],
    transcript: &[u8],
    errors: &mut E,
) {
    let mut items = Items::new(script);
    let mut answers = transcript.split(|byte| *byte == b'\n');
    for line in script.split_inclusive(|byte| *byte == b'\n') {
        if let Some(item) = items.next(line) {
            tell_answered(alloc, item, answers.next(), errors);
        }
    }
    if let Some(item) = items.last() {
        tell_answered(alloc, item, answers.next(), errors);
    }
}

// A number of digits at the start of a text, and what stands behind it.
fn number_at_start(text: &[u8]) -> (usize, &[u8]) {
    let digits = text.iter().take_while(|byte| byte.is_ascii_digit()).count();
    let (number, behind) = text.split_at(digits.min(text.len()));
    let mut value = 0usize;
    for digit in number {
        value = value
            .saturating_mul(10)
            .saturating_add(usize::from(digit.saturating_sub(b'0')));
    }
    (value, behind)
}

/// Tells the line of a cores file that is refused, from what is told of that for standard output, `line K
/// refused En`: where it stands, what is wrong, and what to do.
pub fn explain_line<E: Write>(
    alloc: Global,
    file: &str,
    content: &[u8],
    told: &[u8],
    errors: &mut E,
) {
    let (line, behind) = number_at_start(told.strip_prefix(b"line ".as_slice()).unwrap_or(told));
    let answer = without_end(behind.strip_prefix(b" ".as_slice()).unwrap_or(behind));
    let Some(number) = refused_number(answer) else {
        return;
    };
    let item = item_at(content, line).unwrap_or(ItemAt {
        line,
        verb: Verb::Unknown,
        text: b"",
        is_block: false,
        opening: b"",
    });
    tell_item(alloc, LineSource::File(file), item, number, errors);
}

// The item that begins on a line, if one does: of a file that is too long (E91) the first line may be blank.
fn item_at(text: &[u8], wanted: usize) -> Option<ItemAt<'_>> {
    let mut items = Items::new(text);
    for line in text.split_inclusive(|byte| *byte == b'\n') {
        if let Some(item) = items.next(line) {
            if item.line == wanted {
                return Some(item);
            }
        }
    }
    match items.last() {
        Some(item) if item.line == wanted => Some(item),
        _ => None,
    }
}
