//! Calls of a text of few letters and of as many as it may have, fragment by fragment.

use crate::program::scripts::{FIRST_LINES, is_transcript, join};
use crate::rows::ProgramCase;
use std::alloc::{AllocError, Global};
use std::test::Fail;

/// A call of a text of so many letters, and in how many fragments it goes under either plan.
pub struct OfLetters(usize, usize);

// The payload has 8 bytes more than there are letters, and a fragment takes 56 of it.
pub const ROWS: &[OfLetters] = &[
    OfLetters(0, 1),
    OfLetters(48, 1),
    OfLetters(49, 2),
    OfLetters(4_096, 74),
];

const FRAME: &[u8] = b"\
interface i { message m(string s[4096]); }
.
disp d 0
disp e 0
export s e i
bind p d i s local 4
";

const MADE: &[u8] = b"ok\nok\nok\nok\nok\naccepted\n";

// Appends a call of so many letters as it stands in a script and in a transcript, behind an end's name.
fn push_call(text: &mut Vec<u8>, end: &[u8], letters: usize) -> Result<(), AllocError> {
    text.extend_from_slice(end)?;
    text.extend_from_slice(b" m(\"")?;
    for _ in 0..letters {
        text.push(b'a')?;
    }
    text.extend_from_slice(b"\")\n")
}

// The script: the call, so many writes and a turn after each, and one turn more.
fn script_of(alloc: Global, row: &OfLetters) -> Result<Vec<u8>, AllocError> {
    let mut text = Vec::from_slice(alloc, FRAME)?;
    push_call(&mut text, b"call p.c", row.0)?;
    for _ in 0..row.1 {
        text.extend_from_slice(b"write p.c\nturn e\n")?;
    }
    text.extend_from_slice(b"turn e\n")?;
    Ok(text)
}

// Its transcript: each turn but the last two takes a part of the call.
fn transcript_of(alloc: Global, row: &OfLetters) -> Result<Vec<u8>, AllocError> {
    let mut text = Vec::from_slice(alloc, MADE)?;
    for number in 1..=row.1 {
        let line = format!(in alloc; "written {number} of {}\n", row.1)?;
        text.extend_from_slice(line.as_bytes())?;
        if number < row.1 {
            text.extend_from_slice(b"part p.s\n")?;
        }
    }
    push_call(&mut text, b"handle p.s", row.0)?;
    text.extend_from_slice(b"nothing\n")?;
    Ok(text)
}

impl ProgramCase for OfLetters {
    fn holds(&self, alloc: Global) -> Result<bool, Fail> {
        let wanted = transcript_of(alloc, self)?;
        for first in FIRST_LINES {
            let script = join(alloc, first, &script_of(alloc, self)?)?;
            if !is_transcript(alloc, &script, &wanted)? {
                return Ok(false);
            }
        }
        Ok(true)
    }
}
