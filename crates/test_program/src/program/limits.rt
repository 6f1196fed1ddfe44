//! One thing more than a world holds: what the last line of each script asks is refused, under either plan. And
//! the longest script.

use crate::program::scripts::{ScriptRow, is_transcript, join};
use crate::rows::ProgramCase;
use std::alloc::{AllocError, Global};
use std::test::Fail;

/// A script and its transcript: how they begin, lines that stand there so many times with their number in the place of `@`, and how they end.
pub struct Limit {
    first: ScriptRow,
    times: u32,
    lines: ScriptRow,
    last: ScriptRow,
}

const NOTHING: ScriptRow = ScriptRow(b"", b"");

const LINKED: ScriptRow = ScriptRow(
    b"idl\ninterface i { message ping(uint32 v); }\n.\ncores 2\nlink 0 1 4\ndisp d 0\ndisp e 1\nexport s e i\n",
    b"ok\nok\nok\nok\nok\nok\n",
);

// The lines of this limit fill dispatcher d; e, at the other core, and f have no ends.
const CROWDED: ScriptRow = ScriptRow(
    b"\
idl
interface i { message m(); }
.
cores 2
link 0 1 4
disp d 0
disp e 1
disp f 0
export s d i
export t e i
",
    b"ok\nok\nok\nok\nok\nok\nok\nok\n",
);

pub const LIMITS: &[Limit] = &[
    // interfaces
    Limit {
        first: NOTHING,
        times: 64,
        lines: ScriptRow(b"idl\ninterface i@ { message m(); }\n.\n", b"ok\n"),
        last: ScriptRow(b"idl\ninterface j { message m(); }\n.\n", b"refused E94\n"),
    },
    // dispatchers
    Limit {
        first: NOTHING,
        times: 256,
        lines: ScriptRow(b"disp d@ 0\n", b"ok\n"),
        last: ScriptRow(b"disp e 0\n", b"refused E94\n"),
    },
    // services
    Limit {
        first: ScriptRow(
            b"idl\ninterface i { message m(); }\n.\ndisp d 0\n",
            b"ok\nok\n",
        ),
        times: 256,
        lines: ScriptRow(b"export s@ d i\n", b"ok\n"),
        last: ScriptRow(b"export t d i\n", b"refused E94\n"),
    },
    // bindings: their limit is told before those of a dispatcher's ends, which are used up as well
    Limit {
        first: ScriptRow(
            b"idl\ninterface i { message m(); }\n.\ndisp d 0\ndisp e 0\nexport s e i\n",
            b"ok\nok\nok\nok\n",
        ),
        times: 1024,
        lines: ScriptRow(b"bind p@ d i s local 1\n", b"ok\n"),
        last: ScriptRow(b"bind q d i s local 1\n", b"refused E94\n"),
    },
    // ends: a dispatcher has 1,024 at most, and a binding to itself takes two of them
    Limit {
        first: ScriptRow(
            b"idl\ninterface i { message m(); }\n.\ndisp d 0\nexport s d i\n",
            b"ok\nok\nok\n",
        ),
        times: 512,
        lines: ScriptRow(b"bind p@ d i s local 1\n", b"ok\n"),
        last: ScriptRow(b"bind q d i s local 1\n", b"refused E54\n"),
    },
    // ends of bindings over rings, at either dispatcher, and of circuits: the same
    Limit {
        first: CROWDED,
        times: 512,
        lines: ScriptRow(b"bind p@ d i s local 1\n", b"ok\n"),
        last: ScriptRow(
            b"bind q d i t ump 4\nbind q e i s ump 4\nbind q d i t hop 0 1\nbind q f i t ump 4\n",
            b"refused E54\nrefused E54\nrefused E54\nok\n",
        ),
    },
    // circuits: a monitor opens 1,023 on a link, whatever became of them
    Limit {
        first: LINKED,
        times: 1023,
        lines: ScriptRow(
            b"\
bind p@ d i s hop 0 1
mwrite 0 1
forward 1 0
mack 1 0
mwrite 1 0
forward 0 1
mack 0 1
",
            b"\
ok
written 1 of 1
opened p@.s
nothing
written 1 of 1
opened p@.c
nothing
",
        ),
        last: ScriptRow(b"bind q d i s hop 0 1\n", b"refused E74\n"),
    },
    // messages: a link's outbox holds 64; one that was written makes room
    Limit {
        first: LINKED,
        times: 64,
        lines: ScriptRow(b"bind p@ d i s hop 0 1\n", b"ok\n"),
        last: ScriptRow(
            b"bind q d i s hop 0 1\nmwrite 0 1\nbind q d i s hop 0 1\n",
            b"refused E75\nwritten 1 of 1\nok\n",
        ),
    },
    // a script of 1,048,576 bytes is run
    Limit {
        first: NOTHING,
        times: 1_048_576,
        lines: ScriptRow(b"\n", b""),
        last: NOTHING,
    },
    // one byte more is refused whole
    Limit {
        first: NOTHING,
        times: 1_048_576,
        lines: ScriptRow(b"\n", b""),
        last: ScriptRow(b"\n", b"refused E91\n"),
    },
];

fn digit(number: u32) -> u8 {
    b'0' + (number % 10) as u8
}

// Appends a line with its number, in four digits, in the place of `@`.
fn push_line(text: &mut Vec<u8>, line: &[u8], number: u32) -> Result<(), AllocError> {
    for byte in line {
        if *byte == b'@' {
            text.extend_from_slice(&[
                digit(number / 1000),
                digit(number / 100),
                digit(number / 10),
                digit(number),
            ])?;
        } else {
            text.push(*byte)?;
        }
    }
    Ok(())
}

// A text that begins so, goes on by these lines and ends so.
fn text_of(
    alloc: Global,
    first: &[u8],
    times: u32,
    lines: &[u8],
    last: &[u8],
) -> Result<Vec<u8>, AllocError> {
    let mut text = Vec::from_slice(alloc, first)?;
    for number in 0..times {
        push_line(&mut text, lines, number)?;
    }
    text.extend_from_slice(last)?;
    Ok(text)
}

// A script that begins with an interface has its transcript under plan 1 too.
impl ProgramCase for Limit {
    fn holds(&self, alloc: Global) -> Result<bool, Fail> {
        let script = text_of(alloc, self.first.0, self.times, self.lines.0, self.last.0)?;
        let wanted = text_of(alloc, self.first.1, self.times, self.lines.1, self.last.1)?;
        if !is_transcript(alloc, &script, &wanted)? {
            return Ok(false);
        }
        match script.strip_prefix(b"idl\n") {
            Some(rest) => Ok(is_transcript(alloc, &join(alloc, b"idl 1\n", rest)?, &wanted)?),
            None => Ok(true),
        }
    }
}
