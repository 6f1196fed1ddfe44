//! Lines of cores files that are refused, over the public calls of `fl_cores_file` alone. What accepted files come to is tested in
//! `test_cores`, by their runs.

use crate::rows::{ScriptCase, all_hold};
use fl_cores_file::{CoresText, read_cores_text};
use std::alloc::Global;
use std::test::Fail;

// What stands before the lines of a row.
#[derive(Clone, Copy)]
enum Start {
    Nothing,
    /// Three lines, an interface, and five more, on one core.
    Local,
    /// The interface and five lines more, on three cores with a link.
    Cores,
}

fn lines_of(start: Start) -> &'static [u8] {
    match start {
        Start::Nothing => b"",
        Start::Local => {
            b"idl\ninterface i { message a(uint32 v); message b(uint8 x); }\n.\n\
                disp d 0\ndisp e 0\nexport s e i\nbind p d i s local 4\nreply p.s a a\n"
        }
        Start::Cores => {
            b"idl\ninterface i { message a(uint32 v); message b(uint8 x); }\n.\n\
                cores 3\nlink 0 1 4\ndisp d 0\ndisp e 2\nexport s e i\n"
        }
    }
}

// Lines behind those, and the first of all that is refused, with the fault; 0 and 0 where none is.
struct RefusedSetUp(Start, &'static [u8], usize, u8);

// Lines behind those eight.
const BEHIND_LOCAL: &[RefusedSetUp] = &[
    RefusedSetUp(Start::Local, b"", 0, 0),
    RefusedSetUp(Start::Local, b"call p.c a(1)\n", 0, 0),
    // an end with rules makes no calls, and only one end has rules
    RefusedSetUp(Start::Local, b"call p.s a(1)\n", 9, 44),
    RefusedSetUp(Start::Local, b"reply p.c a a\n", 9, 44),
    RefusedSetUp(Start::Local, b"reply p.s b b\n", 0, 0),
    RefusedSetUp(Start::Local, b"call p.c a(1)\nreply p.c a a\n", 10, 44),
    // after all other refusals of the line
    RefusedSetUp(Start::Local, b"call p.s c(1)\n", 9, 41),
    RefusedSetUp(Start::Local, b"call p.s a(4294967296)\n", 9, 42),
    RefusedSetUp(Start::Local, b"reply p.c a c\n", 9, 41),
    RefusedSetUp(Start::Local, b"reply p.c a b\n", 9, 42),
    // a command of scripts alone, whatever it names
    RefusedSetUp(Start::Local, b"turn d\n", 9, 90),
    RefusedSetUp(Start::Local, b"write q.c\n", 9, 90),
    RefusedSetUp(Start::Local, b"mack 5 6\n", 9, 90),
    // a call's text is read before its end is looked up
    RefusedSetUp(Start::Local, b"call q.c a(1\n", 9, 90),
    RefusedSetUp(Start::Local, b"call q.c a(1)\n", 9, 92),
    RefusedSetUp(Start::Local, b"cores 2\n", 9, 93),
    RefusedSetUp(Start::Local, b"bind p d i s local 4\n", 9, 92),
    RefusedSetUp(Start::Local, b"bind q d i t local 4\n", 9, 70),
    RefusedSetUp(Start::Local, b"bind q d i s local 0\n", 9, 32),
    RefusedSetUp(Start::Local, b"bind q d i s ump 4\n", 9, 73),
    // blank lines and comments count, and blocks all their lines
    RefusedSetUp(Start::Local, b"\n# x\n\t \nwhat\n", 12, 90),
    RefusedSetUp(
        Start::Local,
        b"idl\ninterface j { }\n.\nidl\ninterface i { }\n.\n",
        12,
        92,
    ),
];

// Lines behind those eight.
const BEHIND_CORES: &[RefusedSetUp] = &[
    RefusedSetUp(Start::Cores, b"bind p d i s hop 0 1 2\n", 0, 0),
    // only the first link of a route has to be there, on an earlier line
    RefusedSetUp(Start::Cores, b"bind p d i s hop 0 2\n", 9, 73),
    RefusedSetUp(Start::Cores, b"bind p d i s hop 0 2\nlink 0 2 4\n", 9, 73),
    RefusedSetUp(Start::Cores, b"link 0 2 4\nbind p d i s hop 0 2\n", 0, 0),
    RefusedSetUp(Start::Cores, b"bind p d i s hop 1 2\n", 9, 73),
    RefusedSetUp(Start::Cores, b"bind p d i s hop 0 1\n", 9, 73),
    RefusedSetUp(Start::Cores, b"bind p d i s hop 0 1 0 1 2\n", 9, 73),
    RefusedSetUp(Start::Cores, b"bind p d i s hop 0 3 2\n", 9, 73),
    RefusedSetUp(Start::Cores, b"bind p d i s hop 0\n", 9, 73),
    RefusedSetUp(Start::Cores, b"bind p d i s hop\n", 9, 90),
    RefusedSetUp(Start::Cores, b"link 1 0 4\n", 9, 73),
    RefusedSetUp(Start::Cores, b"link 1 1 4\n", 9, 73),
    RefusedSetUp(Start::Cores, b"link 1 3 4\n", 9, 73),
    RefusedSetUp(Start::Cores, b"link 1 2 5\n", 9, 32),
    RefusedSetUp(Start::Cores, b"link 1 2 2\n", 9, 32),
    RefusedSetUp(Start::Cores, b"disp f 3\n", 9, 73),
    RefusedSetUp(Start::Cores, b"disp d 1\n", 9, 92),
    RefusedSetUp(Start::Cores, b"export s d i\n", 9, 71),
    RefusedSetUp(Start::Cores, b"export t f i\n", 9, 92),
    RefusedSetUp(
        Start::Cores,
        b"idl\ninterface j { }\n.\nbind p d j s hop 0 1 2\n",
        12,
        72,
    ),
];

// Whole texts.
const WHOLE: &[RefusedSetUp] = &[
    RefusedSetUp(Start::Nothing, b"", 0, 0),
    RefusedSetUp(Start::Nothing, b"\n# no line\n", 0, 0),
    RefusedSetUp(Start::Nothing, b"cores 0\n", 1, 94),
    RefusedSetUp(Start::Nothing, b"cores 17\n", 1, 94),
    RefusedSetUp(Start::Nothing, b"cores 2\ncores 2\n", 2, 93),
    RefusedSetUp(Start::Nothing, b"disp d 0", 0, 0),
    // of a text's fault the offset isn't told
    RefusedSetUp(
        Start::Nothing,
        b"\nidl\ninterface i { message m(cap c); }\n.\n",
        2,
        14,
    ),
    // an open block is refused at its head
    RefusedSetUp(Start::Nothing, b"\nidl\ninterface i { }\n", 2, 90),
    RefusedSetUp(Start::Nothing, b"idl 2\n", 1, 90),
];

// Whether this line is refused with this fault.
fn is_refused(alloc: Global, text: &[u8], wanted: usize, fault: u8) -> Result<bool, Fail> {
    match read_cores_text(alloc, text)? {
        CoresText::File(_) => Ok(wanted == 0 && fault == 0),
        CoresText::Refused { line, number } => Ok(line == wanted && number == fault),
    }
}

impl ScriptCase for RefusedSetUp {
    fn holds(&self, alloc: Global) -> Result<bool, Fail> {
        let mut text = Vec::new(alloc);
        text.extend_from_slice(lines_of(self.0))?;
        text.extend_from_slice(self.1)?;
        is_refused(alloc, &text, self.2, self.3)
    }
}

// A text of more than 1 MiB is refused at its first line, whatever stands there.
#[test]
fn lines_are_refused(rt: HostRuntime) -> Result<(), Fail> {
    all_hold(rt.alloc(), "lines on one core", BEHIND_LOCAL)?;
    all_hold(rt.alloc(), "lines on three cores", BEHIND_CORES)?;
    all_hold(rt.alloc(), "texts", WHOLE)?;
    let feeds = vec![in rt.alloc(); b'\n'; 1_048_577]?;
    assert!(rt; is_refused(rt.alloc(), &feeds, 1, 91)?);
    Ok(())
}
