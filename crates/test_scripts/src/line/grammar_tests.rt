//! What lines spell, and which are not read.

use crate::rows::{ScriptCase, all_hold};
use fl_script_lines::{
    Line, law_one_asked, law_one_line, law_printed_reads, law_spelled_reads, parse_line,
    print_command,
};
use fl_value_data::PlanNo;
use std::alloc::{AllocError, Global};
use std::test::Fail;

// A line, and its command as it is printed.
struct SpelledLine(&'static [u8], &'static [u8]);

const SPELLED: &[SpelledLine] = &[
    SpelledLine(b"cores 2", b"cores 2"),
    SpelledLine(b"cores 999999999", b"cores 999999999"),
    SpelledLine(b"  link\t0 1   4 ", b"link 0 1 4"),
    SpelledLine(b"disp d 007", b"disp d 7"),
    SpelledLine(b"disp _9 000000000", b"disp _9 0"),
    SpelledLine(b"export s d i", b"export s d i"),
    SpelledLine(b"export idl disp call", b"export idl disp call"),
    SpelledLine(b"bind p d i s local 4", b"bind p d i s local 4"),
    SpelledLine(b"bind p d i s ump 8", b"bind p d i s ump 8"),
    SpelledLine(b"bind p d i s hop 0 1 2", b"bind p d i s hop 0 1 2"),
    SpelledLine(b"bind p d i s  hop\t3", b"bind p d i s hop 3"),
    SpelledLine(
        b"bind local ump hop s hop 00 01 ",
        b"bind local ump hop s hop 0 1",
    ),
    SpelledLine(b"call p.c ping(7)", b"call p.c ping(7)"),
    // a call's text is what stands behind its end, and is looked at later
    SpelledLine(b"call p.s   ping( 7", b"call p.s ping( 7"),
    SpelledLine(b"call p.s", b"call p.s "),
    SpelledLine(b"show p.c", b"show p.c"),
    SpelledLine(b"write c.s\t", b"write c.s"),
    SpelledLine(b"turn d", b"turn d"),
    SpelledLine(b"ack p.s", b"ack p.s"),
    SpelledLine(b"register p.c", b"register p.c"),
    SpelledLine(b"deregister p.c", b"deregister p.c"),
    SpelledLine(
        b"reply p.s echo_call echo_response",
        b"reply p.s echo_call echo_response",
    ),
    SpelledLine(b"mwrite 0 1", b"mwrite 0 1"),
    SpelledLine(b"forward 15 0", b"forward 15 0"),
    SpelledLine(b"mack 2 1", b"mack 2 1"),
    SpelledLine(
        b"turn aaaaaaaaaaaaaaaaaaaaaaaaaaaaaaaaaaaaaaaaaaaaaaaaaaaaaaaaaaaaaaaa",
        b"turn aaaaaaaaaaaaaaaaaaaaaaaaaaaaaaaaaaaaaaaaaaaaaaaaaaaaaaaaaaaaaaaa",
    ),
];

// Which kind a line is of.
struct Kind(&'static [u8], u8);

// 0 for a line without an answer, 1 and 2 for the head of a block under a plan, 3 for a command, 4 for the rest.
const KINDS: &[Kind] = &[
    // lines that aren't read
    Kind(b"cores", 4),
    Kind(b"cores x", 4),
    Kind(b"cores 1 2", 4),
    Kind(b"cores 1234567890", 4),
    Kind(b"cores -1", 4),
    Kind(b"cores +1", 4),
    Kind(b"core 1", 4),
    Kind(b"coress 1", 4),
    Kind(b"Cores 1", 4),
    Kind(b"idl 2", 4),
    Kind(b"idl 01", 4),
    Kind(b"idl 1 1", 4),
    Kind(b"idl x", 4),
    Kind(b"link 0 1", 4),
    Kind(b"link 0 1 4 4", 4),
    Kind(b"disp d", 4),
    Kind(b"disp 9d 0", 4),
    Kind(b"disp d-e 0", 4),
    Kind(b"disp d 0 # zero", 4),
    Kind(b"export s d", 4),
    Kind(b"bind p d i s hop", 4),
    Kind(b"bind p d i s hop 0 x", 4),
    Kind(b"bind p d i s tcp 4", 4),
    Kind(b"bind p d i s local", 4),
    Kind(b"bind p d i s local 4 4", 4),
    Kind(b"call p ping(7)", 4),
    Kind(b"show p.x", 4),
    Kind(b"show .c", 4),
    Kind(b"show p.c.s", 4),
    Kind(b"turn d\r", 4),
    Kind(b"reply p.s echo_call", 4),
    Kind(b"mack 2", 4),
    Kind(
        b"turn aaaaaaaaaaaaaaaaaaaaaaaaaaaaaaaaaaaaaaaaaaaaaaaaaaaaaaaaaaaaaaaaa",
        4,
    ),
    // lines without an answer
    Kind(b"", 0),
    Kind(b" \t ", 0),
    Kind(b"#", 0),
    Kind(b"  # cores 2", 0),
    Kind(b"#cores 2", 0),
    // blocks under a plan
    Kind(b"idl", 2),
    Kind(b"\tidl ", 2),
    Kind(b"idl 1", 1),
    Kind(b" idl  1 ", 1),
];

// Whether the command of a line is printed so.
fn is_printed(alloc: Global, line: &[u8], text: &[u8]) -> Result<bool, AllocError> {
    let mut out = Vec::new(alloc);
    if let Line::Command(command) = parse_line(line) {
        print_command(alloc, &mut out, command)?;
    }
    Ok(out.as_slice() == text)
}

// The printed command is printed as it is.
impl ScriptCase for SpelledLine {
    fn holds(&self, alloc: Global) -> Result<bool, Fail> {
        Ok(is_printed(alloc, self.0, self.1)? && is_printed(alloc, self.1, self.1)?)
    }
}

fn kind_of(line: &[u8]) -> u8 {
    match parse_line(line) {
        Line::Silent => 0,
        Line::Heading(PlanNo::One) => 1,
        Line::Heading(PlanNo::Two) => 2,
        Line::Command(_) => 3,
        Line::Unread => 4,
    }
}

impl ScriptCase for Kind {
    fn holds(&self, _alloc: Global) -> Result<bool, Fail> {
        Ok(kind_of(self.0) == self.1)
    }
}

#[test]
fn lines_spell_commands(rt: HostRuntime) -> Result<(), Fail> {
    law_one_line();
    law_one_asked();
    law_printed_reads();
    law_spelled_reads();
    all_hold(rt.alloc(), "lines", SPELLED)?;
    all_hold(rt.alloc(), "kinds of lines", KINDS)
}
