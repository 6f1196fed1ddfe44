//! What words ask for, words that are no command, and help.

use crate::command::outputs::{CommandOutput, Narrow};
use crate::rows::{ProgramCase, all_hold};
use flounder_args::{Request, hint, read_words};
use flounder_commands::{Fault, finish, no_words, tell_usage};
use std::alloc::Global;
use std::io;
use std::io::{BufWriter, Write};
use std::test::Fail;

// What words ask for.
enum Asked {
    /// `cores`, of the file `x` with two turns.
    TwoTurns,
    Exec,
    /// `exec` or `show` of the file `x`, with all their options.
    Options,
    /// Nothing: they are no command.
    Nothing,
    Help,
}

struct Words(Asked, &'static [&'static str]);

// The option may also stand first, and be one word with its number.
const TWO_TURNS: &[Words] = &[
    Words(Asked::TwoTurns, &["flounder", "cores", "x", "--turns", "2"]),
    Words(Asked::TwoTurns, &["flounder", "cores", "--turns", "2", "x"]),
    Words(Asked::TwoTurns, &["flounder", "cores", "--turns=2", "x"]),
    Words(Asked::TwoTurns, &["flounder", "cores", "x", "--turns=+2"]),
];

const SCRIPTS: &[Words] = &[
    Words(Asked::Exec, &["flounder"]),
    Words(Asked::Exec, &["flounder", "exec"]),
];

const OPTIONS: &[Words] = &[
    Words(
        Asked::Options,
        &["flounder", "exec", "--strict", "--explain"],
    ),
    Words(Asked::Options, &["flounder", "show", "--names", "x"]),
    Words(Asked::Options, &["flounder", "show", "x", "--names"]),
];

const NO_COMMANDS: &[Words] = &[
    Words(Asked::Nothing, &["flounder", "show"]),
    Words(Asked::Nothing, &["flounder", "nope"]),
    Words(Asked::Nothing, &["flounder", "show", "cap.if", "more"]),
    Words(Asked::Nothing, &["flounder", "exec", "more"]),
    Words(Asked::Nothing, &["flounder", "--nope"]),
    Words(Asked::Nothing, &["flounder", "help"]),
    Words(Asked::Nothing, &["flounder", "compile"]),
    Words(Asked::Nothing, &["flounder", "compile", "cap.if"]),
    Words(
        Asked::Nothing,
        &["flounder", "compile", "cap.if", "out", "more"],
    ),
    Words(Asked::Nothing, &["flounder", "chart"]),
    Words(Asked::Nothing, &["flounder", "chart", "x", "--lines"]),
    Words(
        Asked::Nothing,
        &["flounder", "chart", "x", "--lines", "-1-2"],
    ),
    Words(Asked::Nothing, &["flounder", "chart", "x", "more"]),
    Words(Asked::Nothing, &["flounder", "header"]),
    Words(Asked::Nothing, &["flounder", "header", "x", "more"]),
    Words(Asked::Nothing, &["flounder", "cores"]),
    Words(Asked::Nothing, &["flounder", "cores", "x"]),
    Words(Asked::Nothing, &["flounder", "cores", "--turns", "2"]),
    Words(Asked::Nothing, &["flounder", "cores", "x", "--turns"]),
    Words(Asked::Nothing, &["flounder", "cores", "x", "--turns", ""]),
    Words(Asked::Nothing, &["flounder", "cores", "x", "--turns", "-1"]),
    Words(Asked::Nothing, &["flounder", "cores", "x", "--turns", "2x"]),
    Words(
        Asked::Nothing,
        &["flounder", "cores", "x", "--turns", "1000000000001"],
    ),
    Words(
        Asked::Nothing,
        &["flounder", "cores", "x", "--turns", "18446744073709551617"],
    ),
    Words(
        Asked::Nothing,
        &["flounder", "cores", "x", "--turns", "2", "more"],
    ),
    Words(
        Asked::Nothing,
        &["flounder", "cores", "x", "--turns", "2", "--script"],
    ),
    Words(
        Asked::Nothing,
        &["flounder", "cores", "x", "--turns", "2", "--turns", "2"],
    ),
];

const HELPS: &[Words] = &[
    Words(Asked::Help, &["flounder", "--help"]),
    Words(Asked::Help, &["flounder", "exec", "--help"]),
    Words(Asked::Help, &["flounder", "show", "--help"]),
    Words(Asked::Help, &["flounder", "compile", "--help"]),
    Words(Asked::Help, &["flounder", "cores", "--help"]),
    Words(Asked::Help, &["flounder", "chart", "--help"]),
    Words(Asked::Help, &["flounder", "header", "--help"]),
];

// Whether words ask for this.
fn are_asked(alloc: Global, asked: &Asked, words: &[&str]) -> bool {
    match (read_words(alloc, words), asked) {
        (
            Ok(
                Request::Cores {
                    file,
                    turns,
                    script,
                },
            ),
            Asked::TwoTurns,
        ) => { file == "x" && turns == 2 && script.is_none() }
        (Ok(Request::Exec { explain, strict }), Asked::Exec) => !explain && !strict,
        (Ok(Request::Exec { explain, strict }), Asked::Options) => explain && strict,
        (Ok(Request::Show { file, names }), Asked::Options) => file == "x" && names,
        _ => false,
    }
}

// How words that ask for nothing are told; what is left in the buffer of standard output is lost. Words that ask for something
// have the status 255.
fn tell_into<W: Write + Drop>(
    alloc: Global,
    words: &[&str],
    output: W,
    errors: &mut Vec<u8>,
) -> u8 {
    let Err(error) = read_words(alloc, words) else {
        return 255;
    };
    let Ok(mut output) = BufWriter::new(alloc, output) else {
        return finish(Err(Fault::Memory), errors);
    };
    let status = finish(tell_usage(alloc, error, hint(words), &mut output), errors);
    let _left = output.into_parts();
    status
}

fn tell(alloc: Global, words: &[&str]) -> CommandOutput {
    let mut out = Vec::new(alloc);
    let mut err = Vec::new(alloc);
    let status = tell_into(alloc, words, &mut out, &mut err);
    CommandOutput { status, out, err }
}

// Whether help is written: it is long, and told where it can't be written.
fn are_help(alloc: Global, words: &[&str]) -> bool {
    let ran = tell(alloc, words);
    ran.status == 0 && ran.out.len() > 200 && ran.err.is_empty() && are_lost(alloc, words)
}

fn are_lost(alloc: Global, words: &[&str]) -> bool {
    let mut err = Vec::new(alloc);
    tell_into(alloc, words, Narrow(10, io::ErrorKind::Other), &mut err) == 4
}

impl ProgramCase for Words {
    fn holds(&self, alloc: Global) -> Result<bool, Fail> {
        Ok(match &self.0 {
            Asked::Nothing => tell(alloc, self.1).has_told(1),
            Asked::Help => are_help(alloc, self.1),
            asked => are_asked(alloc, asked, self.1),
        })
    }
}

// Words, and whether a hint tells how a script comes in.
struct Hint(&'static [&'static str], bool);

const HINTS: &[Hint] = &[
    Hint(&["flounder", "exec", "hello.flounder"], true),
    Hint(&["flounder", "hello.flounder"], true),
    Hint(&["flounder", "exec", "--nope"], false),
    Hint(&["flounder", "show"], false),
    Hint(&["flounder", "--nope"], false),
];

impl ProgramCase for Hint {
    fn holds(&self, alloc: Global) -> Result<bool, Fail> {
        let err = tell(alloc, self.0).err;
        Ok(err.ends_with(b"flounder exec < FILE\n") == self.1)
    }
}

#[test]
fn what_words_ask(rt: HostRuntime) -> Result<(), Fail> {
    all_hold(rt.alloc(), "turns", TWO_TURNS)?;
    all_hold(rt.alloc(), "scripts", SCRIPTS)?;
    all_hold(rt.alloc(), "options", OPTIONS)?;
    all_hold(rt.alloc(), "no commands", NO_COMMANDS)?;
    all_hold(rt.alloc(), "help", HELPS)?;
    all_hold(rt.alloc(), "hints", HINTS)
}

// The status where the words can't be had, if that is told.
fn without_words(alloc: Global, kind: io::ErrorKind) -> Option<u8> {
    let mut errors = Vec::new(alloc);
    let status = finish(Err(no_words(io::Error::from(kind))), &mut errors);
    if errors.is_empty() {
        return None;
    }
    Some(status)
}

#[test]
fn words_that_are_not_there(rt: HostRuntime) {
    assert!(rt; without_words(rt.alloc(), io::ErrorKind::InvalidData) == Some(1));
    assert!(rt; without_words(rt.alloc(), io::ErrorKind::OutOfMemory) == Some(3));
}
