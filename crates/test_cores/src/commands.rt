//! Whole runs: words, a file and standard input in; standard output, standard error and a status out. What each command does
//! by itself is tested in `test_program` (`command`).

use crate::gates::NoGate;
use flounder_commands::{Fault, FileKind, FileStore, Watched, finish};
use flounder_run::run;
use std::alloc::{AllocGlobal, Global};
use std::io;
use std::io::{BufWriter, Write};
use std::sync::Wait;
use std::thread::Threads;

/// One file, of this name; or none can be read. None can be written.
#[derive(Clone, Copy)]
pub enum OneFile {
    Holds(&'static str, &'static [u8]),
    Fails(io::ErrorKind),
}

impl FileStore for OneFile {
    fn read(&mut self, alloc: Global, path: &str, kind: FileKind) -> io::Result<Vec<u8>> {
        match self {
            OneFile::Holds(name, content) if path == *name => {
                let most = content.len().min(kind.most());
                Ok(Vec::from_slice(alloc, &content[..most])?)
            }
            OneFile::Holds(_, _) => Err(io::Error::from(io::ErrorKind::NotFound)),
            OneFile::Fails(kind) => Err(io::Error::from(*kind)),
        }
    }

    fn write(&mut self, _path: &str, _bytes: &[u8]) -> io::Result<()> {
        Err(io::Error::from(io::ErrorKind::Other))
    }
}

// A run, as `main` makes it. What it leaves in the buffer of standard output is lost.
fn run_on<T: Threads + Wait + AllocGlobal + Sync, F: FileStore, W: Write + Drop>(
    rt: &T,
    words: &[&str],
    files: &mut F,
    input: &[u8],
    output: W,
    errors: &mut Vec<u8>,
) -> u8 {
    let alloc = rt.alloc();
    let mut input = Watched::new(alloc, input);
    let Ok(mut output) = BufWriter::new(alloc, Watched::new(alloc, output)) else {
        return finish(Err(Fault::Memory), errors);
    };
    let status = run(
        rt,
        &NoGate,
        alloc,
        words,
        files,
        &mut input,
        &mut output,
        errors,
    );
    let _left = output.into_parts();
    status
}

/// What came of a run.
#[derive(Drop)]
pub struct ProgramOutput {
    pub status: u8,
    pub out: Vec<u8>,
    pub err: Vec<u8>,
}

/// A run on this standard input.
pub fn go<T: Threads + Wait + AllocGlobal + Sync>(
    rt: &T,
    words: &[&str],
    shelf: OneFile,
    input: &[u8],
) -> ProgramOutput {
    let mut files = shelf;
    go_with(rt, words, &mut files, input)
}

/// A run on these files, and on this standard input.
pub fn go_with<T: Threads + Wait + AllocGlobal + Sync, F: FileStore>(
    rt: &T,
    words: &[&str],
    files: &mut F,
    input: &[u8],
) -> ProgramOutput {
    let mut out = Vec::new(rt.alloc());
    let mut err = Vec::new(rt.alloc());
    let status = run_on(rt, words, files, input, &mut out, &mut err);
    ProgramOutput { status, out, err }
}

/// A run without standard input whose standard output takes so many bytes, at most 16; these aren't kept.
pub fn into<T: Threads + Wait + AllocGlobal + Sync>(
    rt: &T,
    words: &[&str],
    shelf: OneFile,
    room: usize,
) -> ProgramOutput {
    let mut files = shelf;
    let mut err = Vec::new(rt.alloc());
    let mut page = [0; 16];
    let room = room.min(16);
    let status = run_on(rt, words, &mut files, b"", &mut page[..room], &mut err);
    ProgramOutput {
        status,
        out: Vec::new(rt.alloc()),
        err,
    }
}

const MIXED: OneFile = OneFile::Holds(
    "mixed.if",
    b"interface i { message m(uint8 a, string s, uint16 b); }",
);

const REFUSED: OneFile = OneFile::Holds("cap.if", b"interface i { message m(cap c); }");

const TABLE: &[u8] = b"\
interface i plan 2
message 0 m least 16 greatest 2063 fragments 37
arg 0 at 2 fixed 1
arg 1 at 8 string max 2047
arg 2 at 0 fixed 2
";

const SCRIPT: &[u8] = b"disp d 0\ndisp d 0\nnope\n";

const TRANSCRIPT: &[u8] = b"ok\nrefused E92\nrefused E90\n";

// Words, the status, and what is printed. No file can be written, and words that are no command read none.
const COMMANDS: &[(&[&str], u8, &[u8])] = &[
    (&["flounder"], 0, TRANSCRIPT),
    (&["flounder", "exec"], 0, TRANSCRIPT),
    (&["flounder", "--version"], 0, b"flounder 0.1.0\n"),
    (&["flounder", "show", "mixed.if"], 0, TABLE),
    (&["flounder", "compile", "mixed.if", "out"], 4, b""),
    (
        &["flounder", "cores", "mixed.if", "--turns", "2"],
        2,
        b"line 1 refused E90\n",
    ),
    (&["flounder", "show"], 1, b""),
    (&["flounder", "chart", "none.flounder"], 4, b""),
    (&["flounder", "header", "none.if"], 4, b""),
    (&["flounder", "chart", "mixed.if", "--lines", "5-4"], 1, b""),
];

#[test]
fn commands_are_run(rt: HostRuntime) {
    for (words, status, out) in COMMANDS {
        let ran = go(&rt, words, MIXED, SCRIPT);
        assert!(rt; ran.status == *status && ran.out.as_slice() == *out);
        assert_eq!(rt; ran.err.is_empty(), *status == 0);
    }
}

// A text that is no script has a drawing, too: of one refused line.
#[test]
fn runs_are_drawn_and_headers_printed(rt: HostRuntime) {
    let drawn = go(&rt, &["flounder", "chart", "mixed.if"], MIXED, b"");
    assert!(rt; drawn.status == 0 && drawn.out.starts_with(b"<svg "));
    let headed = go(&rt, &["flounder", "header", "mixed.if"], MIXED, b"");
    assert!(rt; headed.status == 0 && headed.out.starts_with(b"/* Interface i, plan 2. */\n"));
    let refused = go(&rt, &["flounder", "header", "cap.if"], REFUSED, b"");
    assert!(rt; refused.status == 2 && refused.err.starts_with(b"E14 at 24\n"));
}
