//! `exec`.

use crate::command::outputs::{CommandOutput, Narrow};
use crate::rows::{ProgramCase, all_hold};
use fl_world::World;
use flounder_commands::{Fault, Watched, finish, run_script};
use std::alloc::Global;
use std::io;
use std::io::{BufWriter, Read, Write};
use std::test::Fail;

// Gives no byte, and fails.
#[derive(Drop)]
struct NoSource;

impl Read for NoSource {
    fn read(&mut self, _buf: &mut [u8]) -> io::Result<usize> {
        Err(io::Error::from(io::ErrorKind::Other))
    }
}

// What is left in the buffer of standard output is lost.
fn exec_with<R: Read + Drop, W: Write + Drop>(
    alloc: Global,
    options: (bool, bool),
    input: R,
    output: W,
    errors: &mut Vec<u8>,
) -> u8 {
    let (explain, strict) = options;
    let mut input = Watched::new(alloc, input);
    let Ok(mut output) = BufWriter::new(alloc, Watched::new(alloc, output)) else {
        return finish(Err(Fault::Memory), errors);
    };
    let status = run_script::<World, _, _, _>(
        alloc,
        explain,
        strict,
        &mut input,
        &mut output,
        errors,
    );
    let _left = output.into_parts();
    status
}

fn exec_so<R: Read + Drop>(alloc: Global, options: (bool, bool), input: R) -> CommandOutput {
    let mut out = Vec::new(alloc);
    let mut err = Vec::new(alloc);
    let status = exec_with(alloc, options, input, &mut out, &mut err);
    CommandOutput { status, out, err }
}

const SCRIPT: &[u8] = b"disp d 0\ndisp d 0\nnope\n";

const TRANSCRIPT: &[u8] = b"ok\nrefused E92\nrefused E90\n";

// Lines that are refused are no fault.
#[test]
fn scripts_are_run(rt: HostRuntime) {
    let ran = exec_so(rt.alloc(), (false, false), SCRIPT);
    assert!(rt; ran.is(0, TRANSCRIPT, b""));
}

// A script, its status with `--strict`, and what `--explain` tells.
struct ExplainedRow(&'static [u8], u8, &'static [u8]);

// A block is one item, a refused opening no refused line; the number after `at` counts from the block's first byte.
const EXPLAINED: &[ExplainedRow] = &[
    ExplainedRow(b"disp d 0\n# nothing\n\ndisp e 0\n", 0, b""),
    ExplainedRow(
        b"disp d 0\n\r\ndisp d 0\r\nnope 1\n",
        2,
        b"\
line 3: E92: there is a dispatcher of this name already
    disp d 0
help: choose another name
line 4: E90: this is no line that is read here
    nope 1
help: docs/SCRIPTS.md lists all commands, docs/CORES.md those of a cores file
",
    ),
    ExplainedRow(
        b"idl\ninterface i {\n  message m(cap c);\n}\n.\ncores 17\nidl\n",
        2,
        b"\
line 3, column 13: E14: messages carry no capabilities
      message m(cap c);
                ^
help: leave the argument out
line 6: E94: there would be too many
    cores 17
help: 1 to 16 cores, 64 interfaces, 256 dispatchers, 256 services, 1024 bindings, 15 links of a core
line 7: E90: this is no line that is read here
    idl
help: a block begins with a line that is idl or idl 1, and ends with one that is . alone
",
    ),
    ExplainedRow(
        b"idl\ninterface i { }\n.\nidl 1\ninterface i { }\n.\n",
        2,
        b"\
line 4: E92: there is an interface of this name already
    idl
help: choose another name in the text
",
    ),
];

impl ProgramCase for ExplainedRow {
    fn holds(&self, alloc: Global) -> Result<bool, Fail> {
        let told = exec_so(alloc, (true, false), self.0);
        let strict = exec_so(alloc, (false, true), self.0);
        let plain = exec_so(alloc, (false, false), self.0);
        let is_same = told.out == plain.out && strict.out == plain.out;
        let is_told = told.status == 0 && told.err.as_slice() == self.2;
        Ok(is_same && is_told && strict.status == self.1 && strict.err.is_empty())
    }
}

// Standard output stays as it is.
#[test]
fn refused_lines_are_told(rt: HostRuntime) -> Result<(), Fail> {
    all_hold(rt.alloc(), "refused lines", EXPLAINED)
}

// Who reads the transcript may stop.
#[test]
fn a_closed_pipe_is_quiet(rt: HostRuntime) {
    let mut err = Vec::new(rt.alloc());
    let closed = Narrow(0, io::ErrorKind::BrokenPipe);
    let status = exec_with(rt.alloc(), (false, false), SCRIPT, closed, &mut err);
    assert!(rt; status == 4 && err.is_empty());
}

// Nothing is printed of a script that isn't read.
#[test]
fn scripts_that_are_not_read(rt: HostRuntime) {
    assert!(rt; exec_so(rt.alloc(), (false, false), NoSource).has_told(4));
}

// Whether standard output that takes so many bytes has a prefix of the transcript after a write that failed.
fn is_cut_at(alloc: Global, room: usize) -> bool {
    let mut page = [0; 27];
    let mut err = Vec::new(alloc);
    let Some(output) = page.get_mut(..room) else {
        return false;
    };
    let status = exec_with(alloc, (false, false), SCRIPT, output, &mut err);
    status == 4 && !err.is_empty() && TRANSCRIPT.starts_with(&page[..room])
}

// The buffer is written out at the end, and that may fail as well: then a prefix of the transcript was printed.
#[test]
fn scripts_that_are_not_written(rt: HostRuntime) {
    for room in 0..27usize {
        assert!(rt; is_cut_at(rt.alloc(), room));
    }
}
