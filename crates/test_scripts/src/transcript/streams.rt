//! Readers and writers that give and take little, or fail, and memory that is refused.

ghost use Rattle.std.specs.Prelude.{◌≤◌, IfSome};

use crate::transcript::still::Still;
use fl_script_exec::{ExecFault, ScriptReader, exec};
use std::alloc::Global;
use std::io;
use std::io::{ErrorKind, Read, Write};

const SCRIPT: &[u8] =
    b"turn d\n# nothing\nidl\ninterface i { message m(cap c); }\n.\ncall p.c m(\ncall p.c m(1)\n\nturn";

const TRANSCRIPT: &[u8] =
    b"refused E92\nrefused E14 at 24\nrefused E90\nrefused E92\nrefused E90\n";

// How many lines that has.
const LINES: usize = 5;

// At which call, from 1, a reader or writer fails, and how; 0 for never.
#[derive(Clone, Copy)]
struct Failing {
    at: usize,
    kind: ErrorKind,
}

const NEVER: Failing = Failing {
    at: 0,
    kind: ErrorKind::Other,
};

// Each is a fault, also the one that asks to try again.
const KINDS: &[ErrorKind] = &[ErrorKind::Other, ErrorKind::Interrupted];

// Bytes that are read by at most so many a call; one of the calls may fail.
#[derive(Drop)]
struct LimitedReader<'a> {
    rest: &'a [u8],
    step: usize,
    calls: usize,
    failing: Failing,
}

impl<'a> LimitedReader<'a> {
    fn new(rest: &'a [u8], step: usize, failing: Failing) -> LimitedReader<'a> {
        LimitedReader {
            rest,
            step,
            calls: 0,
            failing,
        }
    }
}

impl Read for LimitedReader<'_> {
    fn read(&mut self, buf: &mut [u8]) -> io::Result<usize> {
        self.calls = self.calls.saturating_add(1);
        if self.calls == self.failing.at {
            return Err(io::Error::from(self.failing.kind));
        }
        let n = self.rest.len().min(buf.len()).min(self.step);
        buf[..n].copy_from_slice(&self.rest[..n]);
        self.rest = &self.rest[n..];
        Ok(n)
    }
}

// Bytes that are read one a call, with a count of the calls.
#[derive(Drop)]
struct CountingReader<'a> {
    rest: &'a [u8],
    calls: Option<usize>,
}

impl ScriptReader for CountingReader<'_> {
    ghost reads = { λ r. r.calls };

    fn read(&mut self, buf: &mut [u8]) -> io::Result<usize> {
        self.calls = match self.calls {
            Some(calls) => calls.checked_add(1),
            None => None,
        };
        let n = self.rest.len().min(buf.len()).min(1);
        buf[..n].copy_from_slice(&self.rest[..n]);
        self.rest = &self.rest[n..];
        Ok(n)
    }
}

// What was written, by at most so many bytes a call; one of the calls may fail, another take nothing.
// It takes no memory.
#[derive(Drop)]
struct LimitedWriter {
    bytes: [u8; 512],
    len: usize,
    step: usize,
    calls: usize,
    failing: Failing,
    stalls_at: usize,
}

impl LimitedWriter {
    fn new(step: usize, failing: Failing, stalls_at: usize) -> LimitedWriter {
        LimitedWriter {
            bytes: [0; 512],
            len: 0,
            step,
            calls: 0,
            failing,
            stalls_at,
        }
    }

    fn written(&self) -> &[u8] {
        &self.bytes[..self.len.min(512)]
    }
}

impl Write for LimitedWriter {
    fn write(&mut self, buf: &[u8]) -> io::Result<usize> {
        self.calls = self.calls.saturating_add(1);
        if self.calls == self.failing.at {
            return Err(io::Error::from(self.failing.kind));
        }
        if self.calls == self.stalls_at {
            return Ok(0);
        }
        let start = self.len.min(512);
        let n = buf.len().min(self.step).min(512 - start);
        self.bytes[start..start + n].copy_from_slice(&buf[..n]);
        self.len = start + n;
        Ok(n)
    }

    fn flush(&mut self) -> io::Result<()> {
        Ok(())
    }
}

fn run(
    alloc: Global,
    reader: &mut LimitedReader<'_>,
    writer: &mut LimitedWriter,
) -> Result<(), ExecFault> {
    exec::<Still, _, _>(alloc, reader, writer)
}

// How often a script is read: a count that `exec` bounds, whatever the script is.
fn reads_of(alloc: Global, script: &[u8], writer: &mut LimitedWriter) -> Option<usize>
    ensures { IfSome result (λ calls. calls ≤ 1048577) }
{
    let mut reader = CountingReader {
        rest: script,
        calls: Some(0),
    };
    match exec::<Still, _, _>(alloc, &mut reader, writer) {
        Ok(()) => reader.calls,
        Err(_) => None,
    }
}

// Whether it came to the fault, and what was written until then is a prefix of the transcript.
fn has_stopped(
    outcome: Result<(), ExecFault>,
    fault: ExecFault,
    status: u8,
    writer: &LimitedWriter,
) -> bool {
    outcome == Err(fault)
        && fault.number() == status
        && TRANSCRIPT.starts_with(writer.written())
        && writer.written().len() < TRANSCRIPT.len()
}

// Whether all is written by steps of this size, with so many reads and writes.
fn is_written(alloc: Global, step: usize, reads: usize, writes: usize) -> bool {
    let mut reader = LimitedReader::new(SCRIPT, step, NEVER);
    let mut writer = LimitedWriter::new(step, NEVER, 0);
    run(alloc, &mut reader, &mut writer) == Ok(())
        && writer.written() == TRANSCRIPT
        && reader.calls == reads
        && writer.calls == writes
}

// A byte at a time each way; then all that there is, a line a write.
#[test]
fn little_and_much_at_a_time(rt: HostRuntime) {
    assert!(rt; is_written(rt.alloc(), 1, SCRIPT.len() + 1, TRANSCRIPT.len()));
    assert!(rt; is_written(rt.alloc(), 512, 2, LINES));
}

fn stops_at_read(alloc: Global, at: usize, kind: ErrorKind) -> bool {
    let mut reader = LimitedReader::new(SCRIPT, 1, Failing { at, kind });
    let mut writer = LimitedWriter::new(512, NEVER, 0);
    let outcome = run(alloc, &mut reader, &mut writer);
    has_stopped(outcome, ExecFault::Read, 4, &writer) && reader.calls == at && writer.calls == 0
}

// Each read fails in turn: nothing is written before all is read.
#[test]
fn a_read_fails(rt: HostRuntime) {
    for at in 1..SCRIPT.len() + 2 {
        for kind in KINDS {
            assert!(rt; stops_at_read(rt.alloc(), at, *kind));
        }
    }
}

// Whether this call is the last, and what went before is there.
fn stops_at_write(alloc: Global, writer: &mut LimitedWriter, at: usize) -> bool {
    let mut reader = LimitedReader::new(SCRIPT, 4096, NEVER);
    let outcome = run(alloc, &mut reader, writer);
    has_stopped(outcome, ExecFault::Write, 4, writer)
        && writer.calls == at
        && writer.written().len() == at.saturating_sub(1)
}

// Whether a write that fails stops it, and one that takes nothing.
fn stops_at_each(alloc: Global, at: usize) -> bool {
    for kind in KINDS {
        let mut writer = LimitedWriter::new(1, Failing { at, kind: *kind }, 0);
        if !stops_at_write(alloc, &mut writer, at) {
            return false;
        }
    }
    let mut writer = LimitedWriter::new(1, NEVER, at);
    stops_at_write(alloc, &mut writer, at)
}

// Each write fails in turn, or takes no byte, a fault like one that fails: it is the last, and what went before is there.
#[test]
fn a_write_fails(rt: HostRuntime) {
    for at in 1..TRANSCRIPT.len() + 1 {
        assert!(rt; stops_at_each(rt.alloc(), at));
    }
}

fn is_written_or_stopped(alloc: Global) -> bool {
    let mut reader = LimitedReader::new(SCRIPT, 16, NEVER);
    let mut writer = LimitedWriter::new(16, NEVER, 0);
    match run(alloc, &mut reader, &mut writer) {
        Ok(()) => writer.written() == TRANSCRIPT,
        outcome => has_stopped(outcome, ExecFault::Memory, 3, &writer),
    }
}

// With ample memory the transcript; run with each request for memory refused in turn, the fault.
#[test]
fn memory_is_refused(rt: HostRuntime) {
    assert!(rt; is_written_or_stopped(rt.alloc()));
}

// A byte a call, and one call more that finds the end.
#[test]
fn reads_are_counted(rt: HostRuntime) {
    let mut writer = LimitedWriter::new(512, NEVER, 0);
    assert!(rt; reads_of(rt.alloc(), SCRIPT, &mut writer) == Some(SCRIPT.len() + 1));
    assert!(rt; writer.written() == TRANSCRIPT);
}
