//! Recorded runs: a script that is written does what the run did; and why there is none.

use crate::commands::{OneFile, go, go_with};
use fl_cores::Recording;
use fl_cores_replay::{NoScript, script_of};
use flounder_commands::{FileKind, FileStore};
use std::alloc::Global;
use std::io;
use std::io::Write;

/// A file of this content, whatever its name; and what was written last.
#[derive(Drop)]
struct WrittenFile {
    content: &'static [u8],
    written: Vec<u8>,
}

impl FileStore for WrittenFile {
    fn read(&mut self, alloc: Global, _path: &str, kind: FileKind) -> io::Result<Vec<u8>> {
        let most = self.content.len().min(kind.most());
        Ok(Vec::from_slice(alloc, &self.content[..most])?)
    }

    fn write(&mut self, _path: &str, bytes: &[u8]) -> io::Result<()> {
        self.written.clear();
        Ok(self.written.extend_from_slice(bytes)?)
    }
}

// On one core, so it is certain what it does.
const FILE: &[u8] = b"\
idl
interface i { message ping(uint32 v); }
.
disp d 0
disp e 0
export s e i
bind p d i s local 4
call p.c ping(1)
call p.c ping(2)
";

const REPORT: &[u8] = b"\
handle p.s ping(1)
handle p.s ping(2)
complete
";

// How the script's transcript begins and ends.
const BEGINS: &[u8] = b"ok\nok\nok\nok\nok\naccepted\nwritten 1 of 1\n";

const ENDS: &[u8] = b"handle p.s ping(2)\n";

const WORDS: &[&str] = &["flounder", "cores", "x", "--turns", "9", "--script", "y"];

#[test]
fn a_script_does_what_its_run_did(rt: HostRuntime) {
    let mut file = WrittenFile {
        content: FILE,
        written: Vec::new(rt.alloc()),
    };
    let ran = go_with(&rt, WORDS, &mut file, b"");
    assert!(rt; ran.status == 0 && ran.out.as_slice() == REPORT);
    let none = OneFile::Fails(io::ErrorKind::Other);
    let again = go(&rt, &["flounder", "exec"], none, &file.written);
    assert!(rt; again.status == 0 && again.out.starts_with(BEGINS) && again.out.ends_with(ENDS));
}

fn tell<W: Write>(reason: NoScript, out: &mut W) {
    let _told = write!(out, "{reason}");
}

// Whether of a run without a record, which was to be recorded or not, just this is told.
fn is_told(alloc: Global, is_on: bool, wanted: &[u8]) -> bool {
    let recording = Recording::new(is_on);
    let mut told = Vec::new(alloc);
    if let Err(reason) = script_of(alloc, FILE, &recording, REPORT) {
        tell(reason, &mut told);
    }
    told.as_slice() == wanted
}

#[test]
fn a_run_without_a_record_has_no_script(rt: HostRuntime) {
    let alloc = rt.alloc();
    assert!(rt; is_told(alloc, false, b"the run wasn't recorded"));
    assert!(rt; is_told(alloc, true, b"there was no memory to record the run"));
}
