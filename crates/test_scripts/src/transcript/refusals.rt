//! Scripts that ask the machine nothing, with their transcripts.

use crate::rows::{ScriptCase, all_hold};
use crate::transcript::still::Still;
use fl_script_exec::{ExecFault, exec};
use std::alloc::Global;
use std::test::Fail;

// A script, and what it writes.
struct TranscriptRow(&'static [u8], &'static [u8]);

const SCRIPTS: &[TranscriptRow] = &[
    TranscriptRow(b"", b""),
    TranscriptRow(b"\n \t\n# disp d 0\n  # x\r\n", b""),
    TranscriptRow(b"what", b"refused E90\n"),
    TranscriptRow(b"turn d\r\nturn d\r", b"refused E92\nrefused E90\n"),
    TranscriptRow(
        b"idl 2\nidl 01\ncores\n",
        b"refused E90\nrefused E90\nrefused E90\n",
    ),
    TranscriptRow(b"export s d i\n", b"refused E92\n"),
    TranscriptRow(
        b"call p.c ping(1\ncall p.c ping(1)\n",
        b"refused E90\nrefused E92\n",
    ),
    TranscriptRow(b"reply p.s a b\nshow p.c\n", b"refused E92\nrefused E92\n"),
    TranscriptRow(
        b"idl\ninterface i { message m(cap c); }\n.\n",
        b"refused E14 at 24\n",
    ),
    TranscriptRow(b"idl 1\ninterface i {\n.\n", b"refused E7 at 14\n"),
    TranscriptRow(
        b"idl\ninterface i { message m(nope x); - }\n.\r\nack p.c\n",
        b"refused E1 at 33\nrefused E92\n",
    ),
    TranscriptRow(b"idl\ninterface i { }\n", b"refused E90\n"),
    TranscriptRow(b"idl\n", b"refused E90\n"),
    TranscriptRow(b"idl\n.\r", b"refused E90\n"),
];

// Whether a script has this transcript.
fn is_transcript(alloc: Global, script: &[u8], wanted: &[u8]) -> Result<bool, ExecFault> {
    let mut reader = script;
    let mut out = Vec::new(alloc);
    exec::<Still, _, _>(alloc, &mut reader, &mut out)?;
    Ok(out.as_slice() == wanted)
}

impl ScriptCase for TranscriptRow {
    fn holds(&self, alloc: Global) -> Result<bool, Fail> {
        Ok(is_transcript(alloc, self.0, self.1)?)
    }
}

#[test]
fn lines_are_refused(rt: HostRuntime) -> Result<(), Fail> {
    all_hold(rt.alloc(), "scripts", SCRIPTS)
}

// What comes to the machine is out of memory there.
#[test]
fn an_event_is_out_of_memory(rt: HostRuntime) {
    let outcome = is_transcript(rt.alloc(), b"turn d\ndisp d 0\n", b"");
    assert!(rt; outcome == Err(ExecFault::Memory));
}
