//! Scripts with their transcripts, and the test of all tables.

use crate::program::{core_rows, examples, letters, limits, lines, rows, stuck, stuck_queue};
use crate::rows::{ProgramCase, all_hold};
use fl_script_exec::{ExecFault, exec};
use fl_world::World;
use std::alloc::{AllocError, Global};
use std::test::Fail;

/// A script and its transcript.
pub struct ScriptRow(pub &'static [u8], pub &'static [u8]);

/// Whether a script has this transcript.
pub fn is_transcript(alloc: Global, script: &[u8], wanted: &[u8]) -> Result<bool, ExecFault> {
    let mut reader = script;
    let mut out = Vec::new(alloc);
    exec::<World, _, _>(alloc, &mut reader, &mut out)?;
    Ok(out.as_slice() == wanted)
}

impl ProgramCase for ScriptRow {
    fn holds(&self, alloc: Global) -> Result<bool, Fail> {
        Ok(is_transcript(alloc, self.0, self.1)?)
    }
}

/// A script that begins with an interface's text, but for the line before that, and its transcript, which is the
/// same under either plan.
pub struct UnderBoth(pub &'static [u8], pub &'static [u8]);

/// The first lines of a script whose interface is laid out by plan 2, and of one by plan 1.
pub const FIRST_LINES: &[&[u8]] = &[b"idl\n", b"idl 1\n"];

/// Two parts of a text.
pub fn join(alloc: Global, first: &[u8], rest: &[u8]) -> Result<Vec<u8>, AllocError> {
    let mut text = Vec::from_slice(alloc, first)?;
    text.extend_from_slice(rest)?;
    Ok(text)
}

impl ProgramCase for UnderBoth {
    fn holds(&self, alloc: Global) -> Result<bool, Fail> {
        for first in FIRST_LINES {
            let script = join(alloc, first, self.0)?;
            if !is_transcript(alloc, &script, self.1)? {
                return Ok(false);
            }
        }
        Ok(true)
    }
}

#[test]
fn scripts(rt: HostRuntime) -> Result<(), Fail> {
    all_hold(rt.alloc(), "lines", lines::ROWS)?;
    all_hold(rt.alloc(), "worked rows", rows::ROWS)?;
    all_hold(rt.alloc(), "worked rows of one plan", rows::OF_ONE_PLAN)?;
    all_hold(rt.alloc(), "texts of many letters", letters::ROWS)?;
    all_hold(rt.alloc(), "rows of several cores", core_rows::ROWS)?;
    all_hold(rt.alloc(), "examples that call", examples::CALLS)?;
    all_hold(rt.alloc(), "examples of links", examples::LINKS)?;
    all_hold(rt.alloc(), "examples of rings", examples::RINGS)?;
    all_hold(rt.alloc(), "a ring that sticks", stuck::RING)?;
    all_hold(rt.alloc(), "queues that stick", stuck_queue::QUEUE)?;
    all_hold(rt.alloc(), "limits", limits::LIMITS)
}
