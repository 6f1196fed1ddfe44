//! Memory that is refused. With ample memory each test sees its whole answer; run with any one allocation refused, as `hostile/run`
//! does, each sees out of memory and nothing lost.

use crate::hostile::rows::{CIRCUITS, HostileScript, REPLIES, RING, STRINGS, WAITSETS};
use fl_script_exec::{ExecFault, exec};
use fl_world::World;
use std::alloc::Global;

// Whether a script writes its transcript; or, out of memory, some whole lines of it and not all.
fn is_cut_short_at_most(alloc: Global, row: HostileScript) -> bool {
    let mut reader = row.script;
    let mut page = [0; 2_048];
    let mut writer = page.as_mut_slice();
    let room = writer.len();
    let outcome = exec::<World, _, _>(alloc, &mut reader, &mut writer);
    let count = room.saturating_sub(writer.len());
    let written = page.get(..count).unwrap_or(b"?");
    match outcome {
        Ok(()) => written == row.transcript,
        Err(ExecFault::Memory) => {
            written.len() < row.transcript.len()
                && row.transcript.starts_with(written)
                && (written.is_empty() || written.ends_with(b"\n"))
        }
        Err(_) => false,
    }
}

const ROWS: &[HostileScript] = &[CIRCUITS, RING, STRINGS, WAITSETS, REPLIES];

#[test]
fn scripts_without_memory(rt: HostRuntime) {
    for row in ROWS {
        assert!(rt; is_cut_short_at_most(rt.alloc(), *row));
    }
}
