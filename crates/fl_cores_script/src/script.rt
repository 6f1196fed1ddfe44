//! Whether a script does what a run of cores is reported to have done.

ghost use Rattle.std.specs.Prelude.{◌≡◌, true, false, None, Ok, IfOk, IfSome};
ghost use Rattle.fl_script_lines.specs.Items.{is_too_long};
ghost use Rattle.fl_script_exec.specs.Transcript.{Transcript};
ghost use Rattle.fl_cores_script.specs.Replays.{Replays};

use crate::alike::handle_alike;
use fl_script_exec::{MAX_SCRIPT, exec};
use fl_world::World;
use std::alloc::{AllocError, Global};

// The transcript of a script.
fn transcript_of(alloc: Global, script: &[u8]) -> Result<Vec<u8>, AllocError>
    ensures transcript { IfOk result (λ t. Transcript script.now t.items) }
{
    let mut transcript = Vec::new(alloc);
    let mut input = script;
    match exec::<World, _, _>(alloc, &mut input, &mut transcript) {
        Ok(()) => Ok(transcript),
        Err(_) => Err(AllocError),
    }
}

// Whether a script is too long for `exec`.
fn is_too_long(script: &[u8]) -> bool
    ensures long { result ≡ is_too_long script.now }
{
    script.len() > MAX_SCRIPT
}

// Whether the transcript of a script has the report's calls.
fn has_calls(alloc: Global, script: &[u8], report: &[u8]) -> Result<bool, AllocError>
    requires fits { is_too_long script.now ≡ false }
    ensures replays { IfOk result (λ r. r ≡ true → Replays script.now report.now) }
{
    let transcript = transcript_of(alloc, script)?;
    handle_alike(alloc, &transcript, report)
}

// The same; none has of one that is too long.
fn replays(alloc: Global, script: &[u8], report: &[u8]) -> Result<bool, AllocError>
    ensures replays { IfOk result (λ r. r ≡ true → Replays script.now report.now) }
    ensures long { is_too_long script.now ≡ true → result ≡ Ok false }
{
    if is_too_long(script) {
        return Ok(false);
    }
    has_calls(alloc, script, report)
}

/// The same script, if it does what the report tells: run by `exec` it has a transcript that tells, at each end, just
/// the report's calls, in order. One that is too long for `exec` isn't given back.
///
/// # Errors
/// Out of memory.
pub fn certify(alloc: Global, script: Vec<u8>, report: &[u8]) -> Result<Option<Vec<u8>>, AllocError>
    ensures replays { IfOk result (λ found. IfSome found (λ given. Replays given.items report.now)) }
    ensures same { IfOk result (λ found. IfSome found (λ given. given.items ≡ script.items)) }
    ensures long { is_too_long script.items ≡ true → result ≡ Ok None }
{
    if replays(alloc, &script, report)? {
        return Ok(Some(script));
    }
    Ok(None)
}
