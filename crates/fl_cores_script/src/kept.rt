//! Whether each line of a script is a cores file's own, or asks for an event of a core.

ghost use Rattle.std.specs.Prelude.{◌≡◌, ◌⊎◌, ◌++◌, ◌∷◌, [], true, map, is_some, IfOk};
ghost use Rattle.std.specs.List.{All, Contains};
ghost use Rattle.fl_cores_script.specs.Replays.{behind};
ghost use Rattle.fl_cores_script.specs.Kept.{begins, is_event, IsKept, KeepsToFile};

use crate::alike::{behind, is_same, lines_of};
use std::alloc::{AllocError, Global};

fn begins(bytes: &[u8], text: &[u8]) -> bool
    ensures begins { result ≡ begins bytes.now text.now }
{
    match behind(bytes, text) {
        None => false,
        Some(_) => true,
    }
}

// Whether a line asks for an event of a core.
fn is_event(line: &[u8]) -> bool
    ensures event { result ≡ is_event line.now }
{
    begins(b"write ", line)
        || begins(b"turn ", line)
        || begins(b"ack ", line)
        || begins(b"forward ", line)
        || begins(b"mwrite ", line)
        || begins(b"mack ", line)
}

// Whether a line is found among these, which are in order.
#[tactic(auto, using(crate::proofs::Sorting::found_at))]
fn is_found(lines: &[&[u8]], line: &[u8]) -> bool
    ensures found { result ≡ true → Contains (map (λ l. l.now) lines.now) line.now }
{
    match lines.binary_search(&line) {
        Ok(at) => is_same(lines[at], line),
        Err(_) => false,
    }
}

// Whether a line is one of these, which are in order, or asks for an event.
fn is_kept(own: &[&[u8]], line: &[u8]) -> bool
    ensures kept { result ≡ true → IsKept (map (λ l. l.now) own.now) line.now }
{
    if is_event(line) {
        return true;
    }
    is_found(own, line)
}

// Whether each of these lines is.
fn are_kept(own: &[&[u8]], lines: &[&[u8]]) -> bool
    ensures kept { result ≡ true → All (λ l. IsKept (map (λ o. o.now) own.now) l.now) lines.now }
{
    for line in lines {
        if !is_kept(own, *line) {
            return false;
        }
    }
    true
}

// A file, with a line feed behind its last line.
fn with_feed(alloc: Global, file: &[u8]) -> Result<Vec<u8>, AllocError>
    ensures fed { IfOk result (λ v. (v.items ≡ file.now) ⊎ (v.items ≡ file.now ++ 10 ∷ [])) }
{
    let mut text = Vec::from_slice(alloc, file)?;
    if !file.is_empty() && !file.ends_with(b"\n") {
        text.push(b'\n')?;
    }
    Ok(text)
}

// Whether each of a script's lines is one of these, which are put in order, or asks for an event.
fn keeps_to(lines: &[&[u8]], own: Vec<&[u8]>) -> Result<bool, AllocError>
    ensures keeps { IfOk result (λ r. r ≡ true → All (λ l. IsKept (map (λ o. o.now) own.entry.items) l.now) lines.now) }
{
    let mut own = own;
    own.sort()?;
    Ok(are_kept(&own, lines))
}

/// Whether each line of a script stands in a cores file, or asks for an event of a core. `false` also where the script
/// doesn't end with a line feed.
///
/// # Errors
/// Out of memory.
pub fn keeps_to_file(alloc: Global, script: &[u8], file: &[u8]) -> Result<bool, AllocError>
    ensures keeps { IfOk result (λ r. r ≡ true → KeepsToFile script.now file.now) }
{
    let text = with_feed(alloc, file)?;
    let Some(lines) = lines_of(alloc, script)? else {
        return Ok(false);
    };
    let Some(own) = lines_of(alloc, &text)? else {
        return Ok(false);
    };
    keeps_to(&lines, own)
}
