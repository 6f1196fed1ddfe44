//! Cores files, and what is told of them.

use fl_core_run::Gate;
use fl_cores::{CoresEnd, CoresFault, run_cores_text};
use std::alloc::{AllocError, Global};
use std::sync::Wait;
use std::thread::Threads;

/// What came of a text.
#[derive(Drop)]
pub struct TextOutcome {
    pub end: CoresEnd,
    pub text: Vec<u8>,
}

/// Runs a text.
pub fn run<R: Threads + Wait + Sync, G: Gate + Sync>(
    rt: &R,
    alloc: Global,
    text: &[u8],
    limit: u64,
    gate: &G,
) -> Result<TextOutcome, CoresFault> {
    let mut out = Vec::new(alloc);
    let end = run_cores_text(rt, alloc, text, limit, gate, &mut out)?;
    Ok(TextOutcome { end, text: out })
}

/// Whether a text's run comes to this end, and tells this.
pub fn comes_to<R: Threads + Wait + Sync, G: Gate + Sync>(
    rt: &R,
    alloc: Global,
    text: &[u8],
    limit: u64,
    gate: &G,
    wanted: (CoresEnd, &[u8]),
) -> Result<bool, CoresFault> {
    let outcome = run(rt, alloc, text, limit, gate)?;
    Ok(outcome.end == wanted.0 && outcome.text.as_slice() == wanted.1)
}

/// Appends a line for each number: a line's start, the number and its end.
pub fn add_lines(
    alloc: Global,
    text: &mut Vec<u8>,
    start: &str,
    numbers: (u64, u64),
) -> Result<(), AllocError> {
    for number in numbers.0..numbers.1 {
        let line = format!(in alloc; "{start} ping({number})\n")?;
        text.extend_from_slice(line.as_bytes())?;
    }
    Ok(())
}

/// How many of such lines a text begins with, and what follows them.
pub fn skip_lines<'a>(
    alloc: Global,
    text: &'a [u8],
    start: &str,
    numbers: (u64, u64),
) -> Result<(u64, &'a [u8]), AllocError> {
    let mut rest = text;
    for number in numbers.0..numbers.1 {
        let line = format!(in alloc; "{start} ping({number})\n")?;
        match rest.strip_prefix(line.as_bytes()) {
            Some(behind) => rest = behind,
            None => return Ok((number.saturating_sub(numbers.0), rest)),
        }
    }
    Ok((numbers.1.saturating_sub(numbers.0), rest))
}
