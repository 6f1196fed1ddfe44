//! The bytes that prepared code gives.

ghost use Rattle.std.specs.Prelude.{◌≡◌, ◌≤◌, ◌++◌, ◌*◌, ℕ, List, length, replicate, IfOk, OnOk};
ghost use Rattle.std.specs.Bool.{IsTrue};
ghost use Rattle.fl_stub_steps.specs.declared.step.StubStep.TheVariants.{Align as align_step};
ghost use Rattle.fl_stub.specs.Meaning.{gap_to_8};
ghost use Rattle.fl_stub_steps.specs.Spreading.{Spread, spread_of, spread_first, copied, length_at as length_of};
ghost use Rattle.fl_stub_steps.specs.Steps.{step_of, step_done, done, steps_done, steps_in, all_of, IsPlain};

use crate::step::{PreparedCode, StubStep};
use std::alloc::AllocError;

// The next bytes of the tape, so many or as many as there are; what is left of it.
#[inline(always)]
fn copy_any<'t>(count: usize, tape: &'t [u8], out: &mut Vec<u8>) -> Result<&'t [u8], AllocError>
    ensures copied { IfOk result (λ left. spread_of out.new.items left.now
        ≡ copied count (spread_of out.old.items tape.now)) }
{
    let (next, left) = tape.split_at(count.min(tape.len()));
    out.extend_from_slice(next)?;
    Ok(left)
}

// As `copy_any`: where the count is known, the compiler makes it a move.
#[inline(always)]
fn copy_few<'t>(count: usize, tape: &'t [u8], out: &mut Vec<u8>) -> Result<&'t [u8], AllocError>
    ensures copied { IfOk result (λ left. spread_of out.new.items left.now
        ≡ copied count (spread_of out.old.items tape.now)) }
{
    if tape.len() < count {
        return copy_any(count, tape, out);
    }
    let (next, left) = tape.split_at(count);
    out.extend_from_slice(next)?;
    Ok(left)
}

// As `copy_any`. Counts that are common are told apart first.
#[inline(always)]
pub(crate) fn copy<'t>(
    count: usize,
    tape: &'t [u8],
    out: &mut Vec<u8>,
) -> Result<&'t [u8], AllocError>
    ensures copied { IfOk result (λ left. spread_of out.new.items left.now
        ≡ copied count (spread_of out.old.items tape.now)) }
{
    match count {
        1 => copy_few(1, tape, out),
        2 => copy_few(2, tape, out),
        4 => copy_few(4, tape, out),
        8 => copy_few(8, tape, out),
        9 => copy_few(9, tape, out),
        10 => copy_few(10, tape, out),
        12 => copy_few(12, tape, out),
        16 => copy_few(16, tape, out),
        _ => copy_any(count, tape, out),
    }
}

// A few zeros: where the count is known, the compiler makes it a store.
#[inline(always)]
fn pad_few(zeros: u32, out: &mut Vec<u8>) -> Result<(), AllocError>
    requires few { zeros ≤ 8 }
    ensures padded { OnOk result (out.new.items ≡ out.old.items ++ replicate zeros 0) }
{
    out.extend_from_slice(&[0; 8][..zeros as usize])
}

// So many zeros.
#[inline(always)]
fn pad(zeros: u32, out: &mut Vec<u8>) -> Result<(), AllocError>
    ensures padded { OnOk result (out.new.items ≡ out.old.items ++ replicate zeros 0) }
{
    match zeros {
        0 => Ok(()),
        1 => pad_few(1, out),
        2 => pad_few(2, out),
        3 => pad_few(3, out),
        4 => pad_few(4, out),
        5 => pad_few(5, out),
        6 => pad_few(6, out),
        7 => pad_few(7, out),
        _ => pad_slowly(zeros, out),
    }
}

#[inline(never)]
fn pad_slowly(zeros: u32, out: &mut Vec<u8>) -> Result<(), AllocError>
    ensures padded { OnOk result (out.new.items ≡ out.old.items ++ replicate zeros 0) }
{
    for index in 0..zeros {
        out.push(0)?;
    }
    Ok(())
}

// Zeros up to a multiple of 8.
#[inline(always)]
fn align(out: &mut Vec<u8>) -> Result<(), AllocError>
    ensures padded { OnOk result (out.new.items ≡ out.old.items ++ replicate (gap_to_8 (length out.old.items)) 0) }
{
    let gap = (8 - out.len() % 8) % 8;
    pad(gap as u32, out)
}

// The number that the next 8 bytes are; 0 where there are fewer.
#[inline(always)]
pub(crate) fn length_at(tape: &[u8]) -> u64
    ensures { result ≡ length_of tape.now }
{
    if tape.len() < 8 {
        return 0;
    }
    u64::from_le_bytes([
        tape[0], tape[1], tape[2], tape[3], tape[4], tape[5], tape[6], tape[7],
    ])
}

// So many bytes of the tape, so often.
pub(crate) fn copy_each<'t>(
    bytes: usize,
    turns: u64,
    tape: &'t [u8],
    out: &mut Vec<u8>,
) -> Result<&'t [u8], AllocError>
    ensures copied { IfOk result (λ left. spread_of out.new.items left.now
        ≡ copied (turns * bytes) (spread_of out.old.items tape.now)) }
{
    let count = match (turns as usize).checked_mul(bytes) {
        Some(count) => count,
        None => tape.len(),
    };
    copy(count, tape, out)
}

#[cycle(steps)]
fn give_step<'t>(step: &StubStep, tape: &'t [u8], out: &mut Vec<u8>) -> Result<&'t [u8], AllocError>
    ensures done { IfOk result (λ left. spread_of out.new.items left.now
        ≡ step_done (step_of step.now) (spread_of out.old.items tape.now)) }
{
    match step {
        StubStep::Span(bytes, zeros) => {
            let left = copy(*bytes, tape, out)?;
            pad(*zeros, out)?;
            Ok(left)
        }
        StubStep::Align => {
            align(out)?;
            Ok(tape)
        }
        StubStep::Each(bytes) => {
            let count = length_at(tape);
            let left = copy(8, tape, out)?;
            copy_each(*bytes, count, left, out)
        }
        StubStep::Counted(steps) => {
            let count = length_at(tape);
            let mut left = copy(8, tape, out)?;
            for turn in 0..count {
                left = give_steps(steps, left, out)?;
            }
            Ok(left)
        }
        StubStep::Times(turns, steps) => {
            let mut left = tape;
            for again in 0..*turns {
                left = give_steps(steps, left, out)?;
            }
            Ok(left)
        }
    }
}

// The last step first.
#[cycle(steps)]
fn give_steps<'t>(
    steps: &[StubStep],
    tape: &'t [u8],
    out: &mut Vec<u8>,
) -> Result<&'t [u8], AllocError>
    ensures done { IfOk result (λ left. spread_of out.new.items left.now
        ≡ done steps.now (spread_of out.old.items tape.now)) }
{
    let mut left = tape;
    let mut more = steps.len();
    while more > 0 {
        more -= 1;
        left = give_step(&steps[more], left, out)?;
    }
    Ok(left)
}

// Whether a step gives bytes of the tape alone.
fn is_copy(step: &StubStep) -> bool
    ensures { IsTrue result → (x : Spread) → all_of (step_done (step_of step.now) x) ≡ all_of x }
{
    match step {
        StubStep::Span(_, 0) | StubStep::Each(_) => true,
        _ => false,
    }
}

fn are_copies(steps: &[StubStep]) -> bool
    ensures { IsTrue result → (x : Spread) → all_of (done steps.now x) ≡ all_of x }
{
    for step in steps {
        if !is_copy(step) {
            return false;
        }
    }
    true
}

fn is_align(step: &StubStep) -> bool
    ensures { IsTrue result → step.now ≡ align_step }
{
    match step {
        StubStep::Align => true,
        _ => false,
    }
}

// The steps behind zeros that come first: before the first byte they are none.
fn without_align(steps: &[StubStep]) -> &[StubStep]
    ensures { ((x : Spread) → all_of (done result.now x) ≡ all_of x)
        → (packed : List ℕ) → all_of (done steps.now (spread_first packed)) ≡ packed }
{
    let mut count = steps.len();
    if count == 0 {
        return steps;
    }
    count -= 1;
    let first = &steps[count];
    if !is_align(first) {
        return steps;
    }
    &steps[..count]
}

impl PreparedCode {
    /// Whether it is seen that the code puts nothing between a tape's bytes: then the tape is the payload. Zeros up to a
    /// multiple of 8 before the first byte are none. Of some such code it isn't seen.
    pub fn is_plain(&self) -> bool
        ensures plain { IsTrue result → IsPlain (steps_in self.now) }
    {
        are_copies(without_align(&self.steps))
    }

    /// Appends the bytes that the code makes of a packed tape, to an empty list: behind other bytes, zeros up to a multiple
    /// of 8 count those, too. A tape that is too short gives what its bytes give.
    ///
    /// # Errors
    /// Out of memory (E99), and nothing else. Nothing is known of what stands there then.
    pub fn give(&self, tape: &[u8], out: &mut Vec<u8>) -> Result<(), AllocError>
        ensures given { OnOk result (out.new.items
            ≡ (steps_done (steps_in self.now) (spread_of out.old.items tape.now)).given) }
    {
        let _left = give_steps(&self.steps, tape, out)?;
        Ok(())
    }
}
