//! The packed tape that prepared code takes back from a payload.

ghost use Rattle.std.specs.Prelude.{◌≡◌, ◌%◌, drop, length, IfOk};
ghost use Rattle.fl_stub_steps.specs.Spreading.{spread_of};
ghost use Rattle.fl_stub_steps.specs.Steps.{step_of, steps_in};
ghost use Rattle.fl_stub_steps.specs.Taking.{step_taken, taken, steps_taken};

use crate::give::{copy, copy_each, length_at};
use crate::step::{PreparedCode, StubStep};
use std::alloc::AllocError;

// What is left once so many bytes are skipped, or as many as there are.
#[inline(always)]
fn pass(count: usize, payload: &[u8]) -> &[u8]
    ensures { result.now ≡ drop count payload.now }
{
    let (_passed, left) = payload.split_at(count.min(payload.len()));
    left
}

// What is left from the next multiple of 8 on, counted from the end.
#[inline(always)]
fn pass_to_8(payload: &[u8]) -> &[u8]
    ensures { result.now ≡ drop (length payload.now % 8) payload.now }
{
    pass(payload.len() % 8, payload)
}

#[cycle(takes)]
fn take_step<'p>(
    step: &StubStep,
    payload: &'p [u8],
    tape: &mut Vec<u8>,
) -> Result<&'p [u8], AllocError>
    ensures taken { IfOk result (λ left. spread_of tape.new.items left.now
        ≡ step_taken (step_of step.now) (spread_of tape.old.items payload.now)) }
{
    match step {
        StubStep::Span(bytes, zeros) => {
            let left = copy(*bytes, payload, tape)?;
            Ok(pass(*zeros as usize, left))
        }
        StubStep::Align => Ok(pass_to_8(payload)),
        StubStep::Each(bytes) => {
            let count = length_at(payload);
            let left = copy(8, payload, tape)?;
            copy_each(*bytes, count, left, tape)
        }
        StubStep::Counted(steps) => {
            let count = length_at(payload);
            let mut left = copy(8, payload, tape)?;
            for turn in 0..count {
                left = take_steps(steps, left, tape)?;
            }
            Ok(left)
        }
        StubStep::Times(turns, steps) => {
            let mut left = payload;
            for again in 0..*turns {
                left = take_steps(steps, left, tape)?;
            }
            Ok(left)
        }
    }
}

// The last step first.
#[cycle(takes)]
fn take_steps<'p>(
    steps: &[StubStep],
    payload: &'p [u8],
    tape: &mut Vec<u8>,
) -> Result<&'p [u8], AllocError>
    ensures taken { IfOk result (λ left. spread_of tape.new.items left.now
        ≡ taken steps.now (spread_of tape.old.items payload.now)) }
{
    let mut left = payload;
    let mut more = steps.len();
    while more > 0 {
        more -= 1;
        left = take_step(&steps[more], left, tape)?;
    }
    Ok(left)
}

impl PreparedCode {
    /// Appends the packed tape that the code takes from a payload, and tells what is left. Where the bytes begin with what the
    /// code makes of a tape, and their number is a multiple of 8, that tape is appended, and what stands behind is left
    /// ([`law_takes_back`]). Zeros aren't looked at.
    ///
    /// # Errors
    /// Out of memory (E99), and nothing else. Nothing is known of what stands on the tape then.
    pub fn take<'p>(&self, payload: &'p [u8], tape: &mut Vec<u8>) -> Result<&'p [u8], AllocError>
        ensures taken { IfOk result (λ left. spread_of tape.new.items left.now
            ≡ steps_taken (steps_in self.now) (spread_of tape.old.items payload.now)) }
    {
        take_steps(&self.steps, payload, tape)
    }
}
