//! The steps of code, from its last instruction to its first.

ghost use Rattle.std.specs.Prelude.{◌≡◌, ◌∷◌, [], ℕ, List, OnOk, IfOk, IfSome};
ghost use Rattle.fl_stub.specs.declared.op.Op.{Op as the_op};
ghost use Rattle.fl_stub.specs.Structure.{Block, finished, one, times, counted};
ghost use Rattle.fl_stub.specs.Meaning.{move_of};
ghost use Rattle.fl_stub.specs.Frames.{frames_of, starts_with, closes, block_of};
ghost use Rattle.fl_stub_steps.specs.Spreading.{Spread, copied, padded, aligned, move_spread};
ghost use Rattle.fl_stub_steps.specs.Spreading.{repeated, length_at};
ghost use Rattle.fl_stub_steps.specs.Steps.{step_of, step_done, steps_in, done, Means};
ghost use Rattle.fl_stub_steps.specs.Opened.{Opened};

use crate::step::{PreparedCode, StubStep};
use fl_stub::{Op, VerifiedCode};
use std::alloc::{AllocError, Global};

// The step that copies so many bytes and then does what this one does, if one step can.
fn copying_first(bytes: usize, step: &StubStep) -> Option<StubStep>
    ensures { IfSome result (λ s. (x : Spread) → step_done (step_of s) x
        ≡ step_done (step_of step.now) (copied bytes x)) }
{
    match step {
        StubStep::Span(more, zeros) => Some(StubStep::Span(bytes.checked_add(*more)?, *zeros)),
        _ => None,
    }
}

// A copy of so many bytes, before the steps.
fn put_copy(steps: &mut Vec<StubStep>, bytes: usize) -> Result<(), AllocError>
    ensures { OnOk result ((x : Spread) → done steps.new.items x ≡ done steps.old.items (copied bytes x)) }
{
    let Some(first) = steps.pop() else {
        steps.push(StubStep::Span(bytes, 0))?;
        return Ok(());
    };
    match copying_first(bytes, &first) {
        Some(both) => {
            steps.push(both)?;
            Ok(())
        }
        None => {
            steps.push(first)?;
            steps.push(StubStep::Span(bytes, 0))?;
            Ok(())
        }
    }
}

// How many bytes the steps copy, if they do nothing else.
fn bytes_of(steps: &[StubStep]) -> Option<usize>
    ensures { IfSome result (λ bytes. (x : Spread) → done steps.now x ≡ copied bytes x) }
{
    match steps {
        [StubStep::Span(bytes, 0)] => Some(*bytes),
        _ => None,
    }
}

// A loop of so many turns, before the steps.
fn put_times(steps: &mut Vec<StubStep>, turns: u32, body: Vec<StubStep>) -> Result<(), AllocError>
    ensures { OnOk result ((x : Spread) → done steps.new.items x
        ≡ done steps.old.items (repeated (done body.items) turns x)) }
{
    if let Some(bytes) = bytes_of(&body) {
        if let Some(all) = bytes.checked_mul(turns as usize) {
            return put_copy(steps, all);
        }
    }
    steps.push(StubStep::Times(turns, body))?;
    Ok(())
}

// A length and its loop, before the steps.
fn put_counted(steps: &mut Vec<StubStep>, body: Vec<StubStep>) -> Result<(), AllocError>
    ensures { OnOk result ((x : Spread) → done steps.new.items x
        ≡ done steps.old.items (repeated (done body.items) (length_at x.left) (copied 8 x))) }
{
    match bytes_of(&body) {
        Some(bytes) => {
            steps.push(StubStep::Each(bytes))?;
            Ok(())
        }
        None => {
            steps.push(StubStep::Counted(body))?;
            Ok(())
        }
    }
}

// So many zeros, before the steps.
fn put_zeros(steps: &mut Vec<StubStep>, zeros: u32) -> Result<(), AllocError>
    ensures { OnOk result ((x : Spread) → done steps.new.items x ≡ done steps.old.items (padded zeros x)) }
{
    steps.push(StubStep::Span(0, zeros))?;
    Ok(())
}

// Zeros up to a multiple of 8, before the steps.
fn put_align(steps: &mut Vec<StubStep>) -> Result<(), AllocError>
    ensures { OnOk result ((x : Spread) → done steps.new.items x ≡ done steps.old.items (aligned x)) }
{
    steps.push(StubStep::Align)?;
    Ok(())
}

// An instruction that moves something, before the steps; one that moves nothing changes nothing.
fn put_move(steps: &mut Vec<StubStep>, op: Op) -> Result<(), AllocError>
    ensures { OnOk result ((x : Spread) → done steps.new.items x ≡ done steps.old.items (move_spread (move_of op) x)) }
{
    match op {
        Op::Emit(bytes) | Op::Read(bytes) => put_copy(steps, bytes as usize),
        Op::ReadEnum(_) => put_copy(steps, 4),
        Op::ReadBool | Op::ReadChar | Op::ReadText => put_copy(steps, 1),
        Op::Pad(zeros) | Op::Skip(zeros) => put_zeros(steps, zeros),
        Op::Align => put_align(steps),
        _ => Ok(()),
    }
}

// A block begins that ends here: it has no steps yet.
fn put_block(alloc: Global, stack: &mut Vec<Vec<StubStep>>) -> Result<(), AllocError>
    ensures { (blocks : List Block) → Opened stack.old.items blocks
        → OnOk result (Opened stack.new.items (finished ∷ blocks)) }
{
    stack.push(Vec::new(alloc))?;
    Ok(())
}

// The code ends here: one block, which has no steps yet.
fn put_last(alloc: Global, stack: &mut Vec<Vec<StubStep>>) -> Result<(), AllocError>
    ensures { OnOk result (Opened stack.new.items (finished ∷ [])) }
{
    stack.clear();
    put_block(alloc, stack)
}

// An instruction that is no loop, in the innermost block.
fn put_inside(stack: &mut Vec<Vec<StubStep>>, op: Op) -> Result<(), AllocError>
    ensures { (blocks : List Block) → Opened stack.old.items blocks
        → OnOk result (Opened stack.new.items (starts_with (one op) blocks)) }
{
    let Some(inner) = stack.pop() else {
        return Ok(());
    };
    let mut inner = inner;
    put_move(&mut inner, op)?;
    stack.push(inner)?;
    Ok(())
}

// The innermost block is a loop's, in the one around it.
fn close_times(stack: &mut Vec<Vec<StubStep>>, turns: u32) -> Result<(), AllocError>
    ensures { (blocks : List Block) → Opened stack.old.items blocks
        → OnOk result (Opened stack.new.items (closes (times turns) blocks)) }
{
    let Some(body) = stack.pop() else {
        return Ok(());
    };
    let Some(outer) = stack.pop() else {
        return Ok(());
    };
    let mut outer = outer;
    put_times(&mut outer, turns, body)?;
    stack.push(outer)?;
    Ok(())
}

// As `close_times`, of a loop that a length counts.
fn close_counted(stack: &mut Vec<Vec<StubStep>>) -> Result<(), AllocError>
    ensures { (blocks : List Block) (most : ℕ) → Opened stack.old.items blocks
        → OnOk result (Opened stack.new.items (closes (counted most) blocks)) }
{
    let Some(body) = stack.pop() else {
        return Ok(());
    };
    let Some(outer) = stack.pop() else {
        return Ok(());
    };
    let mut outer = outer;
    put_counted(&mut outer, body)?;
    stack.push(outer)?;
    Ok(())
}

// An instruction before those whose open blocks these are.
fn put(alloc: Global, stack: &mut Vec<Vec<StubStep>>, op: Op) -> Result<(), AllocError>
    ensures { (ops : List the_op) → Opened stack.old.items (frames_of ops)
        → OnOk result (Opened stack.new.items (frames_of (op ∷ ops))) }
{
    match op {
        Op::End | Op::Done => put_last(alloc, stack),
        Op::Back => put_block(alloc, stack),
        Op::Each => Ok(()),
        Op::Times(turns) => close_times(stack, turns),
        Op::Length(_) | Op::ReadLength(_) => close_counted(stack),
        _ => put_inside(stack, op),
    }
}

/// The code as larger steps: at most as many as it has instructions, which no clause says.
///
/// # Errors
/// Out of memory (E99), and nothing else.
pub fn prepare(alloc: Global, code: &VerifiedCode) -> Result<PreparedCode, AllocError>
    ensures means { IfOk result (λ prepared. Means (steps_in prepared) (block_of code.now.ops)) }
{
    let ops = code.ops();
    let mut stack = Vec::new(alloc);
    let mut place = ops.len();
    while place > 0 {
        place -= 1;
        put(alloc, &mut stack, ops[place])?;
    }
    match stack.pop() {
        Some(steps) => Ok(PreparedCode { steps }),
        None => Ok(PreparedCode {
            steps: Vec::new(alloc),
        }),
    }
}
