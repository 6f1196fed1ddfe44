//! What a handle leads to.

ghost use Rattle.std.specs.Prelude.{◌≡◌, ◌≢◌, ◌↔◌, IfOk, OnOk, Err};
ghost use Rattle.fl_ring.specs.Duo.{MayHaveSlots};
ghost use Rattle.fl_ring.specs.SharedSides.{TheSide, started_side};
ghost use Rattle.fl_ring.specs.declared.shared.duo_board.SeatHolder.TheVariants.{One, Two};
ghost use Rattle.fl_c_operations.specs.declared.handle.Handle.TheVariants.{Side};
ghost use Rattle.fl_c_operations.specs.Numbers.{operation_at};
ghost use Rattle.fl_compile.specs.Programs.{program_of};
ghost use Rattle.fl_c_operations.specs.Handles.{Frees, UsesKind, Uses, MakesRun};

use crate::answer::{Answered, Outcome, UseFault};
use crate::end::{HeldEnd, use_end};
use crate::operation::Operation;
use crate::program::HeldProgram;
use crate::receiver::{HeldReceiver, use_receiver};
use crate::sender::{HeldSender, use_sender};
use crate::side::use_side;
use fl_endpoint::EndFault;
use fl_ring::{RingFault, SharedSide, duo};
use std::alloc::{AllocError, Global};
use std::mem::{align_of, size_of};

// The number that frees.
const FREE: u32 = 5;

// The numbers of two operations in one.
const SEND: u32 = 16;

const TAKE_CALL: u32 = 17;

// The numbers of runs.
const SEND_RUN: u32 = 1;

const RECEIVE_RUN: u32 = 2;

/// What a handle leads to.
#[derive(Drop)]
pub enum Handle {
    /// A side of a ring of two directions.
    Side(SharedSide),
    /// An end over its side.
    End(HeldEnd),
    /// A program alone.
    Program(HeldProgram),
    /// A send run of a program.
    Sender(HeldSender),
    /// A receive run of a program.
    Receiver(HeldReceiver),
    /// Nothing: what was there is freed.
    Ended,
}

/// What the two sides of a new ring of two directions are, each with so many slots.
///
/// # Errors
/// A ring can't have this number of slots (E32), out of memory (E99).
#[inline]
pub fn ring_handles(alloc: Global, slots: usize) -> Result<(Handle, Handle), RingFault>
    ensures sides { IfOk result (λ made. (one : TheSide) × (made.0 ≡ Side one) × (two : TheSide) × (made.1 ≡ Side two)
        × (one ≡ started_side two.ring One slots 0) × (two ≡ started_side two.ring Two slots 0)) }
    ensures sized { OnOk result (MayHaveSlots slots) }
    ensures bad_size { (result ≡ Err RingFault.BadSize) ↔ (¬ MayHaveSlots slots) }
{
    let (one, two) = duo(alloc, slots)?;
    Ok((Handle::Side(one), Handle::Side(two)))
}

/// A new run of a program: 1 is a send run, 2 a receive run.
///
/// # Errors
/// There is no run of another number (101); out of memory (99).
pub fn new_run(program: &HeldProgram, kind: u32) -> Result<Handle, UseFault>
    ensures makes { MakesRun (program_of program.now.program) kind result }
{
    match kind {
        SEND_RUN => match program.sender() {
            Ok(run) => Ok(Handle::Sender(run)),
            Err(AllocError) => Err(UseFault::End(EndFault::Memory)),
        },
        RECEIVE_RUN => match program.receiver() {
            Ok(run) => Ok(Handle::Receiver(run)),
            Err(AllocError) => Err(UseFault::End(EndFault::Memory)),
        },
        _ => Err(UseFault::NoSuchOperation),
    }
}

// Makes a call at an end, and puts its first fragment.
#[inline(always)]
fn send(handle: &mut Handle, numbers: &[u64]) -> Answered
    ensures uses { Uses handle.old 16 numbers.now result handle.new numbers.now }
{
    match handle {
        Handle::End(end) => end.send(numbers),
        _ => Answered::of(Err(UseFault::NoSuchOperation)),
    }
}

// Takes a fragment at an end, and reads the call that it makes whole.
#[inline(always)]
fn take_call(handle: &mut Handle, room: &mut [u64]) -> Answered
    ensures uses { Uses handle.old 17 room.old result handle.new room.new }
{
    match handle {
        Handle::End(end) => end.take_call(room),
        _ => Answered::of(Err(UseFault::NoSuchOperation)),
    }
}

// As `send` and `take_call`, out of line: with them in line `use_handle` would be too large to be in line itself.
#[inline(never)]
fn send_apart(handle: &mut Handle, numbers: &[u64]) -> Answered
    ensures uses { Uses handle.old 16 numbers.now result handle.new numbers.now }
{
    send(handle, numbers)
}

#[inline(never)]
fn take_call_apart(handle: &mut Handle, room: &mut [u64]) -> Answered
    ensures uses { Uses handle.old 17 room.old result handle.new room.new }
{
    take_call(handle, room)
}

/// Does the operation of this number at a handle, on these numbers, and answers by numbers. 5 frees
/// what the handle leads to, but for the handle's own block, and answers its alignment and size. In line, so that
/// an export of one operation alone has nothing of the others.
#[inline(always)]
pub fn use_handle(handle: &mut Handle, what: u32, numbers: &mut [u64]) -> Answered
    ensures uses { Uses handle.old what numbers.old result handle.new numbers.new }
{
    if what == SEND {
        return send_apart(handle, numbers);
    }
    if what == TAKE_CALL {
        return take_call_apart(handle, numbers);
    }
    Answered::of(attempt(handle, what, numbers))
}

// The same, out of line.
#[cold]
#[inline(never)]
fn use_apart(handle: &mut Handle, what: u32, numbers: &mut [u64]) -> Answered
    ensures uses { Uses handle.old what numbers.old result handle.new numbers.new }
{
    use_handle(handle, what, numbers)
}

/// The same, for an export that makes calls and puts their first fragments (16): that is in line.
#[inline(always)]
pub fn use_sending(handle: &mut Handle, what: u32, numbers: &mut [u64]) -> Answered
    ensures uses { Uses handle.old what numbers.old result handle.new numbers.new }
{
    if what == SEND {
        return send(handle, numbers);
    }
    use_apart(handle, what, numbers)
}

/// The same, for an export that takes fragments and reads the calls that they make whole (17): that is in line.
#[inline(always)]
pub fn use_taking(handle: &mut Handle, what: u32, numbers: &mut [u64]) -> Answered
    ensures uses { Uses handle.old what numbers.old result handle.new numbers.new }
{
    if what == TAKE_CALL {
        return take_call(handle, numbers);
    }
    use_apart(handle, what, numbers)
}

#[inline(always)]
fn attempt(handle: &mut Handle, what: u32, numbers: &mut [u64]) -> Result<Outcome, UseFault>
    ensures frees { what ≡ 5 → Frees numbers.old result handle.new numbers.new }
    ensures uses { what ≢ 5 → UsesKind (operation_at what) handle.old numbers.old result handle.new numbers.new }
{
    if what == FREE {
        *handle = Handle::Ended;
        let align = align_of::<Handle>() as u32;
        let size = size_of::<Handle>() as u64;
        return Ok(Outcome::Freed { align, size });
    }
    let Some(operation) = Operation::at(what) else {
        return Err(UseFault::NoSuchOperation);
    };
    match handle {
        Handle::Side(side) => use_side(side, operation, numbers),
        Handle::End(end) => use_end(end, operation, numbers),
        Handle::Program(program) => program.ask(operation, numbers),
        Handle::Sender(run) => use_sender(run, operation, numbers),
        Handle::Receiver(run) => use_receiver(run, operation, numbers),
        Handle::Ended => Err(UseFault::NoSuchOperation),
    }
}
