//! Calls as numbers: a message's, and its tape (`fl_value_data::flatten`), which is one number for each scalar
//! and each byte of a text, and a length before each string and sized array, in the plan's order.

ghost use Rattle.std.specs.Prelude.{◌≡◌, ◌+◌, ◌<◌, ◌≤◌, [], ◌∷◌, ◌++◌, length, drop, IfSome, IfNone};
ghost use Rattle.fl_compile.specs.Programs.{program_of};
ghost use Rattle.fl_c_operations.specs.Calls.{IsNoMessage, ReadsCall, PutsCall};

use crate::answer::UseFault;
use crate::tapes::is_tape;
use fl_base::MsgNo;
use fl_compile::Program;
use fl_endpoint::EndFault;
use fl_value_data::{Call, flatten_into, unflatten};
use std::alloc::{AllocError, Global};

/// The message of a number.
pub(crate) fn message_at(program: &Program, number: u64) -> Option<MsgNo>
    ensures some { IfSome result (λ message. (message.0 ≡ number) × (number < length (program_of program.now).interface.messages)) }
    ensures none { IfNone result (IsNoMessage (program_of program.now).interface number) }
{
    let message = u16::try_from(number).ok()?;
    if usize::from(message) < program.interface().messages.len() {
        Some(MsgNo(message))
    } else {
        None
    }
}

// The first of some numbers, and the others.
#[inline]
pub(crate) fn first_and_rest(numbers: &[u64]) -> Option<(u64, &[u64])>
    ensures some { IfSome result (λ r. numbers.now ≡ r.0 ∷ r.1.now) }
    ensures none { IfNone result (numbers.now ≡ []) }
{
    match numbers {
        [] => None,
        [first, rest @ ..] => Some((*first, rest)),
    }
}

/// The call of these numbers: its message's, and its tape; none where memory ran out for it.
pub(crate) fn read_numbers(
    alloc: Global,
    program: &Program,
    numbers: &[u64],
) -> Result<Option<Call>, UseFault>
    ensures reads { ReadsCall (program_of program.now) numbers.now result }
{
    let Some((message, tape)) = first_and_rest(numbers) else {
        return Err(UseFault::WrongRoom);
    };
    let Some(message) = message_at(program, message) else {
        return Err(UseFault::End(EndFault::UnknownMessage));
    };
    match unflatten(alloc, message, tape, program.interface(), program.plan()) {
        Err(AllocError) => without_memory(program, message, tape),
        Ok(None) => Err(UseFault::End(EndFault::Misfit)),
        Ok(Some(call)) => Ok(Some(call)),
    }
}

// What is known of a call's numbers where memory ran out: whether they are a call's.
#[cold]
#[inline(never)]
fn without_memory(program: &Program, message: MsgNo, tape: &[u64]) -> Result<Option<Call>, UseFault>
    requires known { message.0 < length (program_of program.now).interface.messages }
    ensures reads { ReadsCall (program_of program.now) (message.0 ∷ tape.now) result }
{
    if !is_tape(message, tape, program.interface(), program.plan()) {
        return Err(UseFault::End(EndFault::Misfit));
    }
    Ok(None)
}

/// Writes a call's message and tape into the first places of a room.
#[inline(always)]
pub(crate) fn write_numbers(room: &mut [u64], message: u16, tape: &[u64])
    requires room { length tape.now + 1 ≤ length room.old }
    ensures numbers { room.new ≡ (message ∷ tape.now) ++ drop (length tape.now + 1) room.old }
{
    let (first, rest) = room.split_at_mut(1);
    first[0] = u64::from(message);
    let (rest, _) = rest.split_at_mut(tape.len());
    rest.copy_from_slice(tape);
}

/// Puts a call's message and tape into the first places of a room, and tells how many numbers these are.
pub(crate) fn put_numbers(
    program: &Program,
    call: &Call,
    spare: &mut Vec<u64>,
    room: &mut [u64],
) -> Result<u64, UseFault>
    ensures puts { PutsCall (program_of program.now) call.now room.old result room.new }
{
    let message = call.msg.0;
    let Ok(()) = flatten_into(spare, call, program.interface(), program.plan()) else {
        return Err(UseFault::End(EndFault::Memory));
    };
    let count = spare.len() as u64 + 1;
    if (room.len() as u64) < count {
        return Err(UseFault::ShortRoom { wanted: count });
    }
    write_numbers(room, message, spare);
    Ok(count)
}
