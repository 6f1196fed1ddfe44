//! A call that was handled, until it is read.

ghost use Rattle.std.specs.Prelude.{◌≡◌, List, [], ◌∷◌, IfSome};
ghost use Rattle.fl_ring.specs.SharedSides.{TheSide};
ghost use Rattle.fl_machine.specs.Reassembling.{TheReassembly};
ghost use Rattle.fl_endpoint.specs.View.{TheEnd};
ghost use Rattle.fl_compile.specs.Programs.{program_of};
ghost use Rattle.fl_codec.specs.Codecs.{numbers_of};
ghost use Rattle.fl_value_data.specs.Value.{call_of};
ghost use Rattle.fl_c_operations.specs.Calls.{numbers_of_call, PutsNumbers};
ghost use Rattle.fl_c_operations.specs.View.{numbers_unread, handled_by, held_as};
ghost use Rattle.fl_c_operations.specs.Ends.{stays_as, ReadsBy};

use crate::answer::{Outcome, UseFault};
use crate::by_stub::TapedCall;
use crate::calls::{put_numbers, write_numbers};
use crate::short::ShortCall;
use fl_compact_calls::{CompactCall, NumberCall, SeenCall, has_plain_number};
use fl_compile::Program;
use fl_endpoint::EndFault;
use fl_value_data::Call;
use std::alloc::Global;

/// A call that was handled, until it is read.
#[derive(Drop)]
pub(crate) enum UnreadCall {
    /// As it came.
    Whole(CompactCall),
    /// One of few numbers, by its tape.
    Short(ShortCall),
    /// Another of one fragment, by its tape.
    Taped(TapedCall),
}

// Puts a call's message and tape into the first places of a room, and tells how many numbers these are.
#[inline(always)]
fn put_tape(message: u16, tape: &[u64], room: &mut [u64]) -> Result<u64, UseFault>
    ensures puts { PutsNumbers (message ∷ tape.now) room.old result room.new }
{
    let count = tape.len() as u64 + 1;
    if (room.len() as u64) < count {
        return Err(UseFault::ShortRoom { wanted: count });
    }
    write_numbers(room, message, tape);
    Ok(count)
}

/// The same of a short call.
#[inline(always)]
pub(crate) fn put_short(call: &ShortCall, room: &mut [u64]) -> Result<u64, UseFault>
    ensures puts { PutsNumbers (call.now.msg.0 ∷ numbers_of call.now.numbers) room.old result room.new }
{
    put_tape(call.msg.0, call.tape(), room)
}

// The number of a call whose tape is that number: its message has one unsigned argument, and the call fits.
fn only_number(program: &Program, call: &CompactCall) -> Option<u64>
    ensures tape { IfSome result (λ n. numbers_of_call (program_of program.now) (call_of call.now) ≡ (call_of call.now).msg ∷ n ∷ []) }
{
    let Some(number) = call.number() else {
        return None;
    };
    let interface = program.interface();
    if !has_plain_number(interface, call.msg()) {
        return None;
    }
    if !call.fits(interface) {
        return None;
    }
    Some(number)
}

// Puts a call into a room.
fn put_call(
    program: &Program,
    call: &Call,
    spare: &mut Vec<u64>,
    room: &mut [u64],
) -> Result<u64, UseFault>
    ensures puts { PutsNumbers (numbers_of_call (program_of program.now) (call_of call.now)) room.old result room.new }
{
    put_numbers(program, call, spare, room)
}

// The same of a call as it came.
fn put_any(
    alloc: Global,
    program: &Program,
    call: &CompactCall,
    spare: &mut Vec<u64>,
    room: &mut [u64],
) -> Result<u64, UseFault>
    ensures puts { PutsNumbers (numbers_of_call (program_of program.now) (call_of call.now)) room.old result room.new }
{
    match call.seen() {
        SeenCall::Number(msg, number) => {
            let Ok(mut lent) = NumberCall::new(alloc) else {
                return Err(UseFault::End(EndFault::Memory));
            };
            put_call(program, lent.set(msg, number), spare, room)
        }
        SeenCall::Other(call) => put_call(program, call, spare, room),
    }
}

// The same. Where its tape is its one number, that takes no memory.
fn put_whole(
    alloc: Global,
    program: &Program,
    call: &CompactCall,
    spare: &mut Vec<u64>,
    room: &mut [u64],
) -> Result<u64, UseFault>
    ensures puts { PutsNumbers (numbers_of_call (program_of program.now) (call_of call.now)) room.old result room.new }
{
    match only_number(program, call) {
        Some(number) => put_tape(call.msg().0, &[number], room),
        None => put_any(alloc, program, call, spare, room),
    }
}

/// Puts a call's message and tape into the first places of a room, and tells how many numbers these are.
#[inline(always)]
pub(crate) fn put_unread(
    alloc: Global,
    program: &Program,
    call: &UnreadCall,
    spare: &mut Vec<u64>,
    room: &mut [u64],
) -> Result<u64, UseFault>
    ensures puts { PutsNumbers (numbers_unread (program_of program.now) call.now) room.old result room.new }
{
    match call {
        UnreadCall::Whole(call) => put_whole(alloc, program, call, spare, room),
        UnreadCall::Short(call) => put_short(call, room),
        UnreadCall::Taped(call) => put_tape(call.msg.0, call.tape(), room),
    }
}

/// What a read is refused for behind a call that was handled, which stays to be read.
#[inline(always)]
pub(crate) fn stays(fault: UseFault) -> UseFault
    ensures told { result ≡ stays_as fault }
{
    match fault {
        UseFault::ShortRoom { wanted } => UseFault::HandledShort { wanted },
        _ => UseFault::HandledMemory,
    }
}

/// Reads a call that was handled, which is let go then.
#[inline(always)]
pub(crate) fn read_unread(
    alloc: Global,
    program: &Program,
    handled: &mut Option<UnreadCall>,
    spare: &mut Vec<u64>,
    room: &mut [u64],
) -> Result<Outcome, UseFault>
    ensures reads { (end : TheEnd) (side : TheSide) (calls : List TheReassembly)
        → ReadsBy (held_as end side calls (handled_by program.now handled.old)) room.old result
        (held_as end side calls (handled_by program.now handled.new)) room.new }
{
    let Some(call) = &*handled else {
        return Ok(Outcome::Nothing);
    };
    match put_unread(alloc, program, call, spare, room) {
        Err(fault) => Err(fault),
        Ok(count) => {
            *handled = None;
            Ok(Outcome::CallRead { count })
        }
    }
}
