//! The call of a payload, by prepared code.

ghost use Rattle.std.specs.Prelude.{◌≡◌, if◌then◌else◌, IfOk};
ghost use Rattle.fl_value_data.specs.Value.{TheCall, call_of};
ghost use Rattle.fl_value_unpack.specs.Unpacked.{HasPacked};
ghost use Rattle.fl_compile.specs.Programs.{program_of};
ghost use Rattle.fl_compile_tape.specs.TapeLaws.{HasPayload};

use fl_base::MsgNo;
use fl_compile::Program;
use fl_value_data::{Call, Value};
use fl_value_unpack::unpack;
use std::alloc::{AllocError, Global};

// Whether a call's payload is its packed tape as well, since its message's code puts nothing between a tape's bytes. Else what the code
// takes from the payload is put in the place of what stood on `tape`.
#[inline(always)]
fn take_packed(
    program: &Program,
    msg: MsgNo,
    payload: &[u8],
    tape: &mut Vec<u8>,
) -> Result<bool, AllocError>
    requires known { (c : TheCall) × HasPayload (program_of program.now) msg.0 payload.now c }
    ensures packed { IfOk result (λ plain. (c : TheCall) → HasPayload (program_of program.now) msg.0 payload.now c
        → HasPacked (program_of program.now).plan (program_of program.now).interface msg.0
        (if plain then payload.now else tape.new.items) c) }
{
    let _interface = program.interface();
    let Some(code) = program.prepared_code(msg) else {
        unreachable!();
    };
    if code.is_plain() {
        return Ok(true);
    }
    tape.clear();
    tape.reserve(payload.len())?;
    let _left = code.take(payload, tape)?;
    Ok(false)
}

// The one bytes or the others.
#[inline(always)]
fn chosen<'p>(first: bool, one: &'p [u8], other: &'p [u8]) -> &'p [u8]
    ensures chosen { result.now ≡ (if first then one.now else other.now) }
{
    if first { one } else { other }
}

/// The call of a message whose payload the bytes begin with, where they are known to begin with a fitting call's and
/// are a multiple of 8, as those of whole fragments: taken by its message's prepared code, which means its receive
/// code. Where this puts nothing between a tape's bytes, the payload is read as it is; else the packed tape takes the
/// place of what stood on `tape`, in its memory where there is enough. The call's arguments stand in the memory of `room`, whose own
/// values are dropped, where the plan's order is the declared one.
///
/// # Errors
/// Out of memory (E99), and nothing else.
pub fn call_by(
    alloc: Global,
    room: Vec<Value>,
    program: &Program,
    msg: MsgNo,
    payload: &[u8],
    tape: &mut Vec<u8>,
) -> Result<Call, AllocError>
    requires known { (c : TheCall) × HasPayload (program_of program.now) msg.0 payload.now c }
    ensures call { IfOk result (λ call. (c : TheCall) → HasPayload (program_of program.now) msg.0 payload.now c
        → call_of call ≡ c) }
{
    let interface = program.interface();
    let plan = program.plan();
    let plain = take_packed(program, msg, payload, tape)?;
    let packed = chosen(plain, payload, tape.as_slice());
    unpack(alloc, room, msg, packed, interface, plan)
}
