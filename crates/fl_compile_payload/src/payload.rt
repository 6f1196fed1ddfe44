//! The payload of a call, by prepared code.

ghost use Rattle.std.specs.Prelude.{◌≡◌, true, IfOk};
ghost use Rattle.fl_value_data.specs.Value.{call_of};
ghost use Rattle.fl_value_data.specs.Fits.{fits_of};
ghost use Rattle.fl_wire.specs.Payload.{payload_of};
ghost use Rattle.fl_compile.specs.Programs.{program_of};

use fl_compile::Program;
use fl_value_data::Call;
use fl_value_tape::Tape;
use std::alloc::{AllocError, Global};

/// The payload of a fitting call, by its message's prepared send code, in room for so many bytes at first: where the code
/// puts nothing between the packed tape's bytes, in the tape's own memory.
///
/// # Errors
/// Out of memory (E99), and nothing else.
pub fn payload_by(
    alloc: Global,
    program: &Program,
    call: &Call,
    room: usize,
) -> Result<Vec<u8>, AllocError>
    requires fits { fits_of (program_of program.now).interface (call_of call.now) ≡ true }
    ensures payload { IfOk result (λ v. v.items ≡ payload_of (program_of program.now).plan (program_of program.now).interface (call_of call.now)) }
{
    // It has 16 bits, which the proof knows once it is read.
    let _msg = call.msg.0;
    let Some(code) = program.prepared_code(call.msg) else {
        unreachable!();
    };
    let tape = Tape::pack(alloc, call, program.interface(), program.plan(), room)?;
    if code.is_plain() {
        return Ok(tape.into_bytes());
    }
    let mut bytes = Vec::with_capacity(alloc, room)?;
    code.give(tape.as_slice(), &mut bytes)?;
    Ok(bytes)
}
