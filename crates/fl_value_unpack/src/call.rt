//! The call of a packed tape.

ghost use Rattle.std.specs.Prelude.{◌≡◌, IfOk};
ghost use Rattle.fl_interface.specs.Interface.{interface_of};
ghost use Rattle.fl_value_data.specs.Value.{TheCall, call_of};
ghost use Rattle.fl_value_unpack.specs.Unpacked.{HasPacked};

use crate::argument::read_arguments;
use fl_base::MsgNo;
use fl_interface::Interface;
use fl_value_data::{Call, PlanNo, Value};
use std::alloc::{AllocError, Global};

/// The call of a message whose packed tape the bytes begin with, where they are known to begin with a fitting call's, as those
/// are that prepared code takes from a payload that receive code has accepted. What follows is skipped. The call's arguments stand
/// in the memory of `room`, whose own values are dropped, where the plan's order is the declared one.
///
/// # Errors
/// Out of memory (E99), and nothing else.
pub fn unpack(
    alloc: Global,
    room: Vec<Value>,
    msg: MsgNo,
    tape: &[u8],
    interface: &Interface,
    plan: PlanNo,
) -> Result<Call, AllocError>
    requires known { (c : TheCall) × HasPacked plan (interface_of interface.now) msg.0 tape.now c }
    ensures call { IfOk result (λ call. (c : TheCall) → HasPacked plan (interface_of interface.now) msg.0 tape.now c
        → call_of call ≡ c) }
{
    let Some(message) = interface.messages.get(usize::from(msg.0)) else {
        unreachable!();
    };
    let (args, _rest) = read_arguments(alloc, room, tape, plan, &message.args)?;
    Ok(Call { msg, args })
}
