//! A call from its fragments.

ghost use Rattle.std.specs.Prelude.{◌≢◌, ◌<◌, IfOk, Some, None};
ghost use Rattle.std.specs.Option.{option_map};
ghost use Rattle.fl_interface.specs.Interface.{interface_of};
ghost use Rattle.fl_value_data.specs.Value.{call_of};
ghost use Rattle.fl_wire.specs.Reading.{ReadsBack};
ghost use Rattle.fl_wire.specs.declared.leaf.CallReadFault.TheVariants.{Memory};

use crate::call::read_arguments;
use crate::leaf::CallReadFault;
use crate::types::arguments_of;
use fl_base::Frag;
use fl_interface::Interface;
use fl_value_data::{Call, PlanNo};
use std::alloc::{AllocError, Global};

// Fails where memory was refused to the reading.
fn had_memory(stop: CallReadFault) -> Result<(), AllocError>
    ensures had { IfOk result (λ u. stop ≢ Memory) }
{
    match stop {
        CallReadFault::Memory => Err(AllocError),
        _ => Ok(()),
    }
}

/// The call whose fragments these are: of a fitting call's first fragments, one or more, that call where the
/// last one is there, else none. Their epochs, circuits and counts told are 0. Of other fragments nothing is
/// said.
///
/// # Errors
/// Out of memory (E99), and nothing else.
pub fn read_call_frags(
    alloc: Global,
    interface: &Interface,
    plan: PlanNo,
    frags: &[Frag],
) -> Result<Option<Call>, AllocError>
    ensures read { IfOk result (λ found. ReadsBack plan (interface_of interface.now) frags.now (option_map call_of found)) }
{
    let Some(first) = frags.first() else {
        return Ok(None);
    };
    let msg = first.msg();
    let types = arguments_of(interface, msg);
    match read_arguments(alloc, frags, plan, types) {
        Ok((args, _end)) => Ok(Some(Call { msg, args })),
        Err(stop) => {
            had_memory(stop)?;
            Ok(None)
        }
    }
}
