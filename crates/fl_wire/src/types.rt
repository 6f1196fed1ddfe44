//! The types of a message's arguments.

ghost use Rattle.std.specs.Prelude.{◌≡◌, true, map};
ghost use Rattle.fl_interface.specs.Interface.{arg_type_of, interface_of};
ghost use Rattle.fl_layout.specs.Leaves.{argument_types};
ghost use Rattle.fl_value_data.specs.Plan.{is_dynamic};

use fl_base::MsgNo;
use fl_interface::{ArgType, Interface};

/// Whether an argument is a string or a sized array.
pub(crate) fn is_dynamic(ty: &ArgType) -> bool
    ensures same { result ≡ is_dynamic (arg_type_of ty.now) }
{
    match ty {
        ArgType::Fixed(_) => false,
        _ => true,
    }
}

/// Whether there is a last argument, and it is of a fixed size.
#[inline(always)]
pub(crate) fn ends_fixed(types: &[ArgType]) -> bool {
    match types.last() {
        Some(last) => !is_dynamic(last),
        None => false,
    }
}

/// The types of a message's arguments; none where there is no such message.
pub(crate) fn arguments_of(interface: &Interface, msg: MsgNo) -> &[ArgType]
    ensures types { map arg_type_of result.now ≡ argument_types (interface_of interface.now) msg.0 }
{
    match interface.messages.get(usize::from(msg.0)) {
        Some(message) => &message.args,
        None => &[],
    }
}
