//! The plan table: a line for the interface, one for each message, and behind that one for each of its
//! arguments.

ghost use Rattle.std.specs.Prelude.{◌≡◌, ◌++◌, List, ℕ, IfOk, OnOk, Some, slice_get};
ghost use Rattle.fl_interface.specs.Interface.{arg_type_of, message_of, interface_of};
ghost use Rattle.fl_layout.specs.Leaves.{argument_types};
ghost use Rattle.flounder_show.specs.Table.{interface_line, message_line, argument_line, TellsEach, TellsArgument, TellsMessage, IsTable};

use crate::row::{ArgKind, MessageSizes, Offset};
use fl_base::MsgNo;
use fl_interface::{ArgType, Message};
use fl_layout::{Plans, fragment_count};
use fl_value_data::PlanNo;
use std::alloc::{AllocError, Global};

/// The table of a plan, with line ends.
///
/// ```text
/// interface NAME plan P
/// message K NAME least L greatest G fragments F
/// arg J at O KIND
/// ```
///
/// L and G are the least and greatest number of bytes that a payload of message K has, F the fragments of the
/// greatest. O is the offset at which argument J begins in every payload, or `-` where there is no such offset.
/// KIND is `fixed SIZE`, `string max M` or `array max M stride S`, with sizes in bytes.
///
/// # Errors
/// Out of memory (E99).
pub fn plan_table(alloc: Global, plans: &Plans) -> Result<Vec<u8>, AllocError>
    ensures table { IfOk result (λ t. IsTable plans.now.plan (interface_of plans.now.interface) t.items) }
{
    let mut table = Vec::new(alloc);
    put_interface(alloc, plans, &mut table)?;
    put_messages(alloc, plans, &mut table)?;
    Ok(table)
}

fn put_interface(alloc: Global, plans: &Plans, table: &mut Vec<u8>) -> Result<(), AllocError>
    ensures told { OnOk result (table.new.items ≡ table.old.items ++ interface_line plans.now.interface.name.bytes.items plans.now.plan) }
{
    let plan = match plans.plan {
        PlanNo::One => 1,
        PlanNo::Two => 2,
    };
    let end = format!(in alloc; " plan {plan}\n")?;
    table.extend_from_slice(b"interface ")?;
    table.extend_from_slice(&plans.interface.name.bytes)?;
    table.extend_from_slice(end.as_bytes())
}

fn put_messages(alloc: Global, plans: &Plans, table: &mut Vec<u8>) -> Result<(), AllocError>
    ensures told { OnOk result ((lines : List ℕ)
        × TellsEach (TellsMessage plans.now.plan (interface_of plans.now.interface)) 0 (interface_of plans.now.interface).messages lines
        × (table.new.items ≡ table.old.items ++ lines)) }
{
    for (number, message) in plans.interface.messages.iter().enumerate() {
        put_message(alloc, plans, MsgNo(number as u16), message, table)?;
    }
    Ok(())
}

// The lines of a message and of its arguments.
fn put_message(
    alloc: Global,
    plans: &Plans,
    msg: MsgNo,
    message: &Message,
    table: &mut Vec<u8>,
) -> Result<(), AllocError>
    requires stands { slice_get (interface_of plans.now.interface).messages msg.0 ≡ Some (message_of message.now) }
    ensures told { OnOk result ((lines : List ℕ) × TellsMessage plans.now.plan (interface_of plans.now.interface) msg.0 (message_of message.now) lines
        × (table.new.items ≡ table.old.items ++ lines)) }
{
    let least = plans.least(msg);
    let greatest = plans.greatest(msg);
    let fragments = fragment_count(greatest);
    let figures = MessageSizes {
        least,
        greatest,
        fragments,
    };
    put_figures(alloc, msg, &message.name.bytes, figures, table)?;
    put_arguments(alloc, plans, msg, message, table)
}

fn put_figures(
    alloc: Global,
    msg: MsgNo,
    name: &[u8],
    figures: MessageSizes,
    table: &mut Vec<u8>,
) -> Result<(), AllocError>
    ensures told { OnOk result (table.new.items ≡ table.old.items ++ message_line msg.0 name.now figures) }
{
    let number = msg.0;
    let start = format!(in alloc; "message {number} ")?;
    let end = format!(in alloc; " {figures}\n")?;
    table.extend_from_slice(start.as_bytes())?;
    table.extend_from_slice(name)?;
    table.extend_from_slice(end.as_bytes())
}

fn put_arguments(
    alloc: Global,
    plans: &Plans,
    msg: MsgNo,
    message: &Message,
    table: &mut Vec<u8>,
) -> Result<(), AllocError>
    requires stands { slice_get (interface_of plans.now.interface).messages msg.0 ≡ Some (message_of message.now) }
    ensures told { OnOk result ((lines : List ℕ)
        × TellsEach (TellsArgument plans.now.plan (interface_of plans.now.interface) msg.0) 0 (message_of message.now).args lines
        × (table.new.items ≡ table.old.items ++ lines)) }
{
    for (number, argument) in message.args.iter().enumerate() {
        put_argument(alloc, plans, msg, number, argument, table)?;
    }
    Ok(())
}

fn put_argument(
    alloc: Global,
    plans: &Plans,
    msg: MsgNo,
    number: usize,
    argument: &ArgType,
    table: &mut Vec<u8>,
) -> Result<(), AllocError>
    requires stands { slice_get (argument_types (interface_of plans.now.interface) msg.0) number ≡ Some (arg_type_of argument.now) }
    ensures told { OnOk result ((line : List ℕ) × TellsArgument plans.now.plan (interface_of plans.now.interface) msg.0 number (arg_type_of argument.now) line
        × (table.new.items ≡ table.old.items ++ line)) }
{
    let place = plans.place(msg, number);
    let kind = ArgKind::of(argument, plans.arg_size(msg, number));
    put_row(alloc, number, Offset(place), kind, table)
}

fn put_row(
    alloc: Global,
    number: usize,
    place: Offset,
    kind: ArgKind,
    table: &mut Vec<u8>,
) -> Result<(), AllocError>
    ensures told { OnOk result (table.new.items ≡ table.old.items ++ argument_line number place.0 kind) }
{
    let line = format!(in alloc; "arg {number} at {place} {kind}\n")?;
    table.extend_from_slice(line.as_bytes())
}
