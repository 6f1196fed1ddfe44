//! Images of programs.

ghost use Rattle.std.specs.Prelude.{◌≡◌, ◌++◌, ◌<◌, true, map, length, IfOk, OnOk, slice_get, Some};
ghost use Rattle.std.specs.Option.{option_map};
ghost use Rattle.std.specs.List.{flat_map};
ghost use Rattle.fl_interface.specs.Interface.{TheMessage, type_of, arg_type_of, message_of, interface_of, fields_from, structure, array};
ghost use Rattle.fl_compile.specs.Programs.{program_of};
ghost use Rattle.fl_compile.specs.Compiled.{message_code};
ghost use Rattle.fl_stub.specs.declared.op.Column.TheVariants.{Send, Receive};
ghost use Rattle.fl_image.specs.Image.{one, two, four, name_image, scalar_code, type_image, fields_image, argument_image};
ghost use Rattle.fl_image.specs.Image.{message_image, interface_image, op_code, op_image, code_image, codes_image, codes_of};
ghost use Rattle.fl_image.specs.Image.{version_of, is_writable, has_image, image_of};

use crate::code::operand_of;
use fl_base::MsgNo;
use fl_compile::Program;
use fl_interface::{ArgType, FixedType, Interface, Message, Scalar, Word};
use fl_stub::Op;
use fl_value_data::PlanNo;
use std::alloc::{AllocError, Global};

/// A number in one byte.
fn put_one(out: &mut Vec<u8>, number: u64) -> Result<(), AllocError>
    ensures put { OnOk result (out.new.items ≡ out.old.items ++ one number) }
{
    out.push((number % 256) as u8)?;
    Ok(())
}

/// A number in two bytes, the low one first.
fn put_two(out: &mut Vec<u8>, number: u64) -> Result<(), AllocError>
    ensures put { OnOk result (out.new.items ≡ out.old.items ++ two number) }
{
    out.extend_from_slice(&[(number % 256) as u8, (number / 256 % 256) as u8])?;
    Ok(())
}

/// A number in four bytes, the lowest first.
fn put_four(out: &mut Vec<u8>, number: u64) -> Result<(), AllocError>
    ensures put { OnOk result (out.new.items ≡ out.old.items ++ four number) }
{
    put_two(out, number)?;
    put_two(out, number / 65536)?;
    Ok(())
}

/// A name: its length, and its bytes.
fn put_name(out: &mut Vec<u8>, name: &Word) -> Result<(), AllocError>
    ensures put { OnOk result (out.new.items ≡ out.old.items ++ name_image name.now.bytes.items) }
{
    put_one(out, name.bytes.len() as u64)?;
    out.extend_from_slice(&name.bytes)?;
    Ok(())
}

fn scalar_code(kind: Scalar) -> u64
    ensures exact { result ≡ scalar_code kind }
{
    match kind {
        Scalar::Uint8 => 1,
        Scalar::Int8 => 2,
        Scalar::Bool => 3,
        Scalar::Char => 4,
        Scalar::Uint16 => 5,
        Scalar::Int16 => 6,
        Scalar::Uint32 => 7,
        Scalar::Int32 => 8,
        Scalar::Iref => 9,
        Scalar::Uint64 => 10,
        Scalar::Int64 => 11,
        Scalar::Uintptr => 12,
        Scalar::Intptr => 13,
        Scalar::Size => 14,
        Scalar::Errval => 15,
    }
}

/// An enum's code and its count.
fn put_enumeration(out: &mut Vec<u8>, count: u32) -> Result<(), AllocError>
    ensures put { OnOk result (out.new.items ≡ out.old.items ++ (one 16 ++ two count)) }
{
    put_one(out, 16)?;
    put_two(out, u64::from(count))?;
    Ok(())
}

/// A type: its code, its count, what it is made of.
#[cycle(types)]
fn put_type(out: &mut Vec<u8>, fixed: &FixedType) -> Result<(), AllocError>
    ensures put { OnOk result (out.new.items ≡ out.old.items ++ type_image (type_of fixed.now)) }
{
    match fixed {
        FixedType::Scalar(kind) => put_one(out, scalar_code(*kind)),
        FixedType::Enumeration(count) => put_enumeration(out, *count),
        FixedType::Structure(fields) => put_structure(out, fields),
        FixedType::Array(count, element) => put_array(out, *count, element),
    }
}

/// A struct of these fields.
#[cycle(types)]
fn put_structure(out: &mut Vec<u8>, fields: &[FixedType]) -> Result<(), AllocError>
    ensures put { OnOk result (out.new.items ≡ out.old.items ++ type_image (structure (fields_from (map type_of fields.now)))) }
{
    put_one(out, 17)?;
    put_one(out, fields.len() as u64)?;
    for field in fields {
        put_type(out, field)?;
    }
    Ok(())
}

/// An array of so many elements of a type.
#[cycle(types)]
fn put_array(out: &mut Vec<u8>, count: u32, element: &FixedType) -> Result<(), AllocError>
    ensures put { OnOk result (out.new.items ≡ out.old.items ++ type_image (array count (type_of element.now))) }
{
    put_one(out, 18)?;
    put_two(out, u64::from(count))?;
    put_type(out, element)?;
    Ok(())
}

/// A string of at most so many bytes.
fn put_text(out: &mut Vec<u8>, most: u32) -> Result<(), AllocError>
    ensures put { OnOk result (out.new.items ≡ out.old.items ++ (one 32 ++ two most)) }
{
    put_one(out, 32)?;
    put_two(out, u64::from(most))?;
    Ok(())
}

/// A sized array of at most so many elements of a type.
fn put_sized(out: &mut Vec<u8>, most: u32, element: &FixedType) -> Result<(), AllocError>
    ensures put { OnOk result (out.new.items ≡ out.old.items ++ (one 33 ++ (two most ++ type_image (type_of element.now)))) }
{
    put_one(out, 33)?;
    put_two(out, u64::from(most))?;
    put_type(out, element)?;
    Ok(())
}

/// An argument's type.
fn put_argument(out: &mut Vec<u8>, argument: &ArgType) -> Result<(), AllocError>
    ensures put { OnOk result (out.new.items ≡ out.old.items ++ argument_image (arg_type_of argument.now)) }
{
    match argument {
        ArgType::Fixed(fixed) => put_type(out, fixed),
        ArgType::Text(most) => put_text(out, *most),
        ArgType::Sized(most, element) => put_sized(out, *most, element),
    }
}

/// The arguments' types of a message.
fn put_arguments(out: &mut Vec<u8>, arguments: &[ArgType]) -> Result<(), AllocError>
    ensures put { OnOk result (out.new.items ≡ out.old.items ++ flat_map argument_image (map arg_type_of arguments.now)) }
{
    for argument in arguments {
        put_argument(out, argument)?;
    }
    Ok(())
}

/// A message: its name, and its arguments' types.
fn put_message(out: &mut Vec<u8>, message: &Message) -> Result<(), AllocError>
    ensures put { OnOk result (out.new.items ≡ out.old.items ++ message_image (message_of message.now)) }
{
    put_name(out, &message.name)?;
    put_one(out, message.args.len() as u64)?;
    put_arguments(out, &message.args)?;
    Ok(())
}

/// Messages one after another.
fn put_messages(out: &mut Vec<u8>, messages: &[Message]) -> Result<(), AllocError>
    ensures put { OnOk result (out.new.items ≡ out.old.items ++ flat_map message_image (map message_of messages.now)) }
{
    for message in messages {
        put_message(out, message)?;
    }
    Ok(())
}

/// An interface: its name, the number of its messages, and these.
fn put_interface(out: &mut Vec<u8>, interface: &Interface) -> Result<(), AllocError>
    ensures put { OnOk result (out.new.items ≡ out.old.items ++ interface_image (interface_of interface.now)) }
{
    put_name(out, &interface.name)?;
    put_two(out, interface.messages.len() as u64)?;
    put_messages(out, &interface.messages)?;
    Ok(())
}

fn op_code(op: Op) -> u64
    ensures exact { result ≡ op_code op }
{
    match op {
        Op::Emit(_) => 1,
        Op::Pad(_) => 2,
        Op::Align => 3,
        Op::Length(_) => 4,
        Op::Times(_) => 5,
        Op::Each => 6,
        Op::Back => 7,
        Op::End => 8,
        Op::Read(_) => 17,
        Op::ReadBool => 18,
        Op::ReadEnum(_) => 19,
        Op::ReadChar => 20,
        Op::Skip(_) => 21,
        Op::ReadLength(_) => 22,
        Op::ReadText => 23,
        Op::Done => 24,
    }
}

/// An instruction: its op, and its operand.
fn put_op(out: &mut Vec<u8>, op: Op) -> Result<(), AllocError>
    ensures put { OnOk result (out.new.items ≡ out.old.items ++ op_image op) }
{
    put_one(out, op_code(op))?;
    put_two(out, u64::from(operand_of(op)))?;
    Ok(())
}

/// Code: the number of its instructions, and these.
fn put_code(out: &mut Vec<u8>, ops: &[Op]) -> Result<(), AllocError>
    ensures put { OnOk result (out.new.items ≡ out.old.items ++ code_image ops.now) }
{
    put_four(out, ops.len() as u64)?;
    for op in ops {
        put_op(out, *op)?;
    }
    Ok(())
}

/// The two codes of a message.
fn put_codes(out: &mut Vec<u8>, send: &[Op], receive: &[Op]) -> Result<(), AllocError>
    ensures put { OnOk result (out.new.items ≡ out.old.items ++ (code_image send.now ++ code_image receive.now)) }
{
    put_code(out, send)?;
    put_code(out, receive)?;
    Ok(())
}

/// The codes of a message of a program.
fn put_message_codes(out: &mut Vec<u8>, program: &Program, number: MsgNo) -> Result<(), AllocError>
    ensures put { (m : TheMessage) → slice_get (program_of program.now).interface.messages number.0 ≡ Some m
        → OnOk result (out.new.items ≡ out.old.items ++ codes_image (codes_of (program_of program.now).plan m)) }
{
    if let Some(send) = program.send_code(number) {
        if let Some(receive) = program.receive_code(number) {
            return put_codes(out, send.ops(), receive.ops());
        }
    }
    Ok(())
}

/// The codes of all messages of a program.
fn put_all_codes(out: &mut Vec<u8>, program: &Program) -> Result<(), AllocError>
    ensures put { OnOk result (out.new.items ≡ out.old.items
        ++ flat_map codes_image (map (codes_of (program_of program.now).plan) (program_of program.now).interface.messages)) }
{
    let count = program.interface().messages.len();
    for number in 0..count {
        put_message_codes(out, program, MsgNo(number as u16))?;
    }
    Ok(())
}

fn version_of(plan: PlanNo) -> u64
    ensures exact { result ≡ version_of plan }
{
    match plan {
        PlanNo::One => 1,
        PlanNo::Two => 2,
    }
}

/// The image of a program: the bytes that spell its interface, its plan and its code. No other program has it, and
/// [`read_image`](crate::read_image) gives this one back.
///
/// The interface's enums have room in an image: those of a text or of an image have, and
/// [`is_writable`](crate::is_writable) tells it of any other.
///
/// # Errors
/// Out of memory (E99).
#[tactic(auto, using(crate::proofs::Named::program_has))]
pub fn write_image(alloc: Global, program: &Program) -> Result<Vec<u8>, AllocError>
    requires writable { is_writable (program_of program.now).interface ≡ true }
    ensures image { IfOk result (λ v. v.items ≡ image_of (program_of program.now).plan (program_of program.now).interface) }
    ensures has { has_image (program_of program.now).interface ≡ true }
{
    let mut out = Vec::new(alloc);
    out.extend_from_slice(&[70, 76, 78, 68])?;
    put_two(&mut out, version_of(program.plan()))?;
    put_interface(&mut out, program.interface())?;
    put_all_codes(&mut out, program)?;
    Ok(out)
}
