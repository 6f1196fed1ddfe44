//! The code of arguments, one after another.

ghost use Rattle.std.specs.Prelude.{◌≡◌, ◌≤◌, ◌+◌, ◌++◌, ℕ, length, true, IfOk, OnOk};
ghost use Rattle.fl_interface.specs.Interface.{type_of, arg_type_of, fixed};
ghost use Rattle.fl_interface.specs.Sizes.{size_of};
ghost use Rattle.fl_interface.specs.Limits.{is_well_made, is_argument_within, are_arguments_within};
ghost use Rattle.fl_stub.specs.Structure.{finished, next, one, block_ops, length_op, last_op};
ghost use Rattle.fl_compile.specs.Compiled.{start_then, start_at, text_op, type_then, counted_then, arguments_code as code_of};
ghost use Rattle.fl_compile.specs.Arguments.{types_in, Appends};
ghost use Rattle.fl_compile.specs.Standings.{StandsBy};

use crate::types::{push_type, push_zeros};
use fl_interface::{ArgType, FixedType};
use fl_stub::{Column, Op};
use std::alloc::{AllocError, Global};

/// Where the next argument of a message would stand.
#[derive(Clone, Copy)]
pub(crate) enum ArgOffset {
    /// So many bytes after the payload's start, or after the last `Align`.
    At(u32),
    /// Directly after a string or a sized array.
    AfterDynamic,
}

/// The instruction for a string's byte.
fn text_op(column: Column) -> Op
    ensures exact { result ≡ text_op column }
{
    match column {
        Column::Send => Op::Emit(1),
        Column::Receive => Op::ReadText,
    }
}

/// The instruction for a length of at most so many.
fn length_op(column: Column, most: u32) -> Op
    ensures exact { result ≡ length_op column most }
{
    match column {
        Column::Send => Op::Length(most),
        Column::Receive => Op::ReadLength(most),
    }
}

/// The instruction at the end of code.
fn last_op(column: Column) -> Op
    ensures exact { result ≡ last_op column }
{
    match column {
        Column::Send => Op::End,
        Column::Receive => Op::Done,
    }
}

/// Appends the zeros before a fixed argument of an alignment; where it begins.
fn push_start(
    ops: &mut Vec<Op>,
    column: Column,
    standing: ArgOffset,
    align: u32,
) -> Result<u32, AllocError>
    requires some { 1 ≤ align }
    requires few { align ≤ 8 }
    requires near { StandsBy 700000 standing }
    ensures ops { OnOk result (ops.new.items ≡ ops.old.items ++ block_ops column (start_then column standing align finished)) }
    ensures start { IfOk result (λ start. start ≡ start_at standing align) }
{
    match standing {
        ArgOffset::At(at) => {
            let start = at.next_multiple_of(align);
            push_zeros(ops, column, start - at)?;
            Ok(start)
        }
        ArgOffset::AfterDynamic => {
            ops.push(Op::Align)?;
            Ok(0)
        }
    }
}

/// Appends the code of a fixed argument; where the next one would stand.
fn push_fixed(
    ops: &mut Vec<Op>,
    column: Column,
    standing: ArgOffset,
    ty: &FixedType,
) -> Result<ArgOffset, AllocError>
    requires made { is_well_made (type_of ty.now) ≡ true }
    requires small { size_of (type_of ty.now) ≤ 4096 }
    requires near { StandsBy 700000 standing }
    ensures ops { IfOk result (λ after. Appends column standing (fixed (type_of ty.now)) after ops.old.items ops.new.items) }
    ensures near { IfOk result (λ after. (n : ℕ) → StandsBy n standing → StandsBy (n + 4104) after) }
{
    let align = ty.alignment();
    let start = push_start(ops, column, standing, align)?;
    push_type(ops, column, ty)?;
    let size = ty.size();
    Ok(ArgOffset::At(start + size))
}

/// Appends the code of a string of at most so many bytes.
fn push_text(ops: &mut Vec<Op>, column: Column, most: u32) -> Result<(), AllocError>
    ensures ops { OnOk result (ops.new.items ≡ ops.old.items ++ block_ops column (counted_then most (next (one (text_op column)) finished) finished)) }
{
    ops.push(Op::Align)?;
    ops.push(length_op(column, most))?;
    ops.push(Op::Each)?;
    ops.push(text_op(column))?;
    ops.push(Op::Back)?;
    Ok(())
}

/// Appends the code of a sized array of at most so many elements.
fn push_sized(
    ops: &mut Vec<Op>,
    column: Column,
    most: u32,
    element: &FixedType,
) -> Result<(), AllocError>
    requires made { is_well_made (type_of element.now) ≡ true }
    requires small { size_of (type_of element.now) ≤ 4096 }
    ensures ops { OnOk result (ops.new.items
        ≡ ops.old.items ++ block_ops column (counted_then most (type_then column (type_of element.now) finished) finished)) }
{
    ops.push(Op::Align)?;
    ops.push(length_op(column, most))?;
    ops.push(Op::Each)?;
    push_type(ops, column, element)?;
    ops.push(Op::Back)?;
    Ok(())
}

/// Appends the code of an argument; where the next one would stand.
fn push_argument(
    ops: &mut Vec<Op>,
    column: Column,
    standing: ArgOffset,
    argument: &ArgType,
) -> Result<ArgOffset, AllocError>
    requires within { is_argument_within (arg_type_of argument.now) ≡ true }
    requires near { StandsBy 700000 standing }
    ensures ops { IfOk result (λ after. Appends column standing (arg_type_of argument.now) after ops.old.items ops.new.items) }
    ensures near { IfOk result (λ after. (n : ℕ) → StandsBy n standing → StandsBy (n + 4104) after) }
{
    match argument {
        ArgType::Fixed(fixed) => push_fixed(ops, column, standing, fixed),
        ArgType::Text(most) => {
            push_text(ops, column, *most)?;
            Ok(ArgOffset::AfterDynamic)
        }
        ArgType::Sized(most, element) => {
            push_sized(ops, column, *most, element)?;
            Ok(ArgOffset::AfterDynamic)
        }
    }
}

/// The code of arguments in a plan's order.
pub(crate) fn arguments_code(
    alloc: Global,
    column: Column,
    arguments: &[&ArgType],
) -> Result<Vec<Op>, AllocError>
    requires within { are_arguments_within (types_in arguments.now) ≡ true }
    requires few { length arguments.now ≤ 160 }
    ensures code { IfOk result (λ v. v.items ≡ code_of column (types_in arguments.now)) }
{
    let mut ops = Vec::with_capacity(alloc, arguments.len() + 1)?;
    let mut standing = ArgOffset::At(0);
    for argument in arguments {
        standing = push_argument(&mut ops, column, standing, argument)?;
    }
    ops.push(last_op(column))?;
    Ok(ops)
}
