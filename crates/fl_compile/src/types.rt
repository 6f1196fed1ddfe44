//! The code of types.

ghost use Rattle.std.specs.Prelude.{◌≡◌, ◌≤◌, ◌++◌, map, true, OnOk};
ghost use Rattle.fl_interface.specs.Interface.{type_of, fields_from, structure};
ghost use Rattle.fl_interface.specs.Sizes.{size_of, greatest_align};
ghost use Rattle.fl_interface.specs.Limits.{is_well_made, are_well_made};
ghost use Rattle.fl_stub.specs.Structure.{finished, next, times, block_ops};
ghost use Rattle.fl_compile.specs.Compiled.{scalar_op, enum_op, pad_op, zeros_then, type_then, fields_then};

use fl_interface::{FixedType, Measures, Scalar, greatest_alignment};
use fl_stub::{Column, Op};
use std::alloc::AllocError;

/// A scalar's instruction.
fn scalar_op(column: Column, scalar: Scalar) -> Op
    ensures exact { result ≡ scalar_op column scalar }
{
    match column {
        Column::Send => Op::Emit(scalar.size()),
        Column::Receive => match scalar {
            Scalar::Bool => Op::ReadBool,
            Scalar::Char => Op::ReadChar,
            _ => Op::Read(scalar.size()),
        },
    }
}

/// The instruction of an enum of so many enumerators.
fn enum_op(column: Column, count: u32) -> Op
    ensures exact { result ≡ enum_op column count }
{
    match column {
        Column::Send => Op::Emit(4),
        Column::Receive => Op::ReadEnum(count),
    }
}

/// The instruction for so many zeros.
fn pad_op(column: Column, count: u32) -> Op
    ensures exact { result ≡ pad_op column count }
{
    match column {
        Column::Send => Op::Pad(count),
        Column::Receive => Op::Skip(count),
    }
}

/// Appends so many zeros, where there are any.
pub(crate) fn push_zeros(ops: &mut Vec<Op>, column: Column, count: u32) -> Result<(), AllocError>
    ensures ops { OnOk result (ops.new.items ≡ ops.old.items ++ block_ops column (zeros_then column count finished)) }
{
    if count == 0 {
        return Ok(());
    }
    ops.push(pad_op(column, count))?;
    Ok(())
}

/// Appends the code of a type.
#[cycle(types)]
pub(crate) fn push_type(
    ops: &mut Vec<Op>,
    column: Column,
    fixed: &FixedType,
) -> Result<(), AllocError>
    requires made { is_well_made (type_of fixed.now) ≡ true }
    requires small { size_of (type_of fixed.now) ≤ 4096 }
    ensures ops { OnOk result (ops.new.items ≡ ops.old.items ++ block_ops column (type_then column (type_of fixed.now) finished)) }
{
    match fixed {
        FixedType::Scalar(scalar) => {
            ops.push(scalar_op(column, *scalar))?;
            Ok(())
        }
        FixedType::Enumeration(count) => {
            ops.push(enum_op(column, *count))?;
            Ok(())
        }
        FixedType::Structure(fields) => push_fields(ops, column, fields),
        FixedType::Array(count, element) => push_array(ops, column, *count, element),
    }
}

/// Appends the code of so many elements of a type.
#[cycle(types)]
fn push_array(
    ops: &mut Vec<Op>,
    column: Column,
    count: u32,
    element: &FixedType,
) -> Result<(), AllocError>
    requires made { is_well_made (type_of element.now) ≡ true }
    requires small { size_of (type_of element.now) ≤ 4096 }
    ensures ops { OnOk result (ops.new.items
        ≡ ops.old.items ++ block_ops column (next (times count (type_then column (type_of element.now) finished)) finished)) }
{
    ops.push(Op::Times(count))?;
    push_type(ops, column, element)?;
    ops.push(Op::Back)?;
    Ok(())
}

/// Appends the code of a struct of these fields.
#[cycle(types)]
fn push_fields(ops: &mut Vec<Op>, column: Column, fields: &[FixedType]) -> Result<(), AllocError>
    requires made { are_well_made (fields_from (map type_of fields.now)) ≡ true }
    requires small { size_of (structure (fields_from (map type_of fields.now))) ≤ 4096 }
    ensures ops { OnOk result (ops.new.items
        ≡ ops.old.items ++ block_ops column (type_then column (structure (fields_from (map type_of fields.now))) finished)) }
{
    let mut at: u32 = 0;
    for field in fields {
        let Measures { size, align } = field.measures();
        let start = at.next_multiple_of(align);
        push_zeros(ops, column, start - at)?;
        push_type(ops, column, field)?;
        at = start + size;
    }
    let greatest = greatest_alignment(fields);
    let end = at.next_multiple_of(greatest);
    push_zeros(ops, column, end - at)
}
