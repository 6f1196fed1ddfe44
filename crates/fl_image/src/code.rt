//! Stub code read off the bytes of an image.

ghost use Rattle.std.specs.Prelude.{◌≡◌, map};
ghost use Rattle.fl_image.specs.Image.{operand_of};
ghost use Rattle.fl_image.specs.Reading.{Gives, op_with, op_at, code_at, codes_at, many_at};
ghost use Rattle.fl_image.specs.Views.{codes_view};

use crate::fault::{BadImage, ImageFault};
use crate::number::{four, one, two};
use fl_stub::{Column, Op};
use std::alloc::Global;

/// The send and receive code of a message, as an image has them.
#[derive(Drop)]
pub(crate) struct MessageOps {
    pub send: Vec<Op>,
    pub receive: Vec<Op>,
}

/// The op of a column with this code and operand.
#[tactic(auto, unfolding(crate::specs::Reading::op_with))]
fn op_with(column: Column, code: u8, operand: u32) -> Option<Op>
    ensures exact { result ≡ op_with column code operand }
{
    match column {
        Column::Send => match code {
            1 => Some(Op::Emit(operand)),
            2 => Some(Op::Pad(operand)),
            3 => Some(Op::Align),
            4 => Some(Op::Length(operand)),
            5 => Some(Op::Times(operand)),
            6 => Some(Op::Each),
            7 => Some(Op::Back),
            8 => Some(Op::End),
            _ => None,
        },
        Column::Receive => match code {
            3 => Some(Op::Align),
            5 => Some(Op::Times(operand)),
            6 => Some(Op::Each),
            7 => Some(Op::Back),
            17 => Some(Op::Read(operand)),
            18 => Some(Op::ReadBool),
            19 => Some(Op::ReadEnum(operand)),
            20 => Some(Op::ReadChar),
            21 => Some(Op::Skip(operand)),
            22 => Some(Op::ReadLength(operand)),
            23 => Some(Op::ReadText),
            24 => Some(Op::Done),
            _ => None,
        },
    }
}

/// The operand of an op, 0 where it has none.
pub(crate) fn operand_of(op: Op) -> u32
    ensures exact { result ≡ operand_of op }
{
    match op {
        Op::Emit(n)
        | Op::Read(n)
        | Op::Pad(n)
        | Op::Skip(n)
        | Op::Length(n)
        | Op::ReadLength(n)
        | Op::Times(n)
        | Op::ReadEnum(n) => n,
        _ => 0,
    }
}

/// An instruction of a column.
#[tactic(auto, unfolding(crate::specs::Reading::op_at))]
fn op(column: Column, bytes: &[u8]) -> Result<(Op, &[u8]), ImageFault>
    ensures reads { Gives (λ x. (x.0, x.1.now)) result (op_at column bytes.now) }
{
    let (code, rest) = one(bytes)?;
    let Some(_op) = op_with(column, code, 0) else {
        return Err(ImageFault::Refused(BadImage::BadField));
    };
    let (operand, rest) = two(rest)?;
    let Some(op) = op_with(column, code, operand) else {
        return Err(ImageFault::Refused(BadImage::BadField));
    };
    if !(op.is_in_range() && operand_of(op) == operand) {
        return Err(ImageFault::Refused(BadImage::BadField));
    }
    Ok((op, rest))
}

/// The code of a column: how many instructions, and these.
#[tactic(auto, unfolding(crate::specs::Reading::code_at))]
fn code(alloc: Global, column: Column, bytes: &[u8]) -> Result<(Vec<Op>, &[u8]), ImageFault>
    ensures reads { Gives (λ x. (x.0.items, x.1.now)) result (code_at column bytes.now) }
{
    let (count, rest) = four(bytes)?;
    ops(alloc, column, count, rest)
}

/// So many instructions of a column.
fn ops(
    alloc: Global,
    column: Column,
    count: u32,
    bytes: &[u8],
) -> Result<(Vec<Op>, &[u8]), ImageFault>
    ensures reads { Gives (λ x. (x.0.items, x.1.now)) result (many_at (op_at column) count bytes.now) }
{
    let mut found = Vec::new(alloc);
    let mut rest = bytes;
    for _ in 0..count {
        let (op, after) = op(column, rest)?;
        found.push(op)?;
        rest = after;
    }
    Ok((found, rest))
}

/// Both codes of a message.
#[tactic(auto, unfolding(crate::specs::Reading::codes_at))]
fn message_ops(alloc: Global, bytes: &[u8]) -> Result<(MessageOps, &[u8]), ImageFault>
    ensures reads { Gives (λ x. (codes_view x.0, x.1.now)) result (codes_at bytes.now) }
{
    let (send, rest) = code(alloc, Column::Send, bytes)?;
    let (receive, rest) = code(alloc, Column::Receive, rest)?;
    Ok((MessageOps { send, receive }, rest))
}

/// The codes of so many messages.
pub(crate) fn all_ops(
    alloc: Global,
    count: usize,
    bytes: &[u8],
) -> Result<(Vec<MessageOps>, &[u8]), ImageFault>
    ensures reads { Gives (λ x. (map codes_view x.0.items, x.1.now)) result (many_at codes_at count bytes.now) }
{
    let mut found = Vec::new(alloc);
    let mut rest = bytes;
    for _ in 0..count {
        let (ops, after) = message_ops(alloc, rest)?;
        found.push(ops)?;
        rest = after;
    }
    Ok((found, rest))
}
