//! Code, and code that has a structure.

ghost use Rattle.std.specs.Prelude.{◌≡◌, ◌-◌, length, slice_get, Some, None, Option, IfSome, IfNone, IfOk, List};
ghost use Rattle.fl_stub.specs.declared.op.Op.{Op as the_op};
ghost use Rattle.fl_stub.specs.declared.op.Column.{Column as the_column};
ghost use Rattle.fl_stub.specs.Structure.{Block, IsCode};
ghost use Rattle.fl_stub.specs.Frames.{block_of};
ghost use Rattle.fl_stub.specs.Code.{IsVerified};

use crate::op::{Column, Op};
use crate::walk::accepts;
use std::alloc::{AllocError, Global};
use std::marker::Model;

/// Instructions that nobody has looked through yet.
#[derive(Drop)]
pub struct Code {
    /// The instructions, in order.
    pub ops: Vec<Op>,
}

/// Code that has a structure (`specs/Structure.antt`), and so a meaning (`specs/Meaning.antt`). Only [`verify`] makes it.
#[derive(Drop)]
pub struct VerifiedCode {
    column: Column,
    ops: Vec<Op>,
}

impl Model for VerifiedCode {
    ghost use Rattle.fl_stub.specs.Structure.{IsCode};
    ghost use Rattle.fl_stub.specs.Frames.{block_of};
    ghost use Rattle.fl_stub.specs.Code.{TheCode};

    ghost Value = { TheCode };

    ghost view = { λ c. record { column = c.column; ops = c.ops.items } };

    ghost invariant = { λ c. IsCode c.column c.ops.items (block_of c.ops.items) };
}

// The column that the last instruction tells, if the instructions are code.
fn column_of(ops: &[Op]) -> Column
    ensures told { (column : the_column) (block : Block) → IsCode column ops.now block → result ≡ column }
{
    match ops.last() {
        Some(Op::Done) => Column::Receive,
        _ => Column::Send,
    }
}

/// The code as verified code, if it has a structure: all instructions are of one column and have operands in
/// range, loops are balanced and at most 8 deep, `Each` stands directly after a length and a length directly
/// before `Each`, and `End` or `Done` stands last and only there. Else `None`. Takes no memory.
pub fn verify(code: Code) -> Option<VerifiedCode>
    ensures same { IfSome result (λ verified. verified.ops ≡ code.ops.items) }
    ensures structure { IfSome result (λ verified. IsVerified verified) }
    ensures none { IfNone result ((column : the_column) (block : Block) → IsCode column code.ops.items block → ⊥) }
{
    let column = column_of(&code.ops);
    if accepts(column, &code.ops) {
        Some(VerifiedCode {
            column,
            ops: code.ops,
        })
    } else {
        None
    }
}

impl VerifiedCode {
    /// What the code is for.
    pub fn column(&self) -> Column
        ensures column { result ≡ self.now.column }
        ensures structure { IsVerified self.now }
    {
        self.column
    }

    /// The instructions, in order.
    pub fn ops(&self) -> &[Op]
        ensures ops { result.now ≡ self.now.ops }
        ensures structure { IsVerified self.now }
    {
        &self.ops
    }

    /// The same code again, in memory of its own.
    ///
    /// # Errors
    /// Out of memory (E99), and nothing else.
    pub fn duplicate(&self, alloc: Global) -> Result<VerifiedCode, AllocError>
        ensures same { IfOk result (λ copy. copy ≡ self.now) }
    {
        let ops = Vec::from_slice(alloc, &self.ops)?;
        Ok(VerifiedCode {
            column: self.column,
            ops,
        })
    }
}
