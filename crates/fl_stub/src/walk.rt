//! How code is looked through: one pass, with a count of the loops that are open.

ghost use Rattle.std.specs.Prelude.{◌≡◌, ◌+◌, ◌-◌, ◌&&◌, nat_lt, [], Some};
ghost use Rattle.fl_stub.specs.declared.op.Column.TheVariants.{Send as send, Receive as receive};
ghost use Rattle.fl_stub.specs.declared.walk.WalkState.TheVariants.{Inside as inside};
ghost use Rattle.fl_stub.specs.Structure.{is_step as is_step_of};
ghost use Rattle.fl_stub.specs.Walk.{after as after_of, after_inside as after_inside_of, after_length as after_length_of};
ghost use Rattle.fl_stub.specs.Walk.{accepts as accepts_of, if_so as if_so_of, is_send, is_receive};

use crate::op::{Column, Op};

/// How deep loops may go.
pub const MAX_DEPTH: u32 = 8;

/// Where the walk stands.
#[derive(Clone, Copy, Debug, PartialEq, Eq)]
pub(crate) enum WalkState {
    /// Inside so many loops.
    Inside(u32),
    /// Directly after a length, inside so many loops.
    AfterLength(u32),
    /// After the last instruction.
    Ended,
}

impl Column {
    fn is_send(self) -> bool
        ensures { result ≡ is_send self }
    {
        match self {
            Column::Send => true,
            Column::Receive => false,
        }
    }

    fn is_receive(self) -> bool
        ensures { result ≡ is_receive self }
    {
        match self {
            Column::Send => false,
            Column::Receive => true,
        }
    }
}

fn is_send_step(op: Op) -> bool
    ensures { result ≡ is_step_of send op }
{
    match op {
        Op::Emit(_) | Op::Pad(_) | Op::Align => op.is_in_range(),
        _ => false,
    }
}

fn is_receive_step(op: Op) -> bool
    ensures { result ≡ is_step_of receive op }
{
    match op {
        Op::Read(_) | Op::ReadEnum(_) | Op::Skip(_) => op.is_in_range(),
        Op::ReadBool | Op::ReadChar | Op::ReadText | Op::Align => true,
        _ => false,
    }
}

fn is_step(column: Column, op: Op) -> bool
    ensures { result ≡ is_step_of column op }
{
    match column {
        Column::Send => is_send_step(op),
        Column::Receive => is_receive_step(op),
    }
}

fn if_so(test: bool, standing: WalkState) -> Option<WalkState>
    ensures { result ≡ if_so_of test standing }
{
    if test { Some(standing) } else { None }
}

// The loop that begins here; none goes deeper than `MAX_DEPTH`.
fn open(in_range: bool, depth: u32) -> Option<WalkState>
    ensures { result ≡ if_so_of (in_range && nat_lt depth 8) (inside (depth + 1)) }
{
    if in_range && depth < MAX_DEPTH {
        Some(WalkState::Inside(depth + 1))
    } else {
        None
    }
}

fn close(depth: u32) -> Option<WalkState>
    ensures { result ≡ if_so_of (nat_lt 0 depth) (inside (depth - 1)) }
{
    if depth > 0 {
        Some(WalkState::Inside(depth - 1))
    } else {
        None
    }
}

fn after_inside(column: Column, depth: u32, op: Op) -> Option<WalkState>
    ensures { result ≡ after_inside_of column depth op }
{
    match op {
        Op::Times(_) => open(op.is_in_range(), depth),
        Op::Length(_) => if_so(
            column.is_send() && op.is_in_range(),
            WalkState::AfterLength(depth),
        ),
        Op::ReadLength(_) => if_so(
            column.is_receive() && op.is_in_range(),
            WalkState::AfterLength(depth),
        ),
        Op::Back => close(depth),
        Op::End => if_so(column.is_send() && depth == 0, WalkState::Ended),
        Op::Done => if_so(column.is_receive() && depth == 0, WalkState::Ended),
        _ => if_so(is_step(column, op), WalkState::Inside(depth)),
    }
}

fn after_length(depth: u32, op: Op) -> Option<WalkState>
    ensures { result ≡ after_length_of depth op }
{
    match op {
        Op::Each => open(true, depth),
        _ => None,
    }
}

fn after(column: Column, standing: WalkState, op: Op) -> Option<WalkState>
    ensures { result ≡ after_of column standing op }
{
    match standing {
        WalkState::Inside(depth) => after_inside(column, depth, op),
        WalkState::AfterLength(depth) => after_length(depth, op),
        WalkState::Ended => None,
    }
}

fn has_ended(standing: WalkState) -> bool
    ensures { result ≡ accepts_of send (Some standing) [] }
{
    matches!(standing, WalkState::Ended)
}

/// Whether code of a column is walked through from its first instruction to its last.
pub(crate) fn accepts(column: Column, ops: &[Op]) -> bool
    ensures { result ≡ accepts_of column (Some (inside 0)) ops.now }
{
    let mut standing = WalkState::Inside(0);
    for op in ops {
        let Some(next) = after(column, standing, *op) else {
            return false;
        };
        standing = next;
    }
    has_ended(standing)
}
