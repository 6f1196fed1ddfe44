//! Which instructions `verify` accepts.

use fl_stub::{Code, Op, VerifiedCode, verify};
use std::alloc::{AllocError, Global};
use std::test::Fail;

pub(crate) fn verify_ops(alloc: Global, ops: &[Op]) -> Result<Option<VerifiedCode>, AllocError> {
    let code = Code {
        ops: Vec::from_slice(alloc, ops)?,
    };
    Ok(verify(code))
}

const SEND: &[Op] = &[
    Op::Emit(1),
    Op::Align,
    Op::Length(2_047),
    Op::Each,
    Op::Emit(1),
    Op::Back,
    Op::Align,
    Op::Emit(2),
    Op::End,
];

const RECEIVE: &[Op] = &[
    Op::Read(1),
    Op::Align,
    Op::ReadLength(2_047),
    Op::Each,
    Op::ReadText,
    Op::Back,
    Op::Align,
    Op::Read(2),
    Op::Done,
];

const ACCEPTED: &[&[Op]] = &[
    SEND,
    RECEIVE,
    &[Op::End],
    &[Op::Done],
    &[Op::Times(1_024), Op::Back, Op::End],
    &[Op::Length(4_096), Op::Each, Op::Back, Op::End],
    &[
        Op::ReadLength(1),
        Op::Each,
        Op::ReadText,
        Op::Back,
        Op::Done,
    ],
    &[Op::Emit(8), Op::Emit(4), Op::Emit(2), Op::Pad(7), Op::End],
    &[
        Op::ReadEnum(u32::MAX),
        Op::Skip(1),
        Op::ReadBool,
        Op::ReadChar,
        Op::Done,
    ],
    &[Op::Align, Op::Align, Op::Done],
    &[
        Op::Times(1),
        Op::Length(1),
        Op::Each,
        Op::Back,
        Op::Back,
        Op::End,
    ],
    // as deep as loops go
    &[
        Op::Times(1),
        Op::Times(1),
        Op::Times(1),
        Op::Times(1),
        Op::Times(1),
        Op::Times(1),
        Op::Times(1),
        Op::Times(1),
        Op::Back,
        Op::Back,
        Op::Back,
        Op::Back,
        Op::Back,
        Op::Back,
        Op::Back,
        Op::Back,
        Op::End,
    ],
];

const REFUSED: &[&[Op]] = &[
    &[],
    &[Op::Each, Op::Back, Op::End],
    &[Op::Emit(3), Op::End],
    &[Op::Emit(1), Op::Done],
    &[Op::Emit(0), Op::End],
    &[Op::Emit(16), Op::End],
    &[Op::Times(0), Op::Back, Op::End],
    &[Op::Times(1_025), Op::Back, Op::End],
    &[Op::Length(0), Op::Each, Op::Back, Op::End],
    &[Op::Length(4_097), Op::Each, Op::Back, Op::End],
    &[Op::Length(1), Op::End],
    &[Op::Length(1), Op::Times(1), Op::Back, Op::End],
    &[Op::Length(1), Op::Align, Op::Each, Op::Back, Op::End],
    &[Op::ReadLength(1), Op::Each, Op::Back, Op::End],
    &[Op::Times(1), Op::Each, Op::Back, Op::Back, Op::End],
    &[Op::Back, Op::End],
    &[Op::Times(1), Op::End],
    &[Op::Times(1), Op::End, Op::Back],
    &[Op::End, Op::End],
    &[Op::Emit(1)],
    &[Op::Read(1), Op::Emit(1), Op::Done],
    &[Op::ReadEnum(0), Op::Done],
    &[Op::Pad(8), Op::End],
    &[Op::Skip(0), Op::Done],
    // one loop too many
    &[
        Op::Times(1),
        Op::Times(1),
        Op::Times(1),
        Op::Times(1),
        Op::Times(1),
        Op::Times(1),
        Op::Times(1),
        Op::Times(1),
        Op::Times(1),
        Op::Back,
        Op::Back,
        Op::Back,
        Op::Back,
        Op::Back,
        Op::Back,
        Op::Back,
        Op::Back,
        Op::Back,
        Op::End,
    ],
];

#[test]
fn accepted_and_refused(rt: HostRuntime) -> Result<(), Fail> {
    for ops in ACCEPTED {
        assert!(rt; verify_ops(rt.alloc(), ops)?.is_some());
    }
    for ops in REFUSED {
        assert!(rt; verify_ops(rt.alloc(), ops)?.is_none());
    }
    Ok(())
}
