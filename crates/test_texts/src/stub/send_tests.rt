//! The fragments that runs of send code give.

use crate::rows::{TextCase, all_hold};
use crate::stub::verify_tests::verify_ops;
use fl_base::{Circuit, Frag, MsgNo};
use fl_machine::SendRun;
use fl_stub::{Column, Op, VerifiedCode};
use std::alloc::Global;
use std::test::Fail;

// Send code, a tape, and the fragments that its run gives: one or two.
struct SendRow {
    ops: &'static [Op],
    tape: &'static [u64],
    first: Frag,
    second: Option<Frag>,
}

// The control words of the first fragment of message 2 on circuit 5, and of the others.
const FIRST: u64 = 0x0005_0002_0002;

const LATER: u64 = 0x0005_0002_0000;

// A string between numbers.
const STRING: &[Op] = &[
    Op::Emit(1),
    Op::Align,
    Op::Length(2_047),
    Op::Each,
    Op::Emit(1),
    Op::Back,
    Op::Align,
    Op::Emit(2),
    Op::End,
];

const SENT: &[SendRow] = &[
    SendRow {
        ops: STRING,
        tape: &[7, 3, 97, 98, 99, 0x1234],
        first: Frag {
            words: [7, 3, 0x63_6261, 0x1234, 0, 0, 0],
            control: FIRST,
        },
        second: None,
    },
    SendRow {
        ops: STRING,
        tape: &[255, 0, 0xffff],
        first: Frag {
            words: [255, 0, 0xffff, 0, 0, 0, 0],
            control: FIRST,
        },
        second: None,
    },
    // a call without arguments is one fragment
    SendRow {
        ops: &[Op::End],
        tape: &[],
        first: Frag {
            words: [0; 7],
            control: FIRST,
        },
        second: None,
    },
    // one that ends where a fragment ends has no more
    SendRow {
        ops: &[Op::Times(7), Op::Emit(8), Op::Back, Op::Align, Op::End],
        tape: &[1, 2, 3, 4, 5, 6, u64::MAX],
        first: Frag {
            words: [1, 2, 3, 4, 5, 6, u64::MAX],
            control: FIRST,
        },
        second: None,
    },
    // a loop goes on in the next fragment
    SendRow {
        ops: &[Op::Times(60), Op::Emit(1), Op::Back, Op::End],
        tape: &[
            1, 2, 3, 4, 5, 6, 7, 8, 9, 10, 11, 12, 13, 14, 15, 16, 17, 18, 19, 20, 21, 22, 23, 24,
            25, 26, 27, 28, 29, 30, 31, 32, 33, 34, 35, 36, 37, 38, 39, 40, 41, 42, 43, 44, 45, 46,
            47, 48, 49, 50, 51, 52, 53, 54, 55, 56, 57, 58, 59, 60,
        ],
        first: Frag {
            words: [
                0x0807_0605_0403_0201,
                0x100f_0e0d_0c0b_0a09,
                0x1817_1615_1413_1211,
                0x201f_1e1d_1c1b_1a19,
                0x2827_2625_2423_2221,
                0x302f_2e2d_2c2b_2a29,
                0x3837_3635_3433_3231,
            ],
            control: FIRST,
        },
        second: Some(Frag {
            words: [0x3c3b_3a39, 0, 0, 0, 0, 0, 0],
            control: LATER,
        }),
    },
    // and so do a number and zeros that don't fit
    SendRow {
        ops: &[
            Op::Times(6),
            Op::Emit(8),
            Op::Back,
            Op::Emit(4),
            Op::Emit(8),
            Op::Pad(7),
            Op::Emit(1),
            Op::End,
        ],
        tape: &[0, 0, 0, 0, 0, 0, 9, 0x8877_6655_4433_2211, 0xee],
        first: Frag {
            words: [0, 0, 0, 0, 0, 0, 0x4433_2211_0000_0009],
            control: FIRST,
        },
        second: Some(Frag {
            words: [0x8877_6655, 0xee00_0000, 0, 0, 0, 0, 0],
            control: LATER,
        }),
    },
    // loops in loops, one of them counted and empty in its second turn
    SendRow {
        ops: &[
            Op::Times(2),
            Op::Length(4),
            Op::Each,
            Op::Times(2),
            Op::Emit(2),
            Op::Pad(2),
            Op::Back,
            Op::Back,
            Op::Back,
            Op::Emit(8),
            Op::End,
        ],
        tape: &[2, 1, 2, 3, 4, 0, 77],
        first: Frag {
            words: [2, 0x2_0000_0001, 0x4_0000_0003, 0, 77, 0, 0],
            control: FIRST,
        },
        second: None,
    },
];

// Whether a run of message 2 on circuit 5 gives the row's fragments, the first one also by a look. Nothing is sent by receive code.
fn is_sent(code: &VerifiedCode, tape: Vec<u64>, row: &SendRow) -> bool {
    match code.column() {
        Column::Send => {}
        Column::Receive => return false,
    }
    let mut run = SendRun::start(code, MsgNo(2), Circuit(5), tape);
    run.peek_frag(code) == Some(row.first)
        && run.next_frag(code) == Some(row.first)
        && run.next_frag(code) == row.second
        && run.next_frag(code).is_none()
}

impl TextCase for SendRow {
    fn holds(&self, alloc: Global) -> Result<bool, Fail> {
        let Some(code) = verify_ops(alloc, self.ops)? else {
            return Ok(false);
        };
        let tape = Vec::from_slice(alloc, self.tape)?;
        Ok(is_sent(&code, tape, self))
    }
}

#[test]
fn runs_give_their_fragments(rt: HostRuntime) -> Result<(), Fail> {
    all_hold(rt.alloc(), "rows", SENT)
}
