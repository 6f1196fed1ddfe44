//! The bytes that prepared code gives for packed tapes, and takes back.

use crate::rows::{TextCase, all_hold};
use crate::stub::verify_tests::verify_ops;
use fl_stub::Op;
use fl_stub_steps::{PreparedCode, prepare};
use std::alloc::{AllocError, Global};
use std::test::Fail;

// Send code, a packed tape, and the bytes that are given.
struct Given {
    ops: &'static [Op],
    tape: &'static [u8],
    bytes: &'static [u8],
}

const GIVEN: &[Given] = &[
    // a string between numbers
    Given {
        ops: &[
            Op::Emit(1),
            Op::Align,
            Op::Length(2_047),
            Op::Each,
            Op::Emit(1),
            Op::Back,
            Op::Align,
            Op::Emit(2),
            Op::End,
        ],
        tape: &[7, 3, 0, 0, 0, 0, 0, 0, 0, 97, 98, 99, 0x34, 0x12],
        bytes: &[
            7, 0, 0, 0, 0, 0, 0, 0, 3, 0, 0, 0, 0, 0, 0, 0, 97, 98, 99, 0, 0, 0, 0, 0, 0x34, 0x12,
        ],
    },
    // loops in loops, one of them counted and empty in its second turn
    Given {
        ops: &[
            Op::Times(2),
            Op::Length(4),
            Op::Each,
            Op::Times(2),
            Op::Emit(1),
            Op::Pad(3),
            Op::Back,
            Op::Back,
            Op::Back,
            Op::Emit(1),
            Op::End,
        ],
        tape: &[1, 0, 0, 0, 0, 0, 0, 0, 5, 6, 0, 0, 0, 0, 0, 0, 0, 0, 77],
        bytes: &[
            1, 0, 0, 0, 0, 0, 0, 0, 5, 0, 0, 0, 6, 0, 0, 0, 0, 0, 0, 0, 0, 0, 0, 0, 77,
        ],
    },
    // numbers side by side, in a loop and before it
    Given {
        ops: &[
            Op::Emit(2),
            Op::Times(3),
            Op::Emit(1),
            Op::Emit(1),
            Op::Back,
            Op::End,
        ],
        tape: &[1, 2, 3, 4, 5, 6, 7, 8],
        bytes: &[1, 2, 3, 4, 5, 6, 7, 8],
    },
];

// Whether code takes the tape back from its bytes with zeros behind them up to a multiple of 8, and leaves these.
fn takes_back(alloc: Global, prepared: &PreparedCode, row: &Given) -> Result<bool, AllocError> {
    let mut payload = Vec::from_slice(alloc, row.bytes)?;
    payload.resize((row.bytes.len() + 7) / 8 * 8, 0)?;
    let mut tape = Vec::new(alloc);
    let left = prepared.take(&payload, &mut tape)?;
    Ok(tape.as_slice() == row.tape && left.len() + row.bytes.len() == payload.len())
}

impl TextCase for Given {
    fn holds(&self, alloc: Global) -> Result<bool, Fail> {
        let Some(code) = verify_ops(alloc, self.ops)? else {
            return Ok(false);
        };
        let prepared = prepare(alloc, &code)?;
        let mut bytes = Vec::new(alloc);
        prepared.give(self.tape, &mut bytes)?;
        Ok(bytes.as_slice() == self.bytes && takes_back(alloc, &prepared, self)?)
    }
}

#[test]
fn prepared_code_gives_and_takes_its_bytes(rt: HostRuntime) -> Result<(), Fail> {
    all_hold(rt.alloc(), "rows", GIVEN)
}
