//! The code of messages under both plans.

use crate::interfaces::interface;
use crate::rows::{TextCase, all_hold};
use fl_base::MsgNo;
use fl_compile::{Program, compile};
use fl_stub::{Column, Op, VerifiedCode};
use fl_value_data::PlanNo;
use std::alloc::Global;
use std::test::Fail;

// An interface's text and how many messages it has, a plan, a message's number, and the message's two codes.
struct Codes {
    text: &'static [u8],
    messages: u16,
    plan: PlanNo,
    msg: MsgNo,
    send: &'static [Op],
    receive: &'static [Op],
}

const BETWEEN: &[u8] = b"interface i { message m(uint8 a, string s, uint16 b); }";

// The struct has 40 bytes, aligned to 8, of which 33 are its fields'.
const BLOCK: &[u8] = b"interface block {
    typedef uint8 uuid[16];
    typedef struct { uint32 block_size; uint64 blocks; uuid id; bool read_only; } geometry;
    message nop();
    message m(bool first, geometry shape, uint16 last);
}";

// An array of enums, a char, and two arguments of one alignment.
const MIXED: &[u8] = b"interface i {
    typedef enum { a, b } e;
    typedef e es[3];
    typedef int16 pair[2];
    message m(int8 a, es b, pair c, string d[5], uint32 f, char g);
}";

const DYNAMIC: &[u8] = b"interface i { message m(string s[3], uint8 b[n, 2], uint16 c); }";

const STRUCTS: &[u8] =
    b"interface i { typedef struct { uint8 a; uint64 b; } t; message m(t x[n, 7]); }";

// As deep as loops go: seven arrays in one another, many times.
const DEEP: &[u8] = b"interface i {
    typedef uint8 a1[2]; typedef a1 a2[2]; typedef a2 a3[2]; typedef a3 a4[2];
    typedef a4 a5[2]; typedef a5 a6[2]; typedef a6 a7[2];
    message m(a7 x[n, 4]);
}";

const CODES: &[Codes] = &[
    Codes {
        text: BETWEEN,
        messages: 1,
        plan: PlanNo::One,
        msg: MsgNo(0),
        send: &[
            Op::Emit(1),
            Op::Align,
            Op::Length(2_047),
            Op::Each,
            Op::Emit(1),
            Op::Back,
            Op::Align,
            Op::Emit(2),
            Op::End,
        ],
        receive: &[
            Op::Read(1),
            Op::Align,
            Op::ReadLength(2_047),
            Op::Each,
            Op::ReadText,
            Op::Back,
            Op::Align,
            Op::Read(2),
            Op::Done,
        ],
    },
    Codes {
        text: BETWEEN,
        messages: 1,
        plan: PlanNo::Two,
        msg: MsgNo(0),
        send: &[
            Op::Emit(2),
            Op::Emit(1),
            Op::Align,
            Op::Length(2_047),
            Op::Each,
            Op::Emit(1),
            Op::Back,
            Op::End,
        ],
        receive: &[
            Op::Read(2),
            Op::Read(1),
            Op::Align,
            Op::ReadLength(2_047),
            Op::Each,
            Op::ReadText,
            Op::Back,
            Op::Done,
        ],
    },
    Codes {
        text: BLOCK,
        messages: 2,
        plan: PlanNo::Two,
        msg: MsgNo(0),
        send: &[Op::End],
        receive: &[Op::Done],
    },
    Codes {
        text: BLOCK,
        messages: 2,
        plan: PlanNo::One,
        msg: MsgNo(1),
        send: &[
            Op::Emit(1),
            Op::Pad(7),
            Op::Emit(4),
            Op::Pad(4),
            Op::Emit(8),
            Op::Times(16),
            Op::Emit(1),
            Op::Back,
            Op::Emit(1),
            Op::Pad(7),
            Op::Emit(2),
            Op::End,
        ],
        receive: &[
            Op::ReadBool,
            Op::Skip(7),
            Op::Read(4),
            Op::Skip(4),
            Op::Read(8),
            Op::Times(16),
            Op::Read(1),
            Op::Back,
            Op::ReadBool,
            Op::Skip(7),
            Op::Read(2),
            Op::Done,
        ],
    },
    Codes {
        text: BLOCK,
        messages: 2,
        plan: PlanNo::Two,
        msg: MsgNo(1),
        send: &[
            Op::Emit(4),
            Op::Pad(4),
            Op::Emit(8),
            Op::Times(16),
            Op::Emit(1),
            Op::Back,
            Op::Emit(1),
            Op::Pad(7),
            Op::Emit(2),
            Op::Emit(1),
            Op::End,
        ],
        receive: &[
            Op::Read(4),
            Op::Skip(4),
            Op::Read(8),
            Op::Times(16),
            Op::Read(1),
            Op::Back,
            Op::ReadBool,
            Op::Skip(7),
            Op::Read(2),
            Op::ReadBool,
            Op::Done,
        ],
    },
    Codes {
        text: MIXED,
        messages: 1,
        plan: PlanNo::One,
        msg: MsgNo(0),
        send: &[
            Op::Emit(1),
            Op::Pad(3),
            Op::Times(3),
            Op::Emit(4),
            Op::Back,
            Op::Times(2),
            Op::Emit(2),
            Op::Back,
            Op::Align,
            Op::Length(5),
            Op::Each,
            Op::Emit(1),
            Op::Back,
            Op::Align,
            Op::Emit(4),
            Op::Emit(1),
            Op::End,
        ],
        receive: &[
            Op::Read(1),
            Op::Skip(3),
            Op::Times(3),
            Op::ReadEnum(2),
            Op::Back,
            Op::Times(2),
            Op::Read(2),
            Op::Back,
            Op::Align,
            Op::ReadLength(5),
            Op::Each,
            Op::ReadText,
            Op::Back,
            Op::Align,
            Op::Read(4),
            Op::ReadChar,
            Op::Done,
        ],
    },
    Codes {
        text: MIXED,
        messages: 1,
        plan: PlanNo::Two,
        msg: MsgNo(0),
        send: &[
            Op::Times(3),
            Op::Emit(4),
            Op::Back,
            Op::Emit(4),
            Op::Times(2),
            Op::Emit(2),
            Op::Back,
            Op::Emit(1),
            Op::Emit(1),
            Op::Align,
            Op::Length(5),
            Op::Each,
            Op::Emit(1),
            Op::Back,
            Op::End,
        ],
        receive: &[
            Op::Times(3),
            Op::ReadEnum(2),
            Op::Back,
            Op::Read(4),
            Op::Times(2),
            Op::Read(2),
            Op::Back,
            Op::Read(1),
            Op::ReadChar,
            Op::Align,
            Op::ReadLength(5),
            Op::Each,
            Op::ReadText,
            Op::Back,
            Op::Done,
        ],
    },
    Codes {
        text: DYNAMIC,
        messages: 1,
        plan: PlanNo::One,
        msg: MsgNo(0),
        send: &[
            Op::Align,
            Op::Length(3),
            Op::Each,
            Op::Emit(1),
            Op::Back,
            Op::Align,
            Op::Length(2),
            Op::Each,
            Op::Emit(1),
            Op::Back,
            Op::Align,
            Op::Emit(2),
            Op::End,
        ],
        receive: &[
            Op::Align,
            Op::ReadLength(3),
            Op::Each,
            Op::ReadText,
            Op::Back,
            Op::Align,
            Op::ReadLength(2),
            Op::Each,
            Op::Read(1),
            Op::Back,
            Op::Align,
            Op::Read(2),
            Op::Done,
        ],
    },
    Codes {
        text: STRUCTS,
        messages: 1,
        plan: PlanNo::One,
        msg: MsgNo(0),
        send: &[
            Op::Align,
            Op::Length(7),
            Op::Each,
            Op::Emit(1),
            Op::Pad(7),
            Op::Emit(8),
            Op::Back,
            Op::End,
        ],
        receive: &[
            Op::Align,
            Op::ReadLength(7),
            Op::Each,
            Op::Read(1),
            Op::Skip(7),
            Op::Read(8),
            Op::Back,
            Op::Done,
        ],
    },
    Codes {
        text: DEEP,
        messages: 1,
        plan: PlanNo::Two,
        msg: MsgNo(0),
        send: &[
            Op::Align,
            Op::Length(4),
            Op::Each,
            Op::Times(2),
            Op::Times(2),
            Op::Times(2),
            Op::Times(2),
            Op::Times(2),
            Op::Times(2),
            Op::Times(2),
            Op::Emit(1),
            Op::Back,
            Op::Back,
            Op::Back,
            Op::Back,
            Op::Back,
            Op::Back,
            Op::Back,
            Op::Back,
            Op::End,
        ],
        receive: &[
            Op::Align,
            Op::ReadLength(4),
            Op::Each,
            Op::Times(2),
            Op::Times(2),
            Op::Times(2),
            Op::Times(2),
            Op::Times(2),
            Op::Times(2),
            Op::Times(2),
            Op::Read(1),
            Op::Back,
            Op::Back,
            Op::Back,
            Op::Back,
            Op::Back,
            Op::Back,
            Op::Back,
            Op::Back,
            Op::Done,
        ],
    },
];

fn is_code(code: Option<&VerifiedCode>, column: Column, ops: &[Op]) -> bool {
    match code {
        Some(code) => code.column() == column && code.ops() == ops,
        None => false,
    }
}

// Whether a program has the row's plan, messages and codes, and no code past the last message.
fn is_of(program: &Program, row: &Codes) -> bool {
    let behind = MsgNo(row.messages);
    program.plan() == row.plan
        && program.interface().messages.len() == usize::from(row.messages)
        && is_code(program.send_code(row.msg), Column::Send, row.send)
        && is_code(program.receive_code(row.msg), Column::Receive, row.receive)
        && program.send_code(behind).is_none()
        && program.receive_code(behind).is_none()
}

impl TextCase for Codes {
    fn holds(&self, alloc: Global) -> Result<bool, Fail> {
        let interface = interface(alloc, self.text)?;
        let program = compile(alloc, &interface, self.plan)?;
        let again = program.duplicate(alloc)?;
        Ok(is_of(&program, self) && is_of(&again, self))
    }
}

#[test]
fn codes_of_messages_and_of_duplicates(rt: HostRuntime) -> Result<(), Fail> {
    all_hold(rt.alloc(), "rows", CODES)
}
