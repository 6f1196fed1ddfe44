//! The worked rows of layouts under both plans: lengths of payloads and tapes, fragments, places and sizes of
//! arguments.

use crate::interfaces::interface;
use crate::rows::{TextCase, all_hold};
use fl_base::MsgNo;
use fl_layout::{Plans, plan};
use fl_value::{ValueFault, read_call};
use fl_value_data::{PlanNo, fits};
use fl_wire::fragment_count;
use std::alloc::Global;
use std::test::Fail;

// An interface's text, a plan, a message's number, and what is told of it and of its arguments: the least payload, the
// greatest, its fragments, and the longest tape, if there is such a message; then a place and a size each.
struct MessageFigures {
    text: &'static [u8],
    plan: PlanNo,
    msg: MsgNo,
    figures: Option<[usize; 4]>,
    arguments: &'static [(Option<usize>, usize)],
}

const BETWEEN: &[u8] = b"interface i { message m(uint8 a, string s, uint16 b); };";

const LONGEST: &[u8] = b"interface i { message m(uint64 x[n, 4095]); }";

// The second plan's payload is the longer one, and has just the greatest length that there may be.
const LONGER: &[u8] = b"interface i { message m(uint64 x[n, 4094], uint8 b); }";

// The struct has 40 bytes, aligned to 8, of which 33 are its fields'.
const BLOCK: &[u8] = b"interface block {
    typedef uint8 uuid[16];
    typedef struct { uint32 block_size; uint64 blocks; uuid id; bool read_only; } geometry;
    message nop();
    message m(bool first, geometry shape, uint16 last);
    message all(geometry shapes[n, 3], bool more);
}";

// Enums, arrays of them, and two arguments of one alignment.
const MIXED: &[u8] = b"interface i {
    typedef enum { a, b } e;
    typedef e es[3];
    typedef int16 pair[2];
    message m(int8 a, es b, pair c, string d[5], uint32 f);
}";

const DYNAMIC: &[u8] = b"interface i { message m(string s[3], uint8 b[n, 2], uint16 c); }";

const TOLD: &[MessageFigures] = &[
    MessageFigures {
        text: BETWEEN,
        plan: PlanNo::One,
        msg: MsgNo(0),
        figures: Some([18, 2066, 37, 2050]),
        arguments: &[(Some(0), 1), (Some(8), 1), (None, 2)],
    },
    MessageFigures {
        text: BETWEEN,
        plan: PlanNo::Two,
        msg: MsgNo(0),
        figures: Some([16, 2063, 37, 2050]),
        arguments: &[(Some(2), 1), (Some(8), 1), (Some(0), 2)],
    },
    MessageFigures {
        text: LONGEST,
        plan: PlanNo::One,
        msg: MsgNo(0),
        figures: Some([8, 32768, 586, 4096]),
        arguments: &[(Some(0), 8)],
    },
    MessageFigures {
        text: LONGEST,
        plan: PlanNo::Two,
        msg: MsgNo(0),
        figures: Some([8, 32768, 586, 4096]),
        arguments: &[(Some(0), 8)],
    },
    MessageFigures {
        text: LONGER,
        plan: PlanNo::One,
        msg: MsgNo(0),
        figures: Some([9, 32761, 586, 4096]),
        arguments: &[(Some(0), 8), (None, 1)],
    },
    MessageFigures {
        text: LONGER,
        plan: PlanNo::Two,
        msg: MsgNo(0),
        figures: Some([16, 32768, 586, 4096]),
        arguments: &[(Some(8), 8), (Some(0), 1)],
    },
    MessageFigures {
        text: BLOCK,
        plan: PlanNo::One,
        msg: MsgNo(0),
        figures: Some([0, 0, 1, 0]),
        arguments: &[],
    },
    MessageFigures {
        text: BLOCK,
        plan: PlanNo::Two,
        msg: MsgNo(0),
        figures: Some([0, 0, 1, 0]),
        arguments: &[],
    },
    MessageFigures {
        text: BLOCK,
        plan: PlanNo::One,
        msg: MsgNo(1),
        figures: Some([50, 50, 1, 21]),
        arguments: &[(Some(0), 1), (Some(8), 40), (Some(48), 2)],
    },
    MessageFigures {
        text: BLOCK,
        plan: PlanNo::Two,
        msg: MsgNo(1),
        figures: Some([43, 43, 1, 21]),
        arguments: &[(Some(42), 1), (Some(0), 40), (Some(40), 2)],
    },
    MessageFigures {
        text: BLOCK,
        plan: PlanNo::One,
        msg: MsgNo(2),
        figures: Some([9, 129, 3, 59]),
        arguments: &[(Some(0), 40), (None, 1)],
    },
    MessageFigures {
        text: BLOCK,
        plan: PlanNo::Two,
        msg: MsgNo(2),
        figures: Some([16, 136, 3, 59]),
        arguments: &[(Some(8), 40), (Some(0), 1)],
    },
    MessageFigures {
        text: MIXED,
        plan: PlanNo::One,
        msg: MsgNo(0),
        figures: Some([36, 44, 1, 13]),
        arguments: &[
            (Some(0), 1),
            (Some(4), 12),
            (Some(16), 4),
            (Some(24), 1),
            (None, 4),
        ],
    },
    MessageFigures {
        text: MIXED,
        plan: PlanNo::Two,
        msg: MsgNo(0),
        figures: Some([32, 37, 1, 13]),
        arguments: &[
            (Some(20), 1),
            (Some(0), 12),
            (Some(16), 4),
            (Some(24), 1),
            (Some(12), 4),
        ],
    },
    MessageFigures {
        text: DYNAMIC,
        plan: PlanNo::One,
        msg: MsgNo(0),
        figures: Some([18, 34, 1, 8]),
        arguments: &[(Some(0), 1), (None, 1), (None, 2)],
    },
    MessageFigures {
        text: DYNAMIC,
        plan: PlanNo::Two,
        msg: MsgNo(0),
        figures: Some([24, 34, 1, 8]),
        arguments: &[(Some(8), 1), (None, 1), (Some(0), 2)],
    },
    // a message that isn't there
    MessageFigures {
        text: BETWEEN,
        plan: PlanNo::Two,
        msg: MsgNo(1),
        figures: None,
        arguments: &[],
    },
];

fn make_plans(alloc: Global, text: &[u8], number: PlanNo) -> Result<Plans, Fail> {
    let interface = interface(alloc, text)?;
    Ok(plan(alloc, &interface, number)?)
}

// The lengths of a message: the least payload, the greatest, its fragments, and the longest tape. Nothing where there
// is no such message.
fn figures(plans: &Plans, msg: MsgNo) -> Option<[usize; 4]> {
    if usize::from(msg.0) >= plans.interface.messages.len() {
        return None;
    }
    let greatest = plans.greatest(msg);
    Some([
        plans.least(msg),
        greatest,
        fragment_count(greatest),
        plans.tape_capacity(msg),
    ])
}

// Whether a message's arguments have these places and sizes, and there is none behind them.
fn has_arguments(plans: &Plans, msg: MsgNo, wanted: &[(Option<usize>, usize)]) -> bool {
    for (j, (place, size)) in wanted.iter().enumerate() {
        if plans.place(msg, j) != *place || plans.arg_size(msg, j) != *size {
            return false;
        }
    }
    plans.place(msg, wanted.len()).is_none()
}

impl TextCase for MessageFigures {
    fn holds(&self, alloc: Global) -> Result<bool, Fail> {
        let plans = make_plans(alloc, self.text, self.plan)?;
        Ok(
            figures(&plans, self.msg) == self.figures
                && has_arguments(&plans, self.msg, self.arguments),
        )
    }
}

// A call of a text of so many letters, the length of its payload and the number of its fragments under either plan.
struct LettersPayload(usize, usize, usize);

const OF_LETTERS: &[LettersPayload] = &[
    LettersPayload(0, 8, 1),
    LettersPayload(48, 56, 1),
    LettersPayload(49, 57, 2),
    LettersPayload(4_096, 4_104, 74),
];

const STRING: &[u8] = b"interface i { message m(string s[4096]); }";

const PLANS: &[PlanNo] = &[PlanNo::One, PlanNo::Two];

fn is_long(alloc: Global, plans: &Plans, row: &LettersPayload) -> Result<bool, ValueFault> {
    let mut text = b"m(\"".to_vec(alloc)?;
    for _ in 0..row.0 {
        text.push(b'a')?;
    }
    text.extend_from_slice(b"\")")?;
    let call = read_call(alloc, &text, &plans.interface)?;
    if !fits(&call, &plans.interface) {
        return Ok(false);
    }
    Ok(plans.size_of(&call) == row.1 && plans.fragments_of(&call) == row.2)
}

#[test]
fn lengths_places_and_sizes(rt: HostRuntime) -> Result<(), Fail> {
    all_hold(rt.alloc(), "what is told of messages", TOLD)?;
    for number in PLANS {
        let plans = make_plans(rt.alloc(), STRING, *number)?;
        for row in OF_LETTERS {
            assert!(rt; is_long(rt.alloc(), &plans, row)?);
        }
    }
    Ok(())
}
