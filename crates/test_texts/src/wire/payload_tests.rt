//! The worked rows of payloads of every type, by calls as text: lengths, payload words and control words under both
//! plans, and the calls read back. A fragment has epoch 0 until it is put; what `show` writes, 3 and 1, has the
//! epoch that a local queue sets.

use crate::interfaces::interface;
use crate::rows::{TextCase, all_hold};
use fl_base::Frag;
use fl_interface::Interface;
use fl_value::{ValueFault, print_call, read_call};
use fl_value_data::{Call, PlanNo, fits};
use fl_wire::{
    fragment, fragment_at, fragment_count, law_none_begins_with_another, law_numbers_fit_words,
    law_one_reading, law_reads_once, payload, read_call_frags,
};
use std::alloc::{AllocError, Global};
use std::test::Fail;

// An interface's text, a call of its message `m` as it is printed, and under each of these plans the length of the
// call's payload, and its fragments.
struct PayloadRow {
    text: &'static [u8],
    call: &'static [u8],
    plans: &'static [PlanNo],
    len: usize,
    frags: &'static [Frag],
}

const BOTH: &[PlanNo] = &[PlanNo::One, PlanNo::Two];

const ONE: &[PlanNo] = &[PlanNo::One];

const TWO: &[PlanNo] = &[PlanNo::Two];

const NUMBERS: &[u8] = b"interface i { message m(int8 a, int64 b, uint8 c); }";

const BETWEEN: &[u8] = b"interface i { message m(uint8 a, string s, uint16 b); }";

const STRUCTS: &[u8] =
    b"interface i { typedef struct { uint8 a; uint64 b; } t; message m(t x[n]); }";

const SEVEN: &[u8] = b"m([{1, 11}, {2, 12}, {3, 13}, {4, 14}, {5, 15}, {6, 16}, {7, 17}])";

const NESTED: &[u8] = b"interface i {
    typedef struct { uint32 a; uint8 b; } inner;
    typedef inner pair[2];
    typedef struct { uint8 a; pair b; uint16 c; } outer;
    message m(uint8 a, outer b, uint8 c);
}";

const BY_TURNS: &[u8] =
    b"interface i { message m(string a[9], uint16 b[n, 4], uint8 c, string d[9]); }";

// Eight letters `a`.
const LETTERS: u64 = 0x6161_6161_6161_6161;

const CARRIED: &[PayloadRow] = &[
    PayloadRow {
        text: b"interface i { message m(uint32 v); }",
        call: b"m(7)",
        plans: BOTH,
        len: 4,
        frags: &[Frag {
            words: [7, 0, 0, 0, 0, 0, 0],
            control: 2,
        }],
    },
    PayloadRow {
        text: b"interface i { message m(); }",
        call: b"m()",
        plans: BOTH,
        len: 0,
        frags: &[Frag {
            words: [0, 0, 0, 0, 0, 0, 0],
            control: 2,
        }],
    },
    PayloadRow {
        text: b"interface i { message m(uint8 a, uint64 b); }",
        call: b"m(1, 2)",
        plans: TWO,
        len: 9,
        frags: &[Frag {
            words: [2, 1, 0, 0, 0, 0, 0],
            control: 2,
        }],
    },
    PayloadRow {
        text: b"interface i {
            message m(uint64 a, uint64 b, uint64 c, uint64 d, uint64 e, uint64 f, uint64 g, uint64 h);
        }",
        call: b"m(1, 2, 3, 4, 5, 6, 7, 8)",
        plans: BOTH,
        len: 64,
        frags: &[
            Frag {
                words: [1, 2, 3, 4, 5, 6, 7],
                control: 2,
            },
            Frag {
                words: [8, 0, 0, 0, 0, 0, 0],
                control: 0,
            },
        ],
    },
    PayloadRow {
        text: NUMBERS,
        call: b"m(-128, -1, 255)",
        plans: ONE,
        len: 17,
        frags: &[Frag {
            words: [0x80, 0xffff_ffff_ffff_ffff, 0xff, 0, 0, 0, 0],
            control: 2,
        }],
    },
    PayloadRow {
        text: NUMBERS,
        call: b"m(-128, -1, 255)",
        plans: TWO,
        len: 10,
        frags: &[Frag {
            words: [0xffff_ffff_ffff_ffff, 0xff80, 0, 0, 0, 0, 0],
            control: 2,
        }],
    },
    PayloadRow {
        text: BETWEEN,
        call: b"m(1, \"hi\", 5)",
        plans: ONE,
        len: 26,
        frags: &[Frag {
            words: [1, 2, 0x6968, 5, 0, 0, 0],
            control: 2,
        }],
    },
    PayloadRow {
        text: BETWEEN,
        call: b"m(1, \"hi\", 5)",
        plans: TWO,
        len: 18,
        frags: &[Frag {
            words: [0x0001_0005, 2, 0x6968, 0, 0, 0, 0],
            control: 2,
        }],
    },
    PayloadRow {
        text: STRUCTS,
        call: SEVEN,
        plans: BOTH,
        len: 120,
        frags: &[
            Frag {
                words: [7, 1, 0xb, 2, 0xc, 3, 0xd],
                control: 2,
            },
            Frag {
                words: [4, 0xe, 5, 0xf, 6, 0x10, 7],
                control: 0,
            },
            Frag {
                words: [0x11, 0, 0, 0, 0, 0, 0],
                control: 0,
            },
        ],
    },
    PayloadRow {
        text: b"interface i { typedef struct { uint8 a; uint64 b; } t; message m(t x[n, 1024]); }",
        call: SEVEN,
        plans: BOTH,
        len: 120,
        frags: &[
            Frag {
                words: [7, 1, 0xb, 2, 0xc, 3, 0xd],
                control: 2,
            },
            Frag {
                words: [4, 0xe, 5, 0xf, 6, 0x10, 7],
                control: 0,
            },
            Frag {
                words: [0x11, 0, 0, 0, 0, 0, 0],
                control: 0,
            },
        ],
    },
    PayloadRow {
        text: b"interface i { message m(string s); }",
        call: b"m(\"aaaaaaaaaaaaaaaaaaaaaaaaaaaaaaaaaaaaaaaaaaaaaaaaa\")",
        plans: BOTH,
        len: 57,
        frags: &[
            Frag {
                words: [49, LETTERS, LETTERS, LETTERS, LETTERS, LETTERS, LETTERS],
                control: 2,
            },
            Frag {
                words: [0x61, 0, 0, 0, 0, 0, 0],
                control: 0,
            },
        ],
    },
    PayloadRow {
        text: NESTED,
        call: b"m(9, {1, [{2, 3}, {4, 5}], 6}, 7)",
        plans: ONE,
        len: 29,
        frags: &[Frag {
            words: [
                0x1_0000_0009,
                0x3_0000_0002,
                0x5_0000_0004,
                0x7_0000_0006,
                0,
                0,
                0,
            ],
            control: 2,
        }],
    },
    PayloadRow {
        text: NESTED,
        call: b"m(9, {1, [{2, 3}, {4, 5}], 6}, 7)",
        plans: TWO,
        len: 26,
        frags: &[Frag {
            words: [0x2_0000_0001, 0x4_0000_0003, 0x6_0000_0005, 0x0709, 0, 0, 0],
            control: 2,
        }],
    },
    PayloadRow {
        text: BY_TURNS,
        call: b"m(\"a\", [], 3, \"bc\")",
        plans: ONE,
        len: 42,
        frags: &[Frag {
            words: [1, 0x61, 0, 3, 2, 0x6362, 0],
            control: 2,
        }],
    },
    PayloadRow {
        text: BY_TURNS,
        call: b"m(\"a\", [], 3, \"bc\")",
        plans: TWO,
        len: 42,
        frags: &[Frag {
            words: [3, 1, 0x61, 0, 2, 0x6362, 0],
            control: 2,
        }],
    },
    PayloadRow {
        text: b"interface i { typedef enum { a, b, c } e; typedef e es[2]; message m(es x, int16 z); }",
        call: b"m([2, 1], -2)",
        plans: BOTH,
        len: 10,
        frags: &[Frag {
            words: [0x1_0000_0002, 0xfffe, 0, 0, 0, 0, 0],
            control: 2,
        }],
    },
];

// Whether fragments mean a call with this text; with an empty one, whether they mean none yet.
fn reads_as(
    alloc: Global,
    plan: PlanNo,
    interface: &Interface,
    frags: &[Frag],
    text: &[u8],
) -> Result<bool, AllocError> {
    let mut out = Vec::new(alloc);
    if let Some(call) = read_call_frags(alloc, interface, plan, frags)? {
        print_call(alloc, &mut out, b"m", &call.args)?;
    }
    Ok(out.as_slice() == text)
}

// Whether no proper prefix of the fragments means a call, and all of them mean that one.
fn is_read(
    alloc: Global,
    plan: PlanNo,
    interface: &Interface,
    frags: &[Frag],
    text: &[u8],
) -> Result<bool, AllocError> {
    for k in 0..frags.len() {
        if !reads_as(alloc, plan, interface, &frags[..k], b"")? {
            return Ok(false);
        }
    }
    reads_as(alloc, plan, interface, frags, text)
}

// Fragment `k` of a call; nothing where it doesn't fit.
fn frag_of(
    alloc: Global,
    plan: PlanNo,
    interface: &Interface,
    call: &Call,
    k: usize,
) -> Result<Option<Frag>, AllocError> {
    if !fits(call, interface) {
        return Ok(None);
    }
    fragment_at(alloc, interface, call, k, plan)
}

// Whether a call that stands as text has the row's payload and its fragments, one by one and none behind them.
fn is_sent(
    alloc: Global,
    plan: PlanNo,
    interface: &Interface,
    row: &PayloadRow,
) -> Result<bool, ValueFault> {
    let call = read_call(alloc, row.call, interface)?;
    if !fits(&call, interface) {
        return Ok(false);
    }
    let bytes = payload(alloc, interface, plan, &call)?;
    for (k, frag) in row.frags.iter().enumerate() {
        if fragment(&bytes, call.msg, k) != *frag
            || frag_of(alloc, plan, interface, &call, k)? != Some(*frag)
        {
            return Ok(false);
        }
    }
    Ok(
        bytes.len() == row.len
            && fragment_count(bytes.len()) == row.frags.len()
            && frag_of(alloc, plan, interface, &call, row.frags.len())?.is_none(),
    )
}

// It is so under each of the plans, and the fragments are read back.
impl TextCase for PayloadRow {
    fn holds(&self, alloc: Global) -> Result<bool, Fail> {
        let interface = interface(alloc, self.text)?;
        law_numbers_fit_words(&interface);
        for plan in self.plans {
            if !is_sent(alloc, *plan, &interface, self)?
                || !is_read(alloc, *plan, &interface, self.frags, self.call)?
            {
                return Ok(false);
            }
        }
        Ok(true)
    }
}

#[test]
fn calls_are_sent_and_read(rt: HostRuntime) -> Result<(), Fail> {
    law_one_reading();
    law_none_begins_with_another();
    law_reads_once();
    all_hold(rt.alloc(), "calls", CARRIED)
}
