//! Codecs of messages of few numbers: tapes and the fragments that they are, on a circuit.

use crate::interfaces::interface;
use crate::rows::{TextCase, all_hold};
use fl_base::{Circuit, Frag, MsgNo};
use fl_codec::{Codec, law_one_tape_one_frag};
use fl_value_data::PlanNo;
use std::alloc::Global;
use std::test::Fail;

// An interface's text, a plan, and of its message 0 a tape and a fragment on circuit 5. They are one call's where they are
// carried; else the message has no codec, or neither is a call's.
struct CodecRow {
    text: &'static [u8],
    plan: PlanNo,
    tape: &'static [u64],
    frag: Frag,
    carried: bool,
}

const NUMBERS: &[u8] = b"interface i { message m(int8 a, int64 b, uint8 c); }";

const ENUM: &[u8] = b"interface i { typedef enum { a, b, c } e; message m(e x, bool y); }";

const CODECS: &[CodecRow] = &[
    CodecRow {
        text: b"interface i { message m(); }",
        plan: PlanNo::One,
        tape: &[],
        frag: Frag {
            words: [0, 0, 0, 0, 0, 0, 0],
            control: 0x5_0000_0002,
        },
        carried: true,
    },
    CodecRow {
        text: NUMBERS,
        plan: PlanNo::One,
        tape: &[0x80, 0xffff_ffff_ffff_ffff, 0xff],
        frag: Frag {
            words: [0x80, 0xffff_ffff_ffff_ffff, 0xff, 0, 0, 0, 0],
            control: 0x5_0000_0002,
        },
        carried: true,
    },
    CodecRow {
        text: NUMBERS,
        plan: PlanNo::Two,
        tape: &[0xffff_ffff_ffff_ffff, 0x80, 0xff],
        frag: Frag {
            words: [0xffff_ffff_ffff_ffff, 0xff80, 0, 0, 0, 0, 0],
            control: 0x5_0000_0002,
        },
        carried: true,
    },
    CodecRow {
        text: ENUM,
        plan: PlanNo::One,
        tape: &[2, 1],
        frag: Frag {
            words: [0x1_0000_0002, 0, 0, 0, 0, 0, 0],
            control: 0x5_0000_0002,
        },
        carried: true,
    },
    // An enumerator that isn't there, and a bool of 2.
    CodecRow {
        text: ENUM,
        plan: PlanNo::One,
        tape: &[3, 1],
        frag: Frag {
            words: [0x2_0000_0002, 0, 0, 0, 0, 0, 0],
            control: 0x5_0000_0002,
        },
        carried: false,
    },
    // Too long a tape, and a byte behind the last number.
    CodecRow {
        text: ENUM,
        plan: PlanNo::One,
        tape: &[2, 1, 0],
        frag: Frag {
            words: [0x1_0000_0002, 1, 0, 0, 0, 0, 0],
            control: 0x5_0000_0002,
        },
        carried: false,
    },
    // Too short a tape, and another message.
    CodecRow {
        text: ENUM,
        plan: PlanNo::One,
        tape: &[2],
        frag: Frag {
            words: [0x1_0000_0002, 0, 0, 0, 0, 0, 0],
            control: 0x5_0001_0002,
        },
        carried: false,
    },
    // A string, and eight numbers.
    CodecRow {
        text: b"interface i { message m(uint8 a, string s[4]); }",
        plan: PlanNo::One,
        tape: &[1, 0],
        frag: Frag {
            words: [1, 0, 0, 0, 0, 0, 0],
            control: 0x5_0000_0002,
        },
        carried: false,
    },
    CodecRow {
        text: b"interface i { message m(char a, char b, char c, char d, char e, char f, char g, char h); }",
        plan: PlanNo::One,
        tape: &[1, 2, 3, 4, 5, 6, 7, 8],
        frag: Frag {
            words: [0x0807_0605_0403_0201, 0, 0, 0, 0, 0, 0],
            control: 0x5_0000_0002,
        },
        carried: false,
    },
];

// Whether a fragment decodes to a tape, as it stands in a link.
fn decodes(codec: &Codec, frag: &Frag, tape: &[u64]) -> bool {
    match codec.decode(Circuit(5), &frag.stamp(1, 9)) {
        Some(numbers) => numbers.as_slice() == tape,
        None => false,
    }
}

impl TextCase for CodecRow {
    fn holds(&self, alloc: Global) -> Result<bool, Fail> {
        let interface = interface(alloc, self.text)?;
        let Some(codec) = Codec::of(&interface, self.plan, MsgNo(0)) else {
            return Ok(!self.carried);
        };
        let frag = codec.encode(Circuit(5), self.tape);
        if self.carried {
            return Ok(frag == Some(self.frag) && decodes(&codec, &self.frag, self.tape));
        }
        Ok(frag.is_none() && codec.decode(Circuit(5), &self.frag).is_none())
    }
}

#[test]
fn codecs_carry_tapes(rt: HostRuntime) -> Result<(), Fail> {
    law_one_tape_one_frag();
    all_hold(rt.alloc(), "codecs", CODECS)
}
