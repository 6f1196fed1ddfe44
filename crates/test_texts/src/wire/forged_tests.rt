//! What lists of fragments read as, under both plans: whole calls and a rest, and of forged ones the first fault.

use crate::interfaces::interface;
use crate::rows::{TextCase, all_hold};
use fl_base::Frag;
use fl_interface::Interface;
use fl_value_data::PlanNo;
use fl_wire::{WireFault, read_frags};
use std::alloc::Global;
use std::test::Fail;

const SHORT: &[u8] = b"interface i { message m(bool b, string s[2]); }";

const BLOB: &[u8] = b"interface i { message blob(string s); message nop(); }";

const COLOURS: &[u8] =
    b"interface i { typedef enum { a, b, c } e; message m(e x, uint16 y, e z[n, 300]); }";

// How many calls fragments read as, and how many fragments are left over; or the number of their first fault.
type ReadOutcome = Result<(usize, usize), u8>;

// Eight of 49 letters `a`.
const LETTERS: u64 = 0x6161_6161_6161_6161;

const FIRST: Frag = Frag {
    words: [49, LETTERS, LETTERS, LETTERS, LETTERS, LETTERS, LETTERS],
    control: 3,
};

const LAST: Frag = Frag {
    words: [0x61, 0, 0, 0, 0, 0, 0],
    control: 1,
};

// A zero byte stands among the letters.
const WRONG: Frag = Frag {
    words: [49, LETTERS, 0, LETTERS, LETTERS, LETTERS, LETTERS],
    control: 3,
};

// A bit of the control word is set that has no meaning.
const SPOILED: Frag = Frag {
    words: [0, 0, 0, 0, 0, 0, 0],
    control: 11,
};

const NOP: Frag = Frag {
    words: [0, 0, 0, 0, 0, 0, 0],
    control: 65_538,
};

const NO_FIRST_NOP: Frag = Frag {
    words: [0, 0, 0, 0, 0, 0, 0],
    control: 65_536,
};

// A fragment whose control word and first three words are given.
macro_rules! frag {
    ($control:expr; $($word:expr),*) => {
        Frag {
            words: [$($word,)* 0, 0, 0, 0],
            control: $control,
        }
    };
}

// An interface's text, fragments of it one behind another, and what they read as.
struct List(&'static [u8], &'static [Frag], ReadOutcome);

const FRAGMENTS: &[List] = &[
    List(SHORT, &[frag!(1; 0, 0, 0)], Err(60)),
    List(SHORT, &[frag!(3; 2, 0, 0)], Err(65)),
    List(SHORT, &[frag!(3; 1, 3, 0)], Err(66)),
    List(SHORT, &[frag!(3; 257, 0, 0)], Err(63)),
    List(SHORT, &[frag!(3; 1, 1, 0)], Err(65)),
    List(SHORT, &[frag!(11; 0, 0, 0)], Err(63)),
    List(SHORT, &[frag!(65_539; 0, 0, 0)], Err(62)),
    List(SHORT, &[frag!(3; 1, 1, 0x61)], Ok((1, 0))),
    // several faults in one fragment
    List(SHORT, &[frag!(65_545; 2, 3, 0)], Err(63)),
    List(SHORT, &[frag!(0x1_0000_0003; 1, 0, 0)], Err(63)),
    List(SHORT, &[frag!(65_537; 2, 3, 0)], Err(60)),
    List(SHORT, &[frag!(65_539; 2, 3, 0)], Err(62)),
    List(SHORT, &[frag!(3; 2, 3, 1)], Err(65)),
    List(SHORT, &[frag!(3; 0x101, 3, 1)], Err(63)),
    List(SHORT, &[frag!(3; 1, 3, 1)], Err(66)),
    // behind the first fragment of 49 letters
    List(BLOB, &[FIRST, frag!(3; 0x61, 0, 0)], Err(61)),
    List(BLOB, &[FIRST, frag!(65_537; 0x61, 0, 0)], Err(62)),
    List(BLOB, &[FIRST, frag!(1; 0x6161, 0, 0)], Err(63)),
    List(BLOB, &[FIRST, frag!(1; 0, 0, 0)], Err(65)),
    List(BLOB, &[FIRST, frag!(1; 0x61, 0, 0)], Ok((1, 0))),
    List(BLOB, &[FIRST, frag!(65_539; 0, 0, 0)], Err(61)),
    List(BLOB, &[FIRST, frag!(65_551; 0, 0, 0)], Err(63)),
    // of a number the byte at fault is the first with which it reaches the bound; what stands before it may be one of a
    // fitting call
    List(COLOURS, &[frag!(3; 2, 0, 0)], Ok((1, 0))),
    List(COLOURS, &[frag!(3; 3, 0, 0)], Err(65)),
    List(COLOURS, &[frag!(3; 0x100_0002, 0, 0)], Err(65)),
    List(COLOURS, &[frag!(3; 2, 300, 0)], Ok((0, 1))),
    List(COLOURS, &[frag!(3; 2, 301, 0)], Err(66)),
    List(COLOURS, &[frag!(3; 2, 0x1_0000_0000, 0)], Err(66)),
    List(COLOURS, &[frag!(3; 0x1_0000_0000_0002, 0, 0)], Err(63)),
    // of a call without arguments
    List(BLOB, &[frag!(65_538; 0, 0, 1)], Err(63)),
    List(BLOB, &[frag!(0xfffa_0000_0001_0003; 0, 0, 0)], Ok((1, 0))),
];

const LISTS: &[List] = &[
    List(BLOB, &[], Ok((0, 0))),
    List(BLOB, &[FIRST], Ok((0, 1))),
    List(BLOB, &[WRONG, SPOILED], Err(65)),
    List(BLOB, &[FIRST, SPOILED, WRONG], Err(63)),
    List(BLOB, &[FIRST, LAST, LAST], Err(60)),
    List(BLOB, &[FIRST, LAST, FIRST, FIRST], Err(61)),
    List(BLOB, &[FIRST, LAST, FIRST, LAST], Ok((2, 0))),
    List(BLOB, &[NOP, NOP, FIRST], Ok((2, 1))),
    List(BLOB, &[NOP, NO_FIRST_NOP], Err(60)),
    // the two fragments of a call and the first one again
    List(BLOB, &[FIRST, LAST, FIRST], Ok((1, 1))),
];

fn outcome(alloc: Global, interface: &Interface, plan: PlanNo, frags: &[Frag]) -> ReadOutcome {
    match read_frags(alloc, interface, frags, plan) {
        Ok(reading) => Ok((reading.calls.len(), reading.rest)),
        Err(fault) => Err(fault.number()),
    }
}

impl TextCase for List {
    fn holds(&self, alloc: Global) -> Result<bool, Fail> {
        let interface = interface(alloc, self.0)?;
        Ok(
            outcome(alloc, &interface, PlanNo::One, self.1) == self.2
                && outcome(alloc, &interface, PlanNo::Two, self.1) == self.2,
        )
    }
}

#[test]
fn fragments_are_read(rt: HostRuntime) -> Result<(), Fail> {
    assert!(rt; WireFault::Memory.number() == 99);
    all_hold(rt.alloc(), "fragments", FRAGMENTS)?;
    all_hold(rt.alloc(), "lists", LISTS)
}
