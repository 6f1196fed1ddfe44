//! What runs of receive code answer to fragments, and the calls that they take.

ghost use Rattle.std.specs.Prelude.{◌≡◌};
ghost use Rattle.fl_interface.specs.Interface.{interface_of};
ghost use Rattle.fl_machine.specs.Receiving.{HoldsTapes};

use crate::interfaces::interface;
use fl_base::{Frag, MsgNo};
use fl_compile::compile;
use fl_layout::Plans;
use fl_machine::{Fed, RecvRun, law_takes_fragments};
use fl_value::print_call;
use fl_value_data::{Call, PlanNo};
use std::alloc::{AllocError, Global};
use std::test::Fail;

const SHORT: &[u8] = b"interface i { message m(bool b, string s[2]); }";

const BLOB: &[u8] = b"interface i { message blob(string s); message nop(); }";

const MIXED: &[u8] = b"interface i { message m(uint8 a, string s, uint16 b); }";

const PAIRS: &[u8] =
    b"interface i { typedef struct { uint8 a; uint64 b; } t; message m(t x[n, 1024]); }";

const NOTHING: &[u8] = b"interface i { typedef uint8 t; }";

// The eight letters of a word of the text of 49 letters `a`, and the first fragment of its call.
const LETTERS: u64 = 0x6161_6161_6161_6161;

const FIRST: Frag = Frag {
    words: [49, LETTERS, LETTERS, LETTERS, LETTERS, LETTERS, LETTERS],
    control: 2,
};

// A fragment whose control word and first three words are given.
macro_rules! frag {
    ($control:expr; $($word:expr),*) => {
        Frag {
            words: [$($word,)* 0, 0, 0, 0],
            control: $control,
        }
    };
}

// The last fragment of that call, and the one of `nop`.
const LAST: Frag = Frag {
    words: [0x61, 0, 0, 0, 0, 0, 0],
    control: 0,
};

const NOP: Frag = Frag {
    words: [0; 7],
    control: 0x1_0002,
};

// The greatest tape of any call.
fn capacity(plans: &Plans) -> usize
    ensures enough { HoldsTapes plans.now.plan (interface_of plans.now.interface) result }
{
    let mut most = 0;
    for msg in 0..256_u16 {
        if usize::from(msg) < plans.interface.messages.len() {
            most = plans.tape_capacity(MsgNo(msg)).max(most);
        }
    }
    most
}

// A run of an interface's program; fails only where memory runs out.
fn run(alloc: Global, text: &[u8], plan: PlanNo) -> Result<RecvRun, AllocError> {
    let Ok(interface) = interface(alloc, text) else {
        return Err(AllocError);
    };
    let program = compile(alloc, &interface, plan)?;
    let most = capacity(program.plans());
    RecvRun::new(alloc, program, most)
}

// What a run answers: how far the call is, or the fault's number.
type FeedAnswer = Result<Fed, u8>;

fn answer(run: &mut RecvRun, frag: &Frag) -> FeedAnswer {
    match run.feed(frag) {
        Ok(fed) => Ok(fed),
        Err(fault) => Err(fault.number()),
    }
}

// A fragment that is fed, its answer, and whether that is undone.
type FeedStep = (Frag, FeedAnswer, bool);

// Whether a run answers so to fragments, one after another.
fn answers(run: &mut RecvRun, steps: &[FeedStep]) -> bool {
    for (frag, wanted, undone) in steps {
        if answer(run, frag) != *wanted {
            return false;
        }
        if *undone {
            run.undo();
        }
    }
    true
}

// Each is refused inside the call, which then goes on; an epoch and a count told change nothing.
const INSIDE: &[FeedStep] = &[
    (FIRST, Ok(Fed::Part), false),
    (frag!(3; 0x61, 0, 0), Err(61), false),
    (frag!(65_537; 0x61, 0, 0), Err(62), false),
    (frag!(1; 0x6161, 0, 0), Err(63), false),
    (frag!(1; 0, 0, 0), Err(65), false),
    (
        frag!(0xfffa_0000_0000_0001; 0x61, 0, 0),
        Ok(Fed::Whole),
        false,
    ),
    (LAST, Err(60), false),
    (frag!(0xfffa_0000_0001_0003; 0, 0, 0), Ok(Fed::Whole), false),
];

// An undone feed leaves the run as before it, and a refused one after it too.
const UNDONE: &[FeedStep] = &[
    (LAST, Err(60), true),
    (FIRST, Ok(Fed::Part), true),
    (LAST, Err(60), false),
    (FIRST, Ok(Fed::Part), false),
    (LAST, Ok(Fed::Whole), true),
    (FIRST, Err(61), false),
    (LAST, Ok(Fed::Whole), false),
    (LAST, Err(60), false),
    (NOP, Ok(Fed::Whole), true),
    (FIRST, Ok(Fed::Part), true),
    (LAST, Err(60), true),
    (NOP, Ok(Fed::Whole), false),
];

fn is_printed(alloc: Global, call: &Call, name: &[u8], text: &[u8]) -> Result<bool, AllocError> {
    let mut out = Vec::new(alloc);
    print_call(alloc, &mut out, name, &call.args)?;
    Ok(out.as_slice() == text)
}

// Whether a fragment makes a call whole, and it has its text.
fn makes_whole(
    alloc: Global,
    run: &mut RecvRun,
    frag: &Frag,
    whole: &Whole,
) -> Result<bool, AllocError> {
    match run.feed(frag) {
        Ok(Fed::Whole) => {
            let call = run.whole_call(alloc)?;
            is_printed(alloc, &call, whole.name, whole.text)
        }
        _ => Ok(false),
    }
}

// Whether a run goes on with all fragments but the last, and that makes this call whole.
fn gives(alloc: Global, run: &mut RecvRun, whole: &Whole) -> Result<bool, AllocError> {
    let [first @ .., last] = whole.frags else {
        return Ok(false);
    };
    for frag in first {
        if answer(run, frag) != Ok(Fed::Part) {
            return Ok(false);
        }
    }
    makes_whole(alloc, run, last, whole)
}

// A call's fragments, its message's name, and its text.
struct Whole {
    frags: &'static [Frag],
    name: &'static [u8],
    text: &'static [u8],
}

const BLOB_WHOLE: Whole = Whole {
    frags: &[FIRST, LAST],
    name: b"blob",
    text: b"blob(\"aaaaaaaaaaaaaaaaaaaaaaaaaaaaaaaaaaaaaaaaaaaaaaaaa\")",
};

const NOP_WHOLE: Whole = Whole {
    frags: &[NOP],
    name: b"nop",
    text: b"nop()",
};

const PAIRS_WHOLE: Whole = Whole {
    frags: &[
        Frag {
            words: [7, 1, 0xb, 2, 0xc, 3, 0xd],
            control: 2,
        },
        Frag {
            words: [4, 0xe, 5, 0xf, 6, 0x10, 7],
            control: 0,
        },
        Frag {
            words: [0x11, 0, 0, 0, 0, 0, 0],
            control: 0,
        },
    ],
    name: b"m",
    text: b"m([{1, 11}, {2, 12}, {3, 13}, {4, 14}, {5, 15}, {6, 16}, {7, 17}])",
};

const MIXED_ONE: Whole = Whole {
    frags: &[Frag {
        words: [1, 2, 0x6968, 5, 0, 0, 0],
        control: 2,
    }],
    name: b"m",
    text: b"m(1, \"hi\", 5)",
};

const MIXED_TWO: Whole = Whole {
    frags: &[Frag {
        words: [0x1_0005, 2, 0x6968, 0, 0, 0, 0],
        control: 2,
    }],
    name: b"m",
    text: b"m(1, \"hi\", 5)",
};

// The last are first fragments whose second letter can't be one, and one inside no call.
const REFUSED_AFTER_WHOLE: &[FeedStep] = &[
    (FIRST, Ok(Fed::Part), false),
    (LAST, Ok(Fed::Whole), false),
    (NOP, Ok(Fed::Whole), false),
    (frag!(2; 2, 0x61, 0), Err(65), true),
    (frag!(2; 2, 0x61, 0), Err(65), true),
    (LAST, Err(60), false),
];

// An interface's text, a plan, what one run is fed and answers, and the calls that it is fed then.
struct Course(&'static [u8], PlanNo, &'static [FeedStep], &'static [Whole]);

const WHOLES: &[Course] = &[
    Course(
        SHORT,
        PlanNo::One,
        &[(frag!(1; 0, 0, 0), Err(60), false)],
        &[],
    ),
    Course(
        SHORT,
        PlanNo::Two,
        &[(frag!(1; 0, 0, 0), Err(60), false)],
        &[],
    ),
    Course(
        SHORT,
        PlanNo::One,
        &[(frag!(3; 2, 0, 0), Err(65), false)],
        &[],
    ),
    Course(
        SHORT,
        PlanNo::Two,
        &[(frag!(3; 2, 0, 0), Err(65), false)],
        &[],
    ),
    Course(
        SHORT,
        PlanNo::One,
        &[(frag!(3; 1, 3, 0), Err(66), false)],
        &[],
    ),
    Course(
        SHORT,
        PlanNo::Two,
        &[(frag!(3; 1, 3, 0), Err(66), false)],
        &[],
    ),
    Course(
        SHORT,
        PlanNo::One,
        &[(frag!(3; 257, 0, 0), Err(63), false)],
        &[],
    ),
    Course(
        SHORT,
        PlanNo::Two,
        &[(frag!(3; 257, 0, 0), Err(63), false)],
        &[],
    ),
    Course(
        SHORT,
        PlanNo::One,
        &[(frag!(3; 1, 1, 0), Err(65), false)],
        &[],
    ),
    Course(
        SHORT,
        PlanNo::Two,
        &[(frag!(3; 1, 1, 0), Err(65), false)],
        &[],
    ),
    Course(
        SHORT,
        PlanNo::One,
        &[(frag!(11; 0, 0, 0), Err(63), false)],
        &[],
    ),
    Course(
        SHORT,
        PlanNo::Two,
        &[(frag!(11; 0, 0, 0), Err(63), false)],
        &[],
    ),
    Course(
        SHORT,
        PlanNo::One,
        &[(frag!(65_539; 0, 0, 0), Err(62), false)],
        &[],
    ),
    Course(
        SHORT,
        PlanNo::Two,
        &[(frag!(65_539; 0, 0, 0), Err(62), false)],
        &[],
    ),
    Course(
        SHORT,
        PlanNo::One,
        &[(frag!(3; 1, 1, 0x61), Ok(Fed::Whole), false)],
        &[],
    ),
    Course(
        SHORT,
        PlanNo::Two,
        &[(frag!(3; 1, 1, 0x61), Ok(Fed::Whole), false)],
        &[],
    ),
    Course(BLOB, PlanNo::One, INSIDE, &[]),
    Course(BLOB, PlanNo::Two, INSIDE, &[]),
    Course(BLOB, PlanNo::One, UNDONE, &[]),
    Course(BLOB, PlanNo::Two, UNDONE, &[]),
    Course(
        NOTHING,
        PlanNo::One,
        &[(FIRST, Err(62), true), (LAST, Err(60), true)],
        &[],
    ),
    Course(
        NOTHING,
        PlanNo::Two,
        &[(FIRST, Err(62), true), (LAST, Err(60), true)],
        &[],
    ),
    Course(MIXED, PlanNo::One, &[], &[MIXED_ONE]),
    Course(MIXED, PlanNo::Two, &[], &[MIXED_TWO]),
    Course(PAIRS, PlanNo::One, &[], &[PAIRS_WHOLE]),
    Course(PAIRS, PlanNo::Two, &[], &[PAIRS_WHOLE]),
    Course(BLOB, PlanNo::One, &[], &[BLOB_WHOLE, NOP_WHOLE]),
    Course(BLOB, PlanNo::Two, &[], &[BLOB_WHOLE, NOP_WHOLE]),
    // a refused fragment before that changes nothing of what was undone, and a second undo nothing at all
    Course(BLOB, PlanNo::One, REFUSED_AFTER_WHOLE, &[NOP_WHOLE]),
    Course(BLOB, PlanNo::Two, REFUSED_AFTER_WHOLE, &[NOP_WHOLE]),
];

fn gives_all(
    alloc: Global,
    run: &mut RecvRun,
    steps: &[FeedStep],
    wholes: &[Whole],
) -> Result<bool, AllocError> {
    if !answers(run, steps) {
        return Ok(false);
    }
    for whole in wholes {
        if !gives(alloc, run, whole)? {
            return Ok(false);
        }
    }
    Ok(true)
}

impl Course {
    fn is_so(&self, alloc: Global) -> Result<bool, AllocError> {
        let mut run = run(alloc, self.0, self.1)?;
        gives_all(alloc, &mut run, self.2, self.3)
    }
}

#[test]
fn calls_from_their_fragments(rt: HostRuntime) -> Result<(), Fail> {
    law_takes_fragments();
    for row in WHOLES {
        assert!(rt; row.is_so(rt.alloc())?);
    }
    Ok(())
}

// Feeding and undoing take no memory: where each allocation is refused in turn, either the run or the call isn't made, or it
// answers as ever.
#[test]
fn feeding_without_memory(rt: HostRuntime) {
    for row in WHOLES {
        assert!(rt; row.is_so(rt.alloc()) != Ok(false));
    }
}
