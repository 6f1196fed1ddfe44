//! What one end of a binding is asked, over a queue to which it puts and from which it takes: each call once, forged fragments,
//! and a call that becomes whole.

use fl_base::{Circuit, Frag, MsgNo};
use fl_endpoint::{EndFault, WriteAnswer};

/// What the next fragment comes to: the text of a call that is handled, or the number of a fault.
pub enum Received {
    Handled(&'static [u8]),
    Part,
    Quiet,
    Empty,
    Refused(u8),
}

/// What is done at an end, and what it answers.
pub enum EndAction {
    /// A call by its text.
    Call(&'static [u8], Result<(), EndFault>),
    /// The same, held in little memory.
    Held(&'static [u8], Result<(), EndFault>),
    Show(Result<Option<Frag>, EndFault>),
    Write(Result<WriteAnswer, EndFault>),
    Receive(Received),
    /// The call of this text becomes whole, at the second try where there is no memory at the first.
    AtLast(&'static [u8]),
    /// A fragment of this control word and these words is put before the end.
    Put(u64, [u64; 7]),
    /// A reply rule, from one message to another.
    Rule(MsgNo, MsgNo, Result<(), EndFault>),
    RuleFor(MsgNo, Option<MsgNo>),
    Bind(Circuit),
    /// Its circuit, and whether it is bound, busy, failed, and has rules.
    Look(Option<Circuit>, [bool; 4]),
    /// How many replies wait.
    Waiting(usize),
}

/// What a new end answers under both plans.
pub struct EndExample {
    pub text: &'static [u8],
    /// Its circuit; none where it isn't bound yet.
    pub circuit: Option<Circuit>,
    /// How it begins: each of these is tried with a new end.
    pub starts: &'static [&'static [EndAction]],
    /// How each goes on.
    pub rows: &'static [EndAction],
}

const ECHO: &[u8] = b"interface i { rpc echo(in uint32 x, out uint32 y); }";

const SHORT: &[u8] = b"interface i { message m(bool b, string s[2]); }";

const BLOB: &[u8] = b"interface i { message blob(string s); message nop(); }";

/// Messages of one number: a signed one, one of 64 bits, an enum, and one from 0 on.
pub const NUMBERS: &[u8] =
    b"interface i { typedef enum { red, green, blue } color; message low(int8 x);
    message wide(int64 x); message paint(color c); message plain(uint16 x); }";

const WRITTEN: EndAction = EndAction::Write(Ok(WriteAnswer::Written {
    number: 1,
    count: 1,
}));

// What is shown: a control word, and the first word.
macro_rules! shown {
    ($control:expr, $v:expr) => {
        EndAction::Show(Ok(Some(Frag {
            words: [$v, 0, 0, 0, 0, 0, 0],
            control: $control,
        })))
    };
}

// A fragment is refused.
macro_rules! refused {
    ($number:expr) => {
        EndAction::Receive(Received::Refused($number))
    };
}

// Each call once: an end that isn't bound yet, a call that comes back to it, and the reply by rule to that.
const EACH_ONCE: &[EndAction] = &[
    EndAction::Look(None, [false, false, false, false]),
    EndAction::Call(b"echo_call(9)", Err(EndFault::NotBound)),
    EndAction::Rule(MsgNo(0), MsgNo(2), Err(EndFault::UnknownMessage)),
    EndAction::Rule(MsgNo(0), MsgNo(1), Ok(())),
    EndAction::RuleFor(MsgNo(0), Some(MsgNo(1))),
    EndAction::RuleFor(MsgNo(1), None),
    EndAction::Bind(Circuit(0)),
    EndAction::Bind(Circuit(6)),
    EndAction::Look(Some(Circuit(0)), [true, false, false, true]),
    EndAction::Call(b"echo_call(9)", Ok(())),
    EndAction::Look(Some(Circuit(0)), [true, true, false, true]),
    EndAction::Call(b"echo_call(8)", Err(EndFault::Busy)),
    shown!(3, 9),
    WRITTEN,
    EndAction::Receive(Received::Handled(b"echo_call(9)")),
    EndAction::Waiting(0),
    shown!(0x1_0003, 9),
    WRITTEN,
    EndAction::Write(Ok(WriteAnswer::Nothing)),
    EndAction::Receive(Received::Handled(b"echo_response(9)")),
    EndAction::Receive(Received::Empty),
];

// A number as the first word shows it, and as it is handled.
macro_rules! number {
    ($text:expr, $control:expr, $word:expr) => {
        &[
            EndAction::Held($text, Ok(())),
            EndAction::Held($text, Err(EndFault::Busy)),
            shown!($control, $word),
            WRITTEN,
            EndAction::Receive(Received::Handled($text)),
        ]
    };
}

// Numbers from 0 on, which are held as they are, also signed ones and enums, and negative ones, which aren't.
const SIGNED: &[&[EndAction]] = &[
    number!(b"low(0)", 3, 0),
    number!(b"low(127)", 3, 127),
    number!(b"low(-1)", 3, 255),
    number!(
        b"wide(9223372036854775807)",
        0x1_0003,
        0x7fff_ffff_ffff_ffff
    ),
    number!(
        b"wide(-9223372036854775808)",
        0x1_0003,
        0x8000_0000_0000_0000
    ),
    number!(b"paint(2)", 0x2_0003, 2),
    number!(b"plain(65535)", 0x3_0003, 65_535),
];

// The eight letters of a word of the text of 49 letters `a`, and the words of the fragments of its call.
const LETTERS: u64 = 0x6161_6161_6161_6161;

const FIRST: [u64; 7] = [49, LETTERS, LETTERS, LETTERS, LETTERS, LETTERS, LETTERS];

const LAST: [u64; 7] = [0x61, 0, 0, 0, 0, 0, 0];

const LONG: &[u8] = b"blob(\"aaaaaaaaaaaaaaaaaaaaaaaaaaaaaaaaaaaaaaaaaaaaaaaaa\")";

const PART: EndAction = EndAction::Receive(Received::Part);

// Of a text of 105 letters, the first fragment and one whose bytes are all of the text; so of one of 104, which ends with that.
const FIRST_OF_105: [u64; 7] = [105, LETTERS, LETTERS, LETTERS, LETTERS, LETTERS, LETTERS];

const FIRST_OF_104: [u64; 7] = [104, LETTERS, LETTERS, LETTERS, LETTERS, LETTERS, LETTERS];

const ALL_LETTERS: [u64; 7] = [
    LETTERS, LETTERS, LETTERS, LETTERS, LETTERS, LETTERS, LETTERS,
];

const LONG_104: &[u8] =
    b"blob(\"aaaaaaaaaaaaaaaaaaaaaaaaaaaaaaaaaaaaaaaaaaaaaaaaaaaaaaaaaaaaaaaaaaaaaaaaaaaaaaaaaaaaaaaaaaaaaaaaaaaaaaaa\")";

const LONG_105: &[u8] =
    b"blob(\"aaaaaaaaaaaaaaaaaaaaaaaaaaaaaaaaaaaaaaaaaaaaaaaaaaaaaaaaaaaaaaaaaaaaaaaaaaaaaaaaaaaaaaaaaaaaaaaaaaaaaaaaa\")";

// To a new end.
const FORGED: &[&[EndAction]] = &[
    &[EndAction::Put(1, [0, 0, 0, 0, 0, 0, 0]), refused!(60)],
    &[EndAction::Put(3, [2, 0, 0, 0, 0, 0, 0]), refused!(65)],
    &[EndAction::Put(3, [1, 3, 0, 0, 0, 0, 0]), refused!(66)],
    &[EndAction::Put(3, [257, 0, 0, 0, 0, 0, 0]), refused!(63)],
    &[EndAction::Put(3, [1, 1, 0, 0, 0, 0, 0]), refused!(65)],
    &[EndAction::Put(11, [0, 0, 0, 0, 0, 0, 0]), refused!(63)],
    &[EndAction::Put(65_539, [0, 0, 0, 0, 0, 0, 0]), refused!(62)],
];

// Inside a call of two fragments.
const INSIDE: &[&[EndAction]] = &[
    &[
        EndAction::Put(3, FIRST),
        PART,
        EndAction::Put(3, [0x61, 0, 0, 0, 0, 0, 0]),
        refused!(61),
    ],
    &[
        EndAction::Put(3, FIRST),
        PART,
        EndAction::Put(65_537, [0x61, 0, 0, 0, 0, 0, 0]),
        refused!(62),
    ],
    &[
        EndAction::Put(3, FIRST),
        PART,
        EndAction::Put(1, [0x6161, 0, 0, 0, 0, 0, 0]),
        refused!(63),
    ],
    &[
        EndAction::Put(3, FIRST),
        PART,
        EndAction::Put(1, [0, 0, 0, 0, 0, 0, 0]),
        refused!(65),
    ],
];

// A word of letters but one, which is a byte of 0.
const UNSET: u64 = 0x6161_6161_6100_6161;

// Inside a text of three fragments.
const INSIDE_TEXT: &[&[EndAction]] = &[
    &[
        EndAction::Put(3, FIRST_OF_105),
        PART,
        EndAction::Put(
            1,
            [UNSET, LETTERS, LETTERS, LETTERS, LETTERS, LETTERS, LETTERS],
        ),
        refused!(65),
    ],
    &[
        EndAction::Put(3, FIRST_OF_105),
        PART,
        EndAction::Put(
            1,
            [LETTERS, LETTERS, LETTERS, UNSET, LETTERS, LETTERS, LETTERS],
        ),
        refused!(65),
    ],
    &[
        EndAction::Put(3, FIRST_OF_105),
        PART,
        EndAction::Put(
            1,
            [LETTERS, LETTERS, LETTERS, LETTERS, LETTERS, LETTERS, UNSET],
        ),
        refused!(65),
    ],
    &[
        EndAction::Put(3, FIRST_OF_105),
        PART,
        EndAction::Put(65_537, ALL_LETTERS),
        refused!(62),
    ],
    &[
        EndAction::Put(3, FIRST_OF_105),
        PART,
        EndAction::Put(1, ALL_LETTERS),
        PART,
        EndAction::Put(1, [0x6161, 0, 0, 0, 0, 0, 0]),
        refused!(63),
    ],
];

// Texts that end in a fragment of their own, and with one that is all of them.
const WHOLE_TEXTS: &[&[EndAction]] = &[
    &[
        EndAction::Put(3, FIRST_OF_105),
        PART,
        EndAction::Put(1, ALL_LETTERS),
        PART,
        EndAction::Put(1, LAST),
        EndAction::Receive(Received::Handled(LONG_105)),
    ],
    &[
        EndAction::Put(3, FIRST_OF_104),
        PART,
        EndAction::Put(1, ALL_LETTERS),
        EndAction::Receive(Received::Handled(LONG_104)),
    ],
];

// A fragment that only acknowledges is of no call, also inside one.
const QUIET: &[EndAction] = &[
    EndAction::Put(3, FIRST),
    PART,
    EndAction::Put(5, [0, 0, 0, 0, 0, 0, 0]),
    EndAction::Receive(Received::Quiet),
    EndAction::Put(1, LAST),
    EndAction::Receive(Received::Handled(LONG)),
];

const HAS_FAILED: EndAction = EndAction::Look(Some(Circuit(0)), [true, false, true, false]);

// An end that has failed answers E64 to a receive, a write, a look and a call.
const RECEIVES: EndAction = refused!(64);

const WRITES: EndAction = EndAction::Write(Err(EndFault::Failed));

const SHOWS: EndAction = EndAction::Show(Err(EndFault::Failed));

pub const EXAMPLES: &[EndExample] = &[
    EndExample {
        text: ECHO,
        circuit: None,
        starts: &[EACH_ONCE],
        rows: &[],
    },
    EndExample {
        text: ECHO,
        circuit: Some(Circuit(5)),
        starts: &[&[
            EndAction::Call(b"echo_call(7)", Ok(())),
            shown!(0x5_0000_0003, 7),
        ]],
        rows: &[],
    },
    EndExample {
        text: NUMBERS,
        circuit: Some(Circuit(0)),
        starts: SIGNED,
        rows: &[EndAction::Call(b"low(-128)", Ok(()))],
    },
    EndExample {
        text: SHORT,
        circuit: Some(Circuit(0)),
        starts: FORGED,
        rows: &[
            HAS_FAILED,
            RECEIVES,
            WRITES,
            SHOWS,
            EndAction::Call(b"m(1, \"a\")", Err(EndFault::Failed)),
        ],
    },
    EndExample {
        text: BLOB,
        circuit: Some(Circuit(0)),
        starts: INSIDE,
        rows: &[
            HAS_FAILED,
            RECEIVES,
            WRITES,
            SHOWS,
            EndAction::Call(b"nop()", Err(EndFault::Failed)),
        ],
    },
    EndExample {
        text: BLOB,
        circuit: Some(Circuit(0)),
        starts: INSIDE_TEXT,
        rows: &[HAS_FAILED],
    },
    EndExample {
        text: BLOB,
        circuit: Some(Circuit(0)),
        starts: &[QUIET],
        rows: &[],
    },
    EndExample {
        text: BLOB,
        circuit: Some(Circuit(0)),
        starts: WHOLE_TEXTS,
        rows: &[],
    },
];

/// Both fragments of a call, of which the first is taken, and then the second, at last.
pub const AT_LAST: EndExample = EndExample {
    text: BLOB,
    circuit: Some(Circuit(0)),
    starts: &[&[EndAction::Put(3, FIRST), EndAction::Put(1, LAST), PART]],
    rows: &[EndAction::AtLast(LONG)],
};
