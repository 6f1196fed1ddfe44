//! Instructions of stub code.

ghost use Rattle.std.specs.Prelude.{◌≡◌};
ghost use Rattle.fl_stub.specs.Structure.{is_width as is_width_of, is_within as is_within_of, is_operand_within};

use fl_interface::{MAX_BOUND, MAX_ELEMENTS};

/// One instruction of stub code. Send code takes numbers from a tape and gives bytes; receive code takes bytes
/// and puts numbers on a tape. Operands may be any numbers here: `verify` says which code is meant.
#[derive(Clone, Copy, Debug, PartialEq, Eq)]
pub enum Op {
    /// Send: the next number of the tape, in so many bytes (1, 2, 4 or 8).
    Emit(u32),
    /// Send: so many zeros (1 to 7).
    Pad(u32),
    /// Both: zeros up to a multiple of 8.
    Align,
    /// Send: a length of at most so many (1 to 4,096), the next number of the tape, in 8 bytes.
    Length(u32),
    /// Both: what follows up to its `Back`, so often (1 to 1,024).
    Times(u32),
    /// Both: what follows up to its `Back`, as often as the length just before says.
    Each,
    /// Both: the end of a loop.
    Back,
    /// Send: the end of the code.
    End,
    /// Receive: a number of so many bytes (1, 2, 4 or 8).
    Read(u32),
    /// Receive: a byte, 0 or 1.
    ReadBool,
    /// Receive: 4 bytes, a number below so many (1 or more).
    ReadEnum(u32),
    /// Receive: any byte.
    ReadChar,
    /// Receive: so many zeros (1 to 7).
    Skip(u32),
    /// Receive: 8 bytes, a length of at most so many (1 to 4,096).
    ReadLength(u32),
    /// Receive: a byte from 1 to 255.
    ReadText,
    /// Receive: the end of the code.
    Done,
}

/// Zeros of the longest padding.
const MAX_ZEROS: u32 = 7;

/// Whether a number may have so many bytes.
fn is_width(bytes: u32) -> bool
    ensures { result ≡ is_width_of bytes }
{
    bytes == 1 || bytes == 2 || bytes == 4 || bytes == 8
}

/// Whether a number is from 1 to the greatest.
fn is_within(most: u32, number: u32) -> bool
    ensures { result ≡ is_within_of most number }
{
    1 <= number && number <= most
}

impl Op {
    /// Whether the operand is one that the instruction may have; true of an instruction without one.
    pub fn is_in_range(self) -> bool
        ensures exact { result ≡ is_operand_within self }
    {
        match self {
            Op::Emit(bytes) | Op::Read(bytes) => is_width(bytes),
            Op::Pad(zeros) | Op::Skip(zeros) => is_within(MAX_ZEROS, zeros),
            Op::Length(most) | Op::ReadLength(most) => is_within(MAX_BOUND, most),
            Op::Times(turns) => is_within(MAX_ELEMENTS, turns),
            Op::ReadEnum(count) => 1 <= count,
            _ => true,
        }
    }
}

/// What code is for: all instructions of verified code are of one column.
#[derive(Clone, Copy, Debug, PartialEq, Eq)]
pub enum Column {
    /// Code that takes a call's numbers from a tape, and gives the bytes of its payload.
    Send,
    /// Code that takes the bytes of a payload, and puts the call's numbers on a tape.
    Receive,
}
