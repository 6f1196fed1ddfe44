//! What an operation comes to, and its numbers.

ghost use Rattle.std.specs.Prelude.{◌≡◌};
ghost use Rattle.fl_c_operations.specs.Numbers.{fault_of, wanted_of, reached_of, what_of, count_of, answer_of};

use fl_endpoint::EndFault;
use fl_link::PutFault;
use thiserror::Error;

/// What an operation came to.
#[derive(Clone, Copy)]
pub enum Outcome {
    /// The fragment was put.
    Placed,
    /// Nothing stands there.
    Nothing,
    /// A fragment stood there, whose numbers are written.
    Fragment,
    /// A fragment that only acknowledges stood there.
    Acknowledgement,
    /// Too little is to be told.
    Kept,
    /// What was taken is told.
    Told,
    /// The call is accepted: it is in transmission.
    Accepted,
    /// A fragment of the call was put, and so many are left.
    Wrote { left: u64 },
    /// There was no room to put it.
    NoRoom,
    /// No call is in transmission.
    Idle,
    /// A call is in transmission.
    Sending,
    /// A fragment was taken, and its call isn't whole yet.
    PartTaken,
    /// Replies have to be written first: no fragment was looked at.
    Held,
    /// A fragment was taken, and its call is whole: it is to be read.
    Handled,
    /// The call's numbers, so many, are written.
    CallRead { count: u64 },
    /// A fragment was taken, its call is whole, and the call's numbers, so many, are written.
    CallTaken { count: u64 },
    /// The reply rule is set.
    RuleSet,
    /// So many messages.
    Counted { count: u64 },
    /// A payload of the message has at most so many bytes, and a tape so many numbers.
    Sized { bytes: u32, numbers: u64 },
    /// A run is made.
    Made,
    /// What the handle led to is freed. Its own block, of this size and alignment, is the caller's to free.
    Freed { align: u32, size: u64 },
}

/// Why an operation was refused.
#[derive(Clone, Copy, Debug, Error)]
pub enum UseFault {
    /// There is no such operation at a handle of this kind, or no such run (101).
    #[error("there is no such operation at a handle of this kind, or no such run")]
    NoSuchOperation,
    /// There are too few or too many numbers (103).
    #[error("there are too few or too many numbers")]
    WrongRoom,
    /// There are too few numbers (103): so many are wanted, as the answer's count tells.
    #[error("there are too few numbers: {wanted} are wanted")]
    ShortRoom { wanted: u64 },
    /// A call that was handled is to be read first (105).
    #[error("a call that was handled is to be read first")]
    Unread,
    /// The fragment only acknowledges: a put writes none (63).
    #[error("the fragment only acknowledges: a put writes none")]
    OnlyAcknowledges,
    /// Nothing was put (30, 33).
    #[error("{0}")]
    Link(PutFault),
    /// The end refuses (33, 40 to 43, 60 to 66, 99).
    #[error("{0}")]
    End(EndFault),
    /// The call is accepted, and the end refuses to write it (33).
    #[error("the call is accepted, and not written: {0}")]
    Unwritten(EndFault),
    /// A call was handled, and there are too few numbers for it (103): so many are wanted. It is to be read.
    #[error("there are too few numbers for the call that was handled: {wanted} are wanted")]
    HandledShort { wanted: u64 },
    /// A call was handled, and memory ran out for its numbers (99). It is to be read.
    #[error("out of memory for the numbers of the call that was handled")]
    HandledMemory,
}

/// What C is answered. A fault of 100 or more is a caller's mistake: nothing was done then.
#[repr(C)]
#[derive(Clone, Copy)]
pub struct Answered {
    /// The fault's number; 0 where there is none.
    pub fault: u32,
    /// Which of the things that it may come to; of a message, how many bytes its longest payload has.
    pub what: u32,
    /// How many numbers there are to read, or wanted, or fragments left, or messages, or numbers on the longest tape.
    pub count: u64,
}

impl UseFault {
    /// The fault's number.
    #[inline(always)]
    pub fn number(self) -> u32
        ensures number { result ≡ fault_of self }
    {
        match self {
            UseFault::NoSuchOperation => 101,
            UseFault::WrongRoom | UseFault::ShortRoom { wanted: _ } => 103,
            UseFault::Unread => 105,
            UseFault::OnlyAcknowledges => 63,
            UseFault::Link(fault) => u32::from(fault.number()),
            UseFault::End(fault) => u32::from(fault.number()),
            UseFault::Unwritten(fault) => u32::from(fault.number()),
            UseFault::HandledShort { wanted: _ } => 103,
            UseFault::HandledMemory => 99,
        }
    }

    /// Which of the things that the operation may come to it came to before this.
    #[inline(always)]
    pub fn what(self) -> u32
        ensures what { result ≡ reached_of self }
    {
        match self {
            UseFault::Unwritten(_) => 2,
            UseFault::HandledShort { wanted: _ } | UseFault::HandledMemory => 4,
            _ => 0,
        }
    }

    /// How many numbers are wanted, where there are too few.
    #[inline(always)]
    pub fn wanted(self) -> u64
        ensures wanted { result ≡ wanted_of self }
    {
        match self {
            UseFault::ShortRoom { wanted } => wanted,
            UseFault::HandledShort { wanted } => wanted,
            _ => 0,
        }
    }
}

impl Outcome {
    /// Its number, among what the operation may come to.
    #[inline(always)]
    pub fn what(self) -> u32
        ensures what { result ≡ what_of self }
    {
        match self {
            Outcome::Placed | Outcome::Nothing | Outcome::Kept => 0,
            Outcome::Accepted | Outcome::Idle | Outcome::RuleSet => 0,
            Outcome::Counted { count: _ } | Outcome::Made => 0,
            Outcome::Fragment | Outcome::Told | Outcome::Sending | Outcome::PartTaken => 1,
            Outcome::Wrote { left: _ } | Outcome::CallRead { count: _ } => 1,
            Outcome::Acknowledgement | Outcome::NoRoom => 2,
            Outcome::Held => 3,
            Outcome::Handled | Outcome::CallTaken { count: _ } => 4,
            Outcome::Sized { bytes, numbers: _ } => bytes,
            Outcome::Freed { align, size: _ } => align,
        }
    }

    /// How many numbers there are to read, or fragments left.
    #[inline(always)]
    pub fn count(self) -> u64
        ensures count { result ≡ count_of self }
    {
        match self {
            Outcome::Fragment => 8,
            Outcome::Counted { count } => count,
            Outcome::Sized { bytes: _, numbers } => numbers,
            Outcome::Freed { align: _, size } => size,
            Outcome::Wrote { left } => left,
            Outcome::CallRead { count } => count,
            Outcome::CallTaken { count } => count,
            _ => 0,
        }
    }
}

impl Answered {
    /// The numbers of what an operation came to.
    #[inline(always)]
    pub fn of(outcome: Result<Outcome, UseFault>) -> Answered
        ensures numbers { result ≡ answer_of outcome }
    {
        match outcome {
            Ok(outcome) => Answered {
                fault: 0,
                what: outcome.what(),
                count: outcome.count(),
            },
            Err(fault) => Answered {
                fault: fault.number(),
                what: fault.what(),
                count: fault.wanted(),
            },
        }
    }
}
