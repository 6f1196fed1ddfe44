//! The operations, by number.

ghost use Rattle.std.specs.Prelude.{◌≡◌};
ghost use Rattle.fl_c_operations.specs.Numbers.{operation_at};

/// What may be asked of a handle.
#[derive(Clone, Copy)]
pub enum Operation {
    /// To put a fragment (1).
    Put,
    /// To take what stands first (2).
    Take,
    /// To see what stands first (3).
    Peek,
    /// To acknowledge what was taken (4).
    Tell,
    /// To make a call, or to begin it at a send run (6).
    Call,
    /// To put the next fragment of the call in transmission (7).
    Write,
    /// To take a fragment of a call that comes (8).
    Receive,
    /// To read the call that was handled, or fed (9).
    Read,
    /// To set a reply rule (10).
    Rule,
    /// To ask whether a call is in transmission (11).
    Busy,
    /// To ask how many messages a program has (12).
    Messages,
    /// To ask how long a message's calls are (13).
    Sizes,
    /// To give a send run's next fragment (14).
    Next,
    /// To feed a fragment to a receive run (15).
    Feed,
}

impl Operation {
    /// The operation of this number.
    #[inline(always)]
    pub fn at(number: u32) -> Option<Operation>
        ensures exact { result ≡ operation_at number }
    {
        match number {
            1 => Some(Operation::Put),
            2 => Some(Operation::Take),
            3 => Some(Operation::Peek),
            4 => Some(Operation::Tell),
            6 => Some(Operation::Call),
            7 => Some(Operation::Write),
            8 => Some(Operation::Receive),
            9 => Some(Operation::Read),
            10 => Some(Operation::Rule),
            11 => Some(Operation::Busy),
            12 => Some(Operation::Messages),
            13 => Some(Operation::Sizes),
            14 => Some(Operation::Next),
            15 => Some(Operation::Feed),
            _ => None,
        }
    }
}
