//! What the machine answers.

ghost use Rattle.std.specs.Prelude.{◌≡◌};
ghost use Rattle.fl_model.specs.Events.{is_done};
ghost use Rattle.fl_value_data.specs.Value.{call_of};
ghost use Rattle.fl_model.specs.Views.{answer_of, brief_of, turned_of};

use fl_base::{EndId, Frag};
use fl_compact_calls::CompactCall;

/// What the machine answers to an event.
#[derive(Drop)]
pub enum Answer {
    /// `ok`: it is done, and nothing else is to be told of it.
    Done,
    /// A call is accepted: its end promises to write all its fragments.
    Accepted,
    /// There was nothing to do.
    Nothing,
    /// What it would go to has no room; or, at a turn, the end due holds back.
    Full,
    /// Fragment k of n was written.
    Written { k: usize, n: usize },
    /// A call was handled at an end.
    Handle { end: EndId, call: CompactCall },
    /// A fragment was taken that makes no call whole.
    Part(EndId),
    /// A call's fragment stands at a polled channel.
    Ready(EndId),
    /// None stands there, or one that only acknowledges and was taken.
    Quiet(EndId),
    /// A call's fragment went on: onto the next link, or into the arrival queue of its end.
    Forwarded,
    /// An end of a circuit is bound.
    Opened(EndId),
    /// The opening of a circuit was refused, with the fault's number: whatever the other monitor gave.
    OpeningRefused { number: u32, end: EndId },
    /// The fragment that would be written next.
    Words(Frag),
    /// The event is refused, with the fault's number.
    Refused(u8),
}

/// What the machine answers to an event that neither handles a call nor shows a fragment: small, so that it is handed on in registers.
#[derive(Clone, Copy)]
pub enum BriefAnswer {
    /// As [`Answer::Done`].
    Done,
    /// As [`Answer::Accepted`].
    Accepted,
    /// As [`Answer::Nothing`].
    Nothing,
    /// As [`Answer::Full`].
    Full,
    /// As [`Answer::Written`].
    Written { k: usize, n: usize },
    /// As [`Answer::Forwarded`].
    Forwarded,
    /// As [`Answer::Opened`].
    Opened(EndId),
    /// As [`Answer::OpeningRefused`].
    OpeningRefused { number: u32, end: EndId },
    /// As [`Answer::Refused`].
    Refused(u8),
}

/// What the machine answers to a turn, but for the call that was handled, which lies apart.
#[derive(Clone, Copy)]
pub enum TurnedAnswer {
    /// The call was handled at this end.
    Handle(EndId),
    /// As [`Answer::Part`].
    Part(EndId),
    /// As [`Answer::Ready`].
    Ready(EndId),
    /// As [`Answer::Quiet`].
    Quiet(EndId),
    /// As [`Answer::Full`].
    Full,
    /// As [`Answer::Nothing`].
    Nothing,
    /// As [`Answer::Refused`].
    Refused(u8),
}

impl BriefAnswer {
    /// The answer.
    pub fn whole(self) -> Answer
        ensures whole { answer_of result ≡ brief_of self }
    {
        match self {
            BriefAnswer::Done => Answer::Done,
            BriefAnswer::Accepted => Answer::Accepted,
            BriefAnswer::Nothing => Answer::Nothing,
            BriefAnswer::Full => Answer::Full,
            BriefAnswer::Written { k, n } => Answer::Written { k, n },
            BriefAnswer::Forwarded => Answer::Forwarded,
            BriefAnswer::Opened(end) => Answer::Opened(end),
            BriefAnswer::OpeningRefused { number, end } => Answer::OpeningRefused { number, end },
            BriefAnswer::Refused(number) => Answer::Refused(number),
        }
    }
}

impl TurnedAnswer {
    /// The answer, with the call that was handled.
    pub fn whole(self, call: CompactCall) -> Answer
        ensures whole { answer_of result ≡ turned_of self (call_of call) }
    {
        match self {
            TurnedAnswer::Handle(end) => Answer::Handle { end, call },
            TurnedAnswer::Part(end) => Answer::Part(end),
            TurnedAnswer::Ready(end) => Answer::Ready(end),
            TurnedAnswer::Quiet(end) => Answer::Quiet(end),
            TurnedAnswer::Full => Answer::Full,
            TurnedAnswer::Nothing => Answer::Nothing,
            TurnedAnswer::Refused(number) => Answer::Refused(number),
        }
    }
}

impl Answer {
    /// Whether it is `ok`.
    pub fn is_done(&self) -> bool
        ensures done { result ≡ is_done (answer_of self.now) }
    {
        matches!(self, Answer::Done)
    }
}
