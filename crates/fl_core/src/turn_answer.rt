//! What a turn and an acknowledgement come to.

use fl_compact_calls::CompactCall;
use fl_wire::WireFault;

/// What a turn came to, at the end that was due.
#[derive(Debug, Drop)]
pub enum TurnAnswer {
    /// The fragment taken was the last of this call, which is handled.
    Handle(CompactCall),
    /// The fragment taken goes on with a call.
    Part,
    /// A fragment of a call stands on the ring that was looked at: the channel is pending now.
    Ready,
    /// No fragment of a call stood there. One that only acknowledged was taken, if it stood there.
    Quiet,
    /// 16 replies wait at the end, and no fragment was looked at.
    Full,
    /// Nothing stood on the channel that was pending.
    Nothing,
    /// The fragment can't follow those before it and stays: the end has failed for good.
    Refused(WireFault),
}

/// What an acknowledgement came to.
#[derive(Clone, Copy, Debug, PartialEq, Eq)]
pub enum AckAnswer {
    /// All that was taken is told now.
    Done,
    /// There was too little to tell, or the end has a queue, which tells nothing.
    Nothing,
    /// Too few slots are free to tell it.
    Full,
}
