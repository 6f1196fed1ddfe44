//! What a write and a receive come to.

use fl_compact_calls::CompactCall;

/// What a write came to.
#[derive(Clone, Copy, Debug, PartialEq, Eq)]
pub enum WriteAnswer {
    /// A fragment was put: the `number`th, from 1, of the `count` fragments of its call.
    Written { number: usize, count: usize },
    /// The side had no room, and nothing was put.
    Full,
    /// No call is in transmission.
    Nothing,
}

/// What a receive came to.
#[derive(Debug, Drop)]
pub enum ReceiveAnswer {
    /// The fragment taken was the last of this call, which is handled.
    Handle(CompactCall),
    /// The fragment taken goes on with a call.
    Part,
    /// The fragment taken only acknowledged.
    Quiet,
    /// Nothing stood there.
    Empty,
    /// The end has a reply rule and 16 replies wait: no fragment was looked at.
    HeldBack,
}
