//! The three lists.

/// One of the three lists.
#[derive(Clone, Copy, Debug, PartialEq, Eq)]
pub enum Place {
    /// Channels that a trigger moves to pending.
    Idle,
    /// Channels whose memory has to be looked at.
    Polled,
    /// Channels on which a fragment is known to stand.
    Pending,
}
