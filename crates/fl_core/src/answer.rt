//! What events on links come to.

use fl_base::{Circuit, EndId, Frag};

/// What a write of the core's monitor came to.
#[derive(Clone, Copy)]
pub enum MonitorWrite {
    /// The message that was next is on the link.
    Written,
    /// The link has no room, and the message waits.
    Full,
    /// The link is spent, and the message waits. To the layers above that is a link with no room.
    Spent,
    /// No message waits.
    Nothing,
}

/// What stands first on a link, and what it needs.
#[derive(Clone, Copy)]
pub enum LinkFront {
    /// Nothing.
    Nothing,
    /// A fragment that only acknowledged, and was taken.
    Acknowledged,
    /// A monitors' message, for [`Core::hear`](crate::Core::hear).
    Message(Frag),
    /// A fragment that goes on over a link: to this side of a ring, under this circuit's number there ([`fl_hop::Circuits::move_on`]).
    Onward(Frag, usize, Circuit),
    /// A fragment for an end at this core, for [`Core::arrive`](crate::Core::arrive).
    Arrival(Frag, EndId),
}

/// What hearing a monitors' message came to.
#[derive(Clone, Copy)]
pub enum MonitorAnswer {
    /// The outbox that is needed is full, and the message is left.
    Full,
    /// It was passed on, or answered.
    Done,
    /// This end is bound and registered.
    Opened(EndId),
    /// The circuit of this client's end is refused, for the fault of this number.
    OpeningRefused(EndId, u32),
}
