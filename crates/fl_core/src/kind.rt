//! How fragments come to an end.

/// How fragments come to an end.
#[derive(Clone, Copy, Debug, PartialEq, Eq)]
pub enum ChannelKind {
    /// By a queue within the core: whoever puts a fragment there triggers the end's channel.
    Queue,
    /// By a ring that another core writes: the end's channel is polled.
    Ring,
}
