//! How many of each thing there may be.

/// Payload bytes of a fragment.
pub const FRAG_BYTES: usize = 56;

/// Cores of a world.
pub const MAX_CORES: usize = 16;

/// Interfaces of a world.
pub const MAX_INTERFACES: usize = 64;

/// Dispatchers of a world.
pub const MAX_DISPATCHERS: usize = 256;

/// Services of a world.
pub const MAX_SERVICES: usize = 256;

/// Bindings of a world.
pub const MAX_BINDINGS: usize = 1_024;

/// Channels of one dispatcher.
pub const MAX_CHANNELS: usize = 1_024;

/// Fragments of the longest queue or ring.
pub const MAX_QUEUE: usize = 1_024;
