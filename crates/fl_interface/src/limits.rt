//! The limits of an interface and of its text, as numbers: `specs/Limits.antt` and `specs/Depth.antt` say what keeps those of an interface.

/// Types that an interface declares.
pub const MAX_TYPES: usize = 256;

/// Messages of an interface.
pub const MAX_MESSAGES: usize = 256;

/// Fields of a struct, and arguments of a message or of both messages of an rpc together.
pub const MAX_LISTED: usize = 32;

/// Elements of a fixed array.
pub const MAX_ELEMENTS: u32 = 1_024;

/// The bound of a string, in bytes, or of a sized array, in elements.
pub const MAX_BOUND: u32 = 4_096;

/// Bytes of a type's values.
pub const MAX_TYPE_SIZE: u32 = 4_096;

/// How deep structs and fixed arrays may nest in a type.
pub const MAX_TYPE_DEPTH: u32 = 16;

/// Fixed arrays on one path through a type.
pub const MAX_NESTED_ARRAYS: u32 = 7;

/// Bytes of a payload.
pub const MAX_PAYLOAD: u32 = 32_768;
