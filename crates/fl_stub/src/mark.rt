//! What stands at a byte of a payload.

/// What stands at a byte of a payload, as receive code tells it: what is wrong where no payload goes on with a byte.
#[derive(Clone, Copy, Debug, PartialEq, Eq)]
pub enum ByteKind {
    /// Part of a length.
    Length,
    /// Part of another number.
    Number,
    /// A zero: padding, or what follows the last byte.
    Zero,
}
