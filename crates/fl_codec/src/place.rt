//! Where numbers stand in a fragment.

/// The place of a number, and which numbers may stand there.
#[derive(Clone, Copy)]
pub(crate) struct NumberPlace {
    /// Its word.
    pub word: u8,
    /// The bit of the word from which on it stands.
    pub shift: u8,
    /// The last number that may stand there.
    pub last: u64,
}
