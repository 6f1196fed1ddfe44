//! Prepared code.

/// A step of prepared code.
#[derive(Debug, Drop)]
pub enum StubStep {
    /// So many bytes of the tape, and then so many zeros.
    Span(usize, u32),
    /// Zeros up to a multiple of 8.
    Align,
    /// A length, and so many bytes of the tape as often as it says.
    Each(usize),
    /// A length, and steps as often as it says.
    Counted(Vec<StubStep>),
    /// Steps so often.
    Times(u32, Vec<StubStep>),
}

/// Code as larger steps. Of each list of steps the last is taken first.
#[derive(Debug, Drop)]
pub struct PreparedCode {
    pub(crate) steps: Vec<StubStep>,
}
