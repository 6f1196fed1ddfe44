//! The report of a run of cores.

use fl_compact_calls::CompactCall;

/// Calls at a binding's two ends, in order.
#[derive(Debug, Drop)]
pub struct CallsByEnd {
    pub client: Vec<CompactCall>,
    pub server: Vec<CompactCall>,
}

/// How a run came to its end.
#[derive(Clone, Copy, Debug, PartialEq, Eq)]
pub enum Ending {
    /// All cores had finished.
    Complete,
    /// A core had not when its turns were used up.
    TurnsOut,
}

/// What a run of cores came to. Bindings are told apart by their numbers.
#[derive(Debug, Drop)]
pub struct Report {
    /// The calls that each binding's ends made.
    pub made: Vec<CallsByEnd>,
    /// The calls that they handled.
    pub handled: Vec<CallsByEnd>,
    /// The fault for which a binding's opening was refused.
    pub refused: Vec<Option<u32>>,
    /// How many turns of each core were counted.
    pub turns: Vec<u64>,
    pub ending: Ending,
}
