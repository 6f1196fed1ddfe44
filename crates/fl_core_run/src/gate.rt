//! What a run asks before each turn.

use fl_base::CoreId;

/// Is called before each turn of a core, counted or not. A gate that returns at once changes nothing; one that waits decides when cores go on.
pub trait Gate {
    /// The core is about to take a turn.
    fn before_turn(&self, core: CoreId);
}
