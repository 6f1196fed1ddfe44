//! How a binding's ends are to be joined.

use crate::route::Route;

/// How a binding's two ends are to be joined.
#[derive(Clone, Copy)]
pub enum BackEnd {
    /// By queues of so many slots, on one core.
    Local(u32),
    /// By a ring of so many slots each way, on two cores.
    Ump(u32),
    /// By a circuit over these cores.
    Hop(Route),
}
