//! Waitsets: which of a dispatcher's channels its next turn looks at.
//!
//! A channel that is registered is in one of three lists. `idle` channels wait for a trigger;
//! `pending` ones are known to have a fragment; `polled` ones have to be looked at. A turn takes
//! the first pending channel, else the first polled one, and puts it back where it belongs then,
//! so each call costs the same for 10 channels as for 1,024.
//!
//! Contract for the layers above: a `Waitset` is the number of its channels and three lists of
//! channels (`specs/Waiting.antt`), without repetition and no channel in two of them. Each call says
//! what it answers and which lists it leaves. Nothing of a `Waitset` after `new` takes memory.
//!
//! - `waitset.rt`: `Waitset` and `Pick`
//! - `fault.rt`: why a call is refused
#![tactic(auto)]

mod fault;
mod waitset;

pub use fault::WaitFault;
pub use fl_lists::Place;
pub use waitset::{Pick, Waitset};
