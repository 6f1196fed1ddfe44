//! Calls of payloads, by prepared code and packed tapes.
//!
//! Contract for the layers above: [`call_of_frags`] gives the call whose fragments it is told, and [`call_by`] that of a payload, by
//! its message's prepared code; the reader of `fl_wire` gives the same.
//!
//! - `receive.rt`: [`call_by`]
//! - `frags.rt`: [`call_of_frags`], in a [`ReadingRoom`]
//! - `law.rt`: what prepared code takes from calls' payloads
#![tactic(auto)]

mod frags;
mod law;
mod receive;

pub use frags::{ReadingRoom, call_of_frags};
pub use law::law_takes_packed_calls;
pub use receive::call_by;
