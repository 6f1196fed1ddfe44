//! What a running core does at a table of rings (`fl_history_sides`), event by event of its log: each can happen
//! at one moment. Laws, the contracts of functions that do nothing.
//!
//! - `law.rt`: the laws
#![tactic(auto)]

mod law;

pub use law::{law_entries_are_events, law_looks_see};
