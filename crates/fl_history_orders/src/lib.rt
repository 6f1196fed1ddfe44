//! Cores at one table of rings: one order of all their steps gives one of their logs, in which each event happens
//! in its turn and finds what stands in the rings then. Laws, the contracts of functions that do nothing.
//!
//! - `law.rt`: the laws
#![tactic(auto)]

mod law;

pub use law::{law_logs_have_one_order, law_runs_are_logged};
