//! Runs of a core over its sides at one table, as runs by the steps of sides of rings by themselves.
//!
//! A core that ran over the sides of `fl_history_sides` ran so, event by event, as its sides are shown: what is
//! proved of runs over sides of rings by themselves holds of it.
//!
//! - `law.rt`: the law
#![tactic(auto)]

mod law;

pub use law::law_runs_are_shown;
