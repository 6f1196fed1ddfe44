//! The layout of calls: what stands in a call's payload and where, and how long payloads and tapes are.
//!
//! Contract for the layers above: a [`plan`] tells of each message the least and the greatest length of its payloads
//! (both are reached, and none passes 32,768 bytes under either plan) and the greatest length of its tapes, of a
//! call the length of its payload and its fragments, and of an argument its size and the one place at which it
//! begins. The definitions stand in `specs/`: leaves in `Leaves.antt`, their places as sums in `Places.antt`, and what
//! the calls answer in `Layouts.antt`. What the limit on payloads is looked at for is a law (`Limit.antt`).
//!
//! - `measure.rt`: an argument's extent
//! - `extent.rt`: what a plan keeps of an argument
//! - `arrange.rt`: a message's arguments in the plan's order
//! - `filling.rt`: where arguments begin and end one after another
//! - `plans.rt`: the plan of an interface
//! - `law.rt`: what the limit on payloads is looked at for
#![tactic(auto)]

mod arrange;
mod extent;
mod filling;
mod law;
mod measure;
mod plans;

pub use law::law_limit_is_of_plan_one;
pub use plans::{Plans, fragment_count, plan};
