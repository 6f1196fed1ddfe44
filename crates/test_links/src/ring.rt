//! Tests of lists, waitsets, links and rings, over their public calls alone. They stand here and not
//! in those crates, since a crate with tests is proved twice.
//!
//! - `makers.rt`: makers for which memory is wanting
//! - `lists.rt`: lists and waitsets
//! - `links.rt`: queues
//! - `rings.rt`: rings with one owner
//! - `shared_rings.rt`: rings over shared words, in one thread and in two
//! - `faults.rt`: the numbers and words of the faults
//! - `fragments.rt`: the fragments that they put, and the steps of a worked example

mod faults;
pub mod fragments;
mod links;
mod lists;
mod makers;
mod rings;
mod shared_rings;
