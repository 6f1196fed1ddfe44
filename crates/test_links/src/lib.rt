//! Tests of lists, waitsets, links, rings, streams, rings with one history and circuits, over their public calls
//! alone: one crate, since each crate of tests begins with reading all that it stands on.
//!
//! - `ring.rt`: lists, waitsets, links and rings
//! - `streams.rt`: streams, in one thread and in two
//! - `histories.rt`: many rings in one table, in one thread and in several
//! - `hop.rt`: circuits at cores
//!
//! `rt try --test --fail-alloc N` runs each with its Nth allocation refused: then the tests whose names end in
//! `without_memory` have to pass, and others end out of memory.
#![tactic(auto)]

#[cfg(test)]
mod histories;
#[cfg(test)]
mod hop;
#[cfg(test)]
mod ring;
#[cfg(test)]
mod streams;
