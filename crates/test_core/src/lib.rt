//! Tests of ends, monitors' messages, names and operations for C, over their public calls alone: one crate, since each crate of
//! tests begins with reading all that it stands on, and proves how each of its types is dropped. Whole cores are tested as
//! worlds and runs are: by scripts and cores files.
//!
//! - `endpoint.rt`: one end of a binding; `end_rows.rt`: what it is asked
//! - `monitor.rt`: monitors' messages, what a monitor lets open, and names
//! - `counters.rt`: what running cores tell one another
//! - `operations.rt`: what C asks of handles, by number
//! - `history_sides.rt`: a core's sides at one table, lent by number
//! - `faults.rt`: the numbers and the words of faults; `texts.rt`: programs of texts
//!
//! `rt try --test --fail-alloc N` runs each with its Nth allocation refused: then the test whose name ends in
//! `without_memory` has to pass, and others end out of memory.
#![tactic(auto)]

#[cfg(test)]
mod counters;
#[cfg(test)]
mod end_rows;
#[cfg(test)]
mod endpoint;
#[cfg(test)]
mod faults;
#[cfg(test)]
mod history_sides;
#[cfg(test)]
mod monitor;
#[cfg(test)]
mod operations;
#[cfg(test)]
mod texts;
