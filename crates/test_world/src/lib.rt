//! Tests of worlds, and of hostile use of all crates together, over public calls alone: one crate, since each crate of tests
//! begins with reading all that it stands on.
//!
//! - `world.rt`: worlds, with events as values
//! - `certified.rt`: scripts that are compared with reports of cores
//! - `hostile.rt`: memory that is against us
//!
//! `rt try --test --fail-alloc N` runs each with its Nth allocation refused: then the tests of `world.rt` and of
//! `hostile/memory.rt` have to pass, and others end with out of memory.
#![tactic(auto)]

#[cfg(test)]
mod certified;
#[cfg(test)]
mod hostile;
#[cfg(test)]
mod world;
