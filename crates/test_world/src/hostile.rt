//! Hostile use, of all crates together: memory that is against us. Nothing is lost. What single crates test of it stands in other
//! crates of tests (`docs/PROMISES.md`, 'Hostile use').
//!
//! - `rows.rt`: scripts and their transcripts
//! - `memory.rt`: memory that is refused
//!
//! `rt try --test --fail-alloc N` runs each with its Nth allocation refused: then the test of `memory.rt` has to pass.
//! `hostile/run` does so for every N, and the same with the built program, and changes images and texts.

mod memory;
mod rows;
