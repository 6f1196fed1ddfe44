//! Tests of all that the program is made of, over public calls alone: one crate, since each crate of tests begins with
//! reading all that it stands on.
//!
//! - `rows.rt`: tables, of which a test tells the first row that isn't so
//! - `program.rt`: scripts and their transcripts
//! - `command.rt`: words, files and standard input in; standard output, standard error and a status out
//!
//! `rt try --test --fail-alloc N` runs each with its Nth allocation refused: then `memory_is_refused` of `program.rt`
//! and those whose names end in `without_memory` have to pass, and others end with out of memory.
#![tactic(auto)]

#[cfg(test)]
mod command;
#[cfg(test)]
mod program;
#[cfg(test)]
mod rows;
