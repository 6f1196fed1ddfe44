//! Tests of cores files that are run with threads. Each has an answer that is certain: one core, a limit that is
//! large enough, or a gate that says when cores go on.
//!
//! - `gates.rt`: gates
//! - `texts.rt`: cores files, and what is told of them
//! - `rows.rt`: worked examples
//! - `reports.rt`: whole reports: calls made and handled, turns, refusals
//! - `openings.rt`: bindings that are opened while cores run
//! - `commands.rt`: the program's commands, by whole runs
//! - `cores_command.rt`: the command `cores`, by whole runs
//! - `recordings.rt`: a script of a run that is written, and why there is none
//!
//! `rt try --test --fail-alloc N` runs each with its Nth allocation refused: then each ends with its answer or with out of memory.
#![tactic(auto)]

#[cfg(test)]
mod commands;
#[cfg(test)]
mod cores_command;
#[cfg(test)]
mod gates;
#[cfg(test)]
mod openings;
#[cfg(test)]
mod recordings;
#[cfg(test)]
mod reports;
#[cfg(test)]
mod rows;
#[cfg(test)]
mod texts;

// A program that does nothing, since a library so high costs the gate minutes before its proof begins.
fn main() {}
