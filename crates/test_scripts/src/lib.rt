//! Tests of scripts' lines, cores files and `exec`, and of the machine's definitions, over public calls alone: one crate,
//! since each crate of tests begins with reading all that it stands on.
//!
//! - `rows.rt`: tables, of which a test tells the first row that isn't so
//! - `queues.rt`: worked rows of the machine, proved and not run
//! - `line.rt`: lines of scripts
//! - `job.rt`: lines of cores files
//! - `transcript.rt`: `exec`
#![tactic(auto)]

#[cfg(test)]
mod job;
#[cfg(test)]
mod line;
#[cfg(test)]
mod queues;
#[cfg(test)]
mod rows;
#[cfg(test)]
mod transcript;
