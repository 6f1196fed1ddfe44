//! Whole runs of the program `flounder`, but for what its process gives it: words, files, streams and a way to threads in; a status
//! out.
//!
//! Contract for the program: [`run`] does what the words ask for (`specs/Commands.antt`), with the files and streams that it says, and
//! answers the status.
//!
//! - `performing.rt`: words, and the command that they ask for
//! - `cores.rt`: the command `cores`
//! - `chart.rt`: the command `chart`
#![tactic(auto)]

mod chart;
mod cores;
mod performing;

pub use cores::{outcome_of, tell_no_report};
pub use performing::run;
