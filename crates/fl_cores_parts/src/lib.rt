//! A world's parts run on threads: each core runs its jobs on a thread of its own, and what came of that is told. What
//! a set-up made is handed out here, and put together again; the threads and the report are those of `fl_cores_fork`.
//!
//! Contract for the layer above: [`run_parts`], whose report tells of a run of just these cores, in any schedule (`specs/Ran.antt`). It needs a
//! world's parts, and not the world.
//!
//! - `run.rt`: the whole run
//! - `again.rt`: what a run begins with, once more
//! - `recording.rt`: what the sides of a run noted
//! - `sharing.rt`: whose each side of a ring and each queue is, and all of them handed out
//! - `wiring.rt`: each core is given what its thread needs
//! - `gathering.rt`: the cores' seats put in one
//! - `settling.rt`: the cores gathered at their table
//! - `fault.rt`: why there is no report
#![tactic(auto)]

mod again;
mod fault;
mod gathering;
mod recording;
mod run;
mod settling;
mod sharing;
mod wiring;

pub use again::{CoreOver, CoresOver, WiredCores, wire_parts};
pub use fault::RunFault;
pub use recording::{Recording, RunRecord};
pub use run::run_parts;
