//! Core threads: cores with all that their threads need. Each runs on a thread of its own, and what came of all is told.
//!
//! Contract for the layer above: [`run_each`], after which each core ran by its plan, or none of that is told
//! (`CoreThreadRan`, `specs/CoreThreads.antt`); and [`tell`], whose report tells what is left at the ends' progress of all cores and
//! how these ended (`Tells`, `specs/Tells.antt`).
//!
//! - `core_thread.rt`: a core as its thread has it
//! - `crossing.rt`: what may go to a thread
//! - `fork.rt`: a thread for each core
//! - `noting.rt`: a core's run on its thread, also over sides that note what they do
//! - `no_report.rt`: why there is no report
//! - `pace.rt`: cores over which calls pass both ways keep step
//! - `telling.rt`: the report
#![tactic(auto)]

mod core_thread;
mod crossing;
mod fork;
mod no_report;
mod noting;
mod pace;
mod telling;

pub use core_thread::{CoreThread, FinishedCore};
pub use fork::run_each;
pub use no_report::NoReport;
pub use telling::{core_at, tell};
