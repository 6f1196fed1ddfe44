//! One running core: its turns.
//!
//! A [`RunningCore`] is a core with the sides of rings and the local queues that it is lent, and an end's progress for each
//! end, where the end's jobs lie. In a turn ([`RunningCore::turn`]) it forwards for each link, lets its monitor write on
//! each, does each end's next job and one write, gives each dispatcher a turn, and acknowledges what was taken.
//! [`core_run`] is the core's whole run: turns that are counted, until nothing is left to do or a limit is reached, and
//! then turns that aren't, until all cores have ended. What cores tell each other of that goes by the run's table
//! (`fl_cores_table`).
//!
//! Contract for the layers above: each event is the core's own (`specs/LogEntries.antt`: what a core's log is made of); which
//! events come in a turn, and in which order, stands in `specs/Steps.antt` and `specs/Turn.antt`; when a core has nothing left to do in
//! `specs/Finished.antt`, what it tells of refused openings in `specs/OpeningStatus.antt`, and the whole run in `specs/Ran.antt`. How far a run came that
//! stops without memory stands in `specs/Stops.antt`, and for what alone it stops in `specs/Wants.antt`. What jobs are, and ask for, stands in `fl_core`. What
//! follows for logs is `fl_core_run_laws`'s.
//!
//! An end is found once in what is done for it: where its progress is, and where it is at the core. Both are handed on as places.
//!
//! - `running.rt`: `RunningCore`, and turns
//! - `single.rt`: what a turn is made of, one by one
//! - `core_sides.rt`: the sides that a core is lent
//! - `over.rt`: what is done over one of them
//! - `links.rt`: what is done for a link
//! - `ends.rt`: what is done for an end
//! - `opening.rt`: a job that opens a circuit
//! - `dispatchers.rt`: what is done for a dispatcher
//! - `lent.rt`: which sides are lent
//! - `end_progress.rt`: ends' progress
//! - `plan.rt`: what a turn goes over
//! - `opening_status.rt`, `run_seat.rt`: what is told of refused openings
//! - `finish.rt`: when nothing is left to do
//! - `run.rt`, `gate.rt`, `fault.rt`: the whole run
//! - `rest.rt`: pauses between turns that find nothing
#![tactic(auto)]

mod core_sides;
mod dispatchers;
mod end_progress;
mod ends;
mod fault;
mod finish;
mod gate;
mod lent;
mod links;
mod opening;
mod opening_status;
mod over;
mod plan;
mod rest;
mod run;
mod run_seat;
mod running;
mod single;

pub use core_sides::CoreSides;
pub use end_progress::EndProgress;
pub use fault::CoreRunFault;
pub use gate::Gate;
pub use lent::{LentPutEnd, LentRingEnd, LentTakeEnd};
pub use opening_status::OpeningStatus;
pub use plan::TurnPlan;
pub use run::{Part, RunEnd, core_run};
pub use run_seat::RunSeat;
pub use running::RunningCore;
