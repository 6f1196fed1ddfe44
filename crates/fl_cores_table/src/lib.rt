//! What the cores of a run tell one another by shared words: how many have ended, and which openings were refused.
//!
//! One table of atomic words: a counter, and a word for each job that opens a binding. Each core steps with a seat of
//! its own, and the run with one more; every step is one load, store or add of one word. The rule, which holds between any
//! two steps of any thread, stands in `specs/Counter.antt`: the counter is the sum of what the seats have added, each core
//! at most 1 for having finished, each seat at most 17 for a stop; a job's word is 0 or the refusal that the seat of its
//! client's core has stored, once.
//!
//! Contract for the layers above: [`EndSeat`], by what its seat knows. Nothing here waits, and nothing takes
//! memory but [`EndSeat::new`].
//!
//! - `table.rt`: the plan, the views and the rule
//! - `plays.rt`: the kinds of step
//! - `seat.rt`: `EndSeat`
#![tactic(auto)]

mod plays;
mod seat;
mod table;

pub use seat::{EndSeat, STOP};
pub use table::{OpeningRefusal, SeatPlan};
