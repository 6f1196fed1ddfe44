//! A core as its thread has it, and as that leaves it.

use fl_core_run::{Part, RunSeat, RunningCore, TurnPlan};
use fl_cores_shares::SideRecord;
use fl_history_sides::HistorySides;

/// A core with all that its thread needs.
#[derive(Drop)]
pub struct CoreThread {
    // in a box: it is large, and a core thread goes from hand to hand
    /// The core, with its sides of rings, its queues and its ends' progress.
    pub running: Box<RunningCore<HistorySides>>,
    /// What its turns visit.
    pub plan: TurnPlan,
    /// Its seat on the table of the run, and what is known of the openings of its ends.
    pub run_seat: RunSeat,
}

/// A core after its run, and its share of the report.
#[derive(Drop)]
pub struct FinishedCore {
    /// What the run left.
    pub core_thread: CoreThread,
    /// How many turns it took, and how it ended.
    pub part: Part,
    /// What its sides of rings noted, in their order, where they were to note and there was memory for that.
    pub records: Option<Vec<SideRecord>>,
}
