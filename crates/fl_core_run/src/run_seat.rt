//! What a core holds of the run's table.

use crate::opening_status::OpeningStatus;
use fl_cores_table::EndSeat;

/// A core's seat on the run's table, and the words there of its ends.
#[derive(Drop)]
pub struct RunSeat {
    pub seat: EndSeat,
    /// For each end of the plan, in the same order, what is known of its opening.
    pub words: Vec<OpeningStatus>,
}
