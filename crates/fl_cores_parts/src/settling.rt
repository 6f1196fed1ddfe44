//! The cores put together again.

ghost use Rattle.std.specs.Prelude.{List, map, OnOk};
ghost use Rattle.atomic_table.specs.Seated.{TableId};
ghost use Rattle.fl_history_rings.specs.declared.board.SideEnd.{SideEnd};
ghost use Rattle.fl_history_shares.specs.Settled.{AreAt, AreAtOne, AreSettled};
ghost use Rattle.fl_cores_fork.specs.Runs.{seats_left};
ghost use Rattle.fl_cores_fork.specs.CoreThreads.{outcome_of, hands_left};
ghost use Rattle.fl_cores_parts.specs.Heard.{HeardAsTold};
ghost use Rattle.fl_cores_parts.specs.CoreThreads.{IsRest};

use crate::gathering::gather;
use fl_cores_fork::FinishedCore;
use fl_cores_table::EndSeat;
use fl_history_shares::settle;
use std::alloc::{AllocError, Global};

/// The seats of cores that ran are put in the run's own, and the cores are gathered at their table: what they heard of refused
/// openings was told, and one order has all that they did by sides of rings.
pub(crate) fn put_together(
    alloc: Global,
    own: EndSeat,
    jobs: usize,
    done: Vec<FinishedCore>,
) -> Result<(), AllocError>
    requires rest { IsRest own jobs (seats_left (map outcome_of done.items)) }
    requires one { AreAtOne (hands_left done.items) }
    ensures heard { OnOk result (HeardAsTold jobs (seats_left (map outcome_of done.items))) }
    ensures settled { OnOk result ((table : TableId) (ends : List SideEnd) → AreAt table ends (hands_left done.items)
        → AreSettled ends (hands_left done.items)) }
{
    let hands = gather(alloc, own, jobs, done)?;
    settle(hands);
    Ok(())
}
