//! Events of links.

ghost use Rattle.std.specs.Prelude.{◌≡◌, ◌<◌, length};
ghost use Rattle.fl_world_refines.specs.Linking.{write_answer, MonitorWritesWith, AcksLinkWith};
ghost use Rattle.fl_model.specs.Views.{answer_of};
ghost use Rattle.fl_world_events.specs.Parts.{ByRing};

use crate::lending::{law_whole, which_at};
use crate::taking::answer_ack;
use fl_base::LinkId;
use fl_core::{Core, MonitorWrite};
use fl_model::Answer;
use fl_ring::OneDuo;

// ---- the monitor writes

// What is answered for what a write of the monitor came to.
fn answer_write(answer: MonitorWrite) -> Answer
    ensures told { answer_of result ≡ write_answer answer }
{
    match answer {
        MonitorWrite::Written => Answer::Written { k: 1, n: 1 },
        MonitorWrite::Full | MonitorWrite::Spent => Answer::Full,
        MonitorWrite::Nothing => Answer::Nothing,
    }
}

/// A core's monitor writes, over side m of a ring.
pub fn monitor_write_by_ring(core: &mut Core, link: LinkId, ring: &mut OneDuo, m: usize) -> Answer
    ensures writes { ByRing m (MonitorWritesWith link.0 (answer_of result)) core.old ring.old core.new ring.new }
{
    law_whole(core);
    let mut side = ring.side(which_at(m));
    let outcome = core.monitor_write(link, &mut side);
    law_whole(core);
    answer_write(outcome)
}

/// A core acknowledges what it took on a link, over side m of a ring.
pub fn monitor_ack_by_ring(core: &Core, link: LinkId, ring: &mut OneDuo, m: usize) -> Answer
    requires link { link.0 < length core.now.link_sides }
    ensures acks { ByRing m (AcksLinkWith (answer_of result)) core.now ring.old core.now ring.new }
{
    law_whole(core);
    let mut side = ring.side(which_at(m));
    answer_ack(core.monitor_ack(link, &mut side)).whole()
}
