//! What is promised of each core of a run: a law, as the contract of a function that does nothing.

ghost use Rattle.fl_cores.specs.Follows.{RunsFollow};

use fl_core_refines::{law_set_ups_start_fresh, law_set_ups_touch_nothing, law_starts_show};
use fl_core_run_laws::{
    law_counted_are_turns, law_jobs_are_made, law_leads_at_first, law_rules_come_first,
    law_sent_by_rules, law_sides_go, law_turns_are_logged,
};
use fl_core_turned::law_ready_turns;
use fl_cores_laws::{
    law_cores_go, law_ends_are_at_home, law_ends_are_requested, law_loose_ends_rest,
    law_planned_ends_stand, law_requests_alone,
};
use fl_cores_shares::law_handed_out_go_on;
use fl_ring::{SharedSide, law_side_conserves};

/// Of each core of a run that is reported: as it began it shows the first cut, with the machine's core of its
/// number behind the set-up and the machine's ends; it took so many turns, no fewer than were counted; and
/// after each event of these turns it shows the cut that the machine makes by that of the cut before,
/// whatever the other cores did. And what is told of each of its ends is what that end of the last cut
/// accepted, and what came there.
pub fn law_runs_follow()
    ensures follow { RunsFollow }
{
    law_set_ups_start_fresh();
    law_set_ups_touch_nothing();
    law_leads_at_first();
    law_counted_are_turns::<SharedSide>();
    law_starts_show();
    law_ready_turns();
    law_cores_go();
    law_handed_out_go_on();
    law_sides_go::<SharedSide>();
    law_requests_alone();
    law_side_conserves();
    law_turns_are_logged::<SharedSide>();
    law_jobs_are_made::<SharedSide>();
    law_rules_come_first::<SharedSide>();
    law_sent_by_rules();
    law_ends_are_requested();
    law_ends_are_at_home();
    law_planned_ends_stand();
    law_loose_ends_rest();
}
