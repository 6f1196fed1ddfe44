//! That the report of a run of cores is honest, and that it ended as is told: laws, as the contracts of functions that do nothing.

ghost use Rattle.fl_cores.specs.Again.{OneReport, OneText};
ghost use Rattle.fl_cores.specs.Endings.{RunsEndAsTold};
ghost use Rattle.fl_cores.specs.Honesty.{RunsReportHonestly};
ghost use Rattle.fl_cores.specs.OneCore.{RunsOfOneCore};
ghost use Rattle.fl_cores.specs.Over.{RefusedAreOutnumbered, SpentLinksAreLedOver};
ghost use Rattle.fl_cores.specs.Reasons.{RefusalsHaveReasons};
ghost use Rattle.fl_cores.specs.Wanted.{WantedHandleFew};

use crate::law_outcomes::{
    law_complete_has_all, law_dispatchers_handle_few, law_refused_are_opened,
    law_reports_are_of_runs, law_reports_handle_few, law_reports_keep_turns,
};
use fl_core_refines::{law_set_ups_start_fresh, law_set_ups_touch_nothing};
use fl_core_run_laws::{law_leads_at_first, law_sides_go};
use fl_cores_file::law_one_outcome;
use fl_cores_laws::{
    law_cores_go, law_ends_sit, law_progresses_tell_reasons, law_runs_are_honest,
    law_spent_on_bindings,
};
use fl_cores_shares::law_handed_out_go_on;
use fl_ring::SharedSide;
use fl_world_refines::{law_names_are_shown, law_steps_agree};

/// What each end is reported to have handled is the first of what the other end made, and what it made is the first of what was handed in for it: on every
/// binding, by queues, by a ring or over a circuit.
pub fn law_runs_report_honestly()
    ensures honest { RunsReportHonestly }
{
    law_set_ups_start_fresh();
    law_cores_go();
    law_handed_out_go_on();
    law_sides_go::<SharedSide>();
    law_leads_at_first();
    law_runs_are_honest();
}

/// A binding is told as refused for a reason alone: a dispatcher without a place (E54), a core of its route without a link that leads on (E73), or a link whose
/// numbers are used up (E74); and each only where that is so of what its job asks for: where the set-up made no link from some core of the route to the next,
/// where a core of the route gave all its numbers on its link to the next, and where 1,024 ends are wanted at the client's dispatcher or the service's.
pub fn law_refusals_have_reasons()
    ensures reasons { RefusalsHaveReasons }
{
    law_names_are_shown();
    law_set_ups_start_fresh();
    law_cores_go();
    law_handed_out_go_on();
    law_sides_go::<SharedSide>();
    law_leads_at_first();
    law_progresses_tell_reasons();
    law_ends_sit();
    law_reports_are_of_runs();
}

/// Where a core gave all its numbers on its link to another, jobs open as many bindings, each another, and ask for routes that lead from the one core
/// to the other. And a binding that is told as refused for want of a number (E74) is none of those: its route leads over such a link too, beside 1,023 others.
pub fn law_spent_links_are_led_over()
    ensures over { SpentLinksAreLedOver }
    ensures refused { RefusedAreOutnumbered }
{
    law_set_ups_start_fresh();
    law_cores_go();
    law_handed_out_go_on();
    law_sides_go::<SharedSide>();
    law_leads_at_first();
    law_spent_on_bindings();
    law_reports_are_of_runs();
}

/// What all ends handled that are wanted at one dispatcher, by the set-up or by jobs that open bindings, is together
/// at most the turns that are told of its core.
pub fn law_wanted_handle_few()
    ensures few { WantedHandleFew }
{
    law_names_are_shown();
    law_set_ups_start_fresh();
    law_cores_go();
    law_handed_out_go_on();
    law_sides_go::<SharedSide>();
    law_leads_at_first();
    law_ends_sit();
    law_reports_are_of_runs();
    law_reports_handle_few();
    fl_cores_laws::law_dispatchers_handle_few();
}

/// `complete` is told only where all that was handed in was handled, at both ends of each binding that isn't told as
/// refused, and `turns out` only where a core that hadn't finished took all its turns; none of the set-up is refused,
/// and neither end of one that is handled anything; each that is has its reason, and where that is want of a number
/// jobs open 1,023 other bindings over that link; and no dispatcher handled more calls than its core took turns.
pub fn law_runs_end_as_told()
    ensures ends { RunsEndAsTold }
{
    law_runs_report_honestly();
    law_reports_keep_turns();
    law_complete_has_all();
    law_refused_are_opened();
    law_refusals_have_reasons();
    law_dispatchers_handle_few();
    law_wanted_handle_few();
    law_reports_handle_few();
    law_spent_links_are_led_over();
}

/// The report of a run of one core is a function of the configuration, the jobs and the limit: what so many turns of the machine come to, from the state that
/// the set-up leads to, with the rules of the jobs. No job opens a binding there, since a route has two cores.
pub fn law_runs_of_one_core()
    ensures one { RunsOfOneCore }
{
    law_set_ups_start_fresh();
    law_set_ups_touch_nothing();
    law_steps_agree();
    law_runs_report_honestly();
}

/// So two runs of one configuration on one core, with the same jobs and limit, have one report; and two runs of such a file append the same text.
pub fn law_one_report()
    ensures report { OneReport }
    ensures text { OneText }
{
    law_one_outcome();
    law_runs_of_one_core();
}
