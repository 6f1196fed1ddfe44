//! What a run of cores is of the one machine: laws, as the contracts of functions that do nothing.

ghost use Rattle.fl_cores_whole.specs.AnyOrder.{ReportsJoinInAnyOrder, StepsJoinInAnyOrder};
ghost use Rattle.fl_cores_whole.specs.Begin.{HandedOutJoin};
ghost use Rattle.fl_cores_whole.specs.Holds.{ReportsHold, RunsUnderSomeHold};
ghost use Rattle.fl_cores_whole.specs.Machine.{ReportsAreMachineRuns};
ghost use Rattle.fl_cores_whole.specs.One.{OneCoreJoins};
ghost use Rattle.fl_cores_whole.specs.Wants.{TurnsWantAlike};
ghost use Rattle.fl_cores_whole.specs.Whole.{ReportsJoin, StepsOfReportsJoin};

use fl_core_refines::law_set_ups_start_fresh;
use fl_core_run_laws::{law_leads_at_first, law_sides_go};
use fl_cores::law_reports_are_of_runs;
use fl_cores_joined::{law_runs_join, law_runs_join_in_any_order, law_steps_interleave};
use fl_cores_laws::{law_cores_go, law_ends_are_at_home, law_ends_are_requested};
use fl_cores_shares::law_handed_out_go_on;
use fl_history_joined::{law_orders_are_runs, law_runs_are_of_turns};
use fl_history_orders::law_logs_have_one_order;
use fl_link::TakeSide;
use fl_model_laws::{law_no_wire_faults, law_numbers_are_once_both_ways};
use fl_ring::SharedSide;
use fl_world_laws::{law_handled_is_ever_a_prefix, law_passed_ever_falls};

/// Each reported run is a run of the machine: of what its cores did in their turns there is an order, in which each
/// look finds what stands in its ring, from the cores as the run began to those that it left. Under a renaming of
/// bindings the machine answers as they did, and each end handled just the calls that the report tells. No premise
/// gives the order: all sides of rings were of one table, and one order has all that was done there.
pub fn law_reports_are_machine_runs()
    ensures runs { ReportsAreMachineRuns }
{
    law_set_ups_start_fresh();
    law_leads_at_first();
    law_cores_go();
    law_handed_out_go_on();
    law_sides_go::<SharedSide>();
    law_ends_are_requested();
    law_ends_are_at_home();
    law_reports_are_of_runs();
    law_logs_have_one_order();
    law_runs_are_of_turns();
    law_orders_are_runs();
    law_reports_join_in_any_order();
}

/// What a set-up made, once its cores, rings and queues are handed out to threads, is the world that these
/// cores make.
pub fn law_handed_out_join()
    ensures join { HandedOutJoin }
{}

/// What the cores of a reported run do one after another, where each look finds what stands in its ring at
/// that moment and circuits are asked for in the order of their numbers, is a run of the machine from behind
/// the set-up, with the cores' answers, to a state that the cores show, as long as each is whole then.
pub fn law_reports_join()
    ensures runs { ReportsJoin }
{
    law_set_ups_start_fresh();
    law_runs_join();
}

/// So it is where entries of others come between a look and what follows it, up to any moment: looks that
/// nothing followed by then are still to come, and ask nothing of the machine.
pub fn law_steps_join()
    ensures steps { StepsOfReportsJoin }
{
    law_steps_interleave();
    law_reports_join();
}

/// What the cores of a reported run do one after another, where each look finds what stands in its ring at that
/// moment, is a run of the machine from behind the set-up in whatever order they accept openings, as long as each is
/// whole then: with their answers, to a state that they show, both under one renaming of bindings. It joins no two,
/// keeps those of the set-up, and gives accepted openings the next numbers, in that order. So it is entry by entry,
/// where looks that nothing followed yet are still to come.
pub fn law_reports_join_in_any_order()
    ensures runs { ReportsJoinInAnyOrder }
    ensures steps { StepsJoinInAnyOrder }
{
    law_set_ups_start_fresh();
    law_leads_at_first();
    law_runs_join_in_any_order();
    law_steps_interleave();
}

/// There are such orders: with one core, all that it did in its turns is one, and each premise of
/// [`law_reports_join`] holds of it.
pub fn law_one_core_joins()
    ensures one { OneCoreJoins }
{}

/// In all of it no core meets a fault of received fragments, or a circuit without an entry; what an end
/// handled is a prefix of what the other end accepted; no more fragments have passed a station of a way than
/// the one before it; and a circuit's number on a link was given once. So it is of each run of
/// [`law_reports_join_in_any_order`], so of that of [`law_reports_are_machine_runs`], of the ends and bindings under
/// its renaming.
pub fn law_reports_hold()
    ensures hold { ReportsHold }
    ensures under { RunsUnderSomeHold }
{
    law_no_wire_faults();
    law_handled_is_ever_a_prefix();
    law_passed_ever_falls();
    law_numbers_are_once_both_ways();
    law_reports_join();
}

/// A dispatcher's turn in a world wants memory for just what one of a running core wants it for: to handle a call.
pub fn law_turns_want_alike<T: TakeSide>()
    ensures alike { TurnsWantAlike T.takes }
{}
