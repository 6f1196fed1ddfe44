//! That the report of running cores is honest: laws, as the contracts of functions that do nothing.

ghost use Rattle.fl_cores_laws.specs.Crossing.{ThroughQueues, ThroughRings};
ghost use Rattle.fl_cores_laws.specs.Bindings.{PartiesAreHonest, ReportsAreHonest, OffLinksIsHonest};
ghost use Rattle.fl_cores_laws.specs.Circuits.{CircuitsAreHonest};
ghost use Rattle.fl_cores_laws.specs.Cores.{CoresGo, CoresGoAmply};
ghost use Rattle.fl_cores_laws.specs.Neighbours.{CoresName, NeighboursAgree, EntriesLeadBack};
ghost use Rattle.fl_cores_laws.specs.Back.{RoutesGoBack};
ghost use Rattle.fl_cores_laws.specs.Answered.{CoresAnswer, NeighboursOpen};
ghost use Rattle.fl_cores_laws.specs.Rules.{RulesAreSet};
ghost use Rattle.fl_cores_laws.specs.Unbound.{LooseEndsRest, SilenceIsHonest, LooseIsHonest};
ghost use Rattle.fl_cores_laws.specs.Whole.{RoutesBegin, BoundEndsMeet, ClientsAreHome, BoundIsHonest};
ghost use Rattle.fl_cores_laws.specs.Asked.{CoresAsk, RequestsAlone, ServersAreRequested, ClientsAreRequested, EndsAreAtHome};
ghost use Rattle.fl_cores_laws.specs.Stands.{LedClientsStand, LedServersAreBound, PlannedEndsStand};
ghost use Rattle.fl_cores_laws.specs.Meeting.{WiredArePaired, BoundClientsMeet, LoneServersRest};
ghost use Rattle.fl_cores_laws.specs.Sitting.{EndsSit};
ghost use Rattle.fl_cores_laws.specs.Runs.{OffLinkIsHonest, OpenedIsHonest, RunsAreHonest};
ghost use Rattle.fl_cores_laws.specs.Reasons.{CoresReason, ReasonsAlone, ProgressTellReasons, RefusedForReason};
ghost use Rattle.fl_cores_laws.specs.Spent.{SpentOnBindings, SpentOnOthers};

use fl_core_run_laws::{
    law_counted_are_turns, law_ends_agree, law_jobs_are_made, law_logs_flow, law_rules_come_first,
    law_sent_by_rules, law_turns_are_logged,
};
use fl_cores_shares::law_rings_conserve;
use fl_endpoint::law_on_another_circuit;
use fl_hop::law_circuits_join;
use fl_link::law_queue_conserves;
use fl_ring::SharedSide;

/// A core's whole run, the turns that were counted and those that weren't, is a log; and one in which no opening is refused as out of memory.
pub fn law_cores_go()
    ensures goes { CoresGo }
    ensures amply { CoresGoAmply }
{
    law_counted_are_turns::<SharedSide>();
    law_turns_are_logged::<SharedSide>();
}

/// What is taken through a queue in which nothing stood, or at one side of a new ring whose sides are put together again in the end, is the first of what
/// was put there.
pub fn law_cross_off_links()
    ensures queues { ThroughQueues }
    ensures rings { ThroughRings }
{
    law_queue_conserves();
    law_rings_conserve();
}

/// Of two ends of a binding, wherever they are: where what each took is the first of what the other put, what each handled is the first of what the other
/// made, and that is the first of what was handed in for it.
pub fn law_ends_are_honest()
    ensures ends { PartiesAreHonest }
{
    law_turns_are_logged::<SharedSide>();
    law_jobs_are_made::<SharedSide>();
    law_ends_agree();
    law_sent_by_rules();
}

/// Where what ends' progress have in the end is honest of each binding, so is a report that tells that.
pub fn law_reports_are_honest()
    ensures reports { ReportsAreHonest }
{}

/// What ends' progress have in the end is honest of a binding by queues or by a ring, where cores ran jobs that were joined for them.
pub fn law_off_link_is_honest()
    ensures honest { OffLinkIsHonest }
{
    law_ends_are_honest();
    law_logs_flow::<SharedSide>();
    law_rules_come_first::<SharedSide>();
    law_ends_agree();
    law_queue_conserves();
    law_rings_conserve();
}

/// So a report that tells what ends' progress have in the end is honest, where all bindings are such.
pub fn law_off_links_are_honest()
    ensures honest { OffLinksIsHonest }
{
    law_off_link_is_honest();
    law_reports_are_honest();
}

/// What ends' progress have is honest of a binding over a circuit whose two ends are bound in the end, where the tables of
/// its route's cores lead from one to the other.
pub fn law_circuits_are_honest()
    ensures honest { CircuitsAreHonest }
{
    law_ends_are_honest();
    law_turns_are_logged::<SharedSide>();
    law_jobs_are_made::<SharedSide>();
    law_sent_by_rules();
    law_logs_flow::<SharedSide>();
    law_rules_come_first::<SharedSide>();
    law_ends_agree();
    law_queue_conserves();
    law_rings_conserve();
    law_circuits_join();
}

/// In a run of a core that opened nothing before, each number of a circuit is of one binding: what asks for a circuit, of all that its monitor said, asks for a
/// number that the core gave for that binding; where an entry stands at a number of a neighbour's, its monitor heard that number asked for, for the
/// entry's binding; and entries go by refusals alone, and none stands at a number that the core refused.
pub fn law_cores_name()
    ensures name { CoresName }
{
    law_on_another_circuit();
}

/// By a number that one of the two cores of a link gave, both mean the same binding: where an entry stands there at the one, it does at the other.
pub fn law_neighbours_agree()
    ensures agree { NeighboursAgree }
{
    law_cores_name();
    law_rings_conserve();
    law_circuits_join();
}

/// So each entry at a number of a neighbour's leads back over the link, to the client's end or to one more station.
pub fn law_entries_lead_back()
    ensures back { EntriesLeadBack }
{
    law_neighbours_agree();
}

/// From a number that a neighbour gave, at which an entry stands, the circuit's route goes back to the client's end, or over as many stations as one likes.
pub fn law_routes_go_back()
    ensures back { RoutesGoBack }
{
    law_entries_lead_back();
}

/// An end that isn't bound in the end, or isn't there, handled no call and made none. Where neither end of a binding handled a call, what is told of them is
/// honest; so it is where neither is bound.
pub fn law_loose_ends_rest()
    ensures rest { LooseEndsRest }
    ensures silence { SilenceIsHonest }
    ensures loose { LooseIsHonest }
{
    law_turns_are_logged::<SharedSide>();
    law_jobs_are_made::<SharedSide>();
}

/// An end that is made in a run, whose jobs set just the rules of its end's work before they make a call, handled no call or has these rules in the end.
pub fn law_rules_are_set()
    ensures set { RulesAreSet }
{
    law_logs_flow::<SharedSide>();
    law_turns_are_logged::<SharedSide>();
    law_jobs_are_made::<SharedSide>();
}

/// In a run of a core that opened nothing before, what its monitor says to be open is so: an entry stands at that number, and leads to an end here or to a
/// number whose opening was answered; and of each opening of its own that was answered it heard so.
pub fn law_cores_answer()
    ensures answer { CoresAnswer }
{
    law_on_another_circuit();
}

/// So where a number that one of the two cores of a link gave was answered, the other's entry there leads an open way.
pub fn law_neighbours_open()
    ensures leads { NeighboursOpen }
{
    law_cores_answer();
    law_rings_conserve();
    law_circuits_join();
}

/// From a number that leads to the server's end, a circuit's route goes back to the client's end, and passes no core twice.
pub fn law_routes_begin()
    ensures begins { RoutesBegin }
{
    law_entries_lead_back();
}

/// So where both ends of a binding are bound in the end, and no other core's table leads to the client's, a route leads from the one to the other.
pub fn law_bound_ends_meet()
    ensures meet { BoundEndsMeet }
{
    law_routes_begin();
}

/// No core's table leads to a binding's client's end, but that of the client's own: its job alone opens the binding.
pub fn law_clients_are_home()
    ensures home { ClientsAreHome }
{}

/// So what ends' progress have is honest of each binding over a circuit whose two ends are bound in the end.
pub fn law_bound_is_honest()
    ensures honest { BoundIsHonest }
{
    law_bound_ends_meet();
    law_clients_are_home();
    law_circuits_are_honest();
}

/// In a run of a core that had nothing to say before, what asks for a circuit, of all that its monitor said, is what a job asks for, or was heard on a link
/// whose other core comes before this one on the route; and an end that was made was asked for by what was heard, or by a job of an end's progress.
pub fn law_cores_ask()
    ensures ask { CoresAsk }
{
    law_on_another_circuit();
}

/// So whatever the cores of a run say, what asks for a circuit between them is what a job asks for: it was heard from the core before on the route, and
/// there are so many at most.
pub fn law_requests_alone()
    ensures alone { RequestsAlone }
{
    law_cores_ask();
    law_rings_conserve();
    law_circuits_join();
}

/// An end that was made in a run is one of a job's binding: a server's end at the core of the service that is asked for, with the program of its interface,
/// and a client's end at a core that did the job.
pub fn law_ends_are_requested()
    ensures servers { ServersAreRequested }
    ensures clients { ClientsAreRequested }
{
    law_requests_alone();
    law_cores_ask();
}

/// So where cores were set up together, an end that was made in their run is at the core that its binding names, with the program of the binding's interface.
pub fn law_ends_are_at_home()
    ensures home { EndsAreAtHome }
{
    law_ends_are_requested();
}

/// And where cores were set up together, an end that was made in their run sits at the dispatcher that its job asks for, or at that of the service.
pub fn law_ends_sit()
    ensures sit { EndsSit }
{
    law_ends_are_requested();
    law_ends_are_at_home();
}

/// In a run of a core that opened nothing before, an end to which its table leads in the end is there, and a server's is bound.
pub fn law_led_ends_stand()
    ensures clients { LedClientsStand }
    ensures servers { LedServersAreBound }
{}

/// An end that wasn't there as its core's run began is bound to no circuit in the end, or stands bound to a number of a link, with the rules of its end's work
/// where it handled a call.
pub fn law_planned_ends_stand()
    ensures stand { PlannedEndsStand }
{
    law_logs_flow::<SharedSide>();
    law_rules_are_set();
}

/// Where all links of a run's cores have each a core on the other side, so has each on which that gave a number.
pub fn law_links_are_paired()
    ensures paired { WiredArePaired }
{}

/// Where a client's end is bound in the end, so is the server's: what was answered leads, core by core, to an open way, and no core is passed twice.
pub fn law_bound_clients_meet()
    ensures meet { BoundClientsMeet }
{
    law_neighbours_open();
    law_neighbours_agree();
    law_led_ends_stand();
}

/// A server's end that is bound in the end, where the client's isn't, handled no call.
pub fn law_lone_servers_rest()
    ensures rest { LoneServersRest }
{
    law_routes_begin();
    law_led_ends_stand();
    law_turns_are_logged::<SharedSide>();
    law_jobs_are_made::<SharedSide>();
    law_sent_by_rules();
    law_logs_flow::<SharedSide>();
    law_rules_come_first::<SharedSide>();
    law_ends_agree();
    law_queue_conserves();
    law_rings_conserve();
    law_circuits_join();
}

/// What ends' progress have is honest of each binding that a job opens, whatever its opening came to, where cores were set
/// up together and ran the jobs that were joined for them.
pub fn law_opened_is_honest()
    ensures honest { OpenedIsHonest }
{
    law_links_are_paired();
    law_clients_are_home();
    law_ends_are_at_home();
    law_planned_ends_stand();
    law_bound_is_honest();
    law_loose_ends_rest();
    law_bound_clients_meet();
    law_lone_servers_rest();
}

/// So a report that tells what the ends' progress of such cores have in the end is honest.
pub fn law_runs_are_honest()
    ensures honest { RunsAreHonest }
{
    law_reports_are_honest();
    law_opened_is_honest();
    law_off_link_is_honest();
}

/// In a run of a core that had nothing to say before, what its monitor said to be refused is an opening that it heard, for a reason of its own, for want of the
/// service, or as it heard from the core to which it passed the opening on; and each number that it gave was given once, for a job's opening or for one that
/// it heard.
pub fn law_cores_reason()
    ensures reason { CoresReason }
{
    law_on_another_circuit();
}

/// So where cores were set up together, what is heard between them to be refused one of them refuses: the way forth along the route ends, and what jobs
/// ask for is there.
pub fn law_reasons_alone()
    ensures reasons { ReasonsAlone }
{
    law_cores_reason();
    law_rings_conserve();
    law_circuits_join();
}

/// And where an end's progress has its opening as refused in the end, the core itself refuses it or one of those that heard
/// it, for one of three reasons, where memory was never wanted for an opening.
pub fn law_progresses_tell_reasons()
    ensures tell { ProgressTellReasons }
    ensures reason { RefusedForReason }
{
    law_cores_reason();
    law_rings_conserve();
    law_circuits_join();
}

/// Where a core gave all its numbers on a link, jobs open as many bindings, each another, whose routes go over that link. And where an end's progress has its
/// opening as refused for want of a number in the end, its route goes over such a link too, and none of those bindings is its own.
pub fn law_spent_on_bindings()
    ensures spent { SpentOnBindings }
    ensures others { SpentOnOthers }
{
    law_cores_reason();
    law_rings_conserve();
    law_circuits_join();
}
