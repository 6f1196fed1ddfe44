//! What holds of the report of running cores: that it is honest (`law_honesty.rt`), and how the run ended
//! (`law_endings.rt`). Laws, the contracts of functions that do nothing.
//!
//! **Honesty**, over what each core's log tells of a run (`fl_core_run_laws`), what the sides of rings came to
//! (`fl_cores_shares`), and what was joined to ends (`fl_cores_jobs`). What is taken through a queue or a ring is the
//! first of what was put ([`law_cross_off_links`], `specs/Crossing.antt`). Of two ends of a binding, each of
//! which took the first of what the other put, what one handled is the first of what the other made, and that
//! the first of what was handed in for it ([`law_ends_are_honest`]). So it is of bindings by queues and by
//! rings, and a report is honest that tells what the ends' progress of cores have whose bindings are all such
//! ([`law_off_links_are_honest`], `specs/Bindings.antt`). And so it is of a binding over a circuit whose ends
//! are bound in the end, where the tables of the cores of its route lead from one to the other
//! ([`law_circuits_are_honest`], `specs/Circuits.antt`). That they do: the cores on the two sides of a link
//! mean one binding by each of its numbers, and an entry leads back over the link to the client's end, or to
//! one more station ([`law_neighbours_agree`], [`law_entries_lead_back`], `specs/Named.antt`,
//! `specs/Neighbours.antt`), and so on ([`law_routes_go_back`], `specs/Back.antt`); no core is passed twice,
//! so the route begins at the client's end ([`law_routes_begin`]), which is at the binding's own core
//! ([`law_clients_are_home`]). So what is told of a binding whose two ends are bound in the end is honest
//! ([`law_bound_is_honest`], `specs/Whole.antt`). Whatever the cores say, what is asked for between them is
//! what jobs ask for, and an end that is made is at the core that its binding names ([`law_requests_alone`],
//! [`law_ends_are_at_home`], `specs/Asked.antt`). In the end such an end is bound to no circuit, or stands
//! bound ([`law_planned_ends_stand`], `specs/Stands.antt`). Where the client's end is bound, so is the
//! server's ([`law_bound_clients_meet`]); where the server's alone is, it handled nothing
//! ([`law_lone_servers_rest`], `specs/Meeting.antt`). So what is told of each binding is honest, and so is
//! the report of a run of cores that were set up together ([`law_opened_is_honest`], [`law_runs_are_honest`],
//! `specs/Runs.antt`). What an end's progress has as refused is so for a reason that holds
//! ([`law_progresses_tell_reasons`], `specs/Reasons.antt`): for want of a number on a link only where the
//! routes of 1,023 other bindings go over it ([`law_spent_on_bindings`], `specs/Spent.antt`).
//!
//! **Endings**, over cores that took turns by their plans (`fl_core_run`), what was joined to their ends
//! (`fl_cores_jobs`), and a report that tells of their ends' progress (`fl_cores_file`). Turns are within the limit,
//! and `turns out` comes only where a core took all of its turns ([`law_turns_are_kept`],
//! `specs/EndedTurns.antt`). What cores hear of refused openings was told ([`law_tables_tell`],
//! `specs/EndedHeard.antt`), so each refusal that a core knew of is named ([`law_refusals_are_named`],
//! `specs/Complete.antt`), and `complete` comes only where all that was handed in was handled, but on
//! bindings that are named ([`law_complete_has_all`]). What the ends of a dispatcher handled is together at
//! most its core's turns ([`law_dispatchers_handle_few`], `specs/Few.antt`). A binding that is named is one
//! that a job opens, and its client's end did nothing ([`law_refused_do_nothing`], `specs/Refused.antt`).
#![tactic(auto)]

mod law_endings;
mod law_honesty;

pub use law_endings::{
    law_complete_has_all, law_dispatchers_handle_few, law_refusals_are_named,
    law_refused_do_nothing, law_tables_tell, law_turns_are_kept,
};
pub use law_honesty::{
    law_bound_clients_meet, law_bound_ends_meet, law_bound_is_honest, law_circuits_are_honest,
    law_clients_are_home, law_cores_answer, law_cores_ask, law_cores_go, law_cores_name,
    law_cores_reason, law_cross_off_links, law_ends_are_at_home, law_ends_are_honest,
    law_ends_are_requested, law_ends_sit, law_entries_lead_back, law_led_ends_stand,
    law_links_are_paired, law_lone_servers_rest, law_loose_ends_rest, law_neighbours_agree,
    law_neighbours_open, law_off_link_is_honest, law_off_links_are_honest, law_opened_is_honest,
    law_planned_ends_stand, law_progresses_tell_reasons, law_reasons_alone, law_reports_are_honest,
    law_requests_alone, law_routes_begin, law_routes_go_back, law_rules_are_set,
    law_runs_are_honest, law_spent_on_bindings,
};
