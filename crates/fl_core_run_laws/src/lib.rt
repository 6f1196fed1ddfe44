//! What the log of a running core tells: laws of its turns, whatever its sides.
//!
//! Contract for the layer above: laws, the contracts of functions that do nothing (`law.rt`), over turns of one core, as `fl_core_run` tells of them. All that
//! changes the core in its turns is in a log (`specs/Logs.antt`). Over such logs: the calls that were made are those of the jobs (`specs/Made.antt`), what
//! queues carry and when rules are set (`specs/Carried.antt`), what passes over links, rings and ends (`specs/Flows.antt`), as the table of circuits leads it
//! (`specs/Led.antt`), what two ends come to between them (`specs/Agree.antt`), and that lent sides stay lent (`specs/Lending.antt`).
//!
//! - `law.rt`: the laws
#![tactic(auto)]

mod law;

pub use law::{
    law_counted_are_turns, law_ends_agree, law_jobs_are_made, law_leads_at_first, law_logs_flow,
    law_queues_carry, law_rules_come_first, law_sent_by_rules, law_sides_go, law_sides_stay_lent,
    law_turns_are_logged,
};
