//! Running cores, each with the sides of rings and the queues in its hands, joined to one world; and what
//! they do together, as a run of the machine. Laws, the contracts of functions that do nothing.
//!
//! A ring between two cores is made of its two sides' views. A step of one side is a step of that ring where
//! each of its loads finds what stands there ([`law_true_steps`], `specs/Rings.antt`). The cores, rings and
//! queues make one world (`specs/Joined.antt`). An interleaving of the cores' logs, in which each look finds
//! what stands in its ring at that moment, is `specs/Steps.antt`. By each event of it the cores go on as the
//! machine does, and show the machine's next state ([`law_ends_join`], [`law_jobs_join`], [`law_links_join`],
//! `specs/Laws.antt`). So an interleaving is a run of the machine, as long as circuits are
//! asked for in the order of their numbers ([`law_runs_join`], `specs/Runs.antt`), and, from cores without circuits at
//! first, in any order one in which bindings have other numbers ([`law_runs_join_in_any_order`], `specs/Renamed.antt` and `specs/RenamedRuns.antt`); others'
//! entries may come between a look and what follows it ([`law_steps_interleave`], `specs/Entries.antt`); and
//! neighbours of which neither puts anything to where the other goes may change places, openings with all that
//! other cores do ([`law_neighbours_exchange`], [`law_openings_move`], `specs/Exchanges.antt`). What a core does
//! by itself may come next as soon as its sides find what stands ([`law_own_events_join`],
//! `specs/OwnEvents.antt`).
//!
//! - `law.rt`: the laws
#![tactic(auto)]

mod law;

pub use law::{
    law_ends_join, law_jobs_join, law_links_join, law_neighbours_exchange, law_openings_move,
    law_own_events_join, law_runs_join, law_runs_join_in_any_order, law_steps_interleave,
    law_true_steps,
};
