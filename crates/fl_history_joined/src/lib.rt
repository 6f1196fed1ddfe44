//! One order of cores' logs, in which each event happens in its turn (`fl_history_orders`), is a run of these cores
//! joined (`fl_cores_joined`): the logs of whole turns are told apart into events that are whole in themselves, and
//! looks with what follows each of them (`specs/InTurn.antt`), and so is the order (`specs/Runs.antt`). A core's whole
//! run at a table is events of such a log (`specs/Logged.antt`). Laws, the contracts of functions that do nothing.
//!
//! - `law.rt`: the laws
#![tactic(auto)]

mod law;

pub use law::{
    law_idle_cores_ran, law_orders_are_runs, law_runs_are_of_turns, law_turns_are_in_turn,
};
