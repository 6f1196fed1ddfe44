//! The cores of a run that `run_cores` reports, joined to one world: what they do together is a run of the
//! machine.
//!
//! Contract for the layers above: each reported run is a run of the machine, [`law_reports_are_machine_runs`]
//! (`specs/Machine.antt`). What that rests on, of any order of what cores do: [`law_handed_out_join`]
//! (`specs/Begin.antt`), [`law_reports_join`] and [`law_steps_join`] (`specs/Whole.antt`), over interleavings as
//! `fl_cores_joined` has them; so, under a renaming of bindings, whatever the order of openings,
//! [`law_reports_join_in_any_order`] (`specs/AnyOrder.antt`); what holds of them by the machine's laws,
//! [`law_reports_hold`] (`specs/Holds.antt`); that one core's turns are such an order, [`law_one_core_joins`]
//! (`specs/One.antt`). And what turns of cores and of a world want memory for, [`law_turns_want_alike`]
//! (`specs/Wants.antt`).
//!
//! - `law.rt`: the laws
#![tactic(auto)]

mod law;

pub use law::{
    law_handed_out_join, law_one_core_joins, law_reports_are_machine_runs, law_reports_hold,
    law_reports_join, law_reports_join_in_any_order, law_steps_join, law_turns_want_alike,
};
