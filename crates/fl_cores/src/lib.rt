//! Cores on threads of their own: a set-up is booted and taken apart, its cores run (`fl_cores_parts`), and
//! what came of that is told, honestly, in any schedule; a cores file likewise.
//!
//! Contract for the layer above, of [`run_cores`] and [`run_cores_text`]: what an end is reported to have
//! handled is a prefix of what the other end made, and what it made is a prefix of what was handed in for it,
//! on every binding (`specs/Honesty.antt`); the run ended as is told (`specs/Endings.antt`), bindings being
//! refused for the reasons that are told (`specs/Reasons.antt`, `specs/Over.antt`). With one core the report
//! is a function of the configuration, the jobs and the limit: that of so many turns of the machine
//! (`specs/OneCore.antt`), so two runs of a file tell the same ([`law_one_report`], `specs/Again.antt`). And
//! each core of a run goes on as the machine does, from the set-up, event by event, on what it knows of that,
//! and what is told of an end is what the machine's end accepted, and what came there (`specs/Follows.antt`).
//!
//! Behind each report stand cores as `fl_cores_laws` speaks of them (`specs/Outcomes.antt`), so it follows by
//! its laws from what a run tells (`specs/Promised.antt`). A run tells more: one order has all that its cores did
//! by sides of rings (`AtTable.antt` of `fl_cores_parts`).
//!
//! - `run.rt`: a set-up with jobs run; `text.rt`: a cores file run; `fault.rt`: why there is no report
//! - `wired.rt`: the cores of a file, wired once more without threads
//! - `reports.rt`: the same, with what is promised of reports
//! - `law_outcomes.rt`: which cores stand behind a report, and what of the laws of endings holds of it
//! - `law_reports.rt`: each report is honest, and tells how the run ended, and why bindings were refused;
//!   what that of one core is
//! - `law_following.rt`: that each core of a run follows the machine
#![tactic(auto)]

mod fault;
mod law_following;
mod law_outcomes;
mod law_reports;
mod reports;
mod run;
mod text;
mod wired;

pub use fault::CoresFault;
pub use fl_core_run::{Gate, Part, core_run};
pub use fl_cores_file::{Job, Report};
pub use fl_cores_parts::{CoreOver, CoresOver, Recording, RunRecord, WiredCores};
pub use fl_cores_table::EndSeat;
pub use law_following::law_runs_follow;
pub use law_outcomes::{
    law_complete_has_all, law_dispatchers_handle_few, law_refused_are_opened,
    law_reports_are_of_runs, law_reports_handle_few, law_reports_keep_turns,
};
pub use law_reports::{
    law_one_report, law_refusals_have_reasons, law_runs_end_as_told, law_runs_of_one_core,
    law_runs_report_honestly, law_spent_links_are_led_over, law_wanted_handle_few,
};
pub use reports::{run_cores, run_cores_text, run_cores_text_recorded};
pub use text::CoresEnd;
pub use wired::{FileLayout, WiredFile, wire_cores_text};
