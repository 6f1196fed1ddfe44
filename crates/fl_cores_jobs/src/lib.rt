//! The jobs of a cores file, checked one by one and joined to the ends at which cores do them.
//!
//! Contract for the layer above: [`join_jobs`] takes what a set-up made and the jobs, and gives the jobs as cores do them,
//! the bindings, and by end an end's work: which jobs are done there, the reply rules, and how many calls are to be
//! handled. Each end's work has just what the jobs ask of it (`AreJoined`, `specs/State.antt`), as many calls are due as
//! are handed in at its other end (`AreDue`), and the bindings are those that are set up and behind them those that jobs
//! open (`AreBound`, `specs/Whole.antt`), each by the request of its place: to the service of that name, over that route,
//! which its client's core may ask for (`AreRequested`, `specs/Requested.antt`). Circuits are opened to services of their
//! bindings' cores and interfaces, and rules are between messages of the interface (`JobsFit`, `specs/Fitting.antt`). Rules
//! are set at once at ends that are there (`specs/Rules.antt`). None of the jobs has a fault then (`NoneRefused`,
//! `specs/Whole.antt`; `job_fault` there tells each, by `specs/Faults.antt`). Otherwise the first job is told that has one,
//! with the number of the first found there: none before it has any (`RefusedAt`); or, at place 0, the first binding of the
//! set-up that is refused (`BindingRefused`). A refusal is told in one way alone ([`law_one_refusal`]).
//!
//! - `whole.rt`: the jobs of a whole file
//! - `joining.rt`: one job more
//! - `opening.rt`: what a request for a circuit comes to
//! - `rules.rt`: reply rules that are set at once
//! - `due.rt`: how many calls are due
//! - `end_work.rt`: bindings and ends' work
//! - `fault.rt`: why jobs aren't joined
//! - `law.rt`: that a refusal is told in one way alone
#![tactic(auto)]

mod due;
mod end_work;
mod fault;
mod joining;
mod law;
mod opening;
mod rules;
mod whole;

pub use end_work::{BindingCores, EndWork, end_at};
pub use fault::JobFault;
pub use joining::JoinedJobs;
pub use law::law_one_refusal;
pub use whole::join_jobs;
