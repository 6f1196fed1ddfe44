//! Cores files: what the lines of one set up and hand in, and the report of its run.
//!
//! Contract for the layer above: [`read_cores_text`] gives what a text comes to (`specs/CoresFile.antt`): how many cores run, what is
//! asked for before they do, and their jobs; or the first line that is refused. A text comes to one thing alone ([`law_one_outcome`]).
//! [`print_report`] writes the text of a report (`specs/Printed.antt`); when one is honest stands in `specs/Report.antt`.
//!
//! - `job.rt`: jobs
//! - `draft.rt`: what lines come to; `setup.rt`, `binding.rt` and `calling.rt`: each kind of line
//! - `reading.rt`: a cores file read line by line
//! - `file.rt`: a cores file that was read, with its bindings numbered
//! - `report.rt`: reports
//! - `printing.rt`: what is printed
//! - `stop.rt`: why the reading stops
//! - `law.rt`: the law
#![tactic(auto)]

mod binding;
mod calling;
mod draft;
mod file;
mod job;
mod law;
mod printing;
mod reading;
mod report;
mod setup;
mod stop;

pub use binding::DraftRequest;
pub use draft::{Draft, DraftBinding, DraftInterface, DraftLink, DraftService, EndUse};
pub use file::{CoresFile, CoresText, number_at};
pub use job::{CircuitRequest, Job};
pub use law::law_one_outcome;
pub use printing::{print_refusal, print_report};
pub use reading::{MAX_TEXT, PartialCoresFile, read_cores_text};
pub use report::{CallsByEnd, Ending, Report};
pub use stop::CoresLineFault;
