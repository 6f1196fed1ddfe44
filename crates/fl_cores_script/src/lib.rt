//! Scripts that do what runs of cores did.
//!
//! Contract for the layer above, of [`certify`]: a script that it gives back has a transcript which tells, at each
//! end, just the calls that the report of the run tells, in order (`specs/Replays.antt`). Whoever made the script
//! need not be believed. So it is with [`keeps_to_file`]: each line of the script stands in the cores file of the
//! run, or asks for an event of a core (`specs/Kept.antt`).
//!
//! - `script.rt`: a script run, and its transcript compared with a report
//! - `alike.rt`: whether two texts tell the same handled calls
//! - `kept.rt`: whether a script's lines are a file's own, or ask for events
#![tactic(auto)]

mod alike;
mod kept;
mod script;

pub use fl_script_exec::MAX_SCRIPT;
pub use kept::keeps_to_file;
pub use script::certify;
