//! Scripts and cores files: what the program runs.
//!
//! Contract for the layer above: what [`exec`] writes is the script's transcript (`fl_script_exec`); what
//! [`run_cores_text`] appends is an honest report of the cores file, or its first refused line (`fl_cores`).
//! A line is read by [`parse_line`] and an answer printed by [`print_answer`] (`fl_script_lines`).
#![tactic(auto)]

pub use fl_cores::{CoresEnd, run_cores_text};
pub use fl_script_exec::{ExecFault, exec};
pub use fl_script_lines::{parse_line, print_answer};
