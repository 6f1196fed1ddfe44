//! Transcripts: what a script's items do, and `exec`.
//!
//! Contract for the program: what [`exec`] writes is the transcript of what it read (`specs/Transcript.antt`), on whatever
//! does what the machine does (`fl_model::Machine`). A script has a transcript ([`law_has_transcript`]), and one alone
//! ([`law_one_transcript`]); what `exec` leaves on a fault is a prefix of it (`specs/CutShort.antt`). The handlers that run are a
//! prefix of the calls accepted ([`law_handlers_run_a_prefix`]), names are those of the machine's things ([`law_names_stand`]), and
//! whatever a script asks, it asks of what is there ([`law_names_are_there`]); all three however far a script is run.
//!
//! - `running.rt`: `exec`, which reads a script whole, runs it, and writes item by item
//! - `script.rt`: a running script; each item's answer
//! - `reader.rt`: what it is read from
//! - `law.rt`: the laws
#![tactic(auto)]

mod law;
mod reader;
mod running;
mod script;

pub use law::{
    law_handlers_run_a_prefix, law_has_transcript, law_names_are_there, law_names_stand,
    law_one_transcript, law_prefix_of_the_transcript,
};
pub use reader::ScriptReader;
pub use running::{ExecFault, MAX_SCRIPT, exec};
