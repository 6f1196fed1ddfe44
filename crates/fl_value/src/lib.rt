//! Calls as text: what a call's text says, and how a call is printed. Values, calls, tapes and a plan's order stand in `fl_value_data`, and are handed on.
//!
//! Contract for the layers above: [`read_call`] gives the one call that a text spells (`specs/CallText.antt`), or the first of faults 90, 41 and 42
//! (`specs/Resolve.antt`); what [`print_call`] writes of a fitting call reads as that call ([`law_printed_call_read`], `specs/Printed.antt`).
//!
//! - `tokens.rt`, `reader.rt`, `calls.rt`: a text's tokens, its values, and the whole call
//! - `scanner.rt`: whether a text spells a call, without memory
//! - `printing.rt`: calls as text
//! - `law.rt`: the laws
//! - `fault.rt`: why there is no call
#![tactic(auto)]

mod calls;
mod fault;
mod law;
mod printing;
mod reader;
mod scanner;
mod tokens;

pub use calls::{CallText, read_call, read_call_text, read_spoken, resolve};
pub use fault::ValueFault;
pub use fl_value_data::{
    Call, PlanNo, RANKS, Value, are_text_bytes, fits, flatten, flatten_into, has_type,
    law_one_call_of_a_tape, law_rank_by_rank, unflatten,
};
pub use law::{law_one_reading, law_printed_call_read, law_printed_reads};
pub use printing::print_call;
pub use scanner::spoken_name;
pub use tokens::{is_blank, skip_blanks};
