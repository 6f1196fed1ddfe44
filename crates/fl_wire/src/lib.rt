//! What a call means on the wire: its payload under a plan, its fragments, and the calls that
//! fragments mean.
//!
//! Contract for the layers above: [`payload`] is the byte string in which each leaf of the call
//! stands at its place and every other byte is 0, and [`payload_into`] the same in memory that is there
//! already; [`fragment`] is the next 56 bytes of it with a control word; [`read_frags`] gives the calls back
//! and counts the rest, or tells the first fault; and no list of fragments has two readings
//! ([`law_one_reading`]). The definitions stand in `specs/Payload.antt`, `specs/Reading.antt` and
//! `specs/Wrong.antt`, those of leaves and places in `fl_layout`; what reading a thing at a place tells, in
//! `specs/Shapes.antt`.
//!
//! - `types.rt`: the types of a message's arguments
//! - `encode.rt`: the payload of a call
//! - `fragments.rt`: fragments of a payload
//! - `leaf.rt`: one leaf of a payload from the bytes of fragments, and why a reading stops
//! - `text.rt`: many bytes of fragments at once, for strings
//! - `value.rt`: values from the bytes of fragments
//! - `call.rt`: the arguments of a call from the bytes of its fragments
//! - `header.rt`: which fragments may be those of one call, by their control words
//! - `reader.rt`: calls and a rest from a list of fragments, or its first fault
//! - `reading.rt`: a call from its fragments, where these are a call's
//! - `fault.rt`: why fragments are those of no calls
//! - `law.rt`: the laws
#![tactic(auto)]

mod call;
mod encode;
mod fault;
mod fragments;
mod header;
mod law;
mod leaf;
mod reader;
mod reading;
mod text;
mod types;
mod value;

pub use encode::{payload, payload_into};
pub use fault::WireFault;
pub use fl_base::control;
pub use fl_layout::fragment_count;
pub use fragments::{fragment, fragment_at};
pub use header::{follow_fault, is_line, start_fault};
pub use law::{
    law_none_begins_with_another, law_numbers_fit_words, law_one_reading, law_reads_once,
};
pub use reader::{Reading, read_frags};
pub use reading::read_call_frags;
