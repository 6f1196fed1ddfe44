//! Packed tapes: a call's numbers side by side, each in as many bytes as its type has, as prepared stub code
//! (`fl_stub_steps`) takes them.
//!
//! Contract for the layers above: [`Tape::pack`] makes the packed tape of a call (`specs/Packed.antt`) straight
//! from its values.
//!
//! - `tape.rt`: `Tape`
//! - `packing.rt`: the bytes of values and arguments
//! - `order.rt`: where one pass over the arguments will do
#![tactic(auto)]

mod order;
mod packing;
mod tape;

pub use tape::Tape;
