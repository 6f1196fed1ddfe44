//! Calls of packed tapes, straight into their values.
//!
//! Contract for the layers above: [`unpack`] gives the call that a packed tape is of (`specs/Unpacked.antt`), where it
//! is known to be one's: it looks for no faults.
//!
//! - `number.rt`: numbers, by their width and their kind
//! - `value.rt`: values of types
//! - `order.rt`: whether the plan keeps the declared order of arguments
//! - `argument.rt`: arguments, from the plan's order into the declared one
//! - `call.rt`: [`unpack`]
#![tactic(auto)]

mod argument;
mod call;
mod number;
mod order;
mod value;

pub use call::unpack;
