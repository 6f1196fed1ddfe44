//! Calls in little memory, from the fragment to the report: a call of one number from 0 to 2^64 - 1 is in no memory of its own. A
//! call of a negative number is in a box, as any other.
//!
//! Contract for the layers above: a [`CompactCall`] is made of a call, and contracts see it as that call. It tells whether it fits an interface
//! ([`CompactCall::fits`]), shows how it is held ([`CompactCall::seen`]), and lends the call ([`CompactCall::lend`]) or puts it in the place of
//! another ([`CompactCall::put_in`]). The tape of a fitting call that is held as its number is that number, whatever scalar or enum the
//! argument is. Where a message has one argument, a scalar of numbers from 0 on ([`has_plain_number`]), each of its calls is of the number on
//! its tape (`specs/Plain.antt`, `proofs/Plain.antt`).
//!
//! - `call.rt`: the type; `holding.rt`: what it holds (`specs/Held.antt`)
//! - `number.rt`: calls of one number; `number_call.rt`: the memory in which one after another is made
#![tactic(auto)]

mod call;
mod holding;
mod number;
mod number_call;

pub use call::CompactCall;
pub use holding::SeenCall;
pub use number::has_plain_number;
pub use number_call::NumberCall;
