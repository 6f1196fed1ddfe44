//! A header in C for an interface: for each message a struct, and two functions that make its numbers and read
//! them back, for callers of `ffi/flounder.h`.
//!
//! The names of arguments and fields are gone in an interface, so they are `a0`, `a1`, .. and `f0`, `f1`, .. here.
//! What is promised: the preface, and the declarations of all messages in their order, with each one's number and how many
//! numbers a call of it has at most (`specs/Header.antt`). What the functions do isn't: numbers that don't fit are refused
//! where they are given (E42).
//!
//! - `messages.rt`: [`header`], message by message
//! - `arguments.rt`: an argument's member, and the lines that move its numbers
//! - `types.rt`: the same for fixed types
//! - `page.rt`: text that grows
#![tactic(auto)]

mod arguments;
mod messages;
mod page;
mod types;

pub use messages::header;
