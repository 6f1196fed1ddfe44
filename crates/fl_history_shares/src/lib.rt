//! The sides of new rings at one table, dealt to cores before they run on threads of their own; the cores gathered again
//! afterwards.
//!
//! Contract for the layers above: [`deal`] makes the rings at one table and gives each core its sides, at the places that are
//! told (`specs/Dealt.antt`). The cores go over them on their threads, also over such as note what they do ([`NotingSides`]).
//! [`settle`] takes them back: all that the cores did has one order, and of each ring what each side took is the first of what
//! the other put (`specs/Settled.antt`).
//!
//! - `dealing.rt`: rings made, and their sides dealt
//! - `noting_sides.rt`: a core's sides that note what their looks and puts come to
//! - `settling.rt`: cores gathered
#![tactic(auto)]

mod dealing;
mod noting_sides;
mod settling;

pub use dealing::{DealtSides, deal};
pub use noting_sides::{NotingLent, NotingSides};
pub use settling::{law_settled_are_near, settle};
