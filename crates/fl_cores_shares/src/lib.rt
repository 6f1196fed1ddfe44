//! Things handed out to cores before they run on threads of their own, as queues; and what sides of rings note and come to.
//!
//! Contract for the layers above: a [`CoreShares`] holds things, each in the hand of its core, at the place that is told
//! (`specs/Shares.antt`). What sides of rings come to that were in the hands of cores is told by laws
//! (`specs/Settled.antt`).
//!
//! - `shares.rt`: things handed out
//! - `side_record.rt`: what the looks and puts of a side of a ring came to
//! - `law.rt`: what holds of sides in use
#![tactic(auto)]

mod law;
mod shares;
mod side_record;

pub use law::{law_handed_out_go_on, law_rings_conserve};
pub use shares::CoreShares;
pub use side_record::{FragmentWait, SideRecord};
