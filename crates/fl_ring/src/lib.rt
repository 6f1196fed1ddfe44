//! Rings: links whose fragments stand as words in a table, one cache line each.
//!
//! Contract for the layers above: a ring is a bounded queue (`fl_link`), and its words stand as
//! the definition of a way says (`specs/Way.antt`): every fragment from the number told on is in
//! its slot with the epoch of its round, and the other slots have the other epoch.
//!
//! - `one_ring.rt`: `OneRing`, one direction with an acknowledgement word
//! - `one_duo.rt`: `OneDuo`, two directions whose acknowledgements ride in control words
//! - `halves.rt`: one side of it; `duo_side.rt`: that side lent to a core
//! - `counts.rt`: how a 16-bit number names a full count
//! - `shared.rt`: `ring` and `duo`, whose two sides may be in two threads
//! - `slots.rt`: one slot of eight words
//! - `fault.rt`: why no ring was made
//! - `law.rt`: what holds of rings over looks in a row
#![tactic(auto)]

mod counts;
mod duo_side;
mod fault;
mod halves;
mod law;
mod one_duo;
mod one_ring;
mod shared;
mod slots;

pub use counts::count_from;
pub use duo_side::DuoSide;
pub use fault::RingFault;
pub use fl_link::Told;
pub use law::{
    law_duo_conserves, law_forgets_looks, law_receiver_conserves, law_ring_conserves,
    law_sender_conserves, law_side_conserves,
};
pub use one_duo::{OneDuo, WhichSide};
pub use one_ring::OneRing;
pub use shared::{RingRx, RingTx, SharedSide, duo, duo_from, ring, settle, settle_duo};
