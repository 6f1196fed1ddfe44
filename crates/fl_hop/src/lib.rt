//! Circuits of several hops at one core: where a fragment that comes in on a link goes on to.
//!
//! A call that crosses several cores travels on circuits: on each link of its route its fragments carry a number,
//! and each core in between has an entry that joins a number on one link with a number on the next; at the route's two
//! ends the entry joins a number with an end. A core's [`Circuits`] keep these entries in a slab, with a cell for each
//! number of each link, so that no forward searches. They also number the circuits, and count the neighbour's.
//!
//! Nothing here knows the monitors' messages: the monitor above opens, passes on and removes.
//!
//! Contract for the layers above: a [`Circuits`] is the table of `specs/Table.antt`, numbered by `specs/Numbers.antt`;
//! each call makes exactly the change that `specs/Openings.antt` names, and leaves everything else alone.
//! `specs/Joined.antt` has what holds of every table, `specs/Later.antt` what a table keeps while it changes, and
//! `specs/Forward.antt` what a forward does. `specs/Stretch.antt` has what a core does over a stretch of time,
//! `specs/Adds.antt` which step of it a forward is, and `specs/Carried.antt` what a circuit carries then.
//!
//! - `circuits.rt`: `Circuits`, its links, the numbers there, and look-ups
//! - `openings.rt`: how entries come and go
//! - `entry.rt`: a way, and how entries are kept
//! - `links.rt`: what a core knows of its links
//! - `numbers.rt`: the numbering
//! - `forward.rt`: looking at a link's first fragment, and passing it on
//! - `law.rt`: what holds of every table and of every stretch
//! - `fault.rt`: why a call is refused
#![tactic(auto)]

mod circuits;
mod entry;
mod fault;
mod forward;
mod law;
mod links;
mod numbers;
mod openings;

pub use circuits::Circuits;
pub use entry::{Hop, HopTarget};
pub use fault::HopFault;
pub use forward::{ForwardOutcome, Forwarded, HopFront, deliver, move_on};
pub use law::{
    law_along, law_carried_in, law_carried_on, law_circuits_join, law_forward_adds, law_later_on,
    law_links_suffice, law_never_shared, law_numbers_apart, law_openings_lead, law_own_alone,
    law_passage_adds, law_stretches_join,
};
pub use links::LinkState;
pub use numbers::{MAX_LINKS, MAX_OPENINGS};
