//! What a core does in a world, over what an event lends it: a queue, a side of a ring, or an end that a binding
//! keeps.
//!
//! Contract for the layers above: each function says what its event comes to at the parts of a world that it
//! touches (`specs/`), in the words in which `fl_world_refines` says it of a world. `fl_world` lends its world's parts.
//!
//! - `places.rt`: where ends and links are
//! - `lending.rt`: sides of rings, lent
//! - `sending.rt`: calls and writes of ends
//! - `taking.rt`: turns, and what ends say of themselves
//! - `linking.rt`: events of links
//! - `moving.rt`: what stands first on a link is looked at, and moves
//! - `forwarding.rt`: what was seen there is followed
//! - `making.rt`: cores, and links between two
//! - `binding.rt`: a binding's two ends; `by_queues.rt`, `by_ring.rt` and `by_route.rt`: the
//!   three ways to make a binding
#![tactic(auto)]

mod binding;
mod by_queues;
mod by_ring;
mod by_route;
mod forwarding;
mod lending;
mod linking;
mod making;
mod moving;
mod places;
mod sending;
mod taking;

pub use binding::{NewEnds, new_ends};
pub use by_queues::{join_at, new_queue, push_both};
pub use by_ring::{NewRingEnd, join_parts};
pub use by_route::{
    CircuitBinding, OpenOutcome, all_differ, are_cores, may_open_in, open_over, path_over,
};
pub use forwarding::{answer_heard, answer_unheard, move_among, take_rules_of};
pub use lending::{ring_at, which_at};
pub use linking::{monitor_ack_by_ring, monitor_write_by_ring};
pub use making::{fresh_cores, has_name, let_go, link_both, renew_cores};
pub use moving::{ForwardFrag, arrive_by_ring, hear_by_ring, look_by_ring};
pub use places::{EndLocation, LinkWithSide, link_side_at, location_at};
pub use sending::{call_in, call_kept, show_by_queue, show_by_ring, write_by_queue, write_by_ring};
pub use taking::{
    DueEnd, ack_by_ring, deregister_in, register_by_queue, register_by_ring, register_in, rule_in,
    rule_kept, tell_nothing, turn_by_queue, turn_by_ring, turn_in,
};
