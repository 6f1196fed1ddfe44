//! The whole system, one event at a time: all cores, and the rings and queues between them.
//!
//! Contract for the layers above: a [`World`] is the record of `fl_world_refines/specs/View.antt`. One event is one step of
//! its relations: what is answered and what the world is then, exactly ([`World::step`]). Where memory is refused the world
//! is as it was. By the laws of `fl_world_refines` each is then a step of the machine: a world is what scripts run on
//! (`fl_model::Machine`), it does lists of events ([`World::run`]), it is booted by a set-up ([`World::boot`],
//! `specs/Booting.antt`), and taken apart before it was used ([`World::into_parts`], into the `Parts` of `fl_world_refines`).
//!
//! - `world.rt`: `World`, and what contracts see of it
//! - `step.rt`: whatever event is asked, and many
//! - `machine.rt`: scripts run on a world
//! - `booting.rt`: a world after a set-up
//! - `parts.rt`: a world taken apart
//! - `places.rt`: where ends and links are
//! - `sending.rt`: calls and writes of ends
//! - `taking.rt`: turns, and what ends say of themselves
//! - `linking.rt`: events of links
//! - `moving.rt`: what stands first on a link is looked at, and moves
//! - `forwarding.rt`: what was seen there is followed
//! - `making.rt`: interfaces, cores, links, dispatchers and services
//! - `binding.rt`: bindings; `by_queues.rt`, `by_ring.rt` and `by_route.rt`: the three ways to make one
#![tactic(auto)]

mod binding;
mod booting;
mod by_queues;
mod by_ring;
mod by_route;
mod forwarding;
mod linking;
mod machine;
mod making;
mod moving;
mod parts;
mod places;
mod sending;
mod step;
mod taking;
mod world;

pub use booting::{BootFault, Config};
pub use fl_model::{Answer, Event};
pub use world::World;
