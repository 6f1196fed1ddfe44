//! What a world is made of, as cores on threads are given it.

use crate::binding::Binding;
use fl_compile::Program;
use fl_core::Core;
use fl_link::QueueLink;
use fl_nameserv::Names;
use fl_ring::OneDuo;

/// What a world was made of, each in its order: queues, interfaces, bindings and sides of rings are known by the same numbers as there
/// (`specs/Apart.antt`).
#[derive(Drop)]
pub struct Parts {
    /// The cores, each at the place that is its number.
    pub cores: Vec<Core>,
    /// Those of links, and those of bindings between two cores.
    pub rings: Vec<OneDuo>,
    /// Those of bindings within a core.
    pub queues: Vec<QueueLink>,
    /// The interfaces, each compiled under its plan.
    pub programs: Vec<Program>,
    /// The table of the services' names.
    pub names: Names,
    /// What the world kept of each binding beside its cores.
    pub bindings: Vec<Binding>,
}
