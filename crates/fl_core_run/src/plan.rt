//! What a core's turns go over.

use fl_base::{EndId, LinkId};

/// The links, ends and dispatchers of a core, in the order in which its turns go over them.
///
/// An end that isn't made yet has its place here too.
#[derive(Drop)]
pub struct TurnPlan {
    /// Its links, in order of making.
    pub links: Vec<LinkId>,
    /// Its ends, by the numbers of their bindings, the client's before the server's.
    pub ends: Vec<EndId>,
    /// How many dispatchers it has.
    pub dispatchers: usize,
    /// How many cores run.
    pub cores: u64,
}
