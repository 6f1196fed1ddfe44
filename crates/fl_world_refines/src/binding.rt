//! What a world keeps of a binding beside its cores.

ghost use Rattle.std.specs.Prelude.{◌≡◌};
ghost use Rattle.fl_world_refines.specs.View.{core_in};

use fl_base::Side;
use fl_endpoint::End;

/// A binding, by its interface and where its ends are.
#[derive(Drop)]
pub struct Binding {
    /// The place of its interface.
    pub interface: usize,
    /// The core of the client's end.
    pub client: usize,
    /// The core of the server's end, or the one at which it will be made.
    pub server: usize,
    /// The server's end of a circuit before it is made: reply rules may be set for it.
    pub unmade: Option<End>,
}

/// The core of a binding's end.
#[inline(always)]
pub fn core_in(side: Side, binding: &Binding) -> usize
    ensures core { result ≡ core_in side binding.now }
{
    match side {
        Side::Client => binding.client,
        Side::Server => binding.server,
    }
}
