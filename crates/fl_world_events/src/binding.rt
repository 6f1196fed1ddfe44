//! The two ends of a binding that joins them at once, over queues or a ring.

ghost use Rattle.std.specs.Prelude.{◌≡◌, IfOk};
ghost use Rattle.fl_world_events.specs.Requests.{IsNewEndOf};

use fl_base::Circuit;
use fl_compile::Program;
use fl_endpoint::End;
use std::alloc::{AllocError, Global};

/// The two ends of a binding, to which nothing happened.
#[derive(Drop)]
pub struct NewEnds {
    /// The client's end.
    pub client: End,
    /// The server's end.
    pub server: End,
}

// A new end with a copy of a program; it is bound.
fn new_end(alloc: Global, program: &Program) -> Result<End, AllocError>
    ensures end { IfOk result (λ s. IsNewEndOf program.now s) }
{
    let copy = program.duplicate(alloc)?;
    End::new(alloc, copy, Circuit(0))
}

/// Two new ends, each with a copy of a program; they are bound.
///
/// # Errors
/// Out of memory.
pub fn new_ends(alloc: Global, program: &Program) -> Result<NewEnds, AllocError>
    ensures client { IfOk result (λ ends. IsNewEndOf program.now ends.client) }
    ensures server { IfOk result (λ ends. IsNewEndOf program.now ends.server) }
{
    let client = new_end(alloc, program)?;
    let server = new_end(alloc, program)?;
    Ok(NewEnds { client, server })
}
