//! Cores are made, and links between two.

ghost use Rattle.std.specs.Prelude.{ℕ, ◌≡◌, ◌≢◌, ◌≤◌, ◌<◌, ◌-◌, ◌^◌, length, IfOk, OnOk, OnErr, bytes_eq};
ghost use Rattle.fl_base.specs.declared.identity.CoreId.{CoreId};
ghost use Rattle.fl_compile.specs.Programs.{program_of};
ghost use Rattle.fl_core.specs.View.{TheCore};
ghost use Rattle.fl_core.specs.Making.{linked, IsLinked};
ghost use Rattle.fl_world_refines.specs.View.{IsWhole};
ghost use Rattle.fl_world_refines.specs.Making.{fresh_cores};
ghost use Rattle.fl_world_events.specs.Parts.{LinksBoth};

use crate::lending::law_whole;
use fl_base::CoreId;
use fl_compile::Program;
use fl_core::Core;
use fl_world_refines::Parts;
use std::alloc::{AllocError, Global};

/// So many cores with nothing on them.
///
/// # Errors
/// Out of memory.
pub fn fresh_cores(alloc: Global, n: u32) -> Result<Vec<Core>, AllocError>
    requires { n ≤ 16 }
    ensures { IfOk result (λ cores. cores.items ≡ fresh_cores n) }
{
    let mut cores = Vec::new(alloc);
    for core in 0..n {
        let core = Core::new(alloc, CoreId(core as u8))?;
        cores.push(core)?;
    }
    Ok(cores)
}

/// So many cores with nothing on them, in place of those that are there.
///
/// # Errors
/// Out of memory: the cores stay.
pub fn renew_cores(cores: &mut Vec<Core>, alloc: Global, n: u32) -> Result<(), AllocError>
    requires { n ≤ 16 }
    ensures fresh { OnOk result (cores.new.items ≡ fresh_cores n) }
    ensures kept { OnErr result (cores.new ≡ cores.old) }
{
    *cores = fresh_cores(alloc, n)?;
    Ok(())
}

/// Lets go of what a world was made of. Here, once: whoever lets a core go proves anew how each of its parts is.
pub fn let_go(parts: Parts) {
    drop(parts);
}

/// Whether a program's interface has this name.
pub fn has_name(program: &Program, name: &[u8]) -> bool
    ensures has { result ≡ bytes_eq name.now (program_of program.now).interface.name }
{
    name == program.interface().name.bytes.as_slice()
}

// Adds a link to a core, over this side of a ring.
fn link(core: &mut Core, neighbour: CoreId, side: usize) -> Result<(), AllocError>
    ensures whole { IsWhole core.old }
    ensures links { OnOk result (core.new ≡ linked core.old neighbour side) }
    ensures kept { OnErr result (core.new ≡ core.old) }
{
    law_whole(core);
    match core.add_link(neighbour, side) {
        Ok(_) => Ok(()),
        Err(_) => Err(AllocError),
    }
}

// Takes back the link that a core has just got.
fn unlink(core: &mut Core)
    requires { IsLinked core.old }
    ensures before { (k : TheCore) (neighbour : CoreId) (side : ℕ) → core.old ≡ linked k neighbour side → core.new ≡ k }
{
    core.take_back_link()
}

/// A link between two cores, over a ring whose first side is this one.
///
/// # Errors
/// Out of memory.
pub fn link_both(cores: &mut [Core], a: usize, b: usize, side: usize) -> Result<(), AllocError>
    requires few { length cores.old ≤ 16 }
    requires a { a < length cores.old }
    requires b { b < length cores.old }
    requires apart { a ≢ b }
    requires side { side < 2 ^ 64 - 1 }
    ensures links { OnOk result (LinksBoth a b side cores.old cores.new) }
    ensures kept { OnErr result (cores.new ≡ cores.old) }
{
    link(&mut cores[a], CoreId(b as u8), side)?;
    if let Err(error) = link(&mut cores[b], CoreId(a as u8), side + 1) {
        unlink(&mut cores[a]);
        return Err(error);
    }
    Ok(())
}
