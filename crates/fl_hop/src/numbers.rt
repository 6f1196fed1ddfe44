//! How circuits are numbered (`specs/Numbers.antt`).

ghost use Rattle.std.specs.Prelude.{◌≡◌, ◌<◌, ◌↔◌, IsTrue, option_map};
ghost use Rattle.fl_base.specs.declared.identity.Circuit.{Circuit};
ghost use Rattle.fl_hop.specs.Numbers.{number, next_number, IsAmong};

use fl_base::{Circuit, CoreId, MAX_CORES};

/// How many links a core may have: one to each other core of a world.
pub const MAX_LINKS: usize = MAX_CORES - 1;

/// How many circuits a core may open on one link.
pub const MAX_OPENINGS: u16 = 1_023;

// The numbers on a link are those below this: 0, and those of both cores' openings.
pub(crate) const NUMBERS: usize = 2_047;

// The number of a core's next opening on a link to another core, after so many; none after 1,023.
pub(crate) fn next_number(core: CoreId, other: CoreId, count: u16) -> Option<Circuit>
    ensures next { option_map (λ (c : Circuit). c.0) result ≡ next_number core.0 other.0 count }
{
    if count >= MAX_OPENINGS {
        return None;
    }
    let least = if core.0 < other.0 { 1 } else { 2 };
    Some(Circuit(2 * count + least))
}

// Whether the circuit is one of a core's first so many on a link to another core.
pub(crate) fn is_among(core: CoreId, other: CoreId, count: u16, circuit: Circuit) -> bool
    ensures among { IsTrue result ↔ IsAmong core.0 other.0 count circuit.0 }
{
    let number = circuit.0;
    if number == 0 {
        return false;
    }
    let is_odd = number % 2 == 1;
    let gives_odd = core.0 < other.0;
    is_odd == gives_odd && (number - 1) / 2 < count
}
