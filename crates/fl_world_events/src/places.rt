//! Where ends and links are.

ghost use Rattle.std.specs.Prelude.{◌≡◌, IfSome};
ghost use Rattle.std.specs.Option.{option_map};
ghost use Rattle.fl_world_refines.specs.View.{location_at};
ghost use Rattle.fl_world_events.specs.Places.{location_from, IsThere, link_side_from, link_side_at, HasLink};

use fl_base::{CoreId, EndId, LinkId};
use fl_core::Core;

/// Where an end is.
#[derive(Clone, Copy)]
pub enum EndLocation {
    /// There is no such binding.
    Nowhere,
    /// The server's end of a circuit, before it is made.
    Unmade,
    /// At this core, at this place of its board.
    Made(usize, usize),
}

/// A core's end of a link: the link there, and the core's side of its ring.
#[derive(Clone, Copy)]
pub struct LinkWithSide {
    /// The link, by its place among those of the core.
    pub link: LinkId,
    /// The side, by its number.
    pub side: usize,
}

/// Where an end is that may be at a core.
#[inline(always)]
pub fn location_at(cores: &[Core], n: usize, e: EndId) -> EndLocation
    ensures location { location_from result ≡ location_at cores.now n e }
    ensures there { IsThere cores.now result }
{
    let Some(core) = cores.get(n) else {
        return EndLocation::Unmade;
    };
    match core.place(e) {
        Some(place) => EndLocation::Made(n, place),
        None => EndLocation::Unmade,
    }
}

/// A core's end of its link to a neighbour.
#[inline(always)]
pub fn link_side_at(cores: &[Core], n: usize, neighbour: CoreId) -> Option<LinkWithSide>
    ensures link_side { option_map link_side_from result ≡ link_side_at cores.now n neighbour.0 }
    ensures there { IfSome result (λ at. HasLink cores.now n at.link.0) }
{
    let Some(core) = cores.get(n) else {
        return None;
    };
    let Some(link) = core.monitor().circuits().link_to(neighbour) else {
        return None;
    };
    let Some(side) = core.side(link) else {
        return None;
    };
    Some(LinkWithSide { link, side })
}
