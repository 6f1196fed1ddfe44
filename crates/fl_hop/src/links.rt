//! What a core knows of its links.

ghost use Rattle.std.specs.Prelude.{◌≡◌, ◌<◌, ◌^◌, ◌+◌, ◌==◌, ◌≤◌, length, position, slice_get, IfSome, Some};
ghost use Rattle.fl_hop.specs.declared.links.LinkState.{LinkState};
ghost use Rattle.fl_hop.specs.Numbers.{count_opening, count_taking};

use fl_base::{CoreId, LinkId};

/// The core on a link's other side, and how many circuits either of the two has opened there.
#[derive(Clone, Copy, Debug, PartialEq, Eq)]
pub struct LinkState {
    /// The core on the other side.
    pub neighbour: CoreId,
    /// How many circuits this core has opened on the link, removed ones counted.
    pub opened: u16,
    /// How many of the neighbour's openings were taken, refused ones counted.
    pub taken: u16,
}

// The place of the link to a core, if there is one.
pub(crate) fn place_of(links: &[LinkState], core: CoreId) -> Option<usize>
    ensures place { result ≡ position (λ (link : LinkState). link.neighbour.0 == core.0) links.now }
    ensures within { IfSome result (λ place. place < length links.now) }
{
    links.iter().position(|link| link.neighbour.0 == core.0)
}

// Counts one more opening of this core's own on a link.
pub(crate) fn count_opening(links: &mut Vec<LinkState>, link: LinkId)
    requires there { link.0 < length links.old.items }
    requires few { (a : LinkState) → slice_get links.old.items link.0 ≡ Some a → a.opened ≤ 1022 }
    ensures { links.new.items ≡ count_opening links.old.items link.0 }
{
    let place = usize::from(link.0);
    let state = links[place];
    links[place] = LinkState {
        neighbour: state.neighbour,
        opened: state.opened + 1,
        taken: state.taken,
    };
}

// Counts one more opening of the neighbour's on a link.
pub(crate) fn count_taking(links: &mut Vec<LinkState>, link: LinkId)
    requires there { link.0 < length links.old.items }
    requires few { (a : LinkState) → slice_get links.old.items link.0 ≡ Some a → a.taken ≤ 1022 }
    ensures { links.new.items ≡ count_taking links.old.items link.0 }
{
    let place = usize::from(link.0);
    let state = links[place];
    links[place] = LinkState {
        neighbour: state.neighbour,
        opened: state.opened,
        taken: state.taken + 1,
    };
}
