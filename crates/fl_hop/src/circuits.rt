//! The table of circuits: its links, the numbers on them, and what stands there.

ghost use Rattle.std.specs.Prelude.{◌≡◌, ◌⊎◌, ◌↔◌, ℕ, IsTrue, [], length, None, Some, IfSome, slice_get, option_map};
ghost use Rattle.std.specs.Prelude.{IfOk, IfErr, OnOk, OnErr};
ghost use Rattle.fl_base.specs.declared.identity.LinkId.{LinkId};
ghost use Rattle.fl_base.specs.declared.identity.CoreId.{CoreId};
ghost use Rattle.fl_base.specs.declared.identity.Circuit.{Circuit};
ghost use Rattle.fl_hop.specs.declared.links.LinkState.{LinkState};
ghost use Rattle.fl_hop.specs.Table.{TheCircuits, IsLinked, hop_at, stands, link_of, link_fault, with_link};
ghost use Rattle.fl_hop.specs.Numbers.{next_own, next_due, OpenedHere};
ghost use Rattle.fl_hop.specs.Openings.{IsRefusal};
ghost use Rattle.fl_hop.specs.Later.{Later, way_at};
ghost use Rattle.fl_hop.specs.Forward.{IsOther};

use crate::entry::{Cell, Entry, Hop, HopTarget, add_cells, cell_at, is_kept};
use crate::fault::HopFault;
use crate::links::{LinkState, place_of};
use crate::numbers::{MAX_LINKS, NUMBERS, is_among, next_number};
use fl_base::{Circuit, CoreId, LinkId};
use slab::Slab;
use std::alloc::Global;
use std::marker::Model;

/// One core's circuits: its links, the numbering there, and the entries.
///
/// A link is named by its place among this core's own links, in order of making.
#[derive(Drop)]
pub struct Circuits {
    pub(crate) core: CoreId,
    pub(crate) links: Vec<LinkState>,
    pub(crate) cells: Vec<Cell>,
    pub(crate) entries: Slab<Entry>,
}

impl Model for Circuits {
    ghost use Rattle.fl_hop.specs.Table.{TheCircuits};
    ghost use Rattle.fl_hop.specs.Slots.{table_of, SlotsKept};

    ghost Value = { TheCircuits };

    ghost view = { λ c. table_of c.core.0 c.links.items c.cells.items c.entries };

    ghost invariant = { λ c. SlotsKept c.core.0 c.links.items c.cells.items c.entries };
}

impl Circuits {
    /// The table of a core with no links. Takes no memory.
    pub fn new(alloc: Global, core: CoreId) -> Circuits
        ensures empty { result ≡ record { core = core.0; links = []; hops = [] } }
    {
        Circuits {
            core,
            links: Vec::new(alloc),
            cells: Vec::new(alloc),
            entries: Slab::new(alloc),
        }
    }

    /// The core whose table it is.
    pub fn core(&self) -> CoreId
        ensures core { result.0 ≡ self.now.core }
    {
        self.core
    }

    /// What is known of each link, in order of making.
    pub fn links(&self) -> &[LinkState]
        ensures links { result.now ≡ self.now.links }
    {
        self.links.as_slice()
    }

    /// The link to a core, if there is one.
    pub fn link_to(&self, core: CoreId) -> Option<LinkId>
        ensures link { option_map (λ (link : LinkId). link.0) result ≡ link_of self.now core.0 }
    {
        match place_of(self.links.as_slice(), core) {
            Some(place) => Some(LinkId(place as u16)),
            None => None,
        }
    }

    /// The core on a link's other side; `None` where there is no such link.
    pub fn neighbour(&self, link: LinkId) -> Option<CoreId>
        ensures neighbour { result ≡ option_map (λ (a : LinkState). a.neighbour) (slice_get self.now.links link.0) }
    {
        match self.links.get(usize::from(link.0)) {
            Some(state) => Some(state.neighbour),
            None => None,
        }
    }

    /// Adds a link to another core, on which nothing was opened. It has the next place: 0 for the first.
    ///
    /// # Errors
    /// The link would go to the core itself, or to one that a link goes to already (E73); there are 15 links (E94);
    /// out of memory (E99). Nothing has changed then.
    pub fn add_link(&mut self, neighbour: CoreId) -> Result<LinkId, HopFault>
        ensures added { OnOk result (self.new ≡ with_link self.old neighbour) }
        ensures link { IfOk result (λ link. link.0 ≡ length self.old.links) }
        ensures later { OnOk result (Later self.old self.new) }
        ensures may { OnOk result (link_fault self.old neighbour.0 ≡ None) }
        ensures refused { IfErr result (IsRefusal (link_fault self.old neighbour.0)) }
        ensures kept { OnErr result (self.new ≡ self.old) }
    {
        if neighbour.0 == self.core.0 || self.link_to(neighbour).is_some() {
            return Err(HopFault::NoLink);
        }
        let count = self.links.as_slice().len();
        if count >= MAX_LINKS {
            return Err(HopFault::Limit);
        }
        let Ok(()) = self.links.reserve(1) else {
            return Err(HopFault::Memory);
        };
        let Ok(()) = add_cells(&mut self.cells) else {
            return Err(HopFault::Memory);
        };
        self.links.push_reserved(LinkState {
            neighbour,
            opened: 0,
            taken: 0,
        });
        Ok(LinkId(count as u16))
    }

    /// Takes back the link that was added last, where nothing else has happened since: the table is as it was before. So a link
    /// that two cores get leaves the first as it was where the second has no memory for it. Takes no memory.
    pub fn take_back_link(&mut self)
        requires { IsLinked self.old }
        ensures before { (t : TheCircuits) (neighbour : CoreId) → self.old ≡ with_link t neighbour → self.new ≡ t }
    {
        self.links.pop();
        let links = self.links.as_slice().len();
        self.cells.truncate(NUMBERS * links);
    }

    /// The number that this core's next opening on a link has; `None` after 1,023, and where there is no such link.
    pub fn next(&self, link: LinkId) -> Option<Circuit>
        ensures next { option_map (λ (c : Circuit). c.0) result ≡ next_own self.now link.0 }
    {
        match self.links.get(usize::from(link.0)) {
            Some(state) => next_number(self.core, state.neighbour, state.opened),
            None => None,
        }
    }

    /// The number that the neighbour's next opening on a link has, by the count of those taken; `None` after 1,023, and
    /// where there is no such link.
    pub fn next_due(&self, link: LinkId) -> Option<Circuit>
        ensures next { option_map (λ (c : Circuit). c.0) result ≡ next_due self.now link.0 }
    {
        match self.links.get(usize::from(link.0)) {
            Some(state) => next_number(state.neighbour, self.core, state.taken),
            None => None,
        }
    }

    /// Whether the number is one that this core gave on the link.
    pub fn opened_here(&self, link: LinkId, circuit: Circuit) -> bool
        ensures here { IsTrue result ↔ OpenedHere self.now link.0 circuit.0 }
    {
        match self.links.get(usize::from(link.0)) {
            Some(state) => is_among(self.core, state.neighbour, state.opened, circuit),
            None => false,
        }
    }

    /// What the entry at a number of a link says, if one stands there. Nothing is searched.
    #[inline]
    pub fn hop_of(&self, link: LinkId, circuit: Circuit) -> Option<Hop>
        ensures hop { result ≡ hop_at self.now link.0 circuit.0 }
    {
        match cell_at(self.cells.as_slice(), link, circuit) {
            Cell::Free => None,
            Cell::ClientSide(key) => match self.entries.get(key) {
                Some(entry) => Some(entry.from_client()),
                None => None,
            },
            Cell::ServerSide(key) => match self.entries.get(key) {
                Some(entry) => Some(entry.from_server()),
                None => None,
            },
        }
    }

    /// Where a number of a link leads, if an entry stands there. Nothing is searched.
    #[inline]
    pub fn route_of(&self, link: LinkId, circuit: Circuit) -> Option<HopTarget>
        ensures route { result ≡ way_at self.now link.0 circuit.0 }
        ensures other { IfSome result (IsOther self.now link.0) }
    {
        // How the parts of a table fit together says that the way is over another link.
        let _ = &self.cells;
        match self.hop_of(link, circuit) {
            Some(hop) => Some(hop.way),
            None => None,
        }
    }

    /// Whether an entry of this binding stands here. It looks at each entry, once for an opening; no forward asks this.
    pub fn stands(&self, binding: usize) -> bool
        ensures stands { result ≡ stands self.now binding }
    {
        is_kept(&self.entries, binding)
    }
}
