//! A whole core, and where things are in it.

ghost use Rattle.std.specs.Prelude.{◌≡◌, ◌<◌, length, slice_get, Some, None, IfOk, IfSome};
ghost use Rattle.fl_core.specs.BoardSound.{IsBoard};
ghost use Rattle.fl_monitor.specs.Monitors.{HasOutboxes};
ghost use Rattle.fl_core.specs.View.{fresh_core, place_of, outlet_of, inlet_by, inlet_of, arrivals_by, arrivals_of, side_of_link};
ghost use Rattle.fl_core.specs.View.{arriving_at, joined_to};
ghost use Rattle.fl_core.specs.Sound.{IsCore};

use crate::Board;
use crate::places::{NAMES, place_in};
use crate::wiring::{ArrivalPlace, EndWiring, Inlet, LinkSide, Outlet, WiredEnd};
use fl_base::{CoreId, EndId, LinkId};
use fl_link::QueueLink;
use fl_monitor::Monitor;
use std::alloc::{AllocError, Global};
use std::marker::Model;

/// One core with all it has: its board, its monitor, and how its ends and links are wired.
///
/// An end is named by its place on the board, from 0 in order of making; [`Core::place`] tells the place of a name. Queues and sides of rings are named by
/// the numbers that were given when the core's ends and links were made.
#[derive(Drop)]
pub struct Core {
    pub(crate) alloc: Global,
    pub(crate) board: Board,
    pub(crate) monitor: Monitor,
    pub(crate) wired_ends: Vec<WiredEnd>,
    pub(crate) places: Vec<Option<usize>>,
    pub(crate) link_sides: Vec<LinkSide>,
    pub(crate) arrivals: Vec<QueueLink>,
}

impl Model for Core {
    ghost use Rattle.std.specs.Coded.{codes};
    ghost use Rattle.fl_compile.specs.contracts.program.Program.{the_row};
    ghost use Rattle.fl_core.specs.View.{TheCore};
    ghost use Rattle.fl_core.specs.Sound.{IsCore};

    ghost Value = { TheCore };

    ghost coded = { Prim.hlevel (codes, the_row.coded) };

    ghost view = { λ k. record {
      board = k.board;
      monitor = k.monitor;
      wired_ends = k.wired_ends.items;
      places = k.places.items;
      link_sides = k.link_sides.items;
      arrivals = k.arrivals.items;
    } };

    ghost invariant = { λ k. IsCore (record {
      board = k.board;
      monitor = k.monitor;
      wired_ends = k.wired_ends.items;
      places = k.places.items;
      link_sides = k.link_sides.items;
      arrivals = k.arrivals.items;
    }) };
}

// Where an end with this wiring takes fragments from.
fn inlet_by(wiring: EndWiring) -> Inlet
    ensures inlet { result ≡ inlet_by wiring }
{
    match wiring {
        EndWiring::Queues { from, .. } => Inlet::Queue(from),
        EndWiring::Ring(side) => Inlet::Side(side),
        EndWiring::Circuit { .. } => Inlet::Arrivals,
    }
}

// Its arrival queue.
fn arrivals_by(wiring: EndWiring) -> Option<usize>
    ensures arrivals { result ≡ arrivals_by wiring }
{
    match wiring {
        EndWiring::Queues { .. } | EndWiring::Ring(_) => None,
        EndWiring::Circuit { arrivals, .. } => Some(arrivals),
    }
}

impl Core {
    /// A core without links, dispatchers and ends.
    ///
    /// # Errors
    /// Out of memory (E99).
    pub fn new(alloc: Global, core: CoreId) -> Result<Core, AllocError>
        ensures empty { IfOk result (λ k. k ≡ fresh_core core.0) }
    {
        let monitor = Monitor::new(alloc, core)?;
        let places = vec![in alloc; None; NAMES]?;
        Ok(Core {
            alloc,
            board: Board::new(alloc),
            monitor,
            wired_ends: Vec::new(alloc),
            places,
            link_sides: Vec::new(alloc),
            arrivals: Vec::new(alloc),
        })
    }

    /// What is known of a core at any time. It does nothing.
    pub fn law_sound(&self)
        ensures sound { IsCore self.now }
        ensures board { IsBoard self.now.board }
        ensures outboxes { HasOutboxes self.now.monitor }
    {
        self.board.law_sound();
        self.monitor.law_sound();
    }

    /// Its dispatchers and their ends.
    pub fn board(&self) -> &Board
        ensures board { result.now ≡ self.now.board }
    {
        &self.board
    }

    /// Its circuits, and what it has to say on each link.
    pub fn monitor(&self) -> &Monitor
        ensures monitor { result.now ≡ self.now.monitor }
    {
        &self.monitor
    }

    /// Where the end of a name is on the board, if it is at this core. Nothing is searched.
    pub fn place(&self, name: EndId) -> Option<usize>
        ensures place { result ≡ place_of self.now name }
        ensures within { IfSome result (λ e. e < length self.now.board.seats) }
    {
        place_in(self.places.as_slice(), name)
    }

    /// The name of the end at a place.
    pub fn name(&self, e: usize) -> EndId
        requires { e < length self.now.board.seats }
        ensures place { place_of self.now result ≡ Some e }
    {
        self.wired_ends[e].name
    }

    /// Where the end at a place puts its fragments: the side that [`Core::show`] and [`Core::write`] are lent.
    pub fn outlet(&self, e: usize) -> Outlet
        requires { e < length self.now.board.seats }
        ensures outlet { outlet_of self.now e ≡ Some result }
    {
        match self.wired_ends[e].wiring {
            EndWiring::Queues { out, .. } => Outlet::Queue(out),
            EndWiring::Ring(side) => Outlet::Side(side),
            EndWiring::Circuit { link, .. } => Outlet::Side(
                self.link_sides[usize::from(link.0)].side,
            ),
        }
    }

    /// Where the end at a place takes fragments from: the side that [`Core::turn`], [`Core::register`] and [`Core::ack`] are lent. An end with an arrival
    /// queue is lent none.
    pub fn inlet(&self, e: usize) -> Inlet
        requires { e < length self.now.board.seats }
        ensures inlet { inlet_of self.now e ≡ Some result }
    {
        inlet_by(self.wired_ends[e].wiring)
    }

    // The arrival queue of the end at a place.
    pub(crate) fn arrivals_of(&self, e: usize) -> Option<usize>
        ensures arrivals { result ≡ arrivals_of self.now e }
        ensures within { IfSome result (λ a. a < length self.now.arrivals) }
    {
        match self.wired_ends.get(e) {
            Some(wired_end) => arrivals_by(wired_end.wiring),
            None => None,
        }
    }

    // Where fragments for the end of a name arrive: its place, and that of its arrival queue.
    pub(crate) fn arriving_at(&self, name: EndId) -> Option<ArrivalPlace>
        ensures at { result ≡ arriving_at self.now name }
        ensures end { IfSome result (λ p. p.end < length self.now.board.seats) }
        ensures queue { IfSome result (λ p. p.queue < length self.now.arrivals) }
    {
        match self.place(name) {
            None => None,
            Some(e) => match self.arrivals_of(e) {
                None => None,
                Some(a) => Some(ArrivalPlace { end: e, queue: a }),
            },
        }
    }

    /// This core's side of a link, by its number.
    pub fn side(&self, link: LinkId) -> Option<usize>
        ensures side { result ≡ side_of_link self.now.link_sides link.0 }
    {
        match self.link_sides.get(usize::from(link.0)) {
            Some(link_side) => Some(link_side.side),
            None => None,
        }
    }

    // The end that the end at a place puts to, where the two are joined by queues.
    pub(crate) fn joined_to(&self, e: usize) -> Option<usize>
        ensures joined { result ≡ joined_to self.now e }
        ensures within { IfSome result (λ p. p < length self.now.board.seats) }
    {
        let Some(wired_end) = self.wired_ends.get(e) else {
            return None;
        };
        match wired_end.wiring {
            EndWiring::Queues { .. } => self.place(wired_end.name.peer()),
            EndWiring::Ring(_) | EndWiring::Circuit { .. } => None,
        }
    }
}
