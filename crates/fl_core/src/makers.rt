//! Links, dispatchers and ends of a core. Each takes all its memory first, and then makes the change.

ghost use Rattle.std.specs.Prelude.{◌≡◌, ◌⊎◌, ◌<◌, ◌++◌, ◌∷◌, [], ℕ, length, slice_set, Some, None, IfOk, IfErr, OnOk, OnErr, vec_len};
ghost use Rattle.std.specs.Vec.{vec_capacity};
ghost use Rattle.fl_hop.specs.Table.{link_fault};
ghost use Rattle.fl_hop.specs.Openings.{IsRefusal};
ghost use Rattle.fl_endpoint.specs.View.{fresh};
ghost use Rattle.fl_core.specs.declared.kind.ChannelKind.TheVariants.{Queue};
ghost use Rattle.fl_core.specs.BoardView.{with_dispatcher};
ghost use Rattle.fl_core.specs.BoardEvents.{Adds};
ghost use Rattle.fl_core.specs.View.{with_board, kind_of, arrivals_by, place_of, slot_of, new_arrivals, circuit_wired_end, number_in};
ghost use Rattle.fl_core.specs.View.{TheCore};
ghost use Rattle.fl_base.specs.declared.identity.CoreId.{CoreId};
ghost use Rattle.fl_core.specs.Making.{linked, IsLinked, HasPlace, HasNoPlace, HasAllEnds, AddsWiredEnd, HasNewEnd, TakesBackEnd};

use crate::one_core::Core;
use crate::places::{clear_place, put_place};
use crate::wiring::{EndWiring, LinkSide, WiredEnd};
use crate::{Board, BoardFault, ChannelKind};
use fl_base::{Circuit, CoreId, EndId, LinkId, MAX_CHANNELS};
use fl_compile::Program;
use fl_endpoint::End;
use fl_hop::HopFault;
use fl_link::QueueLink;
use std::alloc::{AllocError, Global};

// How many slots an arrival queue has.
const ARRIVALS: usize = 16;

// How fragments come to an end with this wiring.
fn kind_of(wiring: EndWiring) -> ChannelKind
    ensures kind { result ≡ kind_of wiring }
{
    match wiring {
        EndWiring::Queues { .. } | EndWiring::Circuit { .. } => ChannelKind::Queue,
        EndWiring::Ring(_) => ChannelKind::Ring,
    }
}

// That the dispatcher has a place for one end more.
pub(crate) fn find_place(board: &Board, dispatcher: usize) -> Result<(), BoardFault>
    requires { dispatcher < length board.now.dispatchers }
    ensures place { OnOk result (HasPlace board.now dispatcher) }
    ensures refused { IfErr result (HasAllEnds board.now dispatcher) }
{
    board.law_sound();
    if board.ends_at(dispatcher) >= MAX_CHANNELS {
        return Err(BoardFault::TooManyEnds);
    }
    Ok(())
}

// Room for one wired end more, where the dispatcher has a place for an end.
pub(crate) fn make_room(
    board: &Board,
    dispatcher: usize,
    wired_ends: &mut Vec<WiredEnd>,
) -> Result<(), BoardFault>
    requires { dispatcher < length board.now.dispatchers }
    ensures wired_ends { wired_ends.new.items ≡ wired_ends.old.items }
    ensures room { OnOk result (vec_len wired_ends.new < vec_capacity wired_ends.new) }
    ensures place { OnOk result (HasPlace board.now dispatcher) }
    ensures refused { IfErr result (HasNoPlace board.now dispatcher) }
{
    if let Err(fault) = find_place(board, dispatcher) {
        return Err(fault);
    }
    let Ok(()) = wired_ends.reserve(1) else {
        return Err(BoardFault::Memory);
    };
    Ok(())
}

// An arrival queue for an end more, and room for it and for the end's wired end, where the dispatcher has a place for an end.
pub(crate) fn make_arrivals(
    alloc: Global,
    board: &Board,
    dispatcher: usize,
    wired_ends: &mut Vec<WiredEnd>,
    arrivals: &mut Vec<QueueLink>,
) -> Result<QueueLink, BoardFault>
    requires { dispatcher < length board.now.dispatchers }
    ensures wired_ends { wired_ends.new.items ≡ wired_ends.old.items }
    ensures arrivals { arrivals.new.items ≡ arrivals.old.items }
    ensures room_for_wired_end { OnOk result (vec_len wired_ends.new < vec_capacity wired_ends.new) }
    ensures room_for_queue { OnOk result (vec_len arrivals.new < vec_capacity arrivals.new) }
    ensures queue { IfOk result (λ q. q ≡ new_arrivals) }
    ensures place { OnOk result (HasPlace board.now dispatcher) }
    ensures refused { IfErr result (HasNoPlace board.now dispatcher) }
{
    if let Err(fault) = make_room(board, dispatcher, wired_ends) {
        return Err(fault);
    }
    let Ok(()) = arrivals.reserve(1) else {
        return Err(BoardFault::Memory);
    };
    let Ok(queue) = QueueLink::local(alloc, ARRIVALS) else {
        return Err(BoardFault::Memory);
    };
    Ok(queue)
}

// An end that is bound to a circuit, or isn't bound, added at a dispatcher that has a place for it.
pub(crate) fn add_circuit_end(
    alloc: Global,
    board: &mut Board,
    dispatcher: usize,
    program: Program,
    circuit: Option<Circuit>,
) -> Result<usize, BoardFault>
    requires there { dispatcher < length board.old.dispatchers }
    requires place { HasPlace board.old dispatcher }
    ensures adds { Adds board.old dispatcher (fresh program (number_in circuit)) Queue result board.new }
{
    let made = match circuit {
        Some(circuit) => End::new(alloc, program, circuit),
        None => End::unbound(alloc, program),
    };
    let Ok(end) = made else {
        return Err(BoardFault::Memory);
    };
    board.add_end(dispatcher, end, ChannelKind::Queue)
}

/// Notes the wired end of a new end of a circuit on a link, with its arrival queue.
pub(crate) fn put_circuit_wired_end(
    wired_ends: &mut Vec<WiredEnd>,
    places: &mut Vec<Option<usize>>,
    arrivals: &mut Vec<QueueLink>,
    queue: QueueLink,
    wired_end: (EndId, LinkId, usize),
)
    requires room_for_wired_end { vec_len wired_ends.old < vec_capacity wired_ends.old }
    requires room_for_queue { vec_len arrivals.old < vec_capacity arrivals.old }
    requires few { wired_end.0.binding < 1024 }
    requires all { length places.old.items ≡ 2048 }
    ensures wired_ends { wired_ends.new.items ≡ wired_ends.old.items ++ circuit_wired_end wired_end.0 wired_end.1 (length arrivals.old.items) ∷ [] }
    ensures places { places.new.items ≡ slice_set places.old.items (slot_of wired_end.0) (Some wired_end.2) }
    ensures arrivals { arrivals.new.items ≡ arrivals.old.items ++ queue ∷ [] }
{
    let (name, link, place) = wired_end;
    let count = arrivals.as_slice().len();
    wired_ends.push_reserved(WiredEnd {
        name,
        wiring: EndWiring::Circuit {
            link,
            arrivals: count,
        },
    });
    arrivals.push_reserved(queue);
    put_place(places, name, place);
}

impl Core {
    /// One dispatcher more, without ends: its place.
    ///
    /// # Errors
    /// Out of memory (E99). The core is as it was then.
    pub fn add_dispatcher(&mut self) -> Result<usize, AllocError>
        ensures place { IfOk result (λ n. n ≡ length self.old.board.dispatchers) }
        ensures added { OnOk result (self.new ≡ with_board self.old (with_dispatcher self.old.board)) }
        ensures kept { OnErr result (self.new ≡ self.old) }
    {
        self.board.add_dispatcher()
    }

    /// One link more, to another core, over this side of a ring.
    ///
    /// # Errors
    /// The link would go to the core itself, or to one that a link goes to already (E73); there are 15 links (E94); out of memory (E99). The core is as it
    /// was then.
    pub fn add_link(&mut self, neighbour: CoreId, side: usize) -> Result<LinkId, HopFault>
        ensures link { IfOk result (λ link. link.0 ≡ length self.old.link_sides) }
        ensures linked { OnOk result (self.new ≡ linked self.old neighbour side) }
        ensures may { OnOk result (link_fault self.old.monitor.circuits neighbour.0 ≡ None) }
        ensures refused { IfErr result (IsRefusal (link_fault self.old.monitor.circuits neighbour.0)) }
        ensures kept { OnErr result (self.new ≡ self.old) }
    {
        self.monitor.may_link(neighbour)?;
        self.link_sides.reserve(1)?;
        let link = self.monitor.add_link(neighbour)?;
        self.link_sides.push_reserved(LinkSide {
            side,
            failed: false,
        });
        Ok(link)
    }

    /// Takes back the link that was added last, where nothing else has happened since: the core is as it was before. So a link of two cores leaves the first as
    /// it was where there is no memory for it at the second. Takes no memory.
    pub fn take_back_link(&mut self)
        requires { IsLinked self.old }
        ensures before { (k : TheCore) (neighbour : CoreId) (side : ℕ) → self.old ≡ linked k neighbour side → self.new ≡ k }
    {
        self.monitor.take_back_link();
        self.link_sides.pop();
    }

    /// One end more, at a dispatcher, bound off links; it isn't registered yet. It is joined by a queue or by a ring; of a binding within one core the
    /// client's end is added first. Its place is the answer.
    ///
    /// # Errors
    /// The dispatcher has 1,024 ends (E54); out of memory (E99). The core is as it was then.
    pub fn add_end(
        &mut self,
        dispatcher: usize,
        end: End,
        wired_end: WiredEnd,
    ) -> Result<usize, BoardFault>
        requires dispatcher { dispatcher < length self.old.board.dispatchers }
        requires few { wired_end.name.binding < 1024 }
        requires new { place_of self.old wired_end.name ≡ None }
        requires wiring { arrivals_by wired_end.wiring ≡ None }
        ensures adds { AddsWiredEnd dispatcher end wired_end self.old result self.new }
    {
        match make_room(&self.board, dispatcher, &mut self.wired_ends) {
            Err(fault) => Err(fault),
            Ok(()) => match self
                .board
                .add_end(dispatcher, end, kind_of(wired_end.wiring))
            {
                Err(fault) => Err(fault),
                Ok(place) => {
                    self.wired_ends.push_reserved(wired_end);
                    put_place(&mut self.places, wired_end.name, place);
                    Ok(place)
                }
            },
        }
    }

    /// Takes back the end that was added last by [`Core::add_end`], where nothing else has happened since: the core is as it was before. So a binding of two
    /// cores leaves the first as it was where there is no memory at the second. Takes no memory.
    pub fn take_back_end(&mut self)
        requires { HasNewEnd self.old }
        ensures before { TakesBackEnd self.old self.new }
    {
        self.board.take_back();
        let Some(wired_end) = self.wired_ends.pop() else {
            unreachable!();
        };
        clear_place(&mut self.places, wired_end.name);
    }
}
