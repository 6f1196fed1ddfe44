//! Which sides are lent.

ghost use Rattle.std.specs.Prelude.{◌≡◌, ◌<◌, length, true, Some, IfSome};
ghost use Rattle.fl_core.specs.BoardView.{due};
ghost use Rattle.fl_core.specs.View.{place_of, inlet_of};
ghost use Rattle.fl_core.specs.declared.wiring.Inlet.TheVariants.{Side};
ghost use Rattle.fl_core_run.specs.Run.{run_by, lent_link_side, lends_out, lends_in, lent_post_at, lent_due, lent_ring_end};

use crate::core_sides::CoreSides;
use crate::running::RunningCore;
use fl_base::{EndId, LinkId};
use fl_core::{Inlet, Outlet};

/// The place of an end, and where it puts.
#[derive(Clone, Copy)]
pub struct LentPutEnd {
    pub end: usize,
    pub outlet: Outlet,
}

/// The place of an end that is due, and where it takes from.
#[derive(Clone, Copy)]
pub struct LentTakeEnd {
    pub end: usize,
    pub inlet: Inlet,
}

/// The place of an end of a ring, and its side.
#[derive(Clone, Copy)]
pub struct LentRingEnd {
    pub end: usize,
    pub side: usize,
}

/// The side of a link.
pub(crate) fn lent_link_side<S: CoreSides>(run: &RunningCore<S>, link: LinkId) -> Option<usize>
    ensures link_side { result ≡ lent_link_side (run_by S.states run.now) link }
    ensures side { IfSome result (λ n. n < length (S.states run.now.rings)) }
    ensures link { IfSome result (λ _. link.0 < length run.now.core.link_sides) }
{
    match run.core.side(link) {
        Some(side) if side < run.rings.count() => Some(side),
        _ => None,
    }
}

// Whether what an end puts to is lent.
fn lends_out<S: CoreSides>(run: &RunningCore<S>, outlet: Outlet) -> bool
    ensures lends { result ≡ lends_out (run_by S.states run.now) outlet }
{
    match outlet {
        Outlet::Queue(n) => n < run.queues.len(),
        Outlet::Side(n) => n < run.rings.count(),
    }
}

// Whether what an end takes from is lent.
fn lends_in<S: CoreSides>(run: &RunningCore<S>, inlet: Inlet) -> bool
    ensures lends { result ≡ lends_in (run_by S.states run.now) inlet }
{
    match inlet {
        Inlet::Queue(n) => n < run.queues.len(),
        Inlet::Side(n) => n < run.rings.count(),
        Inlet::Arrivals => true,
    }
}

/// The end at a place, and where it puts, where that is lent.
pub(crate) fn lent_post<S: CoreSides>(run: &RunningCore<S>, end: usize) -> Option<LentPutEnd>
    requires there { end < length run.now.core.board.seats }
    ensures post { result ≡ lent_post_at (run_by S.states run.now) end }
    ensures lent { IfSome result (λ p. lends_out (run_by S.states run.now) p.outlet ≡ true) }
{
    let outlet = run.core.outlet(end);
    if !lends_out(run, outlet) {
        return None;
    }
    Some(LentPutEnd { end, outlet })
}

/// At which end a dispatcher's turn looks, and where that takes from.
pub(crate) fn lent_due<S: CoreSides>(run: &RunningCore<S>, dispatcher: usize) -> Option<LentTakeEnd>
    ensures due { result ≡ lent_due (run_by S.states run.now) dispatcher }
    ensures there { IfSome result (λ p. p.end < length run.now.core.board.seats) }
    ensures dispatcher { IfSome result (λ _. dispatcher < length run.now.core.board.dispatchers) }
    ensures is_due { IfSome result (λ p. due run.now.core.board dispatcher ≡ Some p.end) }
    ensures inlet { IfSome result (λ p. inlet_of run.now.core p.end ≡ Some p.inlet) }
    ensures lent { IfSome result (λ p. lends_in (run_by S.states run.now) p.inlet ≡ true) }
{
    if dispatcher >= run.core.board().dispatchers() {
        return None;
    }
    let Some(end) = run.core.board().due(dispatcher) else {
        return None;
    };
    let inlet = run.core.inlet(end);
    if !lends_in(run, inlet) {
        return None;
    }
    Some(LentTakeEnd { end, inlet })
}

/// Where an end of a ring is, and its side.
pub(crate) fn lent_ring_end<S: CoreSides>(run: &RunningCore<S>, name: EndId) -> Option<LentRingEnd>
    ensures ring_end { result ≡ lent_ring_end (run_by S.states run.now) name }
    ensures there { IfSome result (λ b. b.end < length run.now.core.board.seats) }
    ensures place { IfSome result (λ b. place_of run.now.core name ≡ Some b.end) }
    ensures inlet { IfSome result (λ b. inlet_of run.now.core b.end ≡ Some (Side b.side)) }
    ensures lent { IfSome result (λ b. b.side < length (S.states run.now.rings)) }
{
    let Some(end) = run.core.place(name) else {
        return None;
    };
    let Inlet::Side(side) = run.core.inlet(end) else {
        return None;
    };
    if side >= run.rings.count() {
        return None;
    }
    Some(LentRingEnd { end, side })
}
