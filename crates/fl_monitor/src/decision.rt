//! What an opening comes to at a core that hears it.

ghost use Rattle.std.specs.Prelude.{◌≡◌};
ghost use Rattle.fl_monitor.specs.Fates.{Known, arrival, onward, passage, fate, HasNext, is_offered_elsewhere, is_for_another, comes_along, is_in_place};
ghost use Rattle.fl_hop.specs.Table.{TheCircuits};
ghost use Rattle.fl_hop.specs.Numbers.{next_due};
ghost use Rattle.fl_hop.specs.Openings.{is_next};

use crate::opening::Opening;
use crate::routing::{is_on_route, next_on};
use fl_base::{Circuit, CoreId, IRef, LinkId, MAX_BINDINGS};
use fl_hop::Circuits;
use fl_nameserv::Names;

/// What a monitor's core knows about an opening beside its circuits and the table of names. Of another message it says nothing.
#[derive(Clone, Copy, Debug, PartialEq, Eq)]
pub struct OpeningFacts {
    /// Whether an end of the opening's binding is made at this core.
    pub has_end: bool,
    /// Whether the dispatcher of the opening's service has a place for one more end.
    pub has_place: bool,
}

/// Where an opening goes from here, as `specs/Fates.antt` decides.
#[derive(Clone, Copy)]
pub enum OpeningDecision {
    /// On over a link, under a number there.
    GoesOn(LinkId, Circuit),
    /// To this dispatcher.
    EndsAt(usize),
    /// Nowhere, for the fault of this number.
    Fails(u32),
}

// At the last core.
fn arrival(names: &Names, here: OpeningFacts, service: IRef) -> OpeningDecision
    ensures fate { result ≡ arrival (record { names = names.now; here = here }) service.0 }
    ensures next { (t : TheCircuits) → HasNext t result }
{
    let Ok(registration) = names.lookup_iref(service) else {
        return OpeningDecision::Fails(70);
    };
    if here.has_place {
        OpeningDecision::EndsAt(registration.service.dispatcher)
    } else {
        OpeningDecision::Fails(54)
    }
}

// Over a link, under this core's next number there.
fn onward(circuits: &Circuits, link: LinkId) -> OpeningDecision
    ensures fate { result ≡ onward circuits.now link.0 }
    ensures next { HasNext circuits.now result }
{
    match circuits.next(link) {
        Some(circuit) => OpeningDecision::GoesOn(link, circuit),
        None => OpeningDecision::Fails(74),
    }
}

// On to the next core of the route.
fn passage(circuits: &Circuits, link: LinkId, next: CoreId) -> OpeningDecision
    ensures fate { result ≡ passage circuits.now link.0 next.0 }
    ensures next { HasNext circuits.now result }
{
    match circuits.link_to(next) {
        Some(on) => {
            if link.0 == on.0 {
                return OpeningDecision::Fails(73);
            }
            onward(circuits, on)
        }
        None => OpeningDecision::Fails(73),
    }
}

/// What an opening that came on a link comes to.
pub(crate) fn find_fate(
    circuits: &Circuits,
    names: &Names,
    here: OpeningFacts,
    link: LinkId,
    opening: &Opening,
) -> OpeningDecision
    ensures fate { result ≡ fate (record { names = names.now; here = here }) circuits.now link.0 opening.now }
    ensures next { HasNext circuits.now result }
{
    match next_on(opening.path.cores(), circuits.core()) {
        Some(next) => passage(circuits, link, next),
        None => arrival(names, here, opening.service),
    }
}

// Whether the number is that of the neighbour's next opening.
fn is_due(circuits: &Circuits, link: LinkId, circuit: Circuit) -> bool
    ensures due { result ≡ is_next (next_due circuits.now link.0) circuit.0 }
{
    match circuits.next_due(link) {
        Some(next) => next.0 == circuit.0,
        None => false,
    }
}

// Whether the service is another core's.
fn is_offered_elsewhere(circuits: &Circuits, names: &Names, service: IRef) -> bool
    ensures elsewhere { result ≡ is_offered_elsewhere names.now circuits.now.core service.0 }
{
    match names.lookup_iref(service) {
        Ok(registration) => registration.service.core.0 != circuits.core().0,
        Err(_) => false,
    }
}

// Whether the route ends here, at a service of another core.
fn is_for_another(circuits: &Circuits, names: &Names, opening: &Opening) -> bool
    ensures another { result ≡ is_for_another names.now circuits.now opening.now }
{
    match next_on(opening.path.cores(), circuits.core()) {
        Some(_) => false,
        None => is_offered_elsewhere(circuits, names, opening.service),
    }
}

// Whether the route leads here directly from the core on a link's other side.
fn comes_along(circuits: &Circuits, link: LinkId, path: &[CoreId]) -> bool
    ensures along { result ≡ comes_along circuits.now link.0 path.now }
{
    match circuits.neighbour(link) {
        Some(neighbour) => is_on_route(path, neighbour, circuits.core()),
        None => false,
    }
}

/// Whether an opening that came on a link under a number there is in its place.
pub(crate) fn is_in_place(
    circuits: &Circuits,
    names: &Names,
    here: OpeningFacts,
    link: LinkId,
    circuit: Circuit,
    opening: &Opening,
) -> bool
    ensures place { result ≡ is_in_place (record { names = names.now; here = here }) circuits.now link.0 circuit.0 opening.now }
{
    is_due(circuits, link, circuit)
        && (opening.binding as usize) < MAX_BINDINGS
        && !here.has_end
        && !circuits.stands(opening.binding as usize)
        && comes_along(circuits, link, opening.path.cores())
        && !is_for_another(circuits, names, opening)
}
