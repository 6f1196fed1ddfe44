//! Lines that bind: a binding is set up before the cores run, or opened by a job.

ghost use Rattle.std.specs.Prelude.{◌≡◌, ◌≤◌, ◌∷◌, nat_lt, length, map, option_map};
ghost use Rattle.std.specs.List.{count_by, list_all};
ghost use Rattle.fl_lists.specs.ThreeLists.{is_in};
ghost use Rattle.fl_model.specs.Binding.{all_differ, same_dispatcher};
ghost use Rattle.fl_model.specs.Views.{id_of, cores_of, kind_of};
ghost use Rattle.fl_cores_file.specs.Draft.{with_binding, with_set_up, has_places, has_both_places, binds_by_queues};
ghost use Rattle.fl_cores_file.specs.Draft.{binds_by_ring, is_route, binds_by_route, binds_by, offer_of, binds};
ghost use Rattle.fl_cores_file.specs.Verdicts.{Comes, goes_on};
ghost use Rattle.fl_cores_file.specs.Views.{draft_of, wanted_of, offer_from};

use crate::draft::{Draft, DraftBinding, DraftService, EndUse};
use crate::job::{CircuitRequest, Job};
use crate::setup::is_ring_size;
use crate::stop::CoresLineFault;
use fl_base::{MAX_BINDINGS, MAX_CHANNELS, MAX_CORES, MAX_QUEUE, faults};
use fl_model::{BackEnd, DispatcherId, Event, Route};

/// What a binding is asked for, once its service is known.
#[derive(Clone, Copy)]
pub struct DraftRequest<'a> {
    pub client: DispatcherId,
    pub server: DispatcherId,
    pub interface: usize,
    /// The service's name.
    pub service: &'a [u8],
}

fn is_same(one: DispatcherId, other: DispatcherId) -> bool
    ensures same { result ≡ same_dispatcher (id_of one) (id_of other) }
{
    one.core == other.core && one.place == other.place
}

// How many of these are the dispatcher.
fn count_ends(dispatcher: DispatcherId, seats: &[DispatcherId]) -> usize
    ensures count { result ≡ count_by (same_dispatcher (id_of dispatcher)) (map id_of seats.now) }
    ensures few { result ≤ length seats.now }
{
    let mut count = 0;
    for seat in seats {
        if is_same(dispatcher, *seat) {
            count += 1;
        }
    }
    count
}

// Whether any of these is the core.
fn names(route: &[u32], core: u32) -> bool
    ensures any { result ≡ is_in core route.now }
{
    route.iter().any(|one| *one == core)
}

// Whether no core stands twice.
fn all_differ(route: &[u32]) -> bool
    ensures differ { result ≡ all_differ route.now }
{
    let [first, rest @ ..] = route else {
        return true;
    };
    !names(rest, *first) && all_differ(rest)
}

// Whether all are cores of so many.
fn are_cores(route: &[u32], cores: u32) -> bool
    ensures all { result ≡ list_all (λ core. nat_lt core cores) route.now }
{
    route.iter().all(|core| *core < cores)
}

impl<'a> Draft<'a> {
    // Whether a dispatcher has so many places left.
    fn has_places(&self, n: usize, dispatcher: DispatcherId) -> bool
        requires few { n ≤ 2 }
        ensures same { result ≡ has_places n (id_of dispatcher) (draft_of self.now) }
    {
        count_ends(dispatcher, &self.seats) <= MAX_CHANNELS - n
    }

    // Whether there are places for both ends.
    fn has_both_places(&self, want: DraftRequest<'a>) -> bool
        ensures same { result ≡ has_both_places (wanted_of want.entry) (draft_of self.now) }
    {
        if is_same(want.client, want.server) {
            return self.has_places(2, want.client);
        }
        self.has_places(1, want.client) && self.has_places(1, want.server)
    }

    fn put_binding(&mut self, opened: bool, interface: usize) -> Result<(), CoresLineFault>
        ensures put { Comes result (draft_of self.new) (goes_on (with_binding opened interface (draft_of self.old))) }
    {
        self.bindings.push(DraftBinding {
            opened,
            interface,
            client: EndUse::Free,
            server: EndUse::Free,
        })?;
        Ok(())
    }

    // A binding more before the cores run.
    fn set_up(&mut self, want: DraftRequest<'a>, back_end: BackEnd) -> Result<(), CoresLineFault>
        ensures set_up { Comes result (draft_of self.new)
            (goes_on (with_set_up (wanted_of want.entry) (kind_of back_end) (draft_of self.old))) }
    {
        self.seats.push(want.client)?;
        self.seats.push(want.server)?;
        self.put_binding(false, want.interface)?;
        self.put_event(Event::Bind {
            client: want.client,
            interface: want.interface,
            service: want.service,
            back_end,
        })
    }

    fn bind_by_queues(&mut self, want: DraftRequest<'a>, slots: u32) -> Result<(), CoresLineFault>
        ensures comes { Comes result (draft_of self.new) (binds_by_queues (wanted_of want.entry) slots (draft_of self.old)) }
    {
        if want.client.core != want.server.core {
            return Err(CoresLineFault::Refused(faults::NO_SUCH_ROUTE));
        }
        if slots < 1 || slots as usize > MAX_QUEUE {
            return Err(CoresLineFault::Refused(faults::BAD_SIZE));
        }
        if !self.has_both_places(want) {
            return Err(CoresLineFault::Refused(faults::TOO_MANY_CHANNELS));
        }
        self.set_up(want, BackEnd::Local(slots))
    }

    fn bind_by_ring(&mut self, want: DraftRequest<'a>, slots: u32) -> Result<(), CoresLineFault>
        ensures comes { Comes result (draft_of self.new) (binds_by_ring (wanted_of want.entry) slots (draft_of self.old)) }
    {
        if want.client.core == want.server.core {
            return Err(CoresLineFault::Refused(faults::NO_SUCH_ROUTE));
        }
        if !is_ring_size(slots) {
            return Err(CoresLineFault::Refused(faults::BAD_SIZE));
        }
        if !self.has_both_places(want) {
            return Err(CoresLineFault::Refused(faults::TOO_MANY_CHANNELS));
        }
        self.set_up(want, BackEnd::Ump(slots))
    }

    // Whether a circuit can go along these cores, as far as its first link.
    fn is_route(&self, want: DraftRequest<'a>, route: &[u32]) -> bool
        ensures same { result ≡ is_route (wanted_of want.entry) route.now (draft_of self.now) }
    {
        let count = route.len();
        count >= 2
            && count <= MAX_CORES
            && are_cores(route, self.cores)
            && route[0] == want.client.core
            && route[count - 1] == want.server.core
            && all_differ(route)
            && self.has_link(route[0], route[1])
    }

    fn bind_by_route(&mut self, want: DraftRequest<'a>, route: &[u32]) -> Result<(), CoresLineFault>
        ensures comes { Comes result (draft_of self.new) (binds_by_route (wanted_of want.entry) route.now (draft_of self.old)) }
    {
        if !self.is_route(want, route) {
            return Err(CoresLineFault::Refused(faults::NO_SUCH_ROUTE));
        }
        let route = route.to_vec(self.alloc)?;
        self.put_binding(true, want.interface)?;
        let request = CircuitRequest {
            client: want.client,
            interface: want.interface,
            service: want.service,
            route,
        };
        let request = Box::new(self.alloc, request)?;
        self.put_job(Job::Open(request))
    }

    fn bind_by(&mut self, want: DraftRequest<'a>, back_end: BackEnd) -> Result<(), CoresLineFault>
        ensures comes { Comes result (draft_of self.new)
            (binds_by (wanted_of want.entry) (kind_of back_end) (draft_of self.old)) }
    {
        match back_end {
            BackEnd::Local(slots) => self.bind_by_queues(want, slots),
            BackEnd::Ump(slots) => self.bind_by_ring(want, slots),
            BackEnd::Hop(route) => self.bind_by_route(want, route.cores()),
        }
    }

    // The service of a name.
    fn offer(&self, name: &[u8]) -> Option<DraftService>
        ensures same { option_map offer_from result ≡ offer_of name.now (draft_of self.now) }
    {
        let Some(place) = self.services.find(name) else {
            return None;
        };
        match self.offers.get(place) {
            None => None,
            Some(offer) => Some(*offer),
        }
    }

    pub(crate) fn bind(
        &mut self,
        client: DispatcherId,
        interface: usize,
        service: &'a [u8],
        back_end: BackEnd,
    ) -> Result<(), CoresLineFault>
        ensures comes { Comes result (draft_of self.new)
            (binds (id_of client) interface service.now (kind_of back_end) (draft_of self.old)) }
    {
        if !(self.is_dispatcher(client) && self.is_interface(interface)) {
            return Err(CoresLineFault::Refused(faults::WRONG_NAME));
        }
        if self.bindings.as_slice().len() >= MAX_BINDINGS {
            return Err(CoresLineFault::Refused(faults::TOO_MANY));
        }
        let Some(offer) = self.offer(service) else {
            return Err(CoresLineFault::Refused(faults::NO_SUCH_SERVICE));
        };
        if offer.interface != interface {
            return Err(CoresLineFault::Refused(faults::OTHER_INTERFACE));
        }
        let want = DraftRequest {
            client,
            server: offer.dispatcher,
            interface,
            service,
        };
        self.bind_by(want, back_end)
    }
}
