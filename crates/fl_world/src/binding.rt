//! Bindings are made: what is asked for, and what each of the three ways to join two ends looks at first.

ghost use Rattle.std.specs.Prelude.{◌≡◌, ◌<◌, length, true, false, IfOk, OnOk, OnErr};
ghost use Rattle.fl_model.specs.Views.{id_of, answer_of, kind_of};
ghost use Rattle.fl_world_refines.specs.View.{has_dispatcher};
ghost use Rattle.fl_world_refines.specs.Binding.{has_places, HasEndOf, BindsBy, named_request, Binds};
ghost use Rattle.fl_world_events.specs.Requests.{HasDispatcher};
ghost use Rattle.fl_world_events.specs.Last.{NotRefused};
ghost use Rattle.fl_world.specs.Requests.{OfRequest, IsRequest, IsOnly, has_end_of, IsNewAt, both_places};
ghost use Rattle.fl_world.specs.Requests.{IsNewEnd};

use crate::world::World;
use fl_base::{IRef, MAX_BINDINGS, faults};
use fl_model::{Answer, BackEnd, DispatcherId};
use fl_world_events::{NewEnds, new_ends};
use std::alloc::AllocError;

/// What is asked for, once its names are known.
#[derive(Clone, Copy)]
pub(crate) struct BindRequest {
    pub(crate) client: DispatcherId,
    pub(crate) interface: usize,
    pub(crate) server: DispatcherId,
    pub(crate) iref: IRef,
}

// ---- what is looked at first

impl World {
    /// Whether an end of this binding is at a core already, as in no world that comes of events.
    pub(crate) fn has_end_of(&self, binding: usize, core: usize) -> bool
        ensures has { result ≡ has_end_of binding core self.now }
        ensures there { result ≡ true → HasEndOf binding core self.now }
        ensures new { result ≡ false → IsNewAt binding core self.now }
    {
        match self.cores.get(core) {
            None => false,
            Some(core) => core.has_end(binding),
        }
    }

    // Whether a dispatcher has places for so many ends more.
    fn has_places(&self, d: DispatcherId, count: usize) -> bool
        requires few { count < 3 }
        ensures places { result ≡ has_places (id_of d) count self.now }
    {
        match self.cores.get(d.core as usize) {
            None => false,
            Some(core) => core.board().has_places(d.place, count),
        }
    }

    // Whether two dispatchers have places for an end each; where they are one, for two.
    fn finds_both_places(&self, client: DispatcherId, server: DispatcherId) -> bool
        ensures places { result ≡ both_places (id_of client) (id_of server) self.now }
    {
        if client.core == server.core && client.place == server.place {
            self.has_places(client, 2)
        } else {
            self.has_places(client, 1) && self.has_places(server, 1)
        }
    }

    /// Whether there are places for both ends of a binding at these dispatchers, which are there then.
    pub(crate) fn has_both_places(&self, client: DispatcherId, server: DispatcherId) -> bool
        ensures places { result ≡ both_places (id_of client) (id_of server) self.now }
        ensures client { result ≡ true → HasDispatcher self.now.cores (id_of client) }
        ensures server { result ≡ true → HasDispatcher self.now.cores (id_of server) }
    {
        self.finds_both_places(client, server)
    }

    /// Two ends of an interface, to which nothing happened; they are bound.
    ///
    /// # Errors
    /// Out of memory.
    pub(crate) fn new_ends(&self, interface: usize) -> Result<NewEnds, AllocError>
        requires { interface < length self.now.programs }
        ensures client { IfOk result (λ ends. IsNewEnd interface self.now ends.client) }
        ensures server { IfOk result (λ ends. IsNewEnd interface self.now ends.server) }
    {
        new_ends(self.alloc, &self.programs[interface])
    }

    // ---- the event

    // What is asked for by these names, or the number by which it is refused.
    fn request(
        &self,
        client: DispatcherId,
        interface: usize,
        service: &[u8],
    ) -> Result<BindRequest, u8>
        ensures request { IsRequest (id_of client) interface service.now self.now result }
        ensures few { OnOk result (length self.now.bindings < 1024) }
        ensures client { IfOk result (λ x. has_dispatcher self.now (id_of x.client) ≡ true) }
        ensures program { IfOk result (λ x. x.interface < length self.now.programs) }
        ensures server { IfOk result (λ x. x.server.core < 256) }
        ensures only { IfOk result (IsOnly (id_of client) interface service.now self.now) }
    {
        if !self.has_dispatcher(client) || self.programs.as_slice().len() <= interface {
            return Err(faults::WRONG_NAME);
        }
        if self.bindings.as_slice().len() >= MAX_BINDINGS {
            return Err(faults::TOO_MANY);
        }
        let Ok(found) = self.names.lookup(service) else {
            return Err(faults::NO_SUCH_SERVICE);
        };
        let offered = found.service;
        if offered.interface != interface {
            return Err(faults::OTHER_INTERFACE);
        }
        let server = DispatcherId {
            core: u32::from(offered.core.0),
            place: offered.dispatcher,
        };
        Ok(BindRequest {
            client,
            interface,
            server,
            iref: found.iref,
        })
    }

    // The ends are joined as it is asked for.
    fn bind_by(&mut self, want: BindRequest, back_end: BackEnd) -> Result<Answer, AllocError>
        requires few { length self.old.bindings < 1024 }
        requires client { has_dispatcher self.old (id_of want.client) ≡ true }
        requires program { want.interface < length self.old.programs }
        requires server { want.server.core < 256 }
        ensures binds { IfOk result (λ a. OfRequest want self.old (λ r. BindsBy r (kind_of back_end) self.old (answer_of a) self.new)) }
        ensures kept { OnErr result (self.new ≡ self.old) }
        ensures last { OnErr result (OfRequest want self.old (λ r. NotRefused (BindsBy r (kind_of back_end) self.old))) }
    {
        match back_end {
            BackEnd::Local(slots) => self.bind_by_queues(want, slots),
            BackEnd::Ump(slots) => self.bind_by_ring(want, slots),
            BackEnd::Hop(route) => self.bind_by_route(want, route.cores()),
        }
    }

    /// A binding of a client to a service, by queues within a core, by a ring between two, or by a circuit along a route. The names are looked
    /// up first: there is no such dispatcher or interface (E92); there are 1,024 bindings (E94); there is no such service (E70), or it is of
    /// another interface (E72).
    ///
    /// # Errors
    /// Out of memory.
    #[inline(never)]
    pub(crate) fn bind(
        &mut self,
        client: DispatcherId,
        interface: usize,
        service: &[u8],
        back_end: BackEnd,
    ) -> Result<Answer, AllocError>
        ensures binds { IfOk result (λ a. Binds
            (named_request (id_of client) interface service.now (kind_of back_end)) self.old (answer_of a) self.new) }
        ensures kept { OnErr result (self.new ≡ self.old) }
        ensures last { OnErr result (NotRefused (Binds (named_request (id_of client) interface service.now (kind_of back_end)) self.old)) }
    {
        match self.request(client, interface, service) {
            Err(fault) => Ok(Answer::Refused(fault)),
            Ok(want) => self.bind_by(want, back_end),
        }
    }
}
