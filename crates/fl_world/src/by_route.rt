//! A binding is begun whose fragments go along a circuit.

ghost use Rattle.std.specs.Prelude.{◌≡◌, ◌<◌, length, map, true, IfOk, OnErr};
ghost use Rattle.fl_base.specs.Numbered.{core_id};
ghost use Rattle.fl_model.specs.Views.{id_of, answer_of};
ghost use Rattle.fl_world_refines.specs.Binding.{BindsByRoute, may_be_route};
ghost use Rattle.fl_world_refines.specs.View.{has_dispatcher};
ghost use Rattle.fl_world_events.specs.Requests.{HasDispatcher};
ghost use Rattle.fl_world.specs.Requests.{OfRequest};
ghost use Rattle.fl_world_events.specs.Last.{NotRefused};
ghost use Rattle.fl_world.specs.Routes.{MayOpenFrom, OpensOnLink, OpensAlong, MayOpenOn, OpensLast};

use crate::binding::BindRequest;
use crate::world::World;
use fl_base::{CoreId, LinkId, MAX_CORES, faults};
use fl_model::Answer;
use fl_monitor::{MonitorFault, Opening, Path};
use fl_world_events::{CircuitBinding, all_differ, are_cores, may_open_in, open_over, path_over};
use std::alloc::AllocError;

impl World {
    // Whether these are 2 to 16 of the world's cores, none twice.
    fn may_be_route(&self, cores: &[u32]) -> bool
        ensures may { result ≡ may_be_route cores.now self.now }
    {
        let count = cores.len();
        count >= 2
            && count <= MAX_CORES
            && are_cores(cores, self.cores.as_slice().len())
            && all_differ(cores)
    }

    // The route over these cores.
    fn path(&self, cores: &[u32]) -> Path
        requires route { may_be_route cores.now self.now ≡ true }
        ensures path { result ≡ map core_id cores.now }
    {
        let _cores = &self.cores;
        path_over(cores)
    }

    // On which link a circuit along this route may be opened.
    fn may_open(&self, want: BindRequest, path: &Path) -> Result<LinkId, MonitorFault>
        requires client { HasDispatcher self.now.cores (id_of want.client) }
        requires program { want.interface < length self.now.programs }
        requires server { want.server.core < 256 }
        ensures may { MayOpenFrom want path.now self.now result }
    {
        let core = &self.cores[want.client.core as usize];
        let program = &self.programs[want.interface];
        let server = CoreId(want.server.core as u8);
        may_open_in(core, program, server, path, self.cores.as_slice().len())
    }

    // A circuit is begun on this link. The server's end is kept until it is made.
    fn open_on_link(
        &mut self,
        want: BindRequest,
        link: LinkId,
        path: Path,
    ) -> Result<Answer, AllocError>
        requires few { length self.old.bindings < 1024 }
        requires client { HasDispatcher self.old.cores (id_of want.client) }
        requires program { want.interface < length self.old.programs }
        ensures opens { IfOk result (λ a. OpensOnLink want link path self.old (answer_of a) self.new) }
        ensures kept { OnErr result (self.new ≡ self.old) }
        ensures last { OnErr result (MayOpenOn want link path self.old) }
    {
        let opening = Opening {
            binding: self.bindings.as_slice().len() as u32,
            service: want.iref,
            path,
        };
        let between = CircuitBinding {
            interface: want.interface,
            client: want.client,
            server: want.server.core as usize,
        };
        open_over(
            self.cores.as_mut_slice(),
            &mut self.bindings,
            self.alloc,
            &self.programs[want.interface],
            between,
            link,
            &opening,
        )
    }

    // A circuit is begun along this route, where it may be.
    fn open_along(&mut self, want: BindRequest, path: Path) -> Result<Answer, AllocError>
        requires few { length self.old.bindings < 1024 }
        requires client { HasDispatcher self.old.cores (id_of want.client) }
        requires program { want.interface < length self.old.programs }
        requires server { want.server.core < 256 }
        ensures opens { IfOk result (λ a. OpensAlong want path self.old (answer_of a) self.new) }
        ensures kept { OnErr result (self.new ≡ self.old) }
        ensures last { OnErr result (OpensLast want path self.old) }
    {
        match self.may_open(want, &path) {
            Err(fault) => Ok(Answer::Refused(fault.number())),
            Ok(link) => self.open_on_link(want, link, path),
        }
    }

    /// A circuit along these cores is begun: the client's end is made, and the server's is kept until the opening has come to its core. In this order it
    /// is refused where these aren't 2 to 16 of the world's cores, none twice, from the client's to the service's, or there is no link to the second (E73);
    /// the client's dispatcher has 1,024 ends (E54); an entry of the binding stands on the link (E67); 1,023 circuits were opened there (E74); 64 messages
    /// wait there (E75).
    ///
    /// # Errors
    /// Out of memory.
    pub(crate) fn bind_by_route(
        &mut self,
        want: BindRequest,
        cores: &[u32],
    ) -> Result<Answer, AllocError>
        requires few { length self.old.bindings < 1024 }
        requires client { has_dispatcher self.old (id_of want.client) ≡ true }
        requires program { want.interface < length self.old.programs }
        requires server { want.server.core < 256 }
        ensures binds { IfOk result (λ a. OfRequest want self.old (λ r. BindsByRoute r cores.now self.old (answer_of a) self.new)) }
        ensures kept { OnErr result (self.new ≡ self.old) }
        ensures last { OnErr result (OfRequest want self.old (λ r. NotRefused (BindsByRoute r cores.now self.old))) }
    {
        if !self.may_be_route(cores) {
            return Ok(Answer::Refused(faults::NO_SUCH_ROUTE));
        }
        let path = self.path(cores);
        self.open_along(want, path)
    }
}
