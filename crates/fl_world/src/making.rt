//! Interfaces, cores, links, dispatchers and services are made.

ghost use Rattle.std.specs.Prelude.{◌≡◌, ◌≢◌, ◌≤◌, ◌<◌, length, IfOk, OnErr};
ghost use Rattle.fl_interface.specs.Interface.{interface_of};
ghost use Rattle.fl_ring.specs.Duo.{MayHaveSlots};
ghost use Rattle.fl_core.specs.Making.{IsLinked};
ghost use Rattle.fl_model.specs.Events.{done};
ghost use Rattle.fl_world_refines.specs.Making.{has_program, has_link, new_duo, WithProgram, AddsInterface, SetsCores, AddsLink, AddsDispatcher, Exports};
ghost use Rattle.fl_world_refines.specs.Making as making;
ghost use Rattle.fl_model.specs.Views.{answer_of, id_of};
ghost use Rattle.fl_world_refines.specs.Step.{fresh_world};
ghost use Rattle.fl_world_events.specs.Last.{NotRefused};
ghost use Rattle.fl_world.specs.Parts.{is_no_pair};

use crate::world::World;
use fl_base::{CoreId, MAX_CORES, MAX_DISPATCHERS, MAX_INTERFACES, MAX_SERVICES, faults};
use fl_compact_calls::NumberCall;
use fl_compile::compile;
use fl_interface::Interface;
use fl_model::{Answer, DispatcherId};
use fl_nameserv::{Names, Service};
use fl_ring::{OneDuo, RingFault};
use fl_value_data::PlanNo;
use fl_world_events::{fresh_cores, has_name, link_both, renew_cores};
use std::alloc::{AllocError, Global};

impl World {
    /// A world of one core, with nothing on it.
    ///
    /// # Errors
    /// Out of memory.
    pub fn new(alloc: Global) -> Result<World, AllocError>
        ensures fresh { IfOk result (λ w. w ≡ fresh_world 1) }
    {
        World::with_cores(alloc, 1)
    }

    // A world of so many cores, with nothing on them.
    pub(crate) fn with_cores(alloc: Global, n: u32) -> Result<World, AllocError>
        requires few { n ≤ 16 }
        ensures fresh { IfOk result (λ w. w ≡ fresh_world n) }
    {
        let number = NumberCall::new(alloc)?;
        let cores = fresh_cores(alloc, n)?;
        Ok(World {
            alloc,
            may_set_cores: true,
            cores,
            dispatchers: 0,
            rings: Vec::new(alloc),
            queues: Vec::new(alloc),
            programs: Vec::new(alloc),
            names: Names::new(alloc),
            bindings: Vec::new(alloc),
            number,
        })
    }

    // Whether an interface of this name is there.
    fn has_program(&self, name: &[u8]) -> bool
        ensures has { result ≡ has_program name.now self.now }
    {
        self.programs.iter().any(|program| has_name(program, name))
    }

    /// An interface under a plan. No two have one name (E92), and there are at most 64 (E94).
    ///
    /// # Errors
    /// Out of memory.
    #[inline(never)]
    pub(crate) fn add_interface(
        &mut self,
        interface: &Interface,
        plan: PlanNo,
    ) -> Result<Answer, AllocError>
        ensures adds { IfOk result (λ a. AddsInterface (interface_of interface.now) plan self.old (answer_of a) self.new) }
        ensures kept { OnErr result (self.new ≡ self.old) }
        ensures last { OnErr result (NotRefused (AddsInterface (interface_of interface.now) plan self.old)) }
    {
        if self.has_program(interface.name.bytes.as_slice()) {
            return Ok(Answer::Refused(faults::WRONG_NAME));
        }
        if self.programs.len() >= MAX_INTERFACES {
            return Ok(Answer::Refused(faults::TOO_MANY));
        }
        self.with_program(interface, plan)
    }

    // An interface's program behind the others.
    fn with_program(&mut self, interface: &Interface, plan: PlanNo) -> Result<Answer, AllocError>
        ensures adds { IfOk result (λ a. WithProgram (record { interface = interface_of interface.now; plan = plan }) self.old (answer_of a) self.new) }
        ensures kept { OnErr result (self.new ≡ self.old) }
    {
        self.programs.reserve(1)?;
        let program = compile(self.alloc, interface, plan)?;
        self.programs.push_reserved(program);
        Ok(Answer::Done)
    }

    /// The number of cores, before anything else is made (E93); 1 to 16 (E94).
    ///
    /// # Errors
    /// Out of memory.
    #[inline(never)]
    pub(crate) fn set_cores(&mut self, n: u32) -> Result<Answer, AllocError>
        ensures sets { IfOk result (λ a. SetsCores n self.old (answer_of a) self.new) }
        ensures kept { OnErr result (self.new ≡ self.old) }
        ensures last { OnErr result (NotRefused (SetsCores n self.old)) }
    {
        if !self.may_set_cores {
            return Ok(Answer::Refused(faults::NOT_NOW));
        }
        if n < 1 || n as usize > MAX_CORES {
            return Ok(Answer::Refused(faults::TOO_MANY));
        }
        renew_cores(&mut self.cores, self.alloc, n)?;
        Ok(Answer::Done)
    }

    /// A dispatcher on a core (E73). There are at most 256 (E94).
    ///
    /// # Errors
    /// Out of memory.
    #[inline(never)]
    pub(crate) fn add_dispatcher(&mut self, core: u32) -> Result<Answer, AllocError>
        ensures adds { IfOk result (λ a. AddsDispatcher core self.old (answer_of a) self.new) }
        ensures kept { OnErr result (self.new ≡ self.old) }
        ensures last { OnErr result (NotRefused (AddsDispatcher core self.old)) }
    {
        if self.dispatchers >= MAX_DISPATCHERS {
            return Ok(Answer::Refused(faults::TOO_MANY));
        }
        match self.cores.get_mut(core as usize) {
            None => Ok(Answer::Refused(faults::NO_SUCH_ROUTE)),
            Some(core) => {
                core.add_dispatcher()?;
                self.dispatchers += 1;
                Ok(Answer::Done)
            }
        }
    }

    /// A service of a dispatcher and an interface that are there (E92), under a name of its own (E71). There are at most 256 (E94).
    ///
    /// # Errors
    /// Out of memory.
    #[inline(never)]
    pub(crate) fn export(
        &mut self,
        name: &[u8],
        d: DispatcherId,
        interface: usize,
    ) -> Result<Answer, AllocError>
        ensures exports { IfOk result (λ a. Exports name.now (id_of d) interface self.old (answer_of a) self.new) }
        ensures kept { OnErr result (self.new ≡ self.old) }
        ensures last { OnErr result (NotRefused (Exports name.now (id_of d) interface self.old)) }
    {
        if !self.has_dispatcher(d) || self.programs.len() <= interface {
            return Ok(Answer::Refused(faults::WRONG_NAME));
        }
        if self.names.lookup(name).is_ok() {
            return Ok(Answer::Refused(faults::SERVICE_TAKEN));
        }
        if self.names.list().len() >= MAX_SERVICES {
            return Ok(Answer::Refused(faults::TOO_MANY));
        }
        let service = Service {
            core: CoreId(d.core as u8),
            dispatcher: d.place,
            interface,
        };
        match self.names.register(name, service) {
            Ok(_) => Ok(Answer::Done),
            Err(_) => Err(AllocError),
        }
    }

    // Whether a core has a link to a neighbour that is there.
    fn has_link(&self, a: usize, b: usize) -> bool
        requires { b < length self.now.cores }
        ensures has { result ≡ has_link a b self.now }
    {
        match self.cores.get(a) {
            None => false,
            Some(core) => core.monitor().circuits().link_to(CoreId(b as u8)).is_some(),
        }
    }

    // Whether two cores can't be linked: one isn't there, they are one, or they are linked already.
    fn is_no_pair(&self, a: usize, b: usize) -> bool
        ensures no_pair { result ≡ is_no_pair a b self.now }
    {
        let count = self.cores.as_slice().len();
        !(a < count && b < count) || a == b || self.has_link(a, b)
    }

    // A link between two cores, over this ring.
    fn join(&mut self, a: usize, b: usize, ring: OneDuo) -> Result<Answer, AllocError>
        requires a { a < length self.old.cores }
        requires b { b < length self.old.cores }
        requires apart { a ≢ b }
        requires sized { MayHaveSlots ring.size }
        requires new { ring ≡ new_duo ring.size }
        ensures joins { IfOk result (λ answer. (answer_of answer ≡ done) × making.IsLinked a b ring.size self.old self.new) }
        ensures kept { OnErr result (self.new ≡ self.old) }
    {
        self.rings.reserve(1)?;
        let side = 2 * self.rings.as_slice().len();
        link_both(self.cores.as_mut_slice(), a, b, side)?;
        self.rings.push_reserved(ring);
        Ok(Answer::Done)
    }

    /// A link between two cores that are there and have none yet (E73), over a ring of so many slots (E32).
    ///
    /// # Errors
    /// Out of memory.
    #[inline(never)]
    pub(crate) fn add_link(&mut self, a: u32, b: u32, slots: u32) -> Result<Answer, AllocError>
        ensures adds { IfOk result (λ answer. AddsLink a b slots self.old (answer_of answer) self.new) }
        ensures kept { OnErr result (self.new ≡ self.old) }
        ensures last { OnErr result (NotRefused (AddsLink a b slots self.old)) }
    {
        if self.is_no_pair(a as usize, b as usize) {
            return Ok(Answer::Refused(faults::NO_SUCH_ROUTE));
        }
        match OneDuo::new(self.alloc, slots as usize) {
            Ok(ring) => self.join(a as usize, b as usize, ring),
            Err(RingFault::BadSize) => Ok(Answer::Refused(faults::BAD_SIZE)),
            Err(_) => Err(AllocError),
        }
    }
}
