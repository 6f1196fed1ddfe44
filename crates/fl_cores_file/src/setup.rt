//! Lines that set up interfaces, cores, links, dispatchers and services.

ghost use Rattle.std.specs.Prelude.{◌≡◌, ◌==◌, bytes_eq};
ghost use Rattle.std.specs.List.{count_by, list_any};
ghost use Rattle.fl_interface.specs.Interface.{interface_of};
ghost use Rattle.fl_model.specs.Making.{is_ring_size};
ghost use Rattle.fl_model.specs.Views.{id_of};
ghost use Rattle.fl_cores_file.specs.Draft.{has_interface, is_dispatcher, is_interface, adds_interface, sets_cores};
ghost use Rattle.fl_cores_file.specs.Draft.{joins, has_link, adds_link, adds_dispatcher, exports};
ghost use Rattle.fl_cores_file.specs.Verdicts.{Comes};
ghost use Rattle.fl_cores_file.specs.Views.{planned_of, joint_of, draft_of};

use crate::draft::{Draft, DraftInterface, DraftLink, DraftService};
use crate::stop::CoresLineFault;
use fl_base::{MAX_CORES, MAX_DISPATCHERS, MAX_INTERFACES, MAX_SERVICES, faults};
use fl_interface::Interface;
use fl_model::{DispatcherId, Event};
use fl_value_data::PlanNo;

// Whether a number is among these.
fn is_among(number: u32, sizes: &[u32]) -> bool
    ensures any { result ≡ list_any (λ size. number == size) sizes.now }
{
    sizes.iter().any(|size| number == *size)
}

// Whether a ring can have so many slots.
pub(crate) fn is_ring_size(slots: u32) -> bool
    ensures same { result ≡ is_ring_size slots }
{
    is_among(slots, &[4, 8, 16, 32, 64, 128, 256, 512, 1024])
}

// Whether a link is of these two cores.
fn joins(joint: &DraftLink, a: u32, b: u32) -> bool
    ensures same { result ≡ joins a b (joint_of joint.now) }
{
    joint.first == a && joint.second == b || joint.first == b && joint.second == a
}

fn any_joins(links: &[DraftLink], a: u32, b: u32) -> bool
    ensures any { result ≡ list_any (λ joint. joins a b (joint_of joint)) links.now }
{
    links.iter().any(|joint| joins(joint, a, b))
}

fn is_named(planned: &DraftInterface, name: &[u8]) -> bool
    ensures same { result ≡ bytes_eq name.now (planned_of planned.now).interface.name }
{
    name == planned.interface.name.bytes.as_slice()
}

fn any_named(interfaces: &[DraftInterface], name: &[u8]) -> bool
    ensures any { result ≡ list_any (λ planned. bytes_eq name.now (planned_of planned).interface.name) interfaces.now }
{
    interfaces.iter().any(|planned| is_named(planned, name))
}

// How many of these are the core.
fn count_core(core: u32, cores: &[u32]) -> usize
    ensures count { result ≡ count_by (λ one. one == core) cores.now }
{
    let mut count = 0;
    for one in cores {
        if *one == core {
            count += 1;
        }
    }
    count
}

impl<'a> Draft<'a> {
    // Whether there is an interface of a name.
    #[tactic(auto, using(crate::proofs::Lists::any_map))]
    fn has_interface(&self, name: &[u8]) -> bool
        ensures same { result ≡ has_interface name.now (draft_of self.now) }
    {
        any_named(&self.interfaces, name)
    }

    // Whether there is such a dispatcher.
    pub(crate) fn is_dispatcher(&self, dispatcher: DispatcherId) -> bool
        ensures same { result ≡ is_dispatcher (id_of dispatcher) (draft_of self.now) }
    {
        dispatcher.place < count_core(dispatcher.core, &self.dispatchers)
    }

    // Whether there is an interface at a place.
    pub(crate) fn is_interface(&self, place: usize) -> bool
        ensures same { result ≡ is_interface place (draft_of self.now) }
    {
        place < self.interfaces.as_slice().len()
    }

    pub(crate) fn add_interface(
        &mut self,
        interface: Interface,
        plan: PlanNo,
    ) -> Result<(), CoresLineFault>
        ensures comes { Comes result (draft_of self.new) (adds_interface (interface_of interface) plan (draft_of self.old)) }
    {
        if self.has_interface(&interface.name.bytes) {
            return Err(CoresLineFault::Refused(faults::WRONG_NAME));
        }
        if self.interfaces.as_slice().len() >= MAX_INTERFACES {
            return Err(CoresLineFault::Refused(faults::TOO_MANY));
        }
        let kept = interface.duplicate(self.alloc)?;
        self.interfaces.push(DraftInterface {
            interface: kept,
            plan,
        })?;
        self.setup.push(Event::AddInterface { interface, plan })?;
        Ok(())
    }

    pub(crate) fn set_cores(&mut self, n: u32) -> Result<(), CoresLineFault>
        ensures comes { Comes result (draft_of self.new) (sets_cores n (draft_of self.old)) }
    {
        if self.settled {
            return Err(CoresLineFault::Refused(faults::NOT_NOW));
        }
        if n < 1 || n as usize > MAX_CORES {
            return Err(CoresLineFault::Refused(faults::TOO_MANY));
        }
        self.settled = true;
        self.cores = n;
        Ok(())
    }

    // Whether a link joins two cores.
    #[tactic(auto, using(crate::proofs::Lists::any_map))]
    pub(crate) fn has_link(&self, a: u32, b: u32) -> bool
        ensures same { result ≡ has_link a b (draft_of self.now) }
    {
        any_joins(&self.links, a, b)
    }

    pub(crate) fn add_link(&mut self, a: u32, b: u32, slots: u32) -> Result<(), CoresLineFault>
        ensures comes { Comes result (draft_of self.new) (adds_link a b slots (draft_of self.old)) }
    {
        if !(self.is_core(a) && self.is_core(b)) || a == b || self.has_link(a, b) {
            return Err(CoresLineFault::Refused(faults::NO_SUCH_ROUTE));
        }
        if !is_ring_size(slots) {
            return Err(CoresLineFault::Refused(faults::BAD_SIZE));
        }
        self.links.push(DraftLink {
            first: a,
            second: b,
        })?;
        self.put_event(Event::AddLink { a, b, slots })
    }

    pub(crate) fn add_dispatcher(&mut self, core: u32) -> Result<(), CoresLineFault>
        ensures comes { Comes result (draft_of self.new) (adds_dispatcher core (draft_of self.old)) }
    {
        if self.dispatchers.as_slice().len() >= MAX_DISPATCHERS {
            return Err(CoresLineFault::Refused(faults::TOO_MANY));
        }
        if !self.is_core(core) {
            return Err(CoresLineFault::Refused(faults::NO_SUCH_ROUTE));
        }
        self.dispatchers.push(core)?;
        self.put_event(Event::AddDispatcher(core))
    }

    pub(crate) fn export(
        &mut self,
        name: &'a [u8],
        dispatcher: DispatcherId,
        interface: usize,
    ) -> Result<(), CoresLineFault>
        ensures comes { Comes result (draft_of self.new) (exports name.now (id_of dispatcher) interface (draft_of self.old)) }
    {
        if !(self.is_dispatcher(dispatcher) && self.is_interface(interface)) {
            return Err(CoresLineFault::Refused(faults::WRONG_NAME));
        }
        if self.services.find(name).is_some() {
            return Err(CoresLineFault::Refused(faults::SERVICE_TAKEN));
        }
        if self.offers.as_slice().len() >= MAX_SERVICES {
            return Err(CoresLineFault::Refused(faults::TOO_MANY));
        }
        self.services.add(self.alloc, name)?;
        self.offers.push(DraftService {
            dispatcher,
            interface,
        })?;
        self.put_event(Event::Export {
            name,
            dispatcher,
            interface,
        })
    }
}
