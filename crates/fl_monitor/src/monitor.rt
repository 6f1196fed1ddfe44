//! The part of a core that opens circuits.

ghost use Rattle.std.specs.Prelude.{◌≡◌, ◌≢◌, ◌++◌, ◌∷◌, [], true, false, None, Some, Ok, length, slice_get, option_map};
ghost use Rattle.std.specs.Prelude.{IfOk, IfErr, IfSome, IfNone, OnOk, OnErr};
ghost use Rattle.fl_hop.specs.Table.{with_link, link_fault};
ghost use Rattle.fl_hop.specs.Openings.{IsRefusal, open_fault};
ghost use Rattle.fl_hop.specs.Later.{Later};
ghost use Rattle.fl_hop.specs.Numbers.{next_own};
ghost use Rattle.fl_base.specs.declared.identity.LinkId.{LinkId};
ghost use Rattle.fl_base.specs.declared.identity.CoreId.{CoreId};
ghost use Rattle.fl_base.specs.Control.{bare, is_ack_only};
ghost use Rattle.fl_monitor.specs.declared.message.MonitorMessage.{MonitorMessage};
ghost use Rattle.fl_monitor.specs.Outboxes.{IsFragOf};
ghost use Rattle.fl_monitor.specs.Monitors.{TheMonitor, fresh_monitor, HasOutboxes, with_new_link, IsLinked, can_say, IsQueuedMessage};
ghost use Rattle.fl_monitor.specs.Monitors.{Hears, wanted, first_link, MayOpen};
ghost use Rattle.fl_monitor.specs.Monitors.{asks, RefusesOpening, Opens, waiting_for, without_first};
ghost use Rattle.fl_monitor.specs.Monitors.{MayStart, RefusesStart, MayHear, NotHeard};
ghost use Rattle.fl_monitor.specs.Hearing.{GoesOnNext};
ghost use Rattle.fl_monitor.specs.Saying.{Says, Refuses};

use crate::decision::OpeningFacts;
use crate::fault::MonitorFault;
use crate::heard::MessageOutcome;
use crate::hearing::{LinkMessage, change, comes_to, says};
use crate::message::MonitorMessage;
use crate::messenger::Messenger;
use crate::opening::Opening;
use crate::outbox::{MAX_WAITING, Outbox};
use crate::routing::is_route;
use fl_base::{Circuit, CoreId, Frag, LinkId};
use fl_compile::Program;
use fl_hop::{Circuits, HopFault, MAX_LINKS};
use fl_nameserv::Names;
use fl_wire::WireFault;
use std::alloc::{AllocError, Global};
use std::marker::Model;

/// One core's monitor: it opens circuits with the monitors of the cores to which this one has links.
///
/// It has the compiled stubs of the monitors' interface, by which it reads and writes messages. Contracts see its table of
/// circuits, and by link the fragments that wait there.
#[derive(Drop)]
pub struct Monitor {
    alloc: Global,
    circuits: Circuits,
    outboxes: Vec<Outbox>,
    messenger: Messenger,
}

impl Model for Monitor {
    ghost use Rattle.fl_monitor.specs.Monitors.{TheMonitor, HasOutboxes};

    ghost Value = { TheMonitor };

    ghost view = { λ m. record { circuits = m.circuits; outboxes = m.outboxes.items } };

    ghost invariant = { λ m. HasOutboxes (record { circuits = m.circuits; outboxes = m.outboxes.items }) };
}

// Puts a message's fragment last into a link's outbox, which has room.
fn put(outboxes: &mut Vec<Outbox>, saying: &LinkMessage, frag: &Frag)
    requires room { can_say outboxes.old.items saying.now.link.0 ≡ true }
    requires frag { IsFragOf frag.now saying.now.message }
    ensures said { IsQueuedMessage saying.now outboxes.old.items outboxes.new.items }
    ensures count { length outboxes.new.items ≡ length outboxes.old.items }
{
    let Some(outbox) = outboxes.get_mut(usize::from(saying.link.0)) else {
        unreachable!();
    };
    let Ok(()) = outbox.put(frag) else {
        unreachable!();
    };
}

impl Monitor {
    /// The monitor of a core without links.
    ///
    /// # Errors
    /// Out of memory (E99).
    pub fn new(alloc: Global, core: CoreId) -> Result<Monitor, AllocError>
        ensures empty { IfOk result (λ monitor. monitor ≡ fresh_monitor core.0) }
    {
        let messenger = Messenger::new(alloc)?;
        Ok(Monitor {
            alloc,
            circuits: Circuits::new(alloc, core),
            outboxes: Vec::new(alloc),
            messenger,
        })
    }

    /// What holds of every monitor. It does nothing.
    pub fn law_sound(&self)
        ensures outboxes { HasOutboxes self.now }
    {
        let _outboxes = &self.outboxes;
    }

    /// The core's table of circuits.
    pub fn circuits(&self) -> &Circuits
        ensures circuits { result.now ≡ self.now.circuits }
    {
        &self.circuits
    }

    /// What waits to be sent over a link; `None` where there is no such link.
    pub fn outbox(&self, link: LinkId) -> Option<&Outbox>
        ensures outbox { IfSome result (λ outbox. slice_get self.now.outboxes link.0 ≡ Some outbox.now) }
        ensures none { IfNone result (slice_get self.now.outboxes link.0 ≡ None) }
    {
        self.outboxes.get(usize::from(link.0))
    }

    /// Whether one message more may wait to be sent over a link: fewer than 64 wait there. Where there is no such link, none may.
    pub fn has_room(&self, link: LinkId) -> bool
        ensures room { result ≡ can_say self.now.outboxes link.0 }
    {
        match self.outboxes.get(usize::from(link.0)) {
            Some(outbox) => outbox.waiting() < MAX_WAITING,
            None => false,
        }
    }

    /// Whether a link to another core may be added. Takes no memory.
    ///
    /// # Errors
    /// It would go to the core itself, or to one that a link goes to already (E73); there are 15 links (E94).
    pub fn may_link(&self, neighbour: CoreId) -> Result<(), HopFault>
        ensures may { OnOk result (link_fault self.now.circuits neighbour.0 ≡ None) }
        ensures refused { IfErr result (λ fault. link_fault self.now.circuits neighbour.0 ≡ Some fault) }
    {
        may_link(&self.circuits, neighbour)
    }

    /// Adds a link to another core, with an outbox that has room for all that may wait there.
    ///
    /// # Errors
    /// The link would go to the core itself, or to one that a link goes to already (E73); there are 15 links (E94); out of
    /// memory (E99). Nothing has changed then.
    pub fn add_link(&mut self, neighbour: CoreId) -> Result<LinkId, HopFault>
        ensures circuits { OnOk result (self.new.circuits ≡ with_link self.old.circuits neighbour) }
        ensures outboxes { OnOk result (self.new.outboxes ≡ self.old.outboxes ++ [] ∷ []) }
        ensures link { IfOk result (λ link. link.0 ≡ length self.old.circuits.links) }
        ensures later { OnOk result (Later self.old.circuits self.new.circuits) }
        ensures may { OnOk result (link_fault self.old.circuits neighbour.0 ≡ None) }
        ensures refused { IfErr result (IsRefusal (link_fault self.old.circuits neighbour.0)) }
        ensures kept { OnErr result (self.new ≡ self.old) }
    {
        may_link(&self.circuits, neighbour)?;
        let Ok(outbox) = Outbox::new(self.alloc) else {
            return Err(HopFault::Memory);
        };
        self.outboxes.reserve(1)?;
        let link = self.circuits.add_link(neighbour)?;
        self.outboxes.push_reserved(outbox);
        Ok(link)
    }

    /// Takes back the link that was added last, where nothing else has happened since: the monitor is as it was before. Takes
    /// no memory.
    pub fn take_back_link(&mut self)
        requires { IsLinked self.old }
        ensures before { (m : TheMonitor) (neighbour : CoreId) → self.old ≡ with_new_link m neighbour → self.new ≡ m }
    {
        self.circuits.take_back_link();
        self.outboxes.pop();
    }

    /// Whether a circuit may be asked for: on which link the route begins.
    ///
    /// The client has its own program, and `offered` is the one that the service was exported with; `server` is the service's
    /// core, and `cores` how many cores there are.
    ///
    /// # Errors
    /// Their interfaces differ (E72), or are the same under two plans (E76); the route isn't one of 2 to 16 cores, the client's
    /// first, the service's last, and none twice, or there is no link to its second (E73).
    pub fn may_open(
        &self,
        client: &Program,
        offered: &Program,
        server: CoreId,
        path: &[CoreId],
        cores: usize,
    ) -> Result<LinkId, MonitorFault>
        ensures may { MayOpen (wanted client.now offered.now server path.now cores) self.now.circuits result }
    {
        if !client.interface().same(offered.interface()) {
            return Err(MonitorFault::Differs);
        }
        if client.plan() != offered.plan() {
            return Err(MonitorFault::PlansDiffer);
        }
        match first_link(&self.circuits, server, path, cores) {
            Some(link) => Ok(link),
            None => Err(MonitorFault::NoRoute),
        }
    }

    /// Whether [`Monitor::start_open`] begins a circuit, memory aside: under which number. Takes no memory.
    ///
    /// # Errors
    /// There is no such link (E73); an entry of the binding stands here (E67); this core has opened 1,023 circuits there
    /// (E74); 64 messages wait there (E75).
    pub fn may_start(&self, link: LinkId, opening: &Opening) -> Result<Circuit, MonitorFault>
        ensures may { OnOk result (MayStart link opening.now self.now) }
        ensures next { IfOk result (λ circuit. next_own self.now.circuits link.0 ≡ Some circuit.0) }
        ensures refused { IfErr result (RefusesStart link opening.now self.now) }
    {
        let circuit = next_for(&self.circuits, link, opening.binding as usize)?;
        if !self.has_room(link) {
            return Err(MonitorFault::OutboxFull);
        }
        Ok(circuit)
    }

    /// Asks for a circuit: makes the client's entry under the link's next number, and puts the opening into the link's outbox.
    /// Of the route only its link is looked at here; the rest is [`Monitor::may_open`]'s.
    ///
    /// # Errors
    /// There is no such link (E73); an entry of the binding stands here (E67); this core has opened 1,023 circuits there
    /// (E74); 64 messages wait there (E75); out of memory (E99). Nothing has changed then.
    pub fn start_open(&mut self, link: LinkId, opening: &Opening) -> Result<Circuit, MonitorFault>
        ensures opens { Opens link opening.now self.old result self.new }
        ensures later { OnOk result (Later self.old.circuits self.new.circuits) }
    {
        let circuit = self.may_start(link, opening)?;
        let saying = LinkMessage {
            link,
            message: asks(circuit, opening),
        };
        let frag = self.messenger.frag(&saying.message)?;
        let Ok(_) = self.circuits.open(link, opening.binding as usize) else {
            return Err(MonitorFault::Memory);
        };
        put(&mut self.outboxes, &saying, &frag);
        Ok(circuit)
    }

    /// The message that a fragment says, whatever its epoch and the count that it tells: [`Messenger::read`]. Takes no memory.
    ///
    /// # Errors
    /// The first fault of a fragment that says none (E60, E62, E63, E66). The fragment can be read again then.
    pub fn read(&mut self, frag: &Frag) -> Result<MonitorMessage, WireFault>
        ensures says { IfOk result (λ m. Says frag.now m) }
        ensures refused { IfErr result (λ fault. Refuses frag.now fault) }
        ensures back { (m : MonitorMessage) → Says frag.now m → result ≡ Ok m }
        ensures kept { self.new ≡ self.old }
    {
        self.messenger.read(frag)
    }

    /// What [`Monitor::on_message`] makes of a message, memory aside. Takes no memory.
    ///
    /// # Errors
    /// The message is out of its place (E67); 64 messages wait in the outbox that is needed (E75).
    pub fn may_hear(
        &self,
        names: &Names,
        here: OpeningFacts,
        link: LinkId,
        message: &MonitorMessage,
    ) -> Result<MessageOutcome, MonitorFault>
        ensures may { IfOk result (MayHear (record { names = names.now; here = here }) link message.now self.now) }
        ensures next { IfOk result (GoesOnNext self.now.circuits) }
        ensures refused { IfErr result (λ fault. NotHeard (record { names = names.now; here = here }) link message.now self.now fault) }
    {
        let Some(heard) = comes_to(&self.circuits, names, here, link, message) else {
            return Err(MonitorFault::Misrouted);
        };
        match says(link, message, heard) {
            Some(saying) => {
                if !self.has_room(saying.link) {
                    return Err(MonitorFault::OutboxFull);
                }
                Ok(heard)
            }
            None => Ok(heard),
        }
    }

    /// Hears a message that came on a link. What it comes to is found first, by the table of names and what the core knows of
    /// ends and places; then the room that the answer or the passing on needs; then all memory is taken; then the change
    /// is made.
    ///
    /// # Errors
    /// The message is out of its place (E67); 64 messages wait in the outbox that is needed (E75); out of memory (E99), where
    /// something is said then: what ends at a client takes none. Nothing has changed then.
    pub fn on_message(
        &mut self,
        names: &Names,
        here: OpeningFacts,
        link: LinkId,
        message: &MonitorMessage,
    ) -> Result<MessageOutcome, MonitorFault>
        ensures hears { Hears (record { names = names.now; here = here }) link message.now self.old result self.new }
        ensures later { OnOk result (Later self.old.circuits self.new.circuits) }
    {
        let heard = self.may_hear(names, here, link, message)?;
        match says(link, message, heard) {
            Some(saying) => {
                let frag = self.messenger.frag(&saying.message)?;
                let Ok(()) = change(&mut self.circuits, link, message, heard) else {
                    return Err(MonitorFault::Memory);
                };
                put(&mut self.outboxes, &saying, &frag);
                Ok(heard)
            }
            None => {
                let Ok(()) = change(&mut self.circuits, link, message, heard) else {
                    unreachable!();
                };
                Ok(heard)
            }
        }
    }

    /// The fragment that is sent next over a link; `None` where nothing waits there. A link carries it as it is.
    pub fn next_out(&self, link: LinkId) -> Option<Frag>
        ensures next { result ≡ slice_get (waiting_for self.now.outboxes link.0) 0 }
        ensures data { IfSome result (λ f. is_ack_only f ≡ false) }
        ensures bare { IfSome result (λ f. bare f ≡ f) }
    {
        match self.outboxes.get(usize::from(link.0)) {
            Some(outbox) => outbox.next_out(),
            None => None,
        }
    }

    /// The fragment that was next on a link is sent: it waits no more. Takes no memory.
    pub fn sent_out(&mut self, link: LinkId)
        requires next { waiting_for self.old.outboxes link.0 ≢ [] }
        ensures rest { self.new ≡ without_first link.0 self.old }
    {
        let Some(outbox) = self.outboxes.get_mut(usize::from(link.0)) else {
            unreachable!();
        };
        outbox.sent_out();
    }
}

// Whether there may be a link to a core.
fn may_link(circuits: &Circuits, neighbour: CoreId) -> Result<(), HopFault>
    ensures may { OnOk result (link_fault circuits.now neighbour.0 ≡ None) }
    ensures refused { IfErr result (λ fault. link_fault circuits.now neighbour.0 ≡ Some fault) }
{
    if neighbour.0 == circuits.core().0 || circuits.link_to(neighbour).is_some() {
        return Err(HopFault::NoLink);
    }
    if circuits.links().len() >= MAX_LINKS {
        return Err(HopFault::Limit);
    }
    Ok(())
}

// The link to the second core of a route, where it is one.
fn first_link(circuits: &Circuits, server: CoreId, path: &[CoreId], cores: usize) -> Option<LinkId>
    ensures first { option_map (λ (link : LinkId). link.0) result ≡ first_link circuits.now path.now server.0 cores }
{
    if !is_route(path, circuits.core(), server, cores) {
        return None;
    }
    match path.get(1) {
        Some(second) => circuits.link_to(*second),
        None => None,
    }
}

// The number that a circuit for a binding would have on a link.
fn next_for(circuits: &Circuits, link: LinkId, binding: usize) -> Result<Circuit, MonitorFault>
    ensures may { OnOk result (open_fault circuits.now link.0 binding ≡ None) }
    ensures next { IfOk result (λ circuit. next_own circuits.now link.0 ≡ Some circuit.0) }
    ensures refused { IfErr result (RefusesOpening circuits.now link.0 binding) }
{
    if usize::from(link.0) >= circuits.links().len() {
        return Err(MonitorFault::NoRoute);
    }
    if circuits.stands(binding) {
        return Err(MonitorFault::Misrouted);
    }
    match circuits.next(link) {
        Some(circuit) => Ok(circuit),
        None => Err(MonitorFault::UsedUp),
    }
}

// The message that asks for a circuit.
fn asks(circuit: Circuit, opening: &Opening) -> MonitorMessage
    ensures asks { result ≡ asks circuit opening.now }
{
    MonitorMessage::OpenCircuit {
        circuit,
        binding: opening.binding,
        service: opening.service,
        path: opening.path,
    }
}
