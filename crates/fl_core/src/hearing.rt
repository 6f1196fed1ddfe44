//! What a core makes of a monitors' message.

ghost use Rattle.std.specs.Prelude.{◌≡◌, ◌<◌, ◌==◌, length, slice_get, Some, None, IfSome, IfErr, true};
ghost use Rattle.fl_base.specs.Control.{bare};
ghost use Rattle.fl_compile.specs.Programs.{program_of};
ghost use Rattle.fl_link.specs.Looks.{saw};
ghost use Rattle.fl_core.specs.BoardView.{TheBoard};
ghost use Rattle.fl_monitor.specs.Hearing.{circuit_in};
ghost use Rattle.fl_core.specs.View.{arriving_at};
ghost use Rattle.fl_core.specs.Making.{HasPlace};
ghost use Rattle.fl_core.specs.Hearing.{Offers, here_for, has_end, has_place, offer_of, offer_for};
ghost use Rattle.fl_core.specs.Hearing.{BindsIf, Offering, Follows, HearsMessage, HearsLast, HearsFrag, HearsFragLast, TakesHeard};
ghost use Rattle.fl_core.specs.Inside.{server_in, LeadsTo, for_message, core_parts, HearsWith, MayRefuse, Unheard};

use crate::Board;
use crate::answer::MonitorAnswer;
use crate::fault::LinkReceiveFault;
use crate::links::fail;
use crate::makers::{add_circuit_end, make_arrivals, put_circuit_wired_end};
use crate::one_core::Core;
use crate::wiring::LinkSide;
use fl_base::{Circuit, EndId, Frag, IRef, LinkId, MAX_CHANNELS, Side};
use fl_compile::Program;
use fl_link::TakeSide;
use fl_monitor::{MessageOutcome, Monitor, MonitorFault, MonitorMessage, OpeningFacts, circuit_in};
use fl_nameserv::Names;
use std::alloc::Global;

/// A place for the end of a service that is offered at a core.
#[derive(Clone, Copy)]
pub struct OfferedService {
    /// The dispatcher that offers it.
    pub dispatcher: usize,
    /// The place of the service's program.
    pub interface: usize,
}

// The server's end that a message makes.
#[derive(Clone, Copy)]
pub(crate) struct MadeServer {
    pub(crate) binding: usize,
    pub(crate) dispatcher: usize,
    pub(crate) circuit: Circuit,
}

// What a message came to, and the place of the end that was ready for it.
#[derive(Clone, Copy)]
pub(crate) struct JoinedServer {
    pub(crate) heard: MessageOutcome,
    pub(crate) place: usize,
}

// The server's end that a message makes, if it makes one.
fn server_in(heard: MessageOutcome) -> Option<MadeServer>
    ensures made { result ≡ server_in heard }
{
    match heard {
        MessageOutcome::ServerMade {
            binding,
            dispatcher,
            circuit,
        } => Some(MadeServer {
            binding,
            dispatcher,
            circuit,
        }),
        MessageOutcome::OpeningWentOn { .. }
        | MessageOutcome::OpeningFailed { .. }
        | MessageOutcome::AnswerWentOn { .. }
        | MessageOutcome::EndOpened { .. }
        | MessageOutcome::EndRefused { .. } => None,
    }
}

// Whether a dispatcher has a place for one more end.
fn has_place(board: &Board, dispatcher: usize) -> bool
    ensures place { result ≡ has_place board.now dispatcher }
    ensures there { result ≡ true → dispatcher < length board.now.dispatchers }
{
    if dispatcher >= board.dispatchers() {
        return false;
    }
    board.ends_at(dispatcher) < MAX_CHANNELS
}

// Hears a message while an end is ready for it at a dispatcher, with a copy of the program. Where the message doesn't make that end, it is taken back.
fn hear_with_end(
    alloc: Global,
    board: &mut Board,
    monitor: &mut Monitor,
    names: &Names,
    here: OpeningFacts,
    link: LinkId,
    message: &MonitorMessage,
    dispatcher: usize,
    program: &Program,
) -> Result<JoinedServer, MonitorFault>
    requires there { dispatcher < length board.old.dispatchers }
    requires place { HasPlace board.old dispatcher }
    requires leads { LeadsTo (record { names = names.now; here = here }) monitor.old.circuits link message.now dispatcher (circuit_in message.now) }
    ensures hears { HearsWith (for_message (record { names = names.now; here = here }) link message.now (program_of program.now))
        (core_parts board.old monitor.old) result (core_parts board.new monitor.new) }
{
    let Ok(copy) = program.duplicate(alloc) else {
        return Err(MonitorFault::Memory);
    };
    board.law_sound();
    let circuit = circuit_in(message);
    match add_circuit_end(alloc, board, dispatcher, copy, Some(circuit)) {
        Err(_) => Err(MonitorFault::Memory),
        Ok(place) => match monitor.on_message(names, here, link, message) {
            Err(fault) => {
                board.take_back();
                Err(fault)
            }
            Ok(heard) => match server_in(heard) {
                Some(_) => Ok(JoinedServer { heard, place }),
                None => {
                    board.take_back();
                    Ok(JoinedServer { heard, place })
                }
            },
        },
    }
}

// What is answered where a message wasn't heard. What comes on the link has failed where the message was out of its place.
fn unheard(
    link_sides: &mut Vec<LinkSide>,
    link: LinkId,
    fault: MonitorFault,
) -> Result<MonitorAnswer, LinkReceiveFault>
    requires { MayRefuse fault }
    ensures unheard { Unheard link fault link_sides.old.items result link_sides.new.items }
{
    match fault {
        MonitorFault::Misrouted => {
            fail(link_sides, link);
            Err(LinkReceiveFault::Misrouted)
        }
        MonitorFault::OutboxFull => Ok(MonitorAnswer::Full),
        MonitorFault::Memory => Err(LinkReceiveFault::Memory),
        MonitorFault::Differs
        | MonitorFault::NoRoute
        | MonitorFault::UsedUp
        | MonitorFault::PlansDiffer => unreachable!(),
    }
}

impl Core {
    /// Whether an end of the binding is at this core. Nothing is searched.
    pub fn has_end(&self, binding: usize) -> bool
        ensures end { result ≡ has_end self.now binding }
    {
        let client = EndId {
            binding,
            side: Side::Client,
        };
        self.place(client).is_some() || self.place(client.peer()).is_some()
    }

    // The place at a dispatcher of this core for a service's end, and where its program is among so many.
    fn offer_of(&self, service: IRef, names: &Names, programs: &[Program]) -> Option<OfferedService>
        ensures offer { result ≡ offer_of (record { names = names.now; programs = programs.now }) self.now service.0 }
        ensures dispatcher { IfSome result (λ f. f.dispatcher < length self.now.board.dispatchers) }
        ensures program { IfSome result (λ f. f.interface < length programs.now) }
    {
        let Ok(found) = names.lookup_iref(service) else {
            return None;
        };
        let service = found.service;
        if service.core.0 == self.monitor.circuits().core().0
            && has_place(&self.board, service.dispatcher)
            && service.interface < programs.len()
        {
            return Some(OfferedService {
                dispatcher: service.dispatcher,
                interface: service.interface,
            });
        }
        None
    }

    // The offer that an opening asks for.
    fn offer_for(
        &self,
        message: &MonitorMessage,
        names: &Names,
        programs: &[Program],
    ) -> Option<OfferedService>
        ensures offer { result ≡ offer_for (record { names = names.now; programs = programs.now }) self.now message.now }
        ensures dispatcher { IfSome result (λ f. f.dispatcher < length self.now.board.dispatchers) }
        ensures program { IfSome result (λ f. f.interface < length programs.now) }
    {
        match message {
            MonitorMessage::OpenCircuit { service, .. } => self.offer_of(*service, names, programs),
            MonitorMessage::CircuitOpened { .. } | MonitorMessage::CircuitRefused { .. } => None,
        }
    }

    // Binds the end of a name to its circuit and registers it, where it is at this core.
    fn bind_end(&mut self, name: EndId, circuit: Circuit)
        ensures binds { BindsIf (arriving_at self.old name) circuit self.old self.new }
    {
        match self.arriving_at(name) {
            None => (),
            Some(at) => {
                self.board.bind(at.end, circuit);
                let _ = self.board.register(at.end, &mut self.arrivals[at.queue]);
            }
        }
    }

    // What follows where a message makes no server's end.
    fn follow(&mut self, heard: MessageOutcome) -> MonitorAnswer
        requires { server_in heard ≡ None }
        ensures follows { (x : Offering) → Follows x heard self.old result self.new }
    {
        match heard {
            MessageOutcome::ServerMade { .. } => unreachable!(),
            MessageOutcome::EndOpened { end, circuit } => {
                self.bind_end(end, circuit);
                MonitorAnswer::Opened(end)
            }
            MessageOutcome::EndRefused { end, reason } => MonitorAnswer::OpeningRefused(
                end, reason,
            ),
            MessageOutcome::OpeningWentOn { .. } => MonitorAnswer::Done,
            MessageOutcome::OpeningFailed { .. } => MonitorAnswer::Done,
            MessageOutcome::AnswerWentOn { .. } => MonitorAnswer::Done,
        }
    }

    // What the core knows when it hears a message, with the offer that the message asks for.
    fn here_for(&self, message: &MonitorMessage, offer: Option<OfferedService>) -> OpeningFacts
        ensures here { (o : Offers) → offer ≡ offer_for o self.now message.now → result ≡ here_for o self.now message.now }
    {
        let has_end = match message {
            MonitorMessage::OpenCircuit { binding, .. } => self.has_end(*binding as usize),
            MonitorMessage::CircuitOpened { .. } | MonitorMessage::CircuitRefused { .. } => false,
        };
        OpeningFacts {
            has_end,
            has_place: offer.is_some(),
        }
    }

    // Hears a message that asks for no offer.
    fn hear_without_offer(
        &mut self,
        link: LinkId,
        message: &MonitorMessage,
        names: &Names,
        programs: &[Program],
    ) -> Result<MonitorAnswer, LinkReceiveFault>
        requires { offer_for (record { names = names.now; programs = programs.now }) self.old message.now ≡ None }
        ensures hears { HearsMessage (record { names = names.now; programs = programs.now }) link message.now self.old result self.new }
        ensures last { IfErr result (HearsLast (record { names = names.now; programs = programs.now }) link message.now self.old) }
    {
        let here = self.here_for(message, None);
        match self.monitor.on_message(names, here, link, message) {
            Err(fault) => unheard(&mut self.link_sides, link, fault),
            Ok(heard) => match server_in(heard) {
                Some(_) => unreachable!(),
                None => Ok(self.follow(heard)),
            },
        }
    }

    // Hears a message that asks for an offer: an end is made ready first.
    fn hear_offered(
        &mut self,
        link: LinkId,
        message: &MonitorMessage,
        names: &Names,
        programs: &[Program],
        offer: OfferedService,
    ) -> Result<MonitorAnswer, LinkReceiveFault>
        requires there { link.0 < length self.old.link_sides }
        requires offer { offer_for (record { names = names.now; programs = programs.now }) self.old message.now ≡ Some offer }
        requires dispatcher { offer.dispatcher < length self.old.board.dispatchers }
        requires program { offer.interface < length programs.now }
        ensures hears { HearsMessage (record { names = names.now; programs = programs.now }) link message.now self.old result self.new }
    {
        let here = self.here_for(message, Some(offer));
        match make_arrivals(
            self.alloc,
            &self.board,
            offer.dispatcher,
            &mut self.wired_ends,
            &mut self.arrivals,
        ) {
            Err(_) => Err(LinkReceiveFault::Memory),
            Ok(queue) => match hear_with_end(
                self.alloc,
                &mut self.board,
                &mut self.monitor,
                names,
                here,
                link,
                message,
                offer.dispatcher,
                &programs[offer.interface],
            ) {
                Err(fault) => unheard(&mut self.link_sides, link, fault),
                Ok(joined) => match server_in(joined.heard) {
                    None => Ok(self.follow(joined.heard)),
                    Some(made) => {
                        let mut queue = queue;
                        let _ = self.board.register(joined.place, &mut queue);
                        let name = EndId {
                            binding: made.binding,
                            side: Side::Server,
                        };
                        put_circuit_wired_end(
                            &mut self.wired_ends,
                            &mut self.places,
                            &mut self.arrivals,
                            queue,
                            (name, link, joined.place),
                        );
                        Ok(MonitorAnswer::Opened(name))
                    }
                },
            },
        }
    }

    // The same where the message may be heard.
    fn hear_if_it_may(
        &mut self,
        link: LinkId,
        message: &MonitorMessage,
        names: &Names,
        programs: &[Program],
        offer: OfferedService,
    ) -> Result<MonitorAnswer, LinkReceiveFault>
        requires there { link.0 < length self.old.link_sides }
        requires offer { offer_for (record { names = names.now; programs = programs.now }) self.old message.now ≡ Some offer }
        requires dispatcher { offer.dispatcher < length self.old.board.dispatchers }
        requires program { offer.interface < length programs.now }
        ensures hears { HearsMessage (record { names = names.now; programs = programs.now }) link message.now self.old result self.new }
        ensures last { IfErr result (HearsLast (record { names = names.now; programs = programs.now }) link message.now self.old) }
    {
        let here = self.here_for(message, Some(offer));
        match self.monitor.may_hear(names, here, link, message) {
            Err(fault) => unheard(&mut self.link_sides, link, fault),
            Ok(_) => self.hear_offered(link, message, names, programs, offer),
        }
    }

    // Hears a message that came on a link.
    fn hear_message(
        &mut self,
        link: LinkId,
        message: &MonitorMessage,
        names: &Names,
        programs: &[Program],
    ) -> Result<MonitorAnswer, LinkReceiveFault>
        requires { link.0 < length self.old.link_sides }
        ensures hears { HearsMessage (record { names = names.now; programs = programs.now }) link message.now self.old result self.new }
        ensures last { IfErr result (HearsLast (record { names = names.now; programs = programs.now }) link message.now self.old) }
    {
        match self.offer_for(message, names, programs) {
            None => self.hear_without_offer(link, message, names, programs),
            Some(offer) => self.hear_if_it_may(link, message, names, programs, offer),
        }
    }

    /// Hears the monitors' message of a fragment that was seen to stand first on a link ([`Core::look`]), and takes
    /// it. The core lends its monitor what it knows of ends and places; then an opening that ends here makes the
    /// server's end at the service's dispatcher, with an arrival queue, bound and registered; and the word that a
    /// circuit is open binds the client's end and registers it. `programs` are those of the interfaces of the
    /// services, by their places there.
    ///
    /// # Errors
    /// The fragment says no monitors' message (E60 to E63, E66), or one that is out of its place (E67): it is left, and what comes on the link has failed for
    /// good. Out of memory (E99), where something would be said then: it is left, and the core is as it was. Answers that end at a client take no memory.
    pub fn hear<T: TakeSide>(
        &mut self,
        link: LinkId,
        from: &mut T,
        frag: &Frag,
        names: &Names,
        programs: &[Program],
    ) -> Result<MonitorAnswer, LinkReceiveFault>
        requires there { link.0 < length self.old.link_sides }
        requires seen { T.front from.old ≡ saw (bare frag.now) }
        ensures hears { HearsFrag (record { names = names.now; programs = programs.now }) link frag.now self.old result self.new }
        ensures takes { TakesHeard T.takes frag.now from.old result from.new }
        ensures last { IfErr result (HearsFragLast (record { names = names.now; programs = programs.now }) link frag.now self.old) }
    {
        let message = match self.monitor.read(frag) {
            Ok(message) => message,
            Err(fault) => {
                fail(&mut self.link_sides, link);
                return Err(LinkReceiveFault::Wire(fault));
            }
        };
        match self.hear_message(link, &message, names, programs) {
            Ok(MonitorAnswer::Full) => Ok(MonitorAnswer::Full),
            Ok(answer) => {
                let _ = from.take();
                Ok(answer)
            }
            Err(fault) => Err(fault),
        }
    }
}
