//! The names that a script has given, and what its commands ask by them.

ghost use Rattle.std.specs.Prelude.{◌≡◌, ◌⊎◌, OnOk, OnErr, IfOk, Err, None, option_map, map, unwrap_or, []};
ghost use Rattle.std.specs.List.{count_by};
ghost use Rattle.std.specs.Prelude.{true};
ghost use Rattle.fl_interface.specs.Limits.{are_distinct};
ghost use Rattle.fl_interface.specs.Interface.{interface_of};
ghost use Rattle.fl_model.specs.Events.{show, write, ack, register, deregister};
ghost use Rattle.fl_script_lines.specs.Commands.{call};
ghost use Rattle.fl_script_lines.specs.Names.{with_names, with_dispatcher, with_binding, is_on, no_names};
ghost use Rattle.fl_script_lines.specs.Names.{dispatcher_at, end_at};
ghost use Rattle.fl_script_lines.specs.Names.{messages_at, message_at, message_name, place_of};
ghost use Rattle.fl_script_lines.specs.Asked.{asks_disp, asks_export, asks_bind, asks_turn, asks_reply};
ghost use Rattle.fl_script_lines.specs.Asked.{asks_interface};
ghost use Rattle.fl_script_lines.specs.Asked.{asks_end, asks, kind_of, names_after};
ghost use Rattle.fl_model.specs.Views.{id_of, event_of, answer_of};
ghost use Rattle.fl_script_lines.specs.Tables.{table_of};
ghost use Rattle.fl_script_lines.specs.Told.{names_of, named, IsNew, Tells, AsksAs};
ghost use Rattle.fl_script_lines.specs.Views.{end_name_of, back_end_of, command_of};

use crate::command::{BackEndText, Command, EndName};
use crate::event::{NamedEvent, Naming};
use crate::fault::LineFault;
use crate::table::{InterfaceNames, NameTable};
use fl_base::{EndId, MsgNo};
use fl_interface::{Interface, Message};
use fl_model::{Answer, DispatcherId, Event};
use fl_value_data::PlanNo;
use std::alloc::{AllocError, Global};

/// All names that a script has given. A thing's place in its list is the place by which the machine knows it.
#[derive(Drop)]
pub struct ScriptNames {
    /// Where names find memory.
    pub alloc: Global,
    /// The interfaces' names.
    pub interfaces: NameTable,
    /// Of each interface, the names of its messages.
    pub messages: Vec<NameTable>,
    /// The dispatchers' names.
    pub dispatchers: NameTable,
    /// Of each dispatcher, where it is.
    pub placed: Vec<DispatcherId>,
    /// The bindings' names.
    pub bindings: NameTable,
    /// Of each binding, its interface, by its place.
    pub spoken: Vec<usize>,
}

impl ScriptNames {
    /// No names. Takes no memory.
    pub fn new(alloc: Global) -> ScriptNames
        ensures none { names_of result ≡ no_names }
    {
        ScriptNames {
            alloc,
            interfaces: NameTable::new(alloc),
            messages: Vec::new(alloc),
            dispatchers: NameTable::new(alloc),
            placed: Vec::new(alloc),
            bindings: NameTable::new(alloc),
            spoken: Vec::new(alloc),
        }
    }

    /// The dispatcher of a name.
    pub fn dispatcher(&self, name: &[u8]) -> Option<DispatcherId>
        ensures same { option_map id_of result ≡ dispatcher_at (names_of self.now) name.now }
    {
        let place = self.dispatchers.find(name)?;
        match self.placed.get(place) {
            None => None,
            Some(id) => Some(*id),
        }
    }

    /// The end of a name.
    #[inline]
    pub fn end(&self, name: EndName<'_>) -> Option<EndId>
        ensures same { result ≡ end_at (names_of self.now) (end_name_of name.entry) }
    {
        let binding = self.bindings.find(name.binding)?;
        Some(EndId {
            binding,
            side: name.side,
        })
    }

    /// The end of a name, whose binding is looked for at the place `guess` first. Any guess gives the same answer.
    #[inline]
    pub fn end_near(&self, name: EndName<'_>, guess: usize) -> Option<EndId>
        ensures same { result ≡ end_at (names_of self.now) (end_name_of name.entry) }
    {
        let side = name.side;
        let binding = self.bindings.find_near(name.binding, guess)?;
        Some(EndId { binding, side })
    }

    // The names of the messages of an end's interface.
    #[inline(always)]
    fn messages(&self, end: EndId) -> Option<&NameTable>
        ensures same { messages_at (names_of self.now) end ≡ unwrap_or (option_map (λ t. table_of t.now) result) [] }
    {
        let interface = self.spoken.get(end.binding)?;
        self.messages.get(*interface)
    }

    /// The message of a name, at the interface of an end.
    #[inline]
    pub fn message(&self, end: EndId, name: &[u8]) -> Option<MsgNo>
        ensures same { option_map (λ m. m.0) result ≡ message_at (names_of self.now) end name.now }
    {
        let Some(table) = self.messages(end) else {
            return None;
        };
        let Some(place) = table.find(name) else {
            return None;
        };
        if place >= 65_536 {
            return None;
        }
        Some(MsgNo(place as u16))
    }

    /// The name of a message at the interface of an end; empty where there is none.
    pub fn message_name(&self, end: EndId, msg: MsgNo) -> &[u8]
        ensures name { result.now ≡ message_name (names_of self.now) end msg.0 }
    {
        let Some(table) = self.messages(end) else {
            return &[];
        };
        table.get(usize::from(msg.0)).unwrap_or(&[])
    }

    // An event that needs no name and gives none.
    fn ask_event<'a>(&self, event: Event<'a>) -> Result<NamedEvent<'a>, LineFault>
        ensures tells { Tells (names_of self.now) result (asks (event_of event.entry) (names_of self.now)) }
        ensures new { IfOk result (λ a. IsNew (names_of self.now) a.naming) }
    {
        Ok(NamedEvent {
            event,
            naming: Naming::Nothing,
        })
    }

    #[inline(never)]
    fn ask_disp<'a>(&self, name: &'a [u8], core: u32) -> Result<NamedEvent<'a>, LineFault>
        ensures tells { Tells (names_of self.now) result (asks_disp (names_of self.now) name.now core) }
        ensures new { IfOk result (λ a. IsNew (names_of self.now) a.naming) }
    {
        if self.dispatchers.find(name).is_some() {
            return Err(LineFault::Name);
        }
        Ok(NamedEvent {
            event: Event::AddDispatcher(core),
            naming: Naming::Dispatcher { name, core },
        })
    }

    #[inline(never)]
    fn ask_export<'a>(
        &self,
        name: &'a [u8],
        dispatcher: &[u8],
        interface: &[u8],
    ) -> Result<NamedEvent<'a>, LineFault>
        ensures tells { Tells (names_of self.now) result (asks_export (names_of self.now) name.now dispatcher.now interface.now) }
        ensures new { IfOk result (λ a. IsNew (names_of self.now) a.naming) }
    {
        let Some(dispatcher) = self.dispatcher(dispatcher) else {
            return Err(LineFault::Name);
        };
        let Some(interface) = self.interfaces.find(interface) else {
            return Err(LineFault::Name);
        };
        Ok(NamedEvent {
            event: Event::Export {
                name,
                dispatcher,
                interface,
            },
            naming: Naming::Nothing,
        })
    }

    #[inline(never)]
    fn ask_bind<'a>(
        &self,
        name: &'a [u8],
        client: &[u8],
        interface: &[u8],
        service: &'a [u8],
        back_end: BackEndText<'_>,
    ) -> Result<NamedEvent<'a>, LineFault>
        ensures tells { Tells (names_of self.now) result
            (asks_bind (names_of self.now) name.now client.now interface.now service.now (kind_of (back_end_of back_end.entry))) }
        ensures new { IfOk result (λ a. IsNew (names_of self.now) a.naming) }
    {
        if self.bindings.find(name).is_some() {
            return Err(LineFault::Name);
        }
        let Some(client) = self.dispatcher(client) else {
            return Err(LineFault::Name);
        };
        let Some(interface) = self.interfaces.find(interface) else {
            return Err(LineFault::Name);
        };
        Ok(NamedEvent {
            event: Event::Bind {
                client,
                interface,
                service,
                back_end: back_end.asked(),
            },
            naming: Naming::Binding { name, interface },
        })
    }

    fn ask_turn(&self, dispatcher: &[u8]) -> Result<NamedEvent<'static>, LineFault>
        ensures tells { Tells (names_of self.now) result (asks_turn (names_of self.now) dispatcher.now) }
        ensures new { IfOk result (λ a. IsNew (names_of self.now) a.naming) }
    {
        let Some(dispatcher) = self.dispatcher(dispatcher) else {
            return Err(LineFault::Name);
        };
        Ok(NamedEvent {
            event: Event::Turn(dispatcher),
            naming: Naming::Nothing,
        })
    }

    #[inline(never)]
    fn ask_reply(
        &self,
        end: EndName<'_>,
        message: &[u8],
        answer: &[u8],
    ) -> Result<NamedEvent<'static>, LineFault>
        ensures tells { Tells (names_of self.now) result (asks_reply (names_of self.now) (end_name_of end.entry) message.now answer.now) }
        ensures new { IfOk result (λ a. IsNew (names_of self.now) a.naming) }
    {
        let Some(end) = self.end(end) else {
            return Err(LineFault::Name);
        };
        let Some(message) = self.message(end, message) else {
            return Err(LineFault::NoSuchMessage);
        };
        let Some(answer) = self.message(end, answer) else {
            return Err(LineFault::NoSuchMessage);
        };
        Ok(NamedEvent {
            event: Event::Reply {
                end,
                message,
                answer,
            },
            naming: Naming::Nothing,
        })
    }

    fn ask_show(&self, end: EndName<'_>) -> Result<NamedEvent<'static>, LineFault>
        ensures tells { Tells (names_of self.now) result (asks_end (names_of self.now) show (end_name_of end.entry)) }
        ensures new { IfOk result (λ a. IsNew (names_of self.now) a.naming) }
    {
        let Some(end) = self.end(end) else {
            return Err(LineFault::Name);
        };
        Ok(NamedEvent {
            event: Event::Show(end),
            naming: Naming::Nothing,
        })
    }

    fn ask_write(&self, end: EndName<'_>) -> Result<NamedEvent<'static>, LineFault>
        ensures tells { Tells (names_of self.now) result (asks_end (names_of self.now) write (end_name_of end.entry)) }
        ensures new { IfOk result (λ a. IsNew (names_of self.now) a.naming) }
    {
        let Some(end) = self.end(end) else {
            return Err(LineFault::Name);
        };
        Ok(NamedEvent {
            event: Event::Write(end),
            naming: Naming::Nothing,
        })
    }

    fn ask_ack(&self, end: EndName<'_>) -> Result<NamedEvent<'static>, LineFault>
        ensures tells { Tells (names_of self.now) result (asks_end (names_of self.now) ack (end_name_of end.entry)) }
        ensures new { IfOk result (λ a. IsNew (names_of self.now) a.naming) }
    {
        let Some(end) = self.end(end) else {
            return Err(LineFault::Name);
        };
        Ok(NamedEvent {
            event: Event::Ack(end),
            naming: Naming::Nothing,
        })
    }

    fn ask_register(&self, end: EndName<'_>) -> Result<NamedEvent<'static>, LineFault>
        ensures tells { Tells (names_of self.now) result (asks_end (names_of self.now) register (end_name_of end.entry)) }
        ensures new { IfOk result (λ a. IsNew (names_of self.now) a.naming) }
    {
        let Some(end) = self.end(end) else {
            return Err(LineFault::Name);
        };
        Ok(NamedEvent {
            event: Event::Register(end),
            naming: Naming::Nothing,
        })
    }

    fn ask_deregister(&self, end: EndName<'_>) -> Result<NamedEvent<'static>, LineFault>
        ensures tells { Tells (names_of self.now) result (asks_end (names_of self.now) deregister (end_name_of end.entry)) }
        ensures new { IfOk result (λ a. IsNew (names_of self.now) a.naming) }
    {
        let Some(end) = self.end(end) else {
            return Err(LineFault::Name);
        };
        Ok(NamedEvent {
            event: Event::Deregister(end),
            naming: Naming::Nothing,
        })
    }

    fn ask_text(&self, end: EndName<'_>, text: &[u8]) -> Result<NamedEvent<'static>, LineFault>
        ensures asks { AsksAs (names_of self.now) (call (end_name_of end.entry) text.now) result }
        ensures new { IfOk result (λ a. IsNew (names_of self.now) a.naming) }
    {
        match self.call_at(end, text, Vec::new(self.alloc), 0) {
            Ok((end, call)) => self.ask_event(Event::Call(end, call)),
            Err(fault) => Err(fault),
        }
    }

    /// What a command asks of the machine by these names, and the name that is given where it is answered `ok`.
    ///
    /// # Errors
    /// The first that applies, of: the text of a call is none (E90); a name is unknown or, of a dispatcher or a binding
    /// that is to be made, taken (E92); the interface of the end has no such message (E41); else, of a call alone, out of
    /// memory (E99).
    pub fn ask<'a>(&self, command: Command<'a>) -> Result<NamedEvent<'a>, LineFault>
        ensures asks { AsksAs (names_of self.now) (command_of command.entry) result }
        ensures new { IfOk result (λ a. IsNew (names_of self.now) a.naming) }
    {
        match command {
            Command::Cores(n) => self.ask_event(Event::SetCores(n)),
            Command::Link { a, b, slots } => self.ask_event(Event::AddLink { a, b, slots }),
            Command::Disp { name, core } => self.ask_disp(name, core),
            Command::Export {
                name,
                dispatcher,
                interface,
            } => self.ask_export(name, dispatcher, interface),
            Command::Bind {
                name,
                client,
                interface,
                service,
                back_end,
            } => self.ask_bind(name, client, interface, service, back_end),
            Command::Call(end, text) => self.ask_text(end, text),
            Command::Show(end) => self.ask_show(end),
            Command::Write(end) => self.ask_write(end),
            Command::Turn(dispatcher) => self.ask_turn(dispatcher),
            Command::Ack(end) => self.ask_ack(end),
            Command::Register(end) => self.ask_register(end),
            Command::Deregister(end) => self.ask_deregister(end),
            Command::Reply {
                end,
                message,
                answer,
            } => self.ask_reply(end, message, answer),
            Command::MonitorWrite { core, neighbour } => {
                self.ask_event(Event::MonitorWrite { core, neighbour })
            }
            Command::Forward { core, neighbour } => self.ask_event(Event::Forward {
                core,
                neighbour,
            }),
            Command::MonitorAck { core, neighbour } => {
                self.ask_event(Event::MonitorAck { core, neighbour })
            }
        }
    }

    /// What a block asks whose text stands for an interface.
    ///
    /// # Errors
    /// The interface's name is taken (E92). Out of memory (E99).
    pub fn ask_interface(
        &self,
        interface: Interface,
        plan: PlanNo,
    ) -> Result<NamedEvent<'static>, LineFault>
        ensures asks { (result ≡ Err LineFault.Memory)
            ⊎ Tells (names_of self.now) result (asks_interface (names_of self.now) (interface_of interface) plan) }
        ensures new { IfOk result (λ a. IsNew (names_of self.now) a.naming) }
    {
        if self.interfaces.find(&interface.name.bytes).is_some() {
            return Err(LineFault::Name);
        }
        match names_of_interface(self.alloc, &interface) {
            Err(_) => Err(LineFault::Memory),
            Ok(names) => Ok(NamedEvent {
                event: Event::AddInterface { interface, plan },
                naming: Naming::Interface(names),
            }),
        }
    }

    fn add_interface(&mut self, interface: InterfaceNames) -> Result<(), AllocError>
        requires { place_of interface.name.items (table_of self.old.interfaces) ≡ None }
        ensures added { OnOk result (names_of self.new
            ≡ with_names (names_of self.old) interface.name.items (table_of interface.messages)) }
        ensures kept { OnErr result (names_of self.new ≡ names_of self.old) }
    {
        self.messages.push(interface.messages)?;
        if let Err(error) = self.interfaces.add(self.alloc, &interface.name) {
            self.messages.pop();
            return Err(error);
        }
        Ok(())
    }

    fn add_dispatcher(&mut self, name: &[u8], core: u32) -> Result<(), AllocError>
        requires { place_of name.now (table_of self.old.dispatchers) ≡ None }
        ensures added { OnOk result (names_of self.new ≡ with_dispatcher (names_of self.old) name.now core) }
        ensures kept { OnErr result (names_of self.new ≡ names_of self.old) }
    {
        let place = count_on(core, &self.placed);
        self.placed.push(DispatcherId { core, place })?;
        if let Err(error) = self.dispatchers.add(self.alloc, name) {
            self.placed.pop();
            return Err(error);
        }
        Ok(())
    }

    fn add_binding(&mut self, name: &[u8], interface: usize) -> Result<(), AllocError>
        requires { place_of name.now (table_of self.old.bindings) ≡ None }
        ensures added { OnOk result (names_of self.new ≡ with_binding (names_of self.old) name.now interface) }
        ensures kept { OnErr result (names_of self.new ≡ names_of self.old) }
    {
        self.spoken.push(interface)?;
        if let Err(error) = self.bindings.add(self.alloc, name) {
            self.spoken.pop();
            return Err(error);
        }
        Ok(())
    }

    fn add(&mut self, naming: Naming<'_>) -> Result<(), AllocError>
        requires { IsNew (names_of self.old) naming }
        ensures added { OnOk result (names_of self.new ≡ named (names_of self.old) naming.entry) }
        ensures kept { OnErr result (names_of self.new ≡ names_of self.old) }
    {
        match naming {
            Naming::Nothing => Ok(()),
            Naming::Dispatcher { name, core } => self.add_dispatcher(name, core),
            Naming::Binding { name, interface } => self.add_binding(name, interface),
            Naming::Interface(interface) => self.add_interface(Box::into_inner(interface)),
        }
    }

    /// Records the name that an event gives, if it was answered `ok`.
    ///
    /// # Errors
    /// Out of memory; the names are as they were.
    pub fn take_up(&mut self, naming: Naming<'_>, answer: &Answer) -> Result<(), AllocError>
        requires { IsNew (names_of self.old) naming }
        ensures taken { OnOk result (names_of self.new
            ≡ names_after (names_of self.old) (named (names_of self.old) naming.entry) (answer_of answer.now)) }
        ensures kept { OnErr result (names_of self.new ≡ names_of self.old) }
    {
        if answer.is_done() {
            return self.add(naming);
        }
        Ok(())
    }
}

// The names of these messages, in order.
fn table_of_messages(alloc: Global, messages: &[Message]) -> Result<NameTable, AllocError>
    requires { are_distinct (map (λ m. m.name.bytes.items) messages.now) ≡ true }
    ensures names { IfOk result (λ t. table_of t ≡ map (λ m. m.name.bytes.items) messages.now) }
{
    let mut table = NameTable::new(alloc);
    for message in messages {
        table.add(alloc, &message.name.bytes)?;
    }
    Ok(table)
}

fn names_in(alloc: Global, interface: &Interface) -> Result<InterfaceNames, AllocError>
    ensures name { IfOk result (λ n. n.name.items ≡ (interface_of interface.now).name) }
    ensures messages { IfOk result (λ n. table_of n.messages ≡ map (λ m. m.name) (interface_of interface.now).messages) }
{
    Ok(InterfaceNames {
        name: Vec::from_slice(alloc, &interface.name.bytes)?,
        messages: table_of_messages(alloc, &interface.messages)?,
    })
}

/// The names of an interface, taken before the event that adds it takes the interface itself.
///
/// # Errors
/// Out of memory (E99), and nothing else.
pub fn names_of_interface(
    alloc: Global,
    interface: &Interface,
) -> Result<Box<InterfaceNames>, AllocError>
    ensures name { IfOk result (λ n. n.value.name.items ≡ (interface_of interface.now).name) }
    ensures messages { IfOk result (λ n. table_of n.value.messages ≡ map (λ m. m.name) (interface_of interface.now).messages) }
{
    let names = names_in(alloc, interface)?;
    Ok(Box::new(alloc, names)?)
}

// How many of these dispatchers are on a core.
fn count_on(core: u32, ids: &[DispatcherId]) -> usize
    ensures count { result ≡ count_by (is_on core) (map id_of ids.now) }
{
    let mut count = 0;
    for id in ids {
        if id.core == core {
            count += 1;
        }
    }
    count
}
