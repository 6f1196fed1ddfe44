//! A script's lines and their answers, read as what was made, put and taken.

use crate::flows::{CORES, DrawnBinding, Flows};
use crate::run::{Actor, Carried, DrawnDispatcher, DrawnEnd, Passage, Spot};
use bstr::ByteSlice;
use fl_base::Side;
use fl_script_lines::{BackEndText, Command, EndName, NameTable};
use std::alloc::Global;
use std::collections::VecDeque;

/// What a row shows beside its text: who acted, who had put what was taken, and who is to take what was put.
#[derive(Clone, Copy)]
pub(crate) struct Acted {
    pub actor: Option<Actor>,
    pub source: Option<Actor>,
    pub goal: Option<Actor>,
}

impl Acted {
    /// Nothing was put or taken.
    pub(crate) fn alone(actor: Option<Actor>) -> Acted {
        Acted {
            actor,
            source: None,
            goal: None,
        }
    }
}

/// All that a script has made so far, by its lines and answers; whole unless memory was refused.
#[derive(Drop)]
pub(crate) struct Trace<'a> {
    alloc: Global,
    dispatcher_names: NameTable,
    dispatchers: Vec<DrawnDispatcher<'a>>,
    service_names: NameTable,
    services: Vec<usize>,
    binding_names: NameTable,
    linked: Vec<u32>,
    flows: Flows,
    is_whole: bool,
}

/// What came of a whole script: what passed, the dispatchers, and the cores that links join; and whether memory
/// was never refused.
#[derive(Drop)]
pub(crate) struct TracedRun<'a> {
    pub passages: Vec<Passage>,
    pub dispatchers: Vec<DrawnDispatcher<'a>>,
    pub linked: Vec<u32>,
    pub is_whole: bool,
}

// The first word of an answer, and what stands behind it.
fn first_word(answer: &[u8]) -> (&[u8], &[u8]) {
    answer.split_once_str(b" ").unwrap_or((answer, b""))
}

// Whether a word is one of these.
fn is_among(word: &[u8], words: &[&[u8]]) -> bool {
    for one in words {
        if word == *one {
            return true;
        }
    }
    false
}

impl<'a> Trace<'a> {
    /// Nothing was made yet.
    pub(crate) fn new(alloc: Global) -> Trace<'a> {
        Trace {
            alloc,
            dispatcher_names: NameTable::new(alloc),
            dispatchers: Vec::new(alloc),
            service_names: NameTable::new(alloc),
            services: Vec::new(alloc),
            binding_names: NameTable::new(alloc),
            linked: Vec::new(alloc),
            flows: Flows::new(alloc),
            is_whole: true,
        }
    }

    /// What came of the script, behind its last line.
    pub(crate) fn told(self) -> TracedRun<'a> {
        let Trace {
            dispatchers,
            linked,
            flows,
            is_whole,
            ..
        } = self;
        let Flows {
            passages,
            is_whole: is_flow_whole,
            ..
        } = flows;
        TracedRun {
            passages,
            dispatchers,
            linked,
            is_whole: is_whole && is_flow_whole,
        }
    }

    // Remembers whether memory served.
    fn note(&mut self, is_done: bool) {
        self.is_whole = self.is_whole && is_done;
    }

    fn dispatcher(&self, name: &[u8]) -> Option<Actor> {
        Some(Actor::Dispatcher(self.dispatcher_names.find(name)?))
    }

    fn end(&self, name: EndName<'_>) -> Option<DrawnEnd> {
        let binding = self.binding_names.find(name.binding)?;
        Some(DrawnEnd {
            binding,
            side: name.side,
        })
    }

    // The end that an answer names, as its first word.
    fn end_told(&self, text: &[u8]) -> Option<DrawnEnd> {
        let (word, _) = first_word(text);
        let [name @ .., b'.', letter] = word else {
            return None;
        };
        let side = match letter {
            b'c' => Side::Client,
            b's' => Side::Server,
            _ => return None,
        };
        let binding = self.binding_names.find(name)?;
        Some(DrawnEnd { binding, side })
    }

    // The dispatcher of an end.
    fn actor(&self, name: EndName<'_>) -> Option<Actor> {
        let place = self.binding_names.find(name.binding)?;
        Some(self.flows.bindings.get(place)?.dispatcher(name.side))
    }

    // The monitor of a core that has a lane.
    fn monitor(&self, core: u32) -> Option<Actor> {
        if !self.linked.contains(&core) {
            return None;
        }
        Some(Actor::Monitor(core))
    }

    // A core that a link joins.
    fn make_linked(&mut self, core: u32) {
        if core < CORES && !self.linked.contains(&core) {
            let is_made = self.linked.push(core).is_ok();
            self.note(is_made);
        }
    }

    fn make_dispatcher(&mut self, name: &'a [u8], core: u32) {
        if self.dispatcher_names.find(name).is_none() {
            let is_named = self.dispatcher_names.add(self.alloc, name).is_ok();
            let is_made = self
                .dispatchers
                .push(DrawnDispatcher { name, core })
                .is_ok();
            self.note(is_named && is_made);
        }
    }

    fn make_service(&mut self, name: &[u8], dispatcher: &[u8]) {
        let Some(place) = self.dispatcher_names.find(dispatcher) else {
            return;
        };
        if self.service_names.find(name).is_none() {
            let is_named = self.service_names.add(self.alloc, name).is_ok();
            let is_made = self.services.push(place).is_ok();
            self.note(is_named && is_made);
        }
    }

    // The dispatcher that exports a service.
    fn server(&self, service: &[u8]) -> Option<usize> {
        let place = self.service_names.find(service)?;
        self.services.get(place).copied()
    }

    fn make_binding(&mut self, name: &[u8], client: usize, server: usize, route: Vec<u32>) {
        if self.binding_names.find(name).is_none() {
            let alloc = self.alloc;
            let is_named = self.binding_names.add(alloc, name).is_ok();
            let binding = DrawnBinding {
                client,
                server,
                route,
                to_client: VecDeque::new(alloc),
                to_server: VecDeque::new(alloc),
            };
            let is_made = self.flows.bindings.push(binding).is_ok();
            self.note(is_named && is_made);
        }
    }

    // A binding's circuit, if it is one.
    fn route(&mut self, back_end: BackEndText<'_>) -> Vec<u32> {
        let BackEndText::Hop(route) = back_end else {
            return Vec::new(self.alloc);
        };
        match route.cores(self.alloc) {
            Ok(cores) => cores,
            Err(_) => {
                self.note(false);
                Vec::new(self.alloc)
            }
        }
    }

    fn turn(&mut self, actor: Option<Actor>, answer: &[u8], row: usize) -> Acted {
        let (word, rest) = first_word(answer);
        let Some(end) = self.end_told(rest) else {
            return Acted::alone(actor);
        };
        let source = if is_among(word, &[b"handle", b"part"]) {
            self.flows.take(end, row)
        } else if is_among(word, &[b"quiet"]) {
            self.flows.look(end, row)
        } else {
            None
        };
        Acted {
            actor,
            source,
            goal: None,
        }
    }

    // Whether a core took something from a link, by its answer.
    fn is_taken(&self, answer: &[u8]) -> bool {
        let (word, rest) = first_word(answer);
        if is_among(word, &[b"refused"]) {
            return self.end_told(first_word(rest).1).is_some();
        }
        is_among(word, &[b"forwarded", b"ok", b"opened"])
    }

    fn forward(&mut self, core: u32, neighbour: u32, answer: &[u8], row: usize) -> Acted {
        let actor = self.monitor(core);
        if !self.is_taken(answer) {
            return Acted::alone(actor);
        }
        let Some((source, bound)) = self.flows.take_from_link(row, core, neighbour) else {
            return Acted::alone(actor);
        };
        let from = Spot {
            row,
            actor: Actor::Monitor(core),
        };
        let goal = match bound {
            None => None,
            Some(end) => self.flows.go_on(end, from, core),
        };
        Acted {
            actor,
            source: Some(source),
            goal,
        }
    }

    // What was made by a command that was done.
    fn make(&mut self, command: Command<'a>) {
        match command {
            Command::Link { a, b, .. } => {
                self.make_linked(a);
                self.make_linked(b);
            }
            Command::Disp { name, core } => self.make_dispatcher(name, core),
            Command::Export {
                name,
                dispatcher,
                ..
            } => self.make_service(name, dispatcher),
            Command::Bind {
                name,
                client,
                service,
                back_end,
                ..
            } => {
                let client = self.dispatcher_names.find(client);
                if let (Some(client), Some(server)) = (client, self.server(service)) {
                    let route = self.route(back_end);
                    self.make_binding(name, client, server, route);
                }
            }
            _ => {}
        }
    }

    // What was put by a command that was done: who is to take it.
    fn put(&mut self, command: Command<'a>, row: usize) -> Option<Actor> {
        let (carried, core, neighbour) = match command {
            Command::Write(name) => {
                let end = self.end(name)?;
                return self.flows.write(end, row);
            }
            Command::Ack(name) => {
                let end = self.end(name)?;
                return self.flows.acknowledge(end, row);
            }
            Command::MonitorAck { core, neighbour } => {
                (Carried::Acknowledgement, core, neighbour)
            }
            Command::MonitorWrite { core, neighbour } => {
                (Carried::MonitorMessage, core, neighbour)
            }
            _ => return None,
        };
        let from = Spot {
            row,
            actor: Actor::Monitor(core),
        };
        self.flows
            .put_on_link(carried, from, (core, neighbour), None)
    }

    // Who acts by a command, if anyone who has a lane.
    fn who(&self, command: Command<'a>) -> Option<Actor> {
        match command {
            Command::Disp { name, .. } => self.dispatcher(name),
            Command::Export { dispatcher, .. } => self.dispatcher(dispatcher),
            Command::Bind { client, .. } => self.dispatcher(client),
            Command::Call(name, _)
            | Command::Show(name)
            | Command::Write(name)
            | Command::Ack(name)
            | Command::Register(name)
            | Command::Deregister(name) => self.actor(name),
            Command::Reply { end, .. } => self.actor(end),
            Command::MonitorWrite { core, .. } | Command::MonitorAck { core, .. } => {
                self.monitor(core)
            }
            _ => None,
        }
    }

    /// Takes up a command and its answer.
    pub(crate) fn take_up(&mut self, command: Command<'a>, answer: &[u8], row: usize) -> Acted {
        match command {
            Command::Turn(name) => {
                let actor = self.dispatcher(name);
                self.turn(actor, answer, row)
            }
            Command::Forward { core, neighbour } => self.forward(core, neighbour, answer, row),
            _ => self.command(command, answer, row),
        }
    }

    // The same for a command that takes nothing.
    fn command(&mut self, command: Command<'a>, answer: &[u8], row: usize) -> Acted {
        let mut goal = None;
        let (word, _) = first_word(answer);
        if is_among(word, &[b"ok", b"written"]) {
            self.make(command);
            goal = self.put(command, row);
        }
        Acted {
            actor: self.who(command),
            source: None,
            goal,
        }
    }
}
