//! What a run of cores left undone, from its file and its report: for each end how many calls it was to
//! handle and how many it handled.

use fl_base::Side;
use fl_script_lines::{
    BackEndText, Command, EndName, NameTable, RawItem, Verb, next_part, read_command,
};
use std::alloc::Global;
use std::fmt;
use std::io::Write;

/// Counts of a binding's two ends.
#[derive(Clone, Copy)]
struct Counts {
    client: usize,
    server: usize,
}

impl Counts {
    fn add(&mut self, side: Side) {
        match side {
            Side::Client => self.client = self.client.saturating_add(1),
            Side::Server => self.server = self.server.saturating_add(1),
        }
    }
}

/// A binding of a cores file: its name, the client's dispatcher, the service and whether a circuit joins its
/// ends; the calls that each end is to handle and those that it handled; and whether its opening was refused.
#[derive(Clone, Copy)]
struct Bound<'a> {
    name: &'a [u8],
    client: &'a [u8],
    service: &'a [u8],
    is_circuit: bool,
    due: Counts,
    handled: Counts,
    is_refused: bool,
}

impl<'a> Bound<'a> {
    fn new(name: &'a [u8], client: &'a [u8], service: &'a [u8], is_circuit: bool) -> Bound<'a> {
        let none = Counts {
            client: 0,
            server: 0,
        };
        Bound {
            name,
            client,
            service,
            is_circuit,
            due: none,
            handled: none,
            is_refused: false,
        }
    }
}

/// A reply rule: at which end, and of which message.
#[derive(Clone, Copy)]
struct FileRule<'a> {
    end: EndName<'a>,
    message: &'a [u8],
}

/// What a cores file makes, by the names of its lines; some is missing where memory was refused.
#[derive(Drop)]
struct Made<'a> {
    is_whole: bool,
    cores: Vec<(&'a [u8], u32)>,
    services: Vec<(&'a [u8], &'a [u8])>,
    // Each binding's name, at its place.
    names: NameTable,
    bindings: Vec<Bound<'a>>,
    // The place that was looked up last.
    last: usize,
    rules: Vec<FileRule<'a>>,
}

fn other(side: Side) -> Side {
    match side {
        Side::Client => Side::Server,
        Side::Server => Side::Client,
    }
}

impl<'a> Made<'a> {
    fn new(alloc: Global) -> Made<'a> {
        Made {
            is_whole: true,
            cores: Vec::new(alloc),
            services: Vec::new(alloc),
            names: NameTable::new(alloc),
            bindings: Vec::new(alloc),
            last: 0,
            rules: Vec::new(alloc),
        }
    }

    // The place of a binding's name: most lines name the binding of the line before.
    fn find(&mut self, name: &[u8]) -> Option<usize> {
        let place = self.names.find_near(name, self.last)?;
        self.last = place;
        Some(place)
    }

    // The end's other side has one more call to handle. Tells whether there is such an end.
    fn add_due(&mut self, end: EndName<'_>) -> bool {
        let Some(place) = self.find(end.binding) else {
            return false;
        };
        if let Some(binding) = self.bindings.get_mut(place) {
            binding.due.add(other(end.side));
        }
        true
    }

    // Takes up a call, where its end stands directly behind its word: of most lines no more is read. Tells whether it does.
    fn take_call(&mut self, words: &[u8]) -> bool {
        match end_before_blank(words) {
            Some(end) => self.add_due(end),
            None => false,
        }
    }

    // Takes up a binding, and tells whether memory held it. In a file that was accepted no name is another's.
    fn add_binding(&mut self, alloc: Global, bound: Bound<'a>) -> bool {
        match self.names.find(bound.name) {
            Some(_) => true,
            None => {
                self.names.add(alloc, bound.name).is_ok() && self.bindings.push(bound).is_ok()
            }
        }
    }

    // Takes up a line of the file.
    fn take(&mut self, alloc: Global, command: Command<'a>) {
        let is_kept = match command {
            Command::Disp { name, core } => self.cores.push((name, core)).is_ok(),
            Command::Export {
                name,
                dispatcher,
                interface: _,
            } => self.services.push((name, dispatcher)).is_ok(),
            Command::Bind {
                name,
                client,
                interface: _,
                service,
                back_end,
            } => {
                let is_circuit = matches!(back_end, BackEndText::Hop(_));
                self.add_binding(alloc, Bound::new(name, client, service, is_circuit))
            }
            Command::Reply {
                end,
                message,
                answer: _,
            } => self.rules.push(FileRule { end, message }).is_ok(),
            Command::Call(end, _) => {
                let _is_known = self.add_due(end);
                true
            }
            _ => true,
        };
        self.is_whole = self.is_whole && is_kept;
    }

    // Takes up a line that begins with this word.
    fn take_line(&mut self, alloc: Global, verb: Verb, words: &'a [u8]) {
        if verb == Verb::Call && self.take_call(words) {
            return;
        }
        if let Some(command) = read_command(verb, words) {
            self.take(alloc, command);
        }
    }

    // An end handled a message: a rule has it answer.
    fn handle(&mut self, end: EndName<'_>, message: &[u8]) {
        if let Some(place) = self.find(end.binding) {
            if let Some(binding) = self.bindings.get_mut(place) {
                binding.handled.add(end.side);
            }
        }
        if self.answers(end, message) {
            let _is_known = self.add_due(end);
        }
    }

    // Whether a rule at an end answers a message.
    fn answers(&self, end: EndName<'_>, message: &[u8]) -> bool {
        for rule in &self.rules {
            let is_there = rule.end.binding == end.binding && rule.end.side == end.side;
            if is_there && rule.message == message {
                return true;
            }
        }
        false
    }

    // Takes up a line of the report.
    fn report(&mut self, line: &[u8]) {
        if let Some(behind) = line.strip_prefix(b"handle ".as_slice()) {
            let (end, call) = split_at_first(behind, b' ');
            let (message, _) = split_at_first(call, b'(');
            if let Some(end) = end_named(end) {
                self.handle(end, message);
            }
        } else if let Some(behind) = line.strip_prefix(b"refused ".as_slice()) {
            let (_number, end) = split_at_first(behind, b' ');
            let (refused, _) = split_at_first(end, b'.');
            self.refuse(refused);
        }
    }

    // The opening of a binding was refused.
    fn refuse(&mut self, name: &[u8]) {
        if let Some(place) = self.find(name) {
            if let Some(binding) = self.bindings.get_mut(place) {
                binding.is_refused = true;
            }
        }
    }

    // The core of a dispatcher.
    fn core_of(&self, dispatcher: &[u8]) -> u32 {
        for (name, core) in &self.cores {
            if *name == dispatcher {
                return *core;
            }
        }
        0
    }

    // The core of a service's dispatcher.
    fn service_core(&self, service: &[u8]) -> u32 {
        for (name, dispatcher) in &self.services {
            if *name == service {
                return self.core_of(dispatcher);
            }
        }
        0
    }
}

// What stands before the first of a byte, and behind it.
fn split_at_first(text: &[u8], byte: u8) -> (&[u8], &[u8]) {
    for (at, one) in text.iter().enumerate() {
        if *one == byte {
            return (&text[..at], &text[at + 1..]);
        }
    }
    (text, b"")
}

fn end_named(text: &[u8]) -> Option<EndName<'_>> {
    let (binding, side) = split_at_first(text, b'.');
    match side {
        b"c" => Some(EndName {
            binding,
            side: Side::Client,
        }),
        b"s" => Some(EndName {
            binding,
            side: Side::Server,
        }),
        _ => None,
    }
}

// The end that words begin with, if a space stands behind it.
fn end_before_blank(words: &[u8]) -> Option<EndName<'_>> {
    let (binding, behind) = split_at_first(words, b'.');
    match behind {
        [b'c', b' ', ..] => Some(EndName {
            binding,
            side: Side::Client,
        }),
        [b's', b' ', ..] => Some(EndName {
            binding,
            side: Side::Server,
        }),
        _ => None,
    }
}

/// An end that had calls left to handle.
#[derive(Clone, Copy)]
struct Left<'a> {
    name: &'a [u8],
    side: Side,
    core: u32,
    other_core: u32,
    handled: usize,
    due: usize,
}

fn letter(side: Side) -> &'static str {
    match side {
        Side::Client => "c",
        Side::Server => "s",
    }
}

impl fmt::Display for Left<'_> {
    fn fmt<W: fmt::Write>(&self, f: &mut fmt::Formatter<W>) -> fmt::Result {
        let name = self.name.escape_ascii();
        write!(
            f,
            "{name}.{}, on core {}, handled {}",
            letter(self.side),
            self.core,
            self.handled
        )?;
        let name = self.name.escape_ascii();
        let from = letter(other(self.side));
        write!(
            f,
            " of the {} calls that {name}.{from}, on core {}, was to make\n",
            self.due, self.other_core
        )
    }
}

const BOTH_WAYS: &str =
    "help: a circuit with calls both ways can stick for good; docs/WIRE.md, \"Choosing N\", says \
how many slots its links want\n";

// Tells of an end that had calls left to handle, and whether it had.
fn tell_end<E: Write>(left: Left<'_>, errors: &mut E) -> bool {
    let is_left = left.handled < left.due;
    if is_left {
        let _told = write!(errors, "{left}");
    }
    is_left
}

// Tells of a binding whose ends had calls left to handle.
fn tell_binding<E: Write>(made: &Made<'_>, binding: &Bound<'_>, errors: &mut E) {
    let at_server = Left {
        name: binding.name,
        side: Side::Server,
        core: made.service_core(binding.service),
        other_core: made.core_of(binding.client),
        handled: binding.handled.server,
        due: binding.due.server,
    };
    let at_client = Left {
        name: binding.name,
        side: Side::Client,
        core: at_server.other_core,
        other_core: at_server.core,
        handled: binding.handled.client,
        due: binding.due.client,
    };
    let is_server_left = tell_end(at_server, errors);
    if tell_end(at_client, errors) && is_server_left && binding.is_circuit {
        let _told = errors.write_all(BOTH_WAYS.as_bytes());
    }
}

fn made_by<'a>(alloc: Global, content: &'a [u8]) -> Made<'a> {
    let mut made = Made::new(alloc);
    let mut rest = content;
    while !rest.is_empty() {
        let (part, behind) = next_part(rest);
        if let RawItem::Command(verb, words) = part {
            made.take_line(alloc, verb, words);
        }
        rest = behind;
    }
    made
}

/// Tells what a run of cores left undone, from the file's content and its report, if memory isn't refused.
pub fn tell_unfinished<E: Write>(alloc: Global, content: &[u8], report: &[u8], errors: &mut E) {
    let mut made = made_by(alloc, content);
    if !made.is_whole {
        return;
    }
    for line in report.split(|byte| *byte == b'\n') {
        made.report(line);
    }
    for binding in &made.bindings {
        if !binding.is_refused {
            tell_binding(&made, binding, errors);
        }
    }
}
