//! A cores file read line by line.

ghost use Rattle.std.specs.Prelude.{ℕ, ◌≡◌, ◌≤◌, ◌==◌, Err, IfOk, IfErr, OnErr, false, length};
ghost use Rattle.std.specs.List.{count_by};
ghost use Rattle.fl_interface.specs.Interface.{interface_of};
ghost use Rattle.fl_script_lines.specs.Asked.{Asked as TheAsked, asks};
ghost use Rattle.fl_model.specs.Views.{event_of};
ghost use Rattle.fl_script_lines.specs.Items.{a_line, a_block, is_too_long};
ghost use Rattle.fl_script_lines.specs.Told.{names_of, named, IsNew, Tells};
ghost use Rattle.fl_script_lines.specs.Reading.{command_by, line_with};
ghost use Rattle.fl_script_lines.specs.Views.{command_of, part_of};
ghost use Rattle.fl_check.specs.Text.{stands_for};
ghost use Rattle.fl_cores_file.specs.CoresFile.{beginning, belongs, Does, does, does_block, DoesCommand, lines_in};
ghost use Rattle.fl_cores_file.specs.CoresFile.{file_left, is_file, refused_at, Reads};
ghost use Rattle.fl_cores_file.specs.Files.{reading_of, outcome_of};
ghost use Rattle.fl_cores_file.specs.Verdicts.{Comes, ComesTo};

use crate::draft::Draft;
use crate::file::{CoresFile, CoresText, number};
use crate::stop::{CoresLineFault, stop_by};
use fl_base::faults;
use fl_check::{TextRead, read_text};
use fl_interface::Interface;
use fl_model::Answer;
use fl_script_lines::{
    Command, LineFault, NamedEvent, RawItem, ScriptNames, Verb, law_some_items, next_part,
    read_command,
};
use fl_value_data::{PlanNo, Value};
use std::alloc::{AllocError, Global};
use std::mem;

/// Bytes of the longest cores file; of a longer one line 1 is refused (E91).
pub const MAX_TEXT: usize = 1_048_576;

/// How far a cores file is read: the names that its lines gave, and what they come to.
#[derive(Drop)]
pub struct PartialCoresFile<'a> {
    pub names: ScriptNames,
    pub draft: Draft<'a>,
    // The memory in which each call is read; what is kept of it has memory of its own.
    room: Vec<Value>,
}

// Whether a command may stand in a cores file.
fn belongs(command: &Command<'_>) -> bool
    ensures same { result ≡ belongs (command_of command.now) }
{
    match command {
        Command::Cores(_)
        | Command::Link { .. }
        | Command::Disp { .. }
        | Command::Export { .. }
        | Command::Bind { .. }
        | Command::Call(_, _)
        | Command::Reply { .. } => true,
        Command::Show(_)
        | Command::Write(_)
        | Command::Turn(_)
        | Command::Ack(_)
        | Command::Register(_)
        | Command::Deregister(_)
        | Command::MonitorWrite { .. }
        | Command::Forward { .. }
        | Command::MonitorAck { .. } => false,
    }
}

impl<'a> PartialCoresFile<'a> {
    // Nothing is read yet. Takes no memory.
    pub(crate) fn new(alloc: Global) -> PartialCoresFile<'a>
        ensures beginning { reading_of result ≡ beginning }
    {
        PartialCoresFile {
            names: ScriptNames::new(alloc),
            draft: Draft::new(alloc),
            room: Vec::new(alloc),
        }
    }

    // Takes up what is asked, and the name that it gives.
    fn take(&mut self, asked: NamedEvent<'a>) -> Result<(), CoresLineFault>
        requires { IsNew (names_of self.old.names) asked.naming }
        ensures comes { Comes result (reading_of self.new)
            (does (reading_of self.old) (asks (event_of asked.entry.event) (named (names_of self.old.names) asked.entry.naming))) }
    {
        if let Err(stop) = self.draft.take(asked.event) {
            return Err(stop);
        }
        self.names.take_up(asked.naming, &Answer::Done)?;
        Ok(())
    }

    // Takes it up, or stops.
    #[tactic(auto, using(crate::proofs::Comings::asked_told))]
    fn take_asked(&mut self, asked: Result<NamedEvent<'a>, LineFault>) -> Result<(), CoresLineFault>
        requires { IfOk asked (λ a. IsNew (names_of self.old.names) a.naming) }
        ensures comes { (x : TheAsked) → Tells (names_of self.old.names) asked.entry x → Comes result (reading_of self.new) (does (reading_of self.old) x) }
        ensures memory { asked.entry ≡ Err LineFault.Memory → result ≡ Err CoresLineFault.Memory }
    {
        match asked {
            Ok(asked) => self.take(asked),
            Err(fault) => Err(stop_by(fault)),
        }
    }

    #[tactic(auto, using(crate::proofs::Comings::command_comes))]
    fn command(&mut self, command: Command<'a>) -> Result<(), CoresLineFault>
        ensures comes { ComesTo result (reading_of self.new) (DoesCommand (reading_of self.old) (command_of command.entry)) }
    {
        if !belongs(&command) {
            return Err(CoresLineFault::Refused(faults::UNREAD));
        }
        let asked = self.names.ask(command);
        self.take_asked(asked)
    }

    #[tactic(auto, using(crate::proofs::Comings::interface_comes))]
    fn interface(&mut self, interface: Interface, plan: PlanNo) -> Result<(), CoresLineFault>
        ensures comes { Comes result (reading_of self.new) (does_block (reading_of self.old) plan (stands_for (interface_of interface))) }
    {
        let asked = self.names.ask_interface(interface, plan);
        self.take_asked(asked)
    }

    #[tactic(auto, using(crate::proofs::Comings::block_comes))]
    fn block(&mut self, plan: PlanNo, text: &[u8]) -> Result<(), CoresLineFault>
        ensures comes { ComesTo result (reading_of self.new) (Does (reading_of self.old) (a_block plan text.now)) }
    {
        match read_text(self.draft.alloc, text)? {
            TextRead::Fault { number, .. } => Err(CoresLineFault::Refused(number)),
            TextRead::Interface(interface) => self.interface(interface, plan),
        }
    }

    // A call, from what stands behind its word. Most lines are such: nothing is prepared for what others ask.
    fn call_line(&mut self, rest: &[u8]) -> Result<(), CoresLineFault>
        ensures comes { ComesTo result (reading_of self.new) (Does (reading_of self.old) (a_line (line_with (command_by Verb.Call rest.now)))) }
    {
        let room = mem::replace(&mut self.room, Vec::new(self.draft.alloc));
        match self.names.call_line(rest, room, 0) {
            Ok((end, mut call)) => {
                let taken = self.draft.call(end, &mut call);
                self.room = call.args;
                taken
            }
            Err(fault) => Err(stop_by(fault)),
        }
    }

    // A line that begins with another word.
    #[inline(never)]
    fn other_line(&mut self, verb: Verb, rest: &'a [u8]) -> Result<(), CoresLineFault>
        ensures comes { ComesTo result (reading_of self.new) (Does (reading_of self.old) (a_line (line_with (command_by verb rest.now)))) }
    {
        match read_command(verb, rest) {
            Some(command) => self.command(command),
            None => Err(CoresLineFault::Refused(faults::UNREAD)),
        }
    }

    fn line(&mut self, verb: Verb, rest: &'a [u8]) -> Result<(), CoresLineFault>
        ensures comes { ComesTo result (reading_of self.new) (Does (reading_of self.old) (a_line (line_with (command_by verb rest.now)))) }
    {
        match verb {
            Verb::Call => self.call_line(rest),
            _ => self.other_line(verb, rest),
        }
    }

    // Takes up an item. Where it stops, the reading is of no more use.
    fn part(&mut self, part: RawItem<'a>) -> Result<(), CoresLineFault>
        ensures comes { ComesTo result (reading_of self.new) (Does (reading_of self.old) (part_of part.entry)) }
    {
        match part {
            RawItem::Silent => Ok(()),
            RawItem::Command(verb, rest) => self.line(verb, rest),
            RawItem::Block(plan, text) => self.block(plan, text),
            RawItem::Unread | RawItem::OpenBlock => Err(CoresLineFault::Refused(faults::UNREAD)),
        }
    }

    // Reads a text to its end, and numbers its bindings; or it tells of the first line that is refused.
    fn read(&mut self, text: &'a [u8]) -> Result<Vec<usize>, (usize, CoresLineFault)>
        requires beginning { reading_of self.old ≡ beginning }
        requires short { is_too_long text.now ≡ false }
        ensures file { IfOk result (λ numbers. Reads text.now (is_file (file_left numbers.items (reading_of self.new)))) }
        ensures refused { IfErr result (λ s. (number : ℕ) → s.1 ≡ CoresLineFault.Refused number → Reads text.now (refused_at s.0 number)) }
    {
        law_some_items();
        let mut rest = text;
        let mut line = 1;
        while !rest.is_empty() {
            let (part, behind) = next_part(rest);
            let lines = lines_in(&part);
            if let Err(stop) = self.part(part) {
                return Err((line, stop));
            }
            line += lines;
            rest = behind;
        }
        match number(self.draft.alloc, &mut self.draft) {
            Ok(numbers) => Ok(numbers),
            Err(AllocError) => Err((line, CoresLineFault::Memory)),
        }
    }
}

// How many line feeds a text has.
fn count_lines(text: &[u8]) -> usize
    ensures count { result ≡ count_by (λ b. b == 10) text.now }
    ensures few { result ≤ length text.now }
{
    let mut count = 0;
    for byte in text {
        if *byte == b'\n' {
            count += 1;
        }
    }
    count
}

// How many lines an item has.
fn lines_in(part: &RawItem<'_>) -> usize
    ensures lines { result ≡ lines_in (part_of part.now) }
{
    match part {
        RawItem::Silent | RawItem::Command(_, _) | RawItem::Unread | RawItem::OpenBlock => 1,
        RawItem::Block(_, text) => 2 + count_lines(text),
    }
}

// A line that is refused, or, without a number, out of memory.
fn refuse<'a>(line: usize, stop: CoresLineFault) -> Result<CoresText<'a>, AllocError>
    ensures refused { IfOk result (λ t. (number : ℕ) × (stop ≡ CoresLineFault.Refused number) × (outcome_of t ≡ refused_at line number)) }
{
    match stop {
        CoresLineFault::Refused(number) => Ok(CoresText::Refused { line, number }),
        CoresLineFault::Memory => Err(AllocError),
    }
}

// Reads items to the end, or to the first that is refused.
fn read_items<'a>(alloc: Global, text: &'a [u8]) -> Result<CoresText<'a>, AllocError>
    requires short { is_too_long text.now ≡ false }
    ensures reads { IfOk result (λ t. Reads text.now (outcome_of t)) }
    ensures memory { OnErr result (is_too_long text.now ≡ false) }
{
    let mut reading = PartialCoresFile::new(alloc);
    match reading.read(text) {
        Ok(numbers) => Ok(CoresText::File(CoresFile::new(numbers, reading))),
        Err((line, stop)) => {
            drop(reading);
            refuse(line, stop)
        }
    }
}

/// Reads a cores file: what it sets up and hands in, or its first line that is refused.
///
/// # Errors
/// Out of memory alone, and not for a text that is too long: a refused line is a result.
pub fn read_cores_text<'a>(alloc: Global, text: &'a [u8]) -> Result<CoresText<'a>, AllocError>
    ensures reads { IfOk result (λ t. Reads text.now (outcome_of t)) }
    ensures memory { OnErr result (is_too_long text.now ≡ false) }
{
    if text.len() > MAX_TEXT {
        return Ok(CoresText::Refused {
            line: 1,
            number: faults::TEXT_TOO_LONG,
        });
    }
    read_items(alloc, text)
}
