//! A running script: the names that it has given, and the system that its lines act on. Each item is answered here.

ghost use Rattle.std.specs.Prelude.{◌≡◌, ◌<◌, ◌∷◌, ◌++◌, [], Err, IfOk, OnOk, OnErr, length};
ghost use Rattle.fl_interface.specs.Interface.{interface_of};
ghost use Rattle.fl_script_lines.specs.declared.fault.LineFault.TheVariants.{Memory};
ghost use Rattle.fl_script_lines.specs.Answers.{answer_text, line};
ghost use Rattle.fl_script_lines.specs.Asked.{asks};
ghost use Rattle.fl_model.specs.Views.{event_of, answer_of, brief_of, turned_of};
ghost use Rattle.fl_value_data.specs.Value.{call_of};
ghost use Rattle.fl_script_lines.specs.Faults.{number_of};
ghost use Rattle.fl_script_lines.specs.Grammar.{command as of_command};
ghost use Rattle.fl_script_lines.specs.Items.{a_line, a_block};
ghost use Rattle.fl_script_lines.specs.Told.{names_of, named, IsNew};
ghost use Rattle.fl_script_lines.specs.Views.{command_of, part_of};
ghost use Rattle.fl_script_lines.specs.Reading.{command_by, line_with};
ghost use Rattle.fl_script_exec.specs.Shown.{IsAt, Answers, AnswersBy, AnswersTold, AnswersEvent, AnswersFirst, HasFirst};
ghost use Rattle.fl_script_exec.specs.Transcript.{beginning, writes_only, effect_of, writes_refusal};
ghost use Rattle.fl_script_exec.specs.Transcript.{block_effect, Does};
ghost use Rattle.fl_check.specs.Text.{stands_for, text_fault};

use fl_base::{MsgNo, faults};
use fl_check::{TextRead, read_text};
use fl_compact_calls::{CompactCall, NumberCall};
use fl_interface::Interface;
use fl_model::{Answer, BriefAnswer, Machine, TurnedAnswer};
use fl_script_lines::{
    Command, LineFault, NamedEvent, RawItem, ScriptNames, Verb, next_part, next_repeated,
    print_answer, print_brief, print_fault, print_turned, read_command,
};
use fl_value_data::{PlanNo, Value};
use std::alloc::{AllocError, Global};
use std::mem;

/// A script's names, and the system on which it runs.
#[derive(Drop)]
pub struct Script<M> {
    pub alloc: Global,
    pub names: ScriptNames,
    pub machine: M,
    // The last call's arguments: their memory is that of the next one's.
    room: Vec<Value>,
    // The binding of the last call: most writes are of the same, and the next call is often of the one behind it.
    last: usize,
    // The call that was handled last.
    handled: CompactCall,
}

impl<M: Machine> Script<M> {
    /// A script of which nothing was read.
    ///
    /// # Errors
    /// Out of memory.
    pub fn new(alloc: Global) -> Result<Script<M>, AllocError>
        ensures start { IfOk result (λ r. IsAt M.shows r beginning) }
    {
        let mut number = NumberCall::new(alloc)?;
        let handled = CompactCall::of_number(&mut number, MsgNo(0), 0);
        Ok(Script {
            alloc,
            names: ScriptNames::new(alloc),
            machine: M::new(alloc)?,
            room: Vec::new(alloc),
            last: 0,
            handled,
        })
    }

    // Writes an answer's line.
    fn put_answer(&self, answer: &Answer, out: &mut Vec<u8>) -> Result<(), AllocError>
        ensures put { OnOk result (out.new.items ≡ out.old.items ++ line (answer_text (names_of self.now.names) (answer_of answer.now))) }
    {
        print_answer(self.alloc, out, &self.names, answer)?;
        out.push(b'\n')?;
        Ok(())
    }

    // Writes the line of an answer, if there is one. It is read where it lies: an answer is large to move.
    #[inline(always)]
    fn put_outcome(
        &self,
        outcome: &Result<Answer, AllocError>,
        out: &mut Vec<u8>,
    ) -> Result<(), AllocError>
        ensures put { OnOk result (IfOk outcome.now (λ a.
            out.new.items ≡ out.old.items ++ line (answer_text (names_of self.now.names) (answer_of a)))) }
        ensures none { OnErr outcome.now (OnOk result ⊥) }
    {
        match outcome {
            Ok(answer) => self.put_answer(answer, out),
            Err(_) => Err(AllocError),
        }
    }

    // Writes the line of an answer in brief, if there is one.
    #[inline(always)]
    fn put_brief(
        &self,
        outcome: Result<BriefAnswer, AllocError>,
        out: &mut Vec<u8>,
    ) -> Result<(), AllocError>
        ensures put { OnOk result (IfOk outcome (λ a.
            out.new.items ≡ out.old.items ++ line (answer_text (names_of self.now.names) (brief_of a)))) }
        ensures none { OnErr outcome (OnOk result ⊥) }
    {
        match outcome {
            Ok(answer) => {
                print_brief(out, &self.names, answer)?;
                out.push(b'\n')?;
                Ok(())
            }
            Err(error) => Err(error),
        }
    }

    // Writes the line of a turn's answer, if there is one.
    #[inline(always)]
    fn put_turned(
        &self,
        outcome: Result<TurnedAnswer, AllocError>,
        out: &mut Vec<u8>,
    ) -> Result<(), AllocError>
        ensures put { OnOk result (IfOk outcome (λ a.
            out.new.items ≡ out.old.items ++ line (answer_text (names_of self.now.names) (turned_of a (call_of self.now.handled))))) }
        ensures none { OnErr outcome (OnOk result ⊥) }
    {
        match outcome {
            Ok(answer) => {
                print_turned(self.alloc, out, &self.names, answer, &self.handled)?;
                out.push(b'\n')?;
                Ok(())
            }
            Err(error) => Err(error),
        }
    }

    // Asks the system an event, takes up the name that it gives, and writes the answer.
    fn step(&mut self, asked: NamedEvent<'_>, out: &mut Vec<u8>) -> Result<(), AllocError>
        requires { IsNew (names_of self.old.names) asked.naming }
        ensures ok { OnOk result (AnswersBy M.shows self.old self.new out.old.items out.new.items
            (λ s. effect_of s (asks (event_of asked.entry.event) (named s.names asked.entry.naming)))) }
    {
        let naming = asked.naming;
        let answer = self.machine.step(asked.event)?;
        self.names.take_up(naming, &answer)?;
        self.put_answer(&answer, out)
    }

    // Writes `refused En`.
    fn refuse(&mut self, number: u8, out: &mut Vec<u8>) -> Result<(), AllocError>
        ensures ok { OnOk result (AnswersBy M.shows self.old self.new out.old.items out.new.items
            (λ s. writes_refusal s number)) }
    {
        self.put_answer(&Answer::Refused(number), out)
    }

    // Refuses what asks nothing of the system.
    #[inline(never)]
    fn refuse_by(&mut self, fault: LineFault, out: &mut Vec<u8>) -> Result<(), AllocError>
        ensures ok { OnOk result (AnswersBy M.shows self.old self.new out.old.items out.new.items
            (λ s. writes_refusal s (number_of fault))) }
        ensures memory { fault ≡ Memory → OnOk result ⊥ }
    {
        let Some(number) = fault.refusal() else {
            return Err(AllocError);
        };
        self.refuse(number, out)
    }

    // Does what is asked, or refuses it.
    fn answer(
        &mut self,
        asked: Result<NamedEvent<'_>, LineFault>,
        out: &mut Vec<u8>,
    ) -> Result<(), AllocError>
        requires { IfOk asked (λ a. IsNew (names_of self.old.names) a.naming) }
        ensures ok { OnOk result (AnswersTold M.shows self.old self.new out.old.items out.new.items asked.entry) }
        ensures memory { asked.entry ≡ Err Memory → OnOk result ⊥ }
    {
        match asked {
            Ok(asked) => self.step(asked, out),
            Err(fault) => self.refuse_by(fault, out),
        }
    }

    fn command(&mut self, command: Command<'_>, out: &mut Vec<u8>) -> Result<(), AllocError>
        ensures ok { OnOk result (Answers M.shows self.old self.new out.old.items out.new.items
            (λ s. Does s (a_line (of_command (command_of command.entry))))) }
    {
        let asked = self.names.ask(command);
        self.answer(asked, out)
    }

    // Writes a fault of an interface's text.
    fn fault(&mut self, number: u8, offset: usize, out: &mut Vec<u8>) -> Result<(), AllocError>
        ensures ok { OnOk result ((plan : PlanNo) → AnswersBy M.shows self.old self.new out.old.items out.new.items
            (λ s. block_effect s plan (text_fault number offset))) }
    {
        print_fault(out, number, offset)?;
        out.push(b'\n')?;
        Ok(())
    }

    fn interface(
        &mut self,
        interface: Interface,
        plan: PlanNo,
        out: &mut Vec<u8>,
    ) -> Result<(), AllocError>
        ensures ok { OnOk result (AnswersBy M.shows self.old self.new out.old.items out.new.items
            (λ s. block_effect s plan (stands_for (interface_of interface)))) }
    {
        let asked = self.names.ask_interface(interface, plan);
        self.answer(asked, out)
    }

    #[inline(never)]
    fn block(&mut self, plan: PlanNo, text: &[u8], out: &mut Vec<u8>) -> Result<(), AllocError>
        ensures ok { OnOk result (Answers M.shows self.old self.new out.old.items out.new.items
            (λ s. Does s (a_block plan text.now))) }
    {
        match read_text(self.alloc, text)? {
            TextRead::Fault { number, offset } => self.fault(number, offset, out),
            TextRead::Interface(interface) => self.interface(interface, plan, out),
        }
    }

    // A line without an answer. Takes no memory.
    fn silent(&mut self, _out: &mut Vec<u8>) -> Result<(), AllocError>
        ensures ok { OnOk result (AnswersBy M.shows self.old self.new _out.old.items _out.new.items (λ s. writes_only s [])) }
        ensures done { OnErr result ⊥ }
    {
        Ok(())
    }

    // A line of a word that is seldom: its command is read whole, if it is one.
    #[inline(never)]
    fn seldom_line(&mut self, verb: Verb, rest: &[u8], out: &mut Vec<u8>) -> Result<(), AllocError>
        ensures ok { OnOk result (Answers M.shows self.old self.new out.old.items out.new.items
            (λ s. Does s (a_line (line_with (command_by verb rest.now))))) }
    {
        match read_command(verb, rest) {
            Some(command) => self.command(command, out),
            None => self.refuse(faults::UNREAD, out),
        }
    }

    // Lines of words that are repeated: each is told and asked by itself, so that nothing is prepared for other words.
    #[inline(never)]
    fn call_line(&mut self, rest: &[u8], out: &mut Vec<u8>) -> Result<(), AllocError>
        ensures ok { OnOk result (Answers M.shows self.old self.new out.old.items out.new.items
            (λ s. Does s (a_line (line_with (command_by Verb.Call rest.now))))) }
    {
        let room = mem::replace(&mut self.room, Vec::new(self.alloc));
        // Scripts often call at one binding after another.
        let guess = self.last.saturating_add(1);
        match self.names.call_line(rest, room, guess) {
            Ok((end, call)) => {
                let outcome = self.machine.step_call(end, &call);
                self.room = call.args;
                self.last = end.binding;
                self.put_brief(outcome, out)
            }
            Err(fault) => self.refuse_by(fault, out),
        }
    }

    #[inline(never)]
    fn write_line(&mut self, rest: &[u8], out: &mut Vec<u8>) -> Result<(), AllocError>
        ensures ok { OnOk result (Answers M.shows self.old self.new out.old.items out.new.items
            (λ s. Does s (a_line (line_with (command_by Verb.Write rest.now))))) }
    {
        match self.names.write_line(rest, self.last) {
            Ok(end) => {
                let outcome = self.machine.step_write(end);
                self.put_brief(outcome, out)
            }
            Err(fault) => self.refuse_by(fault, out),
        }
    }

    #[inline(never)]
    fn turn_line(&mut self, rest: &[u8], out: &mut Vec<u8>) -> Result<(), AllocError>
        ensures ok { OnOk result (Answers M.shows self.old self.new out.old.items out.new.items
            (λ s. Does s (a_line (line_with (command_by Verb.Turn rest.now))))) }
    {
        match self.names.turn_line(rest) {
            Ok(dispatcher) => {
                let outcome = self.machine.step_turn(dispatcher, &mut self.handled);
                self.put_turned(outcome, out)
            }
            Err(fault) => self.refuse_by(fault, out),
        }
    }

    #[inline(never)]
    fn show_line(&mut self, rest: &[u8], out: &mut Vec<u8>) -> Result<(), AllocError>
        ensures ok { OnOk result (Answers M.shows self.old self.new out.old.items out.new.items
            (λ s. Does s (a_line (line_with (command_by Verb.Show rest.now))))) }
    {
        match self.names.show_line(rest) {
            Ok(end) => {
                let outcome = self.machine.step_show(end);
                self.put_outcome(&outcome, out)
            }
            Err(fault) => self.refuse_by(fault, out),
        }
    }

    #[inline(never)]
    fn ack_line(&mut self, rest: &[u8], out: &mut Vec<u8>) -> Result<(), AllocError>
        ensures ok { OnOk result (Answers M.shows self.old self.new out.old.items out.new.items
            (λ s. Does s (a_line (line_with (command_by Verb.Ack rest.now))))) }
    {
        match self.names.ack_line(rest) {
            Ok(end) => {
                let outcome = self.machine.step_ack(end);
                self.put_brief(outcome, out)
            }
            Err(fault) => self.refuse_by(fault, out),
        }
    }

    #[inline(never)]
    fn forward_line(&mut self, rest: &[u8], out: &mut Vec<u8>) -> Result<(), AllocError>
        ensures ok { OnOk result (Answers M.shows self.old self.new out.old.items out.new.items
            (λ s. Does s (a_line (line_with (command_by Verb.Forward rest.now))))) }
    {
        match self.names.forward_line(rest) {
            Ok((core, neighbour)) => {
                let outcome = self.machine.step_forward(core, neighbour);
                self.put_brief(outcome, out)
            }
            Err(fault) => self.refuse_by(fault, out),
        }
    }

    // The same, by the words that are repeated most.
    fn line(&mut self, verb: Verb, rest: &[u8], out: &mut Vec<u8>) -> Result<(), AllocError>
        ensures ok { OnOk result (Answers M.shows self.old self.new out.old.items out.new.items
            (λ s. Does s (a_line (line_with (command_by verb rest.now))))) }
    {
        match verb {
            Verb::Call => self.call_line(rest, out),
            Verb::Write => self.write_line(rest, out),
            Verb::Turn => self.turn_line(rest, out),
            Verb::Show => self.show_line(rest, out),
            Verb::Ack => self.ack_line(rest, out),
            Verb::Forward => self.forward_line(rest, out),
            _ => self.seldom_line(verb, rest, out),
        }
    }

    // Answers an item: does what it asks, and puts its answer's line behind `out`, where it has one.
    fn part(&mut self, part: RawItem<'_>, out: &mut Vec<u8>) -> Result<(), AllocError>
        ensures ok { OnOk result (Answers M.shows self.old self.new out.old.items out.new.items
            (λ s. Does s (part_of part.entry))) }
    {
        match part {
            RawItem::Silent => self.silent(out),
            RawItem::Command(verb, rest) => self.line(verb, rest, out),
            RawItem::Unread => self.refuse(faults::UNREAD, out),
            RawItem::Block(plan, text) => self.block(plan, text, out),
            RawItem::OpenBlock => self.refuse(faults::UNREAD, out),
        }
    }

    // Answers the first item of a text, whatever it is. Out of line, so that a line that is repeated prepares nothing of it.
    #[inline(never)]
    fn answer_part<'t>(&mut self, text: &'t [u8], out: &mut Vec<u8>) -> Result<&'t [u8], AllocError>
        requires some { 0 < length text.now }
        ensures ok { IfOk result (λ behind. AnswersFirst M.shows self.old self.new out.old.items out.new.items text.now behind.now) }
        ensures shorter { IfOk result (λ behind. length behind.now < length text.now) }
        ensures left { OnErr result (HasFirst text.now) }
    {
        let (part, behind) = next_part(text);
        match self.part(part, out) {
            Ok(()) => Ok(behind),
            Err(error) => Err(error),
        }
    }

    /// Answers the first item of a text: does what it asks, and puts its answer's line behind `out`, where it has one. Tells what
    /// stands behind the item.
    ///
    /// # Errors
    /// Out of memory; nothing is told of the script then.
    #[inline(always)]
    pub fn answer_first<'t>(
        &mut self,
        text: &'t [u8],
        out: &mut Vec<u8>,
    ) -> Result<&'t [u8], AllocError>
        requires some { 0 < length text.now }
        ensures ok { IfOk result (λ behind. AnswersFirst M.shows self.old self.new out.old.items out.new.items text.now behind.now) }
        ensures shorter { IfOk result (λ behind. length behind.now < length text.now) }
        ensures left { OnErr result (HasFirst text.now) }
    {
        match next_repeated(text) {
            None => self.answer_part(text, out),
            Some((verb, rest, behind)) => match self.line(verb, rest, out) {
                Ok(()) => Ok(behind),
                Err(error) => Err(error),
            },
        }
    }
}
