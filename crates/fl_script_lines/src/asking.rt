//! What a line asks that gives no name, told from its words at once: most lines of a script are such.

ghost use Rattle.std.specs.Prelude.{◌≡◌, Err, map};
ghost use Rattle.fl_value_data.specs.Value.{datum_of};
ghost use Rattle.fl_script_lines.specs.Asked.{asks_call};
ghost use Rattle.fl_script_lines.specs.Lines.{TellsEvent, LineTells, CallTells, TellsEnd, told_as};
ghost use Rattle.fl_script_lines.specs.Lines.{a_call, a_show, a_write, an_ack, a_turn, a_forward};
ghost use Rattle.fl_script_lines.specs.Reading.{command_by};
ghost use Rattle.fl_script_lines.specs.Told.{names_of};
ghost use Rattle.fl_script_lines.specs.Views.{end_name_of};

use crate::command::{EndName, Verb};
use crate::fault::LineFault;
use crate::names::ScriptNames;
use crate::reader::{end_name, one_end, one_name, two_numbers};
use crate::word::next_word;
use fl_base::EndId;
use fl_model::DispatcherId;
use fl_value::{ValueFault, read_spoken, skip_blanks, spoken_name};
use fl_value_data::{Call, Value};

impl ScriptNames {
    // A call whose text was read: its end is looked up, then its message.
    #[inline(always)]
    fn spoken_call(
        &self,
        end: EndName<'_>,
        name: &[u8],
        args: Vec<Value>,
        guess: usize,
    ) -> Result<(EndId, Call), LineFault>
        ensures tells { TellsEvent (names_of self.now) (told_as a_call result)
            (asks_call (names_of self.now) (end_name_of end.entry) name.now (map datum_of args.items)) }
    {
        let Some(end) = self.end_near(end, guess) else {
            return Err(LineFault::Name);
        };
        let Some(msg) = self.message(end, name) else {
            return Err(LineFault::NoSuchMessage);
        };
        Ok((end, Call { msg, args }))
    }

    /// The call that a text spells, at the end of a name: the text is read first, then the end is looked up, then the
    /// message. Its arguments stand in the memory of `room`, whose own values are dropped. The end's binding is looked for at the
    /// place `guess` first; any guess gives the same answer.
    ///
    /// # Errors
    /// The text is none (E90), the name unknown (E92), or there is no such message (E41); else out of memory (E99).
    #[inline(always)]
    pub fn call_at(
        &self,
        end: EndName<'_>,
        text: &[u8],
        room: Vec<Value>,
        guess: usize,
    ) -> Result<(EndId, Call), LineFault>
        ensures tells { CallTells (names_of self.now) (end_name_of end.entry) text.now (told_as a_call result) }
    {
        match read_spoken(self.alloc, text, room) {
            Ok((name, args)) => self.spoken_call(end, name, args, guess),
            Err(ValueFault::NotACall) => Err(LineFault::NotACall),
            Err(_) => Err(self.without_values(end, text)),
        }
    }

    // What refuses a call for whose values memory ran out: the first refusal that its text and the names have, else the want of
    // memory.
    #[cold]
    #[inline(never)]
    fn without_values(&self, end: EndName<'_>, text: &[u8]) -> LineFault
        ensures tells { CallTells (names_of self.now) (end_name_of end.entry) text.now (Err result) }
    {
        let Some(name) = spoken_name(text) else {
            return LineFault::NotACall;
        };
        match self.spoken_call(end, name, Vec::new(self.alloc), 0) {
            Ok(_asked) => LineFault::Memory,
            Err(fault) => fault,
        }
    }

    /// The call of a line, from what stands behind its first word. `room` and `guess` are as for [`ScriptNames::call_at`].
    ///
    /// # Errors
    /// It is no such line, or no call (E90); the name is unknown (E92); there is no such message (E41); else out of memory (E99).
    #[inline(always)]
    pub fn call_line(
        &self,
        rest: &[u8],
        room: Vec<Value>,
        guess: usize,
    ) -> Result<(EndId, Call), LineFault>
        ensures tells { LineTells (names_of self.now) (command_by Verb.Call rest.now) (told_as a_call result) }
    {
        let (word, behind) = next_word(rest);
        let Some(end) = end_name(word) else {
            return Err(LineFault::Unread);
        };
        self.call_at(end, skip_blanks(behind), room, guess)
    }

    // The end of a line that has an end alone; its binding is looked for at the place `guess` first.
    #[inline(always)]
    fn end_line(&self, rest: &[u8], guess: usize) -> Result<EndId, LineFault>
        ensures tells { TellsEnd (names_of self.now) rest.now result }
    {
        let Some(name) = one_end(rest) else {
            return Err(LineFault::Unread);
        };
        let Some(end) = self.end_near(name, guess) else {
            return Err(LineFault::Name);
        };
        Ok(end)
    }

    /// The end of a `show`, from what stands behind that word.
    ///
    /// # Errors
    /// It is no such line (E90), or the name is unknown (E92).
    #[inline(always)]
    pub fn show_line(&self, rest: &[u8]) -> Result<EndId, LineFault>
        ensures tells { LineTells (names_of self.now) (command_by Verb.Show rest.now) (told_as a_show result) }
    {
        self.end_line(rest, 0)
    }

    /// The same of a `write`, whose binding is looked for at the place `guess` first. Any guess gives the same answer.
    ///
    /// # Errors
    /// It is no such line (E90), or the name is unknown (E92).
    #[inline(always)]
    pub fn write_line(&self, rest: &[u8], guess: usize) -> Result<EndId, LineFault>
        ensures tells { LineTells (names_of self.now) (command_by Verb.Write rest.now) (told_as a_write result) }
    {
        self.end_line(rest, guess)
    }

    /// The same of an `ack`.
    ///
    /// # Errors
    /// It is no such line (E90), or the name is unknown (E92).
    #[inline(always)]
    pub fn ack_line(&self, rest: &[u8]) -> Result<EndId, LineFault>
        ensures tells { LineTells (names_of self.now) (command_by Verb.Ack rest.now) (told_as an_ack result) }
    {
        self.end_line(rest, 0)
    }

    /// The dispatcher of a `turn`.
    ///
    /// # Errors
    /// It is no such line (E90), or the name is unknown (E92).
    #[inline(always)]
    pub fn turn_line(&self, rest: &[u8]) -> Result<DispatcherId, LineFault>
        ensures tells { LineTells (names_of self.now) (command_by Verb.Turn rest.now) (told_as a_turn result) }
    {
        let Some(name) = one_name(rest) else {
            return Err(LineFault::Unread);
        };
        let Some(dispatcher) = self.dispatcher(name) else {
            return Err(LineFault::Name);
        };
        Ok(dispatcher)
    }

    /// The two cores of a `forward`.
    ///
    /// # Errors
    /// It is no such line (E90).
    #[inline(always)]
    pub fn forward_line(&self, rest: &[u8]) -> Result<(u32, u32), LineFault>
        ensures tells { LineTells (names_of self.now) (command_by Verb.Forward rest.now) (told_as a_forward result) }
    {
        let Some(cores) = two_numbers(rest) else {
            return Err(LineFault::Unread);
        };
        Ok(cores)
    }
}
