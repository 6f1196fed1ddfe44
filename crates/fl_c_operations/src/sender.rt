//! A run of send code alone: the fragments of a call, one after another.

ghost use Rattle.std.specs.Prelude.{◌≡◌, ◌≢◌, true, false, [], ◌∷◌, length};
ghost use Rattle.fl_stub.specs.declared.op.Column.TheVariants.{Send};
ghost use Rattle.fl_compile.specs.Programs.{program_of, code_in};
ghost use Rattle.fl_c_operations.specs.Runs.{left_at, RunsAt, Gives, StartsRun, StartsBy, GivesBy, UsesSender};

use crate::answer::{Outcome, UseFault};
use crate::calls::read_numbers;
use crate::operation::Operation;
use crate::side::write;
use fl_base::{Circuit, MsgNo};
use fl_compile::Program;
use fl_endpoint::EndFault;
use fl_machine::{SendRun, law_sends_fragments};
use fl_value_data::flatten_into;
use std::alloc::Global;
use std::marker::Model;

/// A send run of a program that a handle leads to.
#[derive(Drop)]
pub struct HeldSender {
    alloc: Global,
    program: Program,
    msg: MsgNo,
    run: Option<SendRun>,
}

impl Model for HeldSender {
    ghost use Rattle.std.specs.Coded.{codes};
    ghost use Rattle.fl_stub.specs.declared.op.Column.TheVariants.{Send};
    ghost use Rattle.fl_compile.specs.contracts.program.Program.{the_row};
    ghost use Rattle.fl_compile.specs.Programs.{program_of, code_in};
    ghost use Rattle.fl_c_operations.specs.Runs.{TheSender, left_in, RunsIn};

    ghost Value = { TheSender };

    ghost coded = { Prim.hlevel (codes, the_row.coded) };

    ghost view = { λ h. record { program = h.program; left = left_in (code_in Send (program_of h.program) h.msg.0) h.run } };

    ghost invariant = { λ h. RunsIn (code_in Send (program_of h.program) h.msg.0) h.run };
}

// Whether a run has fragments left.
fn has_more(program: &Program, msg: MsgNo, run: &SendRun) -> bool
    requires runs { RunsAt (code_in Send (program_of program.now) msg.0) run.now }
    ensures more { result ≡ true → left_at (code_in Send (program_of program.now) msg.0) run.now ≢ [] }
    ensures none { result ≡ false → left_at (code_in Send (program_of program.now) msg.0) run.now ≡ [] }
{
    let Some(code) = program.send_code(msg) else {
        unreachable!();
    };
    run.peek_frag(code).is_some()
}

// The next fragment of a run.
fn give(
    program: &Program,
    msg: MsgNo,
    run: &mut SendRun,
    room: &mut [u64],
) -> Result<Outcome, UseFault>
    requires room { length room.old ≡ 8 }
    requires runs { RunsAt (code_in Send (program_of program.now) msg.0) run.old }
    ensures runs { RunsAt (code_in Send (program_of program.now) msg.0) run.new }
    ensures gives { Gives (left_at (code_in Send (program_of program.now) msg.0) run.old) room.old result
        (left_at (code_in Send (program_of program.now) msg.0) run.new) room.new }
{
    let Some(code) = program.send_code(msg) else {
        unreachable!();
    };
    match run.next_frag(code) {
        Some(frag) => {
            write(room, &frag);
            Ok(Outcome::Fragment)
        }
        None => Ok(Outcome::Nothing),
    }
}

// A run of the call of these numbers, and its message.
fn start(alloc: Global, program: &Program, numbers: &[u64]) -> Result<(MsgNo, SendRun), UseFault>
    ensures starts { StartsRun (program_of program.now) numbers.now result }
{
    law_sends_fragments();
    let read = match read_numbers(alloc, program, numbers) {
        Ok(read) => read,
        Err(fault) => return Err(fault),
    };
    let Some(call) = read else {
        return Err(UseFault::End(EndFault::Memory));
    };
    let mut tape = Vec::new(alloc);
    let Ok(()) = flatten_into(&mut tape, &call, program.interface(), program.plan()) else {
        return Err(UseFault::End(EndFault::Memory));
    };
    let Some(code) = program.send_code(call.msg) else {
        unreachable!();
    };
    let run = SendRun::start(code, call.msg, Circuit(0), tape);
    Ok((call.msg, run))
}

impl HeldSender {
    /// A run of no call yet.
    pub fn new(alloc: Global, program: Program) -> HeldSender
        ensures program { result.program ≡ program }
        ensures none { result.left ≡ [] }
    {
        HeldSender {
            alloc,
            program,
            msg: MsgNo(0),
            run: None,
        }
    }

    // Whether fragments are left.
    fn has_left(&self) -> bool
        ensures more { result ≡ true → self.now.left ≢ [] }
        ensures none { result ≡ false → self.now.left ≡ [] }
    {
        match &self.run {
            Some(run) => has_more(&self.program, self.msg, run),
            None => false,
        }
    }

    /// Begins the call of these numbers: its message's, and its tape.
    ///
    /// # Errors
    /// Fragments of a call are left (40); there is no number (103); no such message (41); the tape is that of no
    /// fitting call (42); out of memory (99).
    pub fn start(&mut self, numbers: &[u64]) -> Result<Outcome, UseFault>
        ensures starts { StartsBy self.old numbers.now result self.new }
    {
        if self.has_left() {
            return Err(UseFault::End(EndFault::Busy));
        }
        match start(self.alloc, &self.program, numbers) {
            Ok((msg, run)) => {
                self.msg = msg;
                self.run = Some(run);
                Ok(Outcome::Accepted)
            }
            Err(fault) => Err(fault),
        }
    }

    /// Gives the next fragment, on circuit 0; its numbers are written.
    ///
    /// # Errors
    /// There is other room than for eight numbers (103).
    pub fn next(&mut self, room: &mut [u64]) -> Result<Outcome, UseFault>
        ensures gives { GivesBy self.old room.old result self.new room.new }
    {
        if room.len() != 8 {
            return Err(UseFault::WrongRoom);
        }
        match &mut self.run {
            Some(run) => give(&self.program, self.msg, run, room),
            None => Ok(Outcome::Nothing),
        }
    }
}

/// Does an operation at a send run, on these numbers.
///
/// # Errors
/// Those of the operation; a send run has no such operation (101).
pub fn use_sender(
    run: &mut HeldSender,
    operation: Operation,
    numbers: &mut [u64],
) -> Result<Outcome, UseFault>
    ensures uses { UsesSender run.old operation numbers.old result run.new numbers.new }
{
    match operation {
        Operation::Call => run.start(numbers),
        Operation::Next => run.next(numbers),
        _ => Err(UseFault::NoSuchOperation),
    }
}
