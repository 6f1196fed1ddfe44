//! A run of receive code alone: fragments are fed to it, and calls come of them.

ghost use Rattle.std.specs.Prelude.{◌≡◌, ◌≢◌, [], IfOk};
ghost use Rattle.fl_compile.specs.Programs.{program_of};
ghost use Rattle.fl_machine.specs.Receiving.{HoldsTapes};
ghost use Rattle.fl_c_operations.specs.Runs.{PutsWhole, FeedsBy, ReadsFed, UsesReceiver, IsNewReceiver};

use crate::answer::{Outcome, UseFault};
use crate::calls::put_numbers;
use crate::operation::Operation;
use crate::side::fragment_of;
use fl_compile::Program;
use fl_endpoint::EndFault;
use fl_machine::{Fed, RecvRun};
use std::alloc::{AllocError, Global};
use std::marker::Model;

/// A receive run of a program that a handle leads to, and whether a call that became whole is to be read.
#[derive(Drop)]
pub struct HeldReceiver {
    alloc: Global,
    run: RecvRun,
    unread: bool,
    // memory that is used again
    spare: Vec<u64>,
}

impl Model for HeldReceiver {
    ghost use Rattle.std.specs.Prelude.{◌≡◌, ◌≢◌, true, []};
    ghost use Rattle.std.specs.Coded.{codes};
    ghost use Rattle.fl_compile.specs.contracts.program.Program.{the_row};
    ghost use Rattle.fl_c_operations.specs.Runs.{TheReceiver};

    ghost Value = { TheReceiver };

    ghost coded = { Prim.hlevel (codes, the_row.coded) };

    ghost view = { λ h. record { run = h.run; unread = h.unread } };

    ghost invariant = { λ h. h.unread ≡ true → h.run.whole ≢ [] };
}

// Puts the call that became whole into a room, and tells how many numbers it is.
fn put_whole(
    alloc: Global,
    run: &RecvRun,
    spare: &mut Vec<u64>,
    room: &mut [u64],
) -> Result<u64, UseFault>
    requires whole { run.now.whole ≢ [] }
    ensures puts { PutsWhole run.now room.old result room.new }
{
    let Ok(call) = run.whole_call(alloc) else {
        return Err(UseFault::End(EndFault::Memory));
    };
    put_numbers(run.program(), &call, spare, room)
}

impl HeldReceiver {
    /// A run that nothing was fed to yet, where so many numbers are enough for each tape.
    ///
    /// # Errors
    /// Out of memory (E99).
    pub fn new(alloc: Global, program: Program, capacity: usize) -> Result<HeldReceiver, AllocError>
        requires room { HoldsTapes (program_of program).plan (program_of program).interface capacity }
        ensures made { IfOk result (λ run. IsNewReceiver (program_of program) run) }
    {
        let run = RecvRun::new(alloc, program, capacity)?;
        Ok(HeldReceiver {
            alloc,
            run,
            unread: false,
            spare: Vec::new(alloc),
        })
    }

    /// Feeds the fragment of these numbers. A call that becomes whole stays until it is read.
    ///
    /// # Errors
    /// There are other than eight numbers (103); a call is to be read first (105); the fragment can't follow those
    /// before it (60 to 63, 65, 66), and nothing changes.
    pub fn feed(&mut self, numbers: &[u64]) -> Result<Outcome, UseFault>
        ensures feeds { FeedsBy self.old numbers.now result self.new }
    {
        let Some(frag) = fragment_of(numbers) else {
            return Err(UseFault::WrongRoom);
        };
        if self.unread {
            return Err(UseFault::Unread);
        }
        match self.run.feed(&frag) {
            Ok(Fed::Part) => Ok(Outcome::PartTaken),
            Ok(Fed::Whole) => {
                self.unread = true;
                Ok(Outcome::Handled)
            }
            Err(fault) => Err(UseFault::End(EndFault::Wire(fault))),
        }
    }

    /// Reads the call that became whole: its message's number and its tape stand first in the room then.
    ///
    /// # Errors
    /// There are too few numbers (103), and the answer tells how many are wanted; out of memory (99). The call
    /// stays then.
    pub fn read(&mut self, room: &mut [u64]) -> Result<Outcome, UseFault>
        ensures reads { ReadsFed self.old room.old result self.new room.new }
    {
        if !self.unread {
            return Ok(Outcome::Nothing);
        }
        match put_whole(self.alloc, &self.run, &mut self.spare, room) {
            Err(fault) => Err(fault),
            Ok(count) => {
                self.unread = false;
                Ok(Outcome::CallRead { count })
            }
        }
    }
}

/// Does an operation at a receive run, on these numbers.
///
/// # Errors
/// Those of the operation; a receive run has no such operation (101).
pub fn use_receiver(
    run: &mut HeldReceiver,
    operation: Operation,
    numbers: &mut [u64],
) -> Result<Outcome, UseFault>
    ensures uses { UsesReceiver run.old operation numbers.old result run.new numbers.new }
{
    match operation {
        Operation::Feed => run.feed(numbers),
        Operation::Read => run.read(numbers),
        _ => Err(UseFault::NoSuchOperation),
    }
}
