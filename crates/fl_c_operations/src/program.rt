//! A program alone: how long its calls are, and the runs that are made of it.

ghost use Rattle.std.specs.Prelude.{◌≡◌, IfOk};
ghost use Rattle.fl_interface.specs.Interface.{interface_of};
ghost use Rattle.fl_compile.specs.Programs.{program_of};
ghost use Rattle.fl_machine.specs.Receiving.{HoldsTapes};
ghost use Rattle.fl_c_operations.specs.Runs.{SizesBy, AsksProgram, IsNewSender, IsNewReceiver};

use crate::answer::{Outcome, UseFault};
use crate::calls::message_at;
use crate::operation::Operation;
use crate::receiver::HeldReceiver;
use crate::sender::HeldSender;
use fl_base::MsgNo;
use fl_compile::Program;
use fl_endpoint::EndFault;
use fl_layout::Plans;
use std::alloc::{AllocError, Global};

/// A program that a handle leads to.
#[derive(Drop)]
pub struct HeldProgram {
    alloc: Global,
    program: Program,
}

// How many numbers the longest tape of a call has.
fn longest_tape(plans: &Plans) -> usize
    ensures enough { HoldsTapes plans.now.plan (interface_of plans.now.interface) result }
{
    let mut most = 0;
    for msg in 0..plans.interface.messages.len() {
        most = plans.tape_capacity(MsgNo(msg as u16)).max(most);
    }
    most
}

// The sizes of a message's calls.
fn sizes(program: &Program, numbers: &[u64]) -> Result<Outcome, UseFault>
    ensures sizes { SizesBy (program_of program.now) numbers.now result }
{
    let [message] = numbers else {
        return Err(UseFault::WrongRoom);
    };
    let Some(message) = message_at(program, *message) else {
        return Err(UseFault::End(EndFault::UnknownMessage));
    };
    let plans = program.plans();
    let bytes = plans.greatest(message) as u32;
    let numbers = plans.tape_capacity(message) as u64;
    Ok(Outcome::Sized { bytes, numbers })
}

impl HeldProgram {
    /// A program.
    pub fn new(alloc: Global, program: Program) -> HeldProgram
        ensures made { result.program ≡ program }
    {
        HeldProgram { alloc, program }
    }

    /// Where its memory comes from.
    pub fn alloc(&self) -> Global {
        self.alloc
    }

    /// A new send run.
    ///
    /// # Errors
    /// Out of memory (E99).
    pub fn sender(&self) -> Result<HeldSender, AllocError>
        ensures made { IfOk result (λ run. IsNewSender (program_of self.now.program) run) }
    {
        let program = self.program.duplicate(self.alloc)?;
        Ok(HeldSender::new(self.alloc, program))
    }

    /// A new receive run, with room for any call.
    ///
    /// # Errors
    /// Out of memory (E99).
    pub fn receiver(&self) -> Result<HeldReceiver, AllocError>
        ensures made { IfOk result (λ run. IsNewReceiver (program_of self.now.program) run) }
    {
        let program = self.program.duplicate(self.alloc)?;
        let capacity = longest_tape(program.plans());
        HeldReceiver::new(self.alloc, program, capacity)
    }

    /// Asks what a program can be asked: how many messages it has, and how long a message's calls are.
    ///
    /// # Errors
    /// There is other than one number for a message (103); no such message (41); a program has no such operation
    /// (101).
    pub fn ask(&self, operation: Operation, numbers: &[u64]) -> Result<Outcome, UseFault>
        ensures asks { AsksProgram (program_of self.now.program) operation numbers.now result }
    {
        match operation {
            Operation::Messages => Ok(Outcome::Counted {
                count: self.program.interface().messages.len() as u64,
            }),
            Operation::Sizes => sizes(&self.program, numbers),
            _ => Err(UseFault::NoSuchOperation),
        }
    }
}
