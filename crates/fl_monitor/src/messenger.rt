//! Writing and reading the monitors' messages.

ghost use Rattle.std.specs.Prelude.{◌≡◌, false, Ok, IfOk, IfErr};
ghost use Rattle.fl_base.specs.Control.{is_ack_only};
ghost use Rattle.fl_interface.specs.Interface.{interface_of};
ghost use Rattle.fl_monitor.specs.declared.message.MonitorMessage.{MonitorMessage};
ghost use Rattle.fl_monitor.specs.Intermon.{intermon};
ghost use Rattle.fl_monitor.specs.Outboxes.{IsFragOf};
ghost use Rattle.fl_monitor.specs.Saying.{Says, Refuses};

use crate::interface::interface;
use crate::message::MonitorMessage;
use crate::path::MAX_ROUTE;
use crate::tape::message_on;
use fl_base::{Circuit, Frag};
use fl_compile::compile;
use fl_interface::Interface;
use fl_machine::{RecvRun, SendRun, law_sends_fragments};
use fl_value_data::PlanNo;
use fl_wire::WireFault;
use std::alloc::{AllocError, Global};
use std::marker::Model;

// The longest tape of a message: three numbers, a length and a route.
const LONGEST_TAPE: usize = 4 + MAX_ROUTE;

/// Writes and reads the monitors' messages, by the compiled stubs of their interface under plan 1.
///
/// Before and after each call a messenger is inside no message, whatever fragments it was given: so contracts see nothing
/// of it, and what it answers to a message or a fragment is told by that alone.
#[derive(Drop)]
pub struct Messenger {
    alloc: Global,
    run: RecvRun,
}

impl Model for Messenger {
    ghost use Rattle.fl_monitor.specs.Messengers.{IsBetweenCalls};

    ghost Value = { Unit {0} };

    ghost view = { λ _. tt };

    ghost invariant = { IsBetweenCalls };
}

impl Messenger {
    /// Compiles the monitors' interface.
    ///
    /// # Errors
    /// Out of memory (E99).
    pub fn new(alloc: Global) -> Result<Messenger, AllocError> {
        let interface = interface(alloc)?;
        let program = compile(alloc, &interface, PlanNo::One)?;
        let run = RecvRun::new(alloc, program, LONGEST_TAPE)?;
        Ok(Messenger { alloc, run })
    }

    /// The monitors' interface.
    pub fn interface(&self) -> &Interface
        ensures interface { interface_of result.now ≡ intermon }
    {
        self.run.program().interface()
    }

    /// The one fragment of a message, on circuit 0, with epoch 0 and nothing told.
    ///
    /// # Errors
    /// Out of memory (E99), for the message's tape.
    pub fn frag(&self, message: &MonitorMessage) -> Result<Frag, AllocError>
        ensures frag { IfOk result (λ f. IsFragOf f message.now) }
        ensures says { IfOk result (λ f. Says f message.now) }
        ensures data { IfOk result (λ f. is_ack_only f ≡ false) }
    {
        law_sends_fragments();
        let tape = message.tape(self.alloc)?;
        let number = message.number();
        let Some(code) = self.run.program().send_code(number) else {
            unreachable!();
        };
        let run = SendRun::start(code, number, Circuit(0), tape);
        match run.peek_frag(code) {
            Some(frag) => Ok(frag),
            None => unreachable!(),
        }
    }

    /// The message that a fragment says, whatever its epoch and the count that it tells. Takes no memory.
    ///
    /// # Errors
    /// The first fault of a fragment that says none: in its control word a reserved bit or a circuit that isn't 0 (E63), no
    /// first fragment (E60), a number that no message has (E62); else of its first byte at fault, in the length of a route
    /// over 16 (E66), or one that isn't 0 where nothing stands (E63). The fragment can be read again then.
    pub fn read(&mut self, frag: &Frag) -> Result<MonitorMessage, WireFault>
        ensures says { IfOk result (λ m. Says frag.now m) }
        ensures refused { IfErr result (λ fault. Refuses frag.now fault) }
        ensures back { (m : MonitorMessage) → Says frag.now m → result ≡ Ok m }
    {
        self.run.feed(frag)?;
        Ok(message_on(frag.msg(), self.run.whole_tape()))
    }
}
