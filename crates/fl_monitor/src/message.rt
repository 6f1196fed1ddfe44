//! The monitors' messages.

ghost use Rattle.std.specs.Prelude.{◌≡◌, ◌<◌, ◌^◌, ◌∷◌, ◌++◌, All, length, map, IfOk, OnOk};
ghost use Rattle.fl_base.specs.declared.identity.CoreId.{CoreId as TheCore};
ghost use Rattle.fl_monitor.specs.Intermon.{call_for, tape_for, HasWidths};

use crate::path::Path;
use fl_base::{Circuit, CoreId, IRef, MsgNo};
use std::alloc::{AllocError, Global};

/// What monitors say to each other: a call of their interface (`specs/Intermon.antt`), and one fragment on circuit 0.
///
/// Each message speaks of a circuit by its number on the link on which the message travels. That number means the same in
/// both directions of the link.
#[derive(Clone, Copy, Debug, PartialEq, Eq)]
pub enum MonitorMessage {
    /// Asks for a circuit, on behalf of a binding, along a route to a service. A monitor that can make its part of it passes
    /// the message on to the next core of the route, under a new number.
    OpenCircuit {
        /// The circuit's number on this link.
        circuit: Circuit,
        /// The binding, by its number, which names it at both ends.
        binding: u32,
        /// The service's interface reference.
        service: IRef,
        /// The whole route. Who asks writes it from the client's core to the service's; in a message that was read it may be any
        /// list of up to 16 core numbers, also an empty one.
        path: Path,
    },
    /// The circuit stands, from here to the service's end. Goes back to the core that asked.
    CircuitOpened {
        /// The circuit's number on this link.
        circuit: Circuit,
    },
    /// The circuit can't be made, and why. Goes back to the core that asked.
    CircuitRefused {
        /// The circuit's number on this link.
        circuit: Circuit,
        /// The fault's number, as 70 for a service that isn't there.
        reason: u32,
    },
}

// The tape of a message that asks for a circuit.
fn opening_tape(
    alloc: Global,
    circuit: Circuit,
    binding: u32,
    service: IRef,
    cores: &[CoreId],
) -> Result<Vec<u64>, AllocError>
    ensures tape { IfOk result (λ v. v.items ≡ circuit.0 ∷ binding ∷ service.0 ∷ length cores.now ∷ map (λ (core : TheCore). core.0) cores.now) }
    ensures small { OnOk result ((circuit.0 < 2 ^ 16) × (binding < 2 ^ 32) × (service.0 < 2 ^ 32) × All (λ (core : TheCore). core.0 < 2 ^ 8) cores.now) }
{
    let mut tape = vec![in alloc;
        u64::from(circuit.0),
        u64::from(binding),
        u64::from(service.0),
        cores.len() as u64,
    ]?;
    for core in cores {
        let number = core.0;
        tape.push(u64::from(number))?;
    }
    Ok(tape)
}

impl MonitorMessage {
    /// The message's number in the monitors' interface.
    pub(crate) fn number(&self) -> MsgNo
        ensures number { result.0 ≡ (call_for self.now).msg }
    {
        match self {
            MonitorMessage::OpenCircuit { .. } => MsgNo(0),
            MonitorMessage::CircuitOpened { .. } => MsgNo(1),
            MonitorMessage::CircuitRefused { .. } => MsgNo(2),
        }
    }

    /// The message's tape, by which the compiled stubs write it.
    ///
    /// # Errors
    /// Out of memory (E99).
    pub(crate) fn tape(&self, alloc: Global) -> Result<Vec<u64>, AllocError>
        ensures tape { IfOk result (λ v. v.items ≡ tape_for self.now) }
        ensures widths { OnOk result (HasWidths self.now) }
    {
        match self {
            MonitorMessage::OpenCircuit {
                circuit,
                binding,
                service,
                path,
            } => { opening_tape(alloc, *circuit, *binding, *service, path.cores()) }
            MonitorMessage::CircuitOpened { circuit } => Ok(vec![in alloc; u64::from(circuit.0)]?),
            MonitorMessage::CircuitRefused { circuit, reason } => {
                Ok(vec![in alloc; u64::from(circuit.0), u64::from(*reason)]?)
            }
        }
    }
}
