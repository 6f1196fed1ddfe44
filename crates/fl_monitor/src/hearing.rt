//! What a message comes to at the core that hears it.

ghost use Rattle.std.specs.Prelude.{◌≡◌, Some, IsSome, IfSome, IfNone, OnOk, OnErr};
ghost use Rattle.fl_base.specs.Given.{given};
ghost use Rattle.fl_hop.specs.declared.entry.Hop.{Hop};
ghost use Rattle.fl_hop.specs.declared.entry.HopTarget.{HopTarget};
ghost use Rattle.fl_hop.specs.Table.{TheCircuits, hop_at, without_entry};
ghost use Rattle.fl_hop.specs.Numbers.{next_own};
ghost use Rattle.fl_hop.specs.Openings.{IsWaiting, passed_on, answered};
ghost use Rattle.fl_hop.specs.Later.{Later};
ghost use Rattle.fl_monitor.specs.Fates.{HasNext, Known};
ghost use Rattle.fl_monitor.specs.Hearing.{heard_by, opened_at, refused_at, ComesTo, IsMisrouted, GoesOnNext, circuit_in, with_circuit, says};
ghost use Rattle.fl_monitor.specs.Hearing.{after_opening, after_answer, after_refusal, table_after};

use crate::decision::{OpeningDecision, OpeningFacts, find_fate, is_in_place};
use crate::heard::MessageOutcome;
use crate::message::MonitorMessage;
use crate::opening::Opening;
use fl_base::{Circuit, LinkId};
use fl_hop::{Circuits, Hop, HopFault, HopTarget};
use fl_nameserv::Names;

/// What is to be said, and on which link.
#[derive(Clone, Copy)]
pub struct LinkMessage {
    /// The link to the neighbour that is to hear it.
    pub link: LinkId,
    /// What it is to hear.
    pub message: MonitorMessage,
}

// What an opening comes to, by its fate.
fn heard_by(binding: usize, circuit: Circuit, fate: OpeningDecision) -> MessageOutcome
    ensures heard { result ≡ heard_by binding circuit fate }
    ensures next { (t : TheCircuits) → HasNext t fate → GoesOnNext t result }
{
    match fate {
        OpeningDecision::GoesOn(link, next) => MessageOutcome::OpeningWentOn {
            binding,
            link,
            circuit: next,
        },
        OpeningDecision::EndsAt(dispatcher) => MessageOutcome::ServerMade {
            binding,
            dispatcher,
            circuit,
        },
        OpeningDecision::Fails(reason) => MessageOutcome::OpeningFailed { binding, reason },
    }
}

// What the answer that a circuit is open comes to.
fn opened_at(circuit: Circuit, binding: usize, way: HopTarget) -> MessageOutcome
    ensures next { (t : TheCircuits) → GoesOnNext t result }
    ensures heard { result ≡ opened_at circuit binding way }
{
    match way {
        HopTarget::Link(link, next) => MessageOutcome::AnswerWentOn {
            binding,
            link,
            circuit: next,
        },
        HopTarget::End(end) => MessageOutcome::EndOpened { end, circuit },
    }
}

// What the answer that a circuit is refused comes to.
fn refused_at(reason: u32, binding: usize, way: HopTarget) -> MessageOutcome
    ensures next { (t : TheCircuits) → GoesOnNext t result }
    ensures heard { result ≡ refused_at reason binding way }
{
    match way {
        HopTarget::Link(link, next) => MessageOutcome::AnswerWentOn {
            binding,
            link,
            circuit: next,
        },
        HopTarget::End(end) => MessageOutcome::EndRefused { end, reason },
    }
}

// The entry of this core's own opening with a number on a link, where its answer hasn't come.
fn waiting(circuits: &Circuits, link: LinkId, circuit: Circuit) -> Option<Hop>
    ensures waits { IfSome result (IsWaiting circuits.now link.0 circuit.0) }
    ensures none { IfNone result ((hop : Hop) → IsWaiting circuits.now link.0 circuit.0 hop → ⊥) }
{
    if !circuits.opened_here(link, circuit) {
        return None;
    }
    let Some(hop) = circuits.hop_of(link, circuit) else {
        return None;
    };
    if hop.answered {
        return None;
    }
    Some(hop)
}

/// What a message on a link comes to; `None` where it's out of its place.
pub(crate) fn comes_to(
    circuits: &Circuits,
    names: &Names,
    here: OpeningFacts,
    link: LinkId,
    message: &MonitorMessage,
) -> Option<MessageOutcome>
    ensures comes { IfSome result (ComesTo (record { names = names.now; here = here }) circuits.now link message.now) }
    ensures misrouted { IfNone result (IsMisrouted (record { names = names.now; here = here }) circuits.now link message.now) }
    ensures next { IfSome result (GoesOnNext circuits.now) }
{
    match message {
        MonitorMessage::OpenCircuit {
            circuit,
            binding,
            service,
            path,
        } => {
            let opening = Opening {
                binding: *binding,
                service: *service,
                path: *path,
            };
            if !is_in_place(circuits, names, here, link, *circuit, &opening) {
                return None;
            }
            let fate = find_fate(circuits, names, here, link, &opening);
            Some(heard_by(*binding as usize, *circuit, fate))
        }
        MonitorMessage::CircuitOpened { circuit } => {
            let Some(hop) = waiting(circuits, link, *circuit) else {
                return None;
            };
            Some(opened_at(*circuit, hop.binding, hop.way))
        }
        MonitorMessage::CircuitRefused { circuit, reason } => {
            let Some(hop) = waiting(circuits, link, *circuit) else {
                return None;
            };
            Some(refused_at(*reason, hop.binding, hop.way))
        }
    }
}

/// The circuit that a message speaks of.
pub fn circuit_in(message: &MonitorMessage) -> Circuit
    ensures circuit { result ≡ circuit_in message.now }
{
    match message {
        MonitorMessage::OpenCircuit { circuit, .. }
        | MonitorMessage::CircuitOpened { circuit }
        | MonitorMessage::CircuitRefused { circuit, .. } => *circuit,
    }
}

// The same message of another circuit.
fn with_circuit(circuit: Circuit, message: &MonitorMessage) -> MonitorMessage
    ensures { result ≡ with_circuit circuit message.now }
{
    match message {
        MonitorMessage::OpenCircuit {
            binding,
            service,
            path,
            ..
        } => MonitorMessage::OpenCircuit {
            circuit,
            binding: *binding,
            service: *service,
            path: *path,
        },
        MonitorMessage::CircuitOpened { .. } => MonitorMessage::CircuitOpened { circuit },
        MonitorMessage::CircuitRefused { reason, .. } => MonitorMessage::CircuitRefused {
            circuit,
            reason: *reason,
        },
    }
}

/// What is to be said on a message that was heard on a link.
pub(crate) fn says(
    link: LinkId,
    message: &MonitorMessage,
    heard: MessageOutcome,
) -> Option<LinkMessage>
    ensures says { result ≡ says link message.now heard }
{
    match heard {
        MessageOutcome::OpeningWentOn {
            link: next,
            circuit,
            ..
        }
        | MessageOutcome::AnswerWentOn {
            link: next,
            circuit,
            ..
        } => Some(LinkMessage {
            link: next,
            message: with_circuit(circuit, message),
        }),
        MessageOutcome::ServerMade { circuit, .. } => Some(LinkMessage {
            link,
            message: MonitorMessage::CircuitOpened { circuit },
        }),
        MessageOutcome::OpeningFailed { reason, .. } => Some(LinkMessage {
            link,
            message: MonitorMessage::CircuitRefused {
                circuit: circuit_in(message),
                reason,
            },
        }),
        MessageOutcome::EndOpened { .. } | MessageOutcome::EndRefused { .. } => None,
    }
}

// Takes the neighbour's opening, and opens the next circuit.
fn take_onward(
    circuits: &mut Circuits,
    link: LinkId,
    circuit: Circuit,
    binding: usize,
    next: LinkId,
    number: Circuit,
) -> Result<(), HopFault>
    requires next { next_own circuits.old next.0 ≡ Some number.0 }
    ensures taken { OnOk result (circuits.new ≡ passed_on circuits.old link circuit next number binding) }
    ensures later { OnOk result (Later circuits.old circuits.new) }
    ensures kept { OnErr result (circuits.new ≡ circuits.old) }
{
    circuits.pass_on(link, circuit, next, binding)?;
    Ok(())
}

// Takes the neighbour's opening, as it comes to.
fn take_opening(
    circuits: &mut Circuits,
    link: LinkId,
    circuit: Circuit,
    binding: usize,
    heard: MessageOutcome,
) -> Result<(), HopFault>
    requires next { GoesOnNext circuits.old heard }
    ensures taken { OnOk result (circuits.new ≡ after_opening circuits.old link circuit binding heard) }
    ensures later { OnOk result (Later circuits.old circuits.new) }
    ensures kept { OnErr result (circuits.new ≡ circuits.old) }
{
    match heard {
        MessageOutcome::OpeningWentOn {
            link: next,
            circuit: number,
            ..
        } => take_onward(circuits, link, circuit, binding, next, number),
        MessageOutcome::ServerMade { .. } => circuits.arrive(link, circuit, binding),
        MessageOutcome::OpeningFailed { .. }
        | MessageOutcome::AnswerWentOn { .. }
        | MessageOutcome::EndOpened { .. }
        | MessageOutcome::EndRefused { .. } => circuits.refuse(link, circuit),
    }
}

// Notes that the answer came.
fn note_answer(circuits: &mut Circuits, link: LinkId, circuit: Circuit) -> Result<(), HopFault>
    ensures noted { OnOk result (circuits.new ≡ after_answer circuits.old link circuit) }
    ensures later { OnOk result (Later circuits.old circuits.new) }
    ensures kept { OnErr result (circuits.new ≡ circuits.old) }
    ensures misrouted { OnErr result ((hop : Hop) → IsWaiting circuits.old link.0 circuit.0 hop → ⊥) }
{
    circuits.answer(link, circuit)?;
    Ok(())
}

// Removes the entry.
fn remove(circuits: &mut Circuits, link: LinkId, circuit: Circuit) -> Result<(), HopFault>
    ensures removed { OnOk result (circuits.new ≡ after_refusal circuits.old link circuit) }
    ensures later { OnOk result (Later circuits.old circuits.new) }
    ensures kept { OnErr result (circuits.new ≡ circuits.old) }
    ensures misrouted { OnErr result ((hop : Hop) → IsWaiting circuits.old link.0 circuit.0 hop → ⊥) }
{
    let Some(_) = circuits.remove(link, circuit) else {
        return Err(HopFault::Misrouted);
    };
    Ok(())
}

/// Makes of the table what a message that was heard on a link makes of it.
///
/// # Errors
/// Out of memory for one more entry, where something is said then: all else was looked for when it was found what the
/// message comes to. Nothing has changed then.
pub(crate) fn change(
    circuits: &mut Circuits,
    link: LinkId,
    message: &MonitorMessage,
    heard: MessageOutcome,
) -> Result<(), HopFault>
    requires next { GoesOnNext circuits.old heard }
    ensures changed { OnOk result (circuits.new ≡ table_after circuits.old link message.now heard) }
    ensures later { OnOk result (Later circuits.old circuits.new) }
    ensures kept { OnErr result (circuits.new ≡ circuits.old) }
    ensures memory { OnErr result ((k : Known) → ComesTo k circuits.old link message.now heard → IsSome (says link message.now heard)) }
{
    match message {
        MonitorMessage::OpenCircuit {
            circuit,
            binding,
            ..
        } => take_opening(circuits, link, *circuit, *binding as usize, heard),
        MonitorMessage::CircuitOpened { circuit } => note_answer(circuits, link, *circuit),
        MonitorMessage::CircuitRefused { circuit, .. } => remove(circuits, link, *circuit),
    }
}
