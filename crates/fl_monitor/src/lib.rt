//! What the monitors of two cores say to each other.
//!
//! A monitor opens circuits with the monitors of other cores by three messages, which are the calls of an interface of their
//! own. That interface is compiled as any other, under plan 1 for good, and each of its calls is one fragment, which travels
//! on circuit 0 of a link between two cores.
//!
//! A core's [`Monitor`] keeps its circuits, and what it has still to say on each link. It asks for a circuit
//! ([`Monitor::may_open`], [`Monitor::start_open`]), and hears what the neighbours' monitors say ([`Monitor::on_message`]): an opening
//! goes on, ends at a service, or is refused; an answer goes back by the entries.
//!
//! Contract for the layers above: a fragment says a message or none (`specs/Saying.antt`). [`Messenger::frag`] gives the one
//! fragment of a message, and [`Messenger::read`] the message that a fragment says, or its first fault where it says none.
//! What a message comes to is told by `specs/Hearing.antt` (an opening's fate by `specs/Fates.antt`), and what each event of a monitor does
//! is one relation by its answer (`specs/Monitors.antt`).
//!
//! - `path.rt`: the route of a circuit
//! - `message.rt`: the messages, and their tapes
//! - `interface.rt`: the monitors' interface
//! - `tape.rt`: the message whose tape it is
//! - `messenger.rt`: writing and reading, by compiled stubs
//! - `outbox.rt`: what a monitor is to send over one link
//! - `monitor.rt`: `Monitor`
//! - `opening.rt`, `routing.rt`: what is asked for, and routes at a core
//! - `decision.rt`, `hearing.rt`, `heard.rt`: what a message comes to, what is said then, and what becomes of the table
//! - `fault.rt`: why a call is refused
//! - `law.rt`: messages, calls and fragments stand for one another
#![tactic(auto)]

mod decision;
mod fault;
mod heard;
mod hearing;
mod interface;
mod law;
mod message;
mod messenger;
mod monitor;
mod opening;
mod outbox;
mod path;
mod routing;
mod tape;

pub use decision::{OpeningDecision, OpeningFacts};
pub use fault::MonitorFault;
pub use heard::MessageOutcome;
pub use hearing::{LinkMessage, circuit_in};
pub use law::{
    law_epochs_say_nothing, law_messages_are_calls, law_one_fragment, law_one_message,
    law_one_outcome, law_one_reason, law_outboxes_say_messages, law_stands_alone,
};
pub use message::MonitorMessage;
pub use messenger::Messenger;
pub use monitor::Monitor;
pub use opening::Opening;
pub use outbox::{MAX_WAITING, Outbox};
pub use path::{MAX_ROUTE, Path};
