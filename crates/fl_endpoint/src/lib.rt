//! Ends of bindings: calls go out of an end as fragments, and come in as calls that are handled.
//!
//! An [`End`] is generic over the sides that it is lent: the same end serves a queue within a core, a ring of one owner, and
//! a ring that two running cores share. It sends one call at a time; calls that it handles may be answered by rule. What it
//! has taken of a call that isn't whole yet stands at a place of `Reassemblies`, which a receive is lent beside the side, so that
//! many ends have them in one (`specs/Lent.antt`).
//!
//! Contract for the layers above: an end is what its fields tell (`specs/View.antt`), with no history. Each event is one
//! relation between the end before and after, by its answer, and the step of the side (`specs/Events.antt`). Over any
//! stretch of events the accounts add up (`specs/Accounts.antt`, `specs/Laws.antt`): what was put is what was accepted, in
//! order, and what was taken is what was handled and a rest.
//!
//! - `end.rt`: `End`, what it has and what it does
//! - `outgoing.rt`: the call in transmission, and the replies that wait
//! - `incoming.rt`: what an end takes, and the replies by rule
//! - `rules.rt`: reply rules
//! - `answer.rt`: what a write and a receive come to
//! - `law.rt`: what holds of ends over time
//! - `fault.rt`: why a call of an end is refused
#![tactic(auto)]

mod answer;
mod end;
mod fault;
mod incoming;
mod law;
mod outgoing;
mod rules;

pub use answer::{ReceiveAnswer, WriteAnswer};
pub use end::End;
pub use fault::EndFault;
pub use law::{
    law_accounts_add_up, law_bind_accounts, law_call_accounts, law_exchange_accounts,
    law_handles_in_order, law_on_another_circuit, law_receive_accounts, law_replies_add_up,
    law_rule_accounts, law_since_made, law_takes_in_order, law_write_accounts,
};
