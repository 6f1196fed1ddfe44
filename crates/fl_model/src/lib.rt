//! The machine: every core, link, ring, circuit, reply rule and waitset, with lists of calls
//! and counts, and no fragments. Definitions (`specs/`), read in this order: `Events` (what is asked and
//! answered), `Calls`, `Rings`, `Ends`, `Waits`, `Monitors` (the parts, and what each event makes of one of them),
//! `State`, then `Making`, `Binding`, `Sending`, `Taking`, `Forwarding` (the events), `Step` (which event is which
//! function) and `Runs`. What holds of every run: `Standing`, the files `Sound..`, each a subject, `Sound` and `Laws`.
//!
//! And what the code asks and answers of them: [`Event`] and [`Answer`] (which of the machine's they are stands in `Views`),
//! and [`Machine`], a system that does what the machine does (`Steps`).
//!
//! - `event.rt`: events, and dispatchers, of which they speak
//! - `back_end.rt`, `route.rt`: how the ends of a binding are to be joined
//! - `answer.rt`: answers
//! - `machine.rt`: what does them
#![tactic(auto)]

mod answer;
mod back_end;
mod event;
mod machine;
mod route;

pub use answer::{Answer, BriefAnswer, TurnedAnswer};
pub use back_end::BackEnd;
pub use event::{DispatcherId, Event};
pub use machine::Machine;
pub use route::Route;
