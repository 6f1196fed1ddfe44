//! Turns of a running core, on the cut of the machine's state that it shows.
//!
//! Contract for the layers above: [`law_ready_turns`]. A core that is ready took so many turns; then, behind
//! each event of just these turns, it shows the cut that the machine makes, by what that event's look found,
//! of the cut before; and each side of a ring was looked at as often as it was found empty or full.
//!
//! - `specs/TurnEvents.antt`: the events of turns, and their log
//! - `specs/Reasons.antt`: why what comes on a link fails
//! - `specs/Turned.antt`: one event, events in a row, how often a side was found empty or full, and turns
//! - `specs/ReadyTurns.antt`: the laws, which `law.rt` has
#![tactic(auto)]

mod law;

pub use law::law_ready_turns;
