//! One order of all steps by rings of two sides, turned into one order of whole events. Laws, the contracts of
//! functions that do nothing.
//!
//! A core's event is some of its steps in a row, by one side or by several, with steps of other cores between
//! them in the order of all steps (`fl_history_rings::Gathering::settle`). Some kinds of step can happen later
//! than they did, past steps of other cores, and some earlier. Where the first steps of an event may wait, up
//! to one that decides, and the others may come as early as that, all of it can happen at one moment: a look
//! that misses may always come earlier, and a take where its core has seen what stands there, in this event or
//! before (`specs/Events.antt`). So there is an order of whole events, that leads to the same
//! ([`law_events_have_one_order`]).
//!
//! No event puts twice.
//!
//! No law says that the order of events is that of the steps that decide them, nor that of time.
//!
//! - `law.rt`: the laws
#![tactic(auto)]

mod law;

pub use law::{
    law_begun_events_are_events, law_events_have_moments, law_events_have_one_order,
    law_events_stay_events, law_gathered_events_have_one_order,
};
