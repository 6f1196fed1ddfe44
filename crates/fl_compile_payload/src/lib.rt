//! Payloads of calls, by packed tapes and prepared send code.
//!
//! Contract for the layers above: [`payload_by`] makes a fitting call's payload by its message's prepared code; the
//! encoder of `fl_wire` makes the same.
#![tactic(auto)]

mod payload;

pub use payload::payload_by;
