//! Values and calls, and the tape of a call: its values as a list of numbers, in a plan's order.
//!
//! Contract for the layers above: which values have a type, and which calls fit an interface (`specs/Fits.antt`); the tape of a fitting call, and the one
//! fitting call that has a tape (`specs/Tape.antt`, `specs/Taken.antt`, [`law_one_call_of_a_tape`]); the order of a plan (`specs/Plan.antt`). How calls are
//! spelled stands in `fl_value`, which hands all of this on.
//!
//! - `value.rt`: `Value`, `Call`, `PlanNo`
//! - `fitting.rt`: values of a type, calls that fit
//! - `order.rt`: the order of a plan
//! - `tape.rt`: a call's tape; `untape.rt`: the call of a tape
//! - `law.rt`: laws
#![tactic(auto)]

mod fitting;
mod law;
mod order;
mod tape;
mod untape;
mod value;

pub use fitting::{are_text_bytes, fits, has_type};
pub use law::{law_one_call_of_a_tape, law_rank_by_rank};
pub use order::RANKS;
pub use tape::{flatten, flatten_into};
pub use untape::{unflatten, unflatten_in};
pub use value::{Call, PlanNo, Value};
