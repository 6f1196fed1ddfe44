//! Prepared send code: the larger steps that verified code comes to, and runs of them over packed tapes.
//!
//! Contract for the layers above: [`PreparedCode`] means what the code means from which it was made
//! (`specs/Steps.antt`), and that is what the code makes of a tape ([`law_spreads_packed`]); [`PreparedCode::give`]
//! writes these bytes.
//!
//! - `step.rt`: `StubStep`, `PreparedCode`
//! - `preparing.rt`: the steps of code
//! - `give.rt`: the bytes that steps give
//! - `take.rt`: the packed tape that steps take back from a payload
//! - `law.rt`: what code makes of packed tapes, and that steps take them back
#![tactic(auto)]

mod give;
mod law;
mod preparing;
mod step;
mod take;

pub use law::{law_spreads_packed, law_takes_back};
pub use preparing::prepare;
pub use step::PreparedCode;
