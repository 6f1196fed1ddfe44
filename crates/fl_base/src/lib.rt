//! What every layer speaks of: the names of cores, channels, links, circuits and messages, the
//! fragment (one cache line: seven payload words and a control word), and the limits.
//!
//! Contract for the layers above: the fields that [`control`] writes are the fields that the
//! readers of [`Frag`] read. The layout stands in `specs/Control.antt`.
//!
//! - `identity.rt`: numbers with a meaning, and `Span`, a stretch of a text
//! - `fragment.rt`: `Frag` and its control word
//! - `limits.rt`: how many of each thing there may be
//! - `faults.rt`: the numbers of refusals
#![tactic(auto)]

pub mod faults;
mod fragment;
mod identity;
mod limits;

pub use fragment::{Frag, control, epoch_of, told_of};
pub use identity::{ChanId, Circuit, CoreId, EndId, IRef, LinkId, MsgNo, Side, Span};
pub use limits::{
    FRAG_BYTES, MAX_BINDINGS, MAX_CHANNELS, MAX_CORES, MAX_DISPATCHERS, MAX_INTERFACES, MAX_QUEUE,
    MAX_SERVICES,
};
