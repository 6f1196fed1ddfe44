//! A run of cores that was recorded, told as a script.
//!
//! What a core does is a function of the cores file and of what its looks and puts come to, which its
//! sides noted. So the cores are run once more, one after another on one thread, over sides that answer as
//! the record says; that tells each core's events. They are put in one order then: a fragment is put behind
//! the last look that found nothing there, and before the first that saw it.
//!
//! Contract for the layer above, of [`script_of`]: a script that it gives has a transcript which tells, at
//! each end, just the report's calls, and each of its lines stands in the file or asks for an event. How it
//! is made promises nothing: it is run before it is given (`fl_cores_script`), and one that does something
//! else is given to nobody. Where there is none, just of a run without a record it is said that it has none, and
//! of one that is too long for `exec` more than 1 MiB are told. The cores themselves are held by
//! `fl_cores_parts`, and lent.
//!
//! - `replayed_side.rt`: a side that answers as a record says
//! - `replayed_core.rt`: a core that is run once more, and its events
//! - `replay.rt`: all cores run once more
//! - `order.rt`: their events in one order
//! - `lines.rt`: the file's lines, and those of events
//! - `telling.rt`: the whole script; `no_script.rt`: why there is none
#![tactic(auto)]

mod lines;
mod no_script;
mod order;
mod replay;
mod replayed_core;
mod replayed_side;
mod telling;

pub use no_script::NoScript;
pub use telling::script_of;
