//! Tests of `exec`, over the public calls of `fl_script_exec` alone, on a system that does no event: scripts all of whose
//! lines are answered before the machine is asked.
//!
//! - `still.rt`: the system, for which each event is out of memory
//! - `refusals.rt`: what is refused for a line, a name or an interface's text, and in which order
//! - `streams.rt`: readers and writers that give and take little, or fail, and memory that is refused

mod refusals;
mod still;
mod streams;
