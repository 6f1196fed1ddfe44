//! Many rings in one table, with one history: each call, in one thread and in several.
//!
//! - `rows.rt`: a ring in one thread; memory that is refused
//! - `threads.rt`: two threads with a ring between them
//! - `passing.rt`: three cores with three rings, in three threads
#[cfg(test)]
mod passing;
#[cfg(test)]
mod rows;
#[cfg(test)]
mod threads;
