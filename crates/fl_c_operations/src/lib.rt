//! What C asks of the proved parts, as ordinary functions over one type of handle. `fl_c` exports them.
//!
//! Each operation has a number, and a contract that says exactly what it does (`specs/Sides.antt`,
//! `specs/Handles.antt`); what a caller can get wrong is answered by a number of 100 or more, and nothing is done.
//!
//! - `handle.rt`: what a handle leads to
//! - `handing.rt`: handles for C, each in a block of its own
//! - `sending.rt`: handles may go to other threads
//! - `operation.rt`: the operations, by number
//! - `side.rt`: operations at a side of a ring
//! - `end.rt`: an end with its side and place, and operations at it (`specs/Ends.antt`)
//! - `transmitting.rt`: an end with a call of one fragment in transmission (`specs/Transmissions.antt`)
//! - `short.rt`: calls of messages of few numbers, without values (`specs/Shorts.antt`), by `codecs.rt`: the codecs of a program's
//!   messages (`specs/Codecs.antt`)
//! - `by_stub.rt`: other calls of one fragment, without values, by stub code
//! - `glance.rt`: what an end takes at its first look (`specs/Glances.antt`); `looked.rt`: a side that has seen what stands first
//!   (`specs/Seen.antt`); `untaken.rt`: a receive of what wasn't taken then; `unread.rt`: a call that was handled, until it is read
//! - `calls.rt`: calls as numbers (`specs/Calls.antt`); `tapes.rt`: whether a tape is a call's, where memory ran out
//! - `program.rt`, `sender.rt`, `receiver.rt`: a program alone, and runs of its stubs alone (`specs/Runs.antt`)
//! - `making.rt`: the ends, or the program, of a text or an image (`specs/Making.antt`)
//! - `answer.rt`: what an operation comes to, and its numbers
#![tactic(auto)]

mod answer;
mod by_stub;
mod calls;
mod codecs;
mod end;
mod glance;
mod handing;
mod handle;
mod looked;
mod making;
mod operation;
mod program;
mod receiver;
mod sender;
mod sending;
mod short;
mod side;
mod tapes;
mod transmitting;
mod unread;
mod untaken;

pub use answer::{Answered, Outcome, UseFault};
pub use end::{HeldEnd, use_end};
pub use handing::{boxed, hand_one, hand_out};
pub use handle::{Handle, new_run, ring_handles, use_handle, use_sending, use_taking};
pub use making::{MakeFault, image_ends, image_program, text_ends, text_program};
pub use operation::Operation;
pub use program::HeldProgram;
pub use receiver::{HeldReceiver, use_receiver};
pub use sender::{HeldSender, use_sender};
pub use sending::law_handles_go_to_threads;
pub use side::{peek, put, take, tell, use_side};
