//! Runs of stub code, a fragment at a time: a run stops wherever a fragment is full and goes on in the next.
//!
//! Contract for the layers above: a send run is the list of the fragments that are still to be given
//! (`specs/Sending.antt`), a receive run the list of those fed since the last whole call and of that call's
//! (`specs/Receiving.antt`), a reassembly that of the call under way (`specs/Reassembling.antt`): functions of
//! the code and of what the run stores. No history is kept, and no call takes memory but those that make a
//! receive run, a place for reassembling calls, and a call.
//!
//! - `cursor.rt`: where a run of send code stands, and how it goes on by an instruction
//! - `send.rt`: `SendRun`, and a call's first fragment without one
//! - `intake.rt`: where a run of receive code stands, and how it takes bytes
//! - `straight.rt`: numbers that lie in one fragment, taken outside loops: those of a call of one fragment, and those that others begin with
//! - `text.rt`: a fragment whose bytes are all of one text, which goes on
//! - `recv.rt`: `RecvRun`
//! - `reassembly.rt`: what is taken of a call under way: its fragments are kept, and read once they are all there
//! - `reassemblies.rt`: `Reassemblies`, calls put together at many places
//! - `rooms.rt`: rooms for the fragments of calls under way at many places, in one block of memory
//! - `law.rt`: what runs of the compiler's code give and take
#![tactic(auto)]

mod cursor;
mod intake;
mod law;
mod reassemblies;
mod reassembly;
mod recv;
mod rooms;
mod send;
mod straight;
mod text;

pub use cursor::{Loop, SendCursor};
pub use intake::{Fed, RecvCursor};
pub use law::{law_sends_fragments, law_sets_circuits, law_takes_fragments};
pub use reassemblies::Reassemblies;
pub use reassembly::{TakeFault, Taken};
pub use recv::RecvRun;
pub use send::{SendRun, first_frag};
