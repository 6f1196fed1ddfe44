//! Stub code: short programs that move a call between its tape (the list of its numbers and lengths)
//! and its payload (bytes). Send code gives bytes for a tape, receive code a tape for bytes.
//!
//! Contract for the layers above: [`verify`] accepts exactly the instructions that have a structure
//! (`specs/Structure.antt`), and code with a structure has a meaning (`specs/Meaning.antt`), said apart
//! from any machine that runs it.
//!
//! - `op.rt`: `Op`, `Column`
//! - `code.rt`: `Code`, `VerifiedCode`, [`verify`]
//! - `mark.rt`: `ByteKind`, what stands at a byte of a payload
//! - `law.rt`: laws of the structure and the meaning
#![tactic(auto)]

mod code;
mod law;
mod mark;
mod op;
mod walk;

pub use code::{Code, VerifiedCode, verify};
pub use law::{
    law_gives_what_turns, law_one_mark, law_one_sending, law_one_structure, law_one_taking,
};
pub use mark::ByteKind;
pub use op::{Column, Op};
pub use walk::MAX_DEPTH;
