//! Rings over shared atomic words, each side in a thread of its own.
//!
//! A ring is one table of words, and every step is one load or store of one word. The table has a
//! rule, which holds at every moment (`specs/SharedRing.antt`): every fragment from the number told
//! on is in its slot with the epoch of its round, the other slots have the other epoch, and what was
//! got is a prefix of what was sent. Each side steps with a seat of the table. What a side knows is
//! its view: plain data, which exists in the proofs alone and moves by its own steps only.
//!
//! - `board.rt`: the views and the rule
//! - `plays.rt`: the kinds of step
//! - `writes.rt`, `reads.rt`: steps in a row
//! - `tx.rt`, `rx.rt`: the sides
//! - `making.rt`: `ring` and `settle`
//! - `duo_board.rt`, `duo_plays.rt`, `duo_steps.rt`, `duo_sides.rt`, `duo_making.rt`: the same for a
//!   ring of two directions (`specs/SharedDuo.antt`)
//! - `sight.rt`: what a look answers

mod board;
mod duo_board;
mod duo_making;
mod duo_plays;
mod duo_sides;
mod duo_steps;
mod making;
mod plays;
mod reads;
mod rx;
mod sight;
mod tx;
mod writes;

pub use duo_making::{duo, duo_from, settle_duo};
pub use duo_sides::SharedSide;
pub use making::{ring, settle};
pub use rx::RingRx;
pub use tx::RingTx;
