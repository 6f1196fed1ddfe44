//! Many rings of two sides in one table of atomic words, and one history of all that is done by them.
//!
//! A ring has two directions, as `fl_ring` has it between two threads: each side puts into slots of its own,
//! payload words first and the control word last, and that word also tells how many fragments the side has
//! taken. Each side is a core's, in a thread of its own. A core has one seat at the table, with which it
//! makes its steps by all its sides. The rule of the table (`specs/Rule.antt`) says that there is a list of
//! what was done so far, by any side; a core knows what it did itself. A fragment is put by the store of its
//! control word, and found by its load; payload words that are found, stored or loaded are steps that aren't
//! noted. The kinds of step in `plays.rt` are part of what is promised.
//!
//! No clause says
//! - that a core steps, nor that a look finds what was put long ago: one that takes and neither puts nor
//!   acknowledges leaves the other side full for ever
//! - that the order is that of time, nor that it only grows: cores that are gathered have one order, and
//!   those of another gathering have another. So gather all cores, and settle then
//! - what a core did that isn't among those gathered: the order may have any steps of it
//!
//! A fragment may be found for room alone, without being seen or taken.
//!
//! - `board.rt`: the views and the rule
//! - `plays.rt`: the kinds of step
//! - `place.rt`: where a side puts next, and takes from next; `RingSide`
//! - `steps.rt`: steps in a row
//! - `sides.rt`: what sides do, with their core's seat
//! - `one_core.rt`: `RingsCore`
//! - `making.rt`: `rings` and `CoresLeft`
//! - `gathering.rt`: `Gathering`
//! - `law.rt`: what one order of all steps tells
#![tactic(auto)]

mod board;
mod gathering;
mod law;
mod making;
mod one_core;
mod place;
mod plays;
mod sides;
mod steps;

pub use board::{RingEnds, SideEnd};
pub use gathering::Gathering;
pub use law::{
    law_known_was_taken, law_looks_find_what_stands, law_no_others, law_not_all_begin_by_finding,
    law_puts_find_room, law_puts_tell_what_was_taken, law_sides_stay, law_taken_is_prefix,
};
pub use making::{CoresLeft, rings};
pub use one_core::{Foreign, RingsCore};
pub use place::RingSide;
