//! The sides of a core at a table of rings, lent one at a time.
//!
//! A core at the rings of one table (`fl_history_rings`) makes its steps by all its sides with one seat, and
//! notes them in one list. Here it comes with its sides, so that a running core (`fl_core_run`) goes over
//! them. A side is shown as a side of a ring that has a table of its own is (`fl_ring`): what is proved over
//! those holds of it. Beside that it shows its core, as it was once it last did something by this side. So
//! each step of a side says which steps its core noted for it, and what was done by all sides of a core has
//! the order of the core's list.
//!
//! A core that has no sides does nothing at the table, and isn't kept.
//!
//! - `lent.rt`: `LentSide`, the core and its sides while one of them is lent
//! - `sides.rt`: `HistorySides`, a core's sides made and gone over, and the core again
//! - `law.rt`: what the sides of a core tell of it
#![tactic(auto)]

mod law;
mod lent;
mod sides;

pub use law::{
    law_cores_follow, law_one_tells_all, law_rings_are_near, law_sides_are_shared, law_sides_stay,
    law_sides_tell_core,
};
pub use lent::LentSide;
pub use sides::HistorySides;
