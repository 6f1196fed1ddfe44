//! Links: how fragments pass from a side that puts to a side that takes.
//!
//! Ends, monitors and cores are written once over [`PutSide`] and [`TakeSide`], and proved once. A
//! link is a bounded queue of fragments; how it frees its slots, and what it writes into a
//! fragment's epoch and count told, is its own affair (`specs/Queue.antt`).
//!
//! Contract for the layers above: each call of a side is one step of the side's relation, labelled
//! by what it came to (`specs/Looks.antt`): a success says that there was room as much as a refusal
//! says that there was none.
//!
//! - `sides.rt`: the traits
//! - `queue.rt`: `QueueLink`, the queue within a core or of a link with one owner
//! - `cursor.rt`: `Cursor`, an index that goes round a ring, and the last index
//! - `fault.rt`: why a put or a making is refused
//! - `law.rt`: what holds of looks in a row, and of a queue over them
#![tactic(auto)]

mod cursor;
mod fault;
mod law;
mod queue;
mod sides;

pub use cursor::{Cursor, SPENT};
pub use fault::{LinkFault, PutFault};
pub use law::{law_calls_alone, law_filters_join, law_looks_join, law_queue_conserves};
pub use queue::QueueLink;
pub use sides::{Link, PutSide, Sight, TakeSide, Told};
