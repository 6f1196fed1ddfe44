//! Three lists over one table: each node is in the idle list, in the polled list, in the pending
//! list, or in none. Lists are linked by indexes into the table, so each call costs the same
//! whatever the number of nodes, and none after `Lists::new` takes memory.
//!
//! Contract for the layers above: a `Lists` is three lists of numbers (`specs/ThreeLists.antt`), and
//! each call says which lists it leaves. How the table holds them stands in `specs/Table.antt`.
//!
//! - `place.rt`: `Place`, which of the three lists
//! - `node.rt`: a node, and how one is taken out of its list and put at the back of another
//! - `in_table.rt`: the three lists in one table
//! - `lists.rt`: `Lists`, which chooses between a small table and a large one
#![tactic(auto)]

mod in_table;
mod lists;
mod node;
mod place;

pub use lists::Lists;
pub use place::Place;
