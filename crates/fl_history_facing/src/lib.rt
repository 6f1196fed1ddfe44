//! Where all steps at a table have one order, each step of a side finds what stands in its ring (`Truly` of
//! `fl_cores_joined`), and so does each event of a core's log whose steps are in a row there. Laws, the contracts of
//! functions that do nothing.
//!
//! - `law.rt`: the laws
#![tactic(auto)]

mod law;

pub use law::{
    law_entries_happen_truly, law_own_steps_show_sides, law_sides_face, law_steps_are_true,
};
