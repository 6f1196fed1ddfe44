//! Tests of circuits at cores, over their public calls alone. They stand here and not in `fl_hop`, since a crate with
//! tests is proved twice.
//!
//! - `openings.rt`: links, numbers, and each way in which an entry comes and goes
//! - `routes.rt`: a circuit over two links, with real rings between the cores

mod openings;
mod routes;
