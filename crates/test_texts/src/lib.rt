//! Tests of interfaces' texts, values, layouts, payloads, code and images, over the public calls of their crates: one crate,
//! since each crate of tests begins with reading all that it stands on.
//!
//! - `rows.rt`: tables, of which a test tells the first row that isn't so; `interfaces.rt`: interfaces made from their texts
//! - `text.rt`: `fl_lex`, `fl_parse` and `fl_check`
//! - `wire.rt`: `fl_value`, `fl_layout`, `fl_wire` and `fl_codec`
//! - `stub.rt`: `fl_stub`, `fl_compile` and `fl_machine`
//! - `image.rt`: `fl_image`
//! - `show.rt`: `flounder_show`
//!
//! With a request for memory refused (`rt try --test --fail-alloc N`) the tests whose names end in `without_memory` have
//! to pass, and the others end with out of memory.
#![tactic(auto)]

#[cfg(test)]
mod image;
#[cfg(test)]
mod interfaces;
#[cfg(test)]
mod rows;
#[cfg(test)]
mod show;
#[cfg(test)]
mod stub;
#[cfg(test)]
mod text;
#[cfg(test)]
mod wire;
