//! Tests of values, layouts, payloads, fragments and codecs, by the public calls of their crates: worked rows and forged
//! fragments. The rows of a kind stand in a table; each file has those of one crate or one call.
//!
//! - `value_tests.rt`, `tape_tests.rt`: calls as text, and calls as tapes
//! - `layout_tests.rt`: lengths, places and sizes
//! - `payload_tests.rt`: payloads, fragments, and calls read back from them
//! - `codec_tests.rt`: tapes of few numbers, and their fragments; `compact_tests.rt`: calls in little memory
//! - `forged_tests.rt`: what lists of fragments read as, forged ones too

mod codec_tests;
mod compact_tests;
mod forged_tests;
mod layout_tests;
mod payload_tests;
mod tape_tests;
mod value_tests;
