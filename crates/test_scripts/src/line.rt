//! Tests of script lines, over the public calls of `fl_script_lines` alone. What commands ask, and the texts of answers, are
//! tested in `test_program`, by scripts.
//!
//! - `grammar_tests.rt`: what lines spell, and which are not read
//! - `item_tests.rt`: a script's lines and blocks

mod grammar_tests;
mod item_tests;
