//! What `show` and `header` make of texts and images, by rows from outside. What is told of refusals, and what
//! `compile` makes, stand in `test_program`, by the commands.
//!
//! - `shown.rt`: what is shown; `show_tests.rt`: the rows

mod show_tests;
mod shown;
