//! Images of interface texts, and what reading spoiled images answers, by rows from outside.

pub mod images;
mod memory_tests;
mod row_tests;
mod stub_tests;
mod text_tests;
