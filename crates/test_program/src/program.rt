//! What the program is made of, by the public calls of `fl_world` and `fl_script_exec`.
//!
//! - `scripts.rt`: scripts with their transcripts, and the test of all tables
//! - `examples.rt`: the scripts of `examples/`
//! - `stuck.rt`, `stuck_queue.rt`: those among them in which bindings with reply rules stick
//! - `drawings.rt`: examples with their drawings
//! - `rows.rt`, `core_rows.rt`: worked examples of one core and of several
//! - `letters.rt`: calls of a text of few letters and of many
//! - `lines.rt`: lines that ask nothing, and words that are no command
//! - `limits.rt`: one thing more than a world holds, and the longest script
//! - `memory.rt`: memory that is refused
//!
//! `rt try --test --fail-alloc N` runs each with its Nth allocation refused: then `memory_is_refused` has to pass, and
//! others end with out of memory. Readers and writers that give and take little, or fail, are tested in `test_scripts`.

mod core_rows;
mod drawings;
mod examples;
mod letters;
mod limits;
mod lines;
mod memory;
mod rows;
mod scripts;
mod stuck;
mod stuck_queue;
