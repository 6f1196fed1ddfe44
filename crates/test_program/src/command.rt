//! What the program is made of, by the public calls of `flounder_args` and `flounder_commands`: words, files and standard input
//! in; standard output, standard error and a status out. `cores` and whole runs are tested in `test_cores`.
//!
//! - `words.rt`: what words ask for, words that are no command, and help
//! - `outputs.rt`: what commands print, and files that can only be read
//! - `scripts.rt`: `exec`
//! - `show.rt`: `show`
//! - `store.rt`, `compile.rt`: `compile`, and the files that it is done with
//!
//! With a request for memory refused (`rt try --test --fail-alloc N`) the test whose name ends in `without_memory` has
//! to pass, and the others end with out of memory.

mod compile;
mod outputs;
mod scripts;
mod show;
mod store;
mod words;
