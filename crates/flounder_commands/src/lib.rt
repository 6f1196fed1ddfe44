//! The program's commands that need no run of cores: what `exec`, `show`, `compile` and `header` do with files,
//! standard input and standard output, and the statuses with which the program ends.
//!
//! Contract for the program: files are touched only as a command says, and written only after their text was
//! accepted; a status of 0 means that all that a command prints was printed (`specs/Commands.antt`,
//! `specs/Headers.antt`, `specs/FileEffects.antt`).
//!
//! - [`run_script`], [`show_file`], [`compile_file`], [`header_file`]: the commands; [`tell_usage`]: words that ask for none
//! - [`FileStore`]: the files that commands name, and [`Disk`], those of the system
//! - [`Fault`]: why the program doesn't end well, and the status of that (`specs/Status.antt`); [`finish`]
//!   tells it
//!
//! - [`Watched`]: standard input and output that remember why they failed, what passed through them, and
//!   whether that told of a refused line (`refusals.rt`, `specs/Refusals.antt`)
//!
//! Files: `commands.rt`, `header.rt`, `usage.rt`, `files.rt`, `fault.rt`, `watched.rt`; `output.rt` what is put into
//! standard output. How the program tells of what is refused: `told.rt` of a file's content, `line.rt` of a
//! line of a script or cores file, `explain.rt` of all those of a script; `unfinished.rt` what cores left
//! undone; `words.rt` the words of their faults, `excerpt.rt` what stands there, `names.rt` names of files.
#![tactic(auto)]

mod commands;
mod excerpt;
mod explain;
mod fault;
mod files;
mod header;
mod line;
mod names;
mod output;
mod refusals;
mod told;
mod unfinished;
mod usage;
mod watched;
mod words;

pub use commands::{compile_file, run_script, show_file};
pub use explain::explain_line;
pub use fault::{Fault, Reason, fault_of_reading, fault_of_writing, finish, no_words};
pub use files::{Disk, FileKind, FileStore};
pub use header::header_file;
pub use names::FileName;
pub use output::print;
pub use told::RefusedFile;
pub use unfinished::tell_unfinished;
pub use usage::tell_usage;
pub use watched::{FindsRefusals, Watch, Watched};
