//! The words of the command line: what the program is asked for.
//!
//! - [`read_words`]: the request that the words make, or why they make none, as `clap` reads them
//!   (`specs/Words.antt`)
//! - [`hint`]: how a script comes in, behind words that are refused
//! - [`law_what_words_ask`]: what words ask for
//!
//! Files: `words.rt` the commands, their help and their values; `law.rt` the laws.
#![tactic(auto)]

mod law;
mod words;

pub use law::law_what_words_ask;
pub use words::{Request, hint, read_words};
