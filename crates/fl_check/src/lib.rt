//! What a text of the interface language stands for: the interface, or the first rule that is broken.
//!
//! [`check`] checks a tree; [`read_text`] reads a text at once: it gives the interface that the text stands for, or its first fault and where that stands
//! (`specs/Text.antt`). Each text is one of these ([`law_some_text`]), and one alone ([`law_one_text`]).
#![tactic(auto)]

mod arguments;
mod checker;
mod declarations;
mod declared;
mod explained;
mod fault;
mod law;
mod measured;
mod messages;
mod parts;
mod payload;
mod position;
mod text;
mod text_law;
mod types;
mod words;

pub use checker::check;
pub use explained::{Explained, TextFault};
pub use fault::{CheckFault, Rule};
pub use fl_interface::Interface;
pub use law::{law_none_too_long, law_one_outcome, law_some_outcome, law_texts_are_spellable};
pub use position::Position;
pub use text::{TextRead, read_text};
pub use text_law::{law_one_text, law_some_text};
