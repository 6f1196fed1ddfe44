//! Script lines: what a line spells, the names that a script gives, what a line asks of the machine, and the
//! texts of answers.
//!
//! Contract for the layer above: [`parse_line`] gives what a line is (`specs/Grammar.antt`, over the table of lines in
//! `specs/Commands.antt`), a line is one thing ([`law_one_line`]), and what [`print_command`] writes reads as that command
//! ([`law_printed_reads`]).
//!
//! - `word.rt`: a line's words, and the numbers that words write
//! - `command.rt`: commands, and what a line is
//! - `reader.rt`: lines read, row by row of the table
//! - `item.rt`: a script's lines, and its items: lines and blocks
//! - `printing.rt`: commands as text
//! - `answer.rt`: the texts of answers
//! - `table.rt`: lists of names, asked from the front where they are few, else by a map
//! - `asking.rt`: what a line asks, told from its words at once where it gives no name
//! - `names.rt`: the names of a script, and what its commands ask by them
//! - `event.rt`, `fault.rt`: what a command asks of the machine, and the name that it gives; why it asks nothing
//! - `law.rt`: the laws
#![tactic(auto)]

mod answer;
mod asking;
mod command;
mod event;
mod fault;
mod item;
mod law;
mod names;
mod printing;
mod reader;
mod table;
mod word;

pub use answer::{print_answer, print_brief, print_fault, print_turned, put_end};
pub use command::{BackEndText, Command, EndName, Line, LineHead, RouteText, Verb};
pub use event::{NamedEvent, Naming};
pub use fault::LineFault;
pub use item::{Item, RawItem, next_item, next_part, next_repeated};
pub use law::{
    law_one_asked, law_one_items, law_one_line, law_printed_reads, law_some_items,
    law_spelled_reads,
};
pub use names::{ScriptNames, names_of_interface};
pub use printing::print_command;
pub use reader::{parse_line, read_command};
pub use table::{InterfaceNames, NameTable};
