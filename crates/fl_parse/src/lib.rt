//! The tree of an interface's text.
#![tactic(auto)]

mod fault;
mod law;
mod parser;
mod parts;
mod printer;
mod reading;
mod stop;
mod tree;

pub use fault::ParseFault;
pub use law::{law_one_outcome, law_printed_tokens, law_round_trip, law_some_outcome};
pub use parser::parse;
pub use printer::print;
pub use tree::{
    Argument, Declaration, DirectedArgument, Direction, Field, MessageKind, Name, Number, Shape,
    Tree,
};
