//! The lexer of interface texts: bytes to tokens.
//!
//! Contract for the layers above: [`lex`] gives the tokens that the bytes spell, each the longest
//! that stands at its place, or the first fault of the text. What that means stands in
//! `specs/Spelling.antt` and `specs/Outcome.antt`.
//!
//! - `word.rt`: letters, digits and words
//! - `token.rt`: tokens
//! - `fault.rt`: what can be wrong with a text
//! - `class.rt`: what a byte may begin
//! - `item.rt`: the token or gap that a text begins with
//! - `lexer.rt`: a whole text
//! - `law.rt`: laws
#![tactic(auto)]

mod class;
mod fault;
mod item;
mod law;
mod lexer;
mod token;
mod word;

pub use class::ByteClass;
pub use fault::LexFault;
pub use law::{law_joined_tokens, law_one_outcome, law_some_outcome};
pub use lexer::{MAX_TEXT, lex};
pub use token::{Mark, Token, TokenKind, Tokens};
pub use word::{
    MAX_WORD, count_digits, count_word_bytes, is_digit, is_letter, is_name, is_word, is_word_byte,
};
