//! An interface's text, read.

ghost use Rattle.std.specs.Prelude.{IfOk, ◌≡◌, ℕ, Some};
ghost use Rattle.fl_lex.specs.Token.{tokens_of};
ghost use Rattle.fl_parse.specs.Tree.{tree_of};
ghost use Rattle.fl_parse.specs.Grammar.{parsed};
ghost use Rattle.fl_lex.specs.Outcome.{lexed};
ghost use Rattle.fl_check.specs.Text.{TextMeans, ParsedMeans, LexedMeans, text_fault};
ghost use Rattle.fl_check.specs.TextOutcome.{outcome_of};

use crate::check;
use fl_interface::Interface;
use fl_lex::{Tokens, lex};
use fl_parse::{Tree, parse};
use std::alloc::{AllocError, Global};

/// What a text is: an interface, or a fault and where it stands.
#[derive(Debug, Drop)]
pub enum TextRead {
    /// The interface that the text stands for.
    Interface(Interface),
    /// The number of the text's first fault, 1 to 21, and its place in bytes from the text's start.
    Fault { number: u8, offset: usize },
}

// A fault at a place, or, without one, out of memory.
fn fault_read(number: u8, offset: Option<usize>) -> Result<TextRead, AllocError>
    ensures fault { IfOk result (λ r. (at : ℕ) × (offset ≡ Some at) × (outcome_of r ≡ text_fault number at)) }
{
    match offset {
        None => Err(AllocError),
        Some(offset) => Ok(TextRead::Fault { number, offset }),
    }
}

// A tree is checked.
fn read_tree(alloc: Global, tree: &Tree<'_>) -> Result<TextRead, AllocError>
    ensures means { IfOk result (λ r. ParsedMeans (parsed (tree_of tree.now)) (outcome_of r)) }
{
    match check(alloc, tree) {
        Ok(interface) => Ok(TextRead::Interface(interface)),
        Err(fault) => fault_read(fault.number(), fault.offset()),
    }
}

// Tokens are parsed.
fn read_tokens(alloc: Global, tokens: &Tokens<'_>) -> Result<TextRead, AllocError>
    ensures means { IfOk result (λ r. LexedMeans (lexed (tokens_of tokens.now)) (outcome_of r)) }
{
    match parse(alloc, tokens) {
        Ok(tree) => read_tree(alloc, &tree),
        Err(fault) => fault_read(fault.number(), fault.offset()),
    }
}

/// Reads an interface's text: its tokens, their tree, and the interface that the tree stands for, or
/// the first fault.
///
/// # Errors
/// Only out of memory: a fault of the text is a result.
pub fn read_text(alloc: Global, text: &[u8]) -> Result<TextRead, AllocError>
    ensures means { IfOk result (λ r. TextMeans text.now (outcome_of r)) }
{
    match lex(alloc, text) {
        Ok(tokens) => read_tokens(alloc, &tokens),
        Err(fault) => fault_read(fault.number(), fault.offset()),
    }
}
