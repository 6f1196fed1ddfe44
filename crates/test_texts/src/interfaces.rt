//! Interfaces made from their texts.

use fl_check::{TextFault, check};
use fl_interface::Interface;
use fl_lex::lex;
use fl_parse::parse;
use std::alloc::Global;

/// The interface of a text.
pub fn interface(alloc: Global, text: &[u8]) -> Result<Interface, TextFault> {
    let tokens = lex(alloc, text)?;
    let tree = parse(alloc, &tokens)?;
    Ok(check(alloc, &tree)?)
}
