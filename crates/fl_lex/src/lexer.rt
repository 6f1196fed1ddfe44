//! A whole text.

ghost use Rattle.std.specs.Prelude.{◌≡◌, ◌≤◌, ◌++◌, IfSome, IfOk, IfErr, OnOk, length, map, Some};
ghost use Rattle.fl_lex.specs.Outcome.{Lexes, outcome_of, AreTokensIn};
ghost use Rattle.fl_lex.specs.Spelling.{token_in};
ghost use Rattle.fl_lex.specs.Item.{item_of, IsRight};
ghost use Rattle.fl_lex.specs.declared.fault.LexFault.TheVariants.{Memory};
ghost use Rattle.fl_lex.specs.Token.{tokens_of, token_of};

use crate::fault::LexFault;
use crate::item::read_item;
use crate::token::{Token, TokenKind, Tokens};
use std::alloc::Global;

/// Bytes of the longest text.
pub const MAX_TEXT: usize = 65_536;

/// The tokens that the bytes spell, or the first fault of the text. Each token's text is a part of
/// `text`. One pass: the time goes with the text's length.
///
/// # Errors
///
/// E6 before all others, then the first of E1 to E5 in the text; E99 where memory is refused.
pub fn lex(alloc: Global, text: &[u8]) -> Result<Tokens<'_>, LexFault>
    ensures outcome { IfSome (outcome_of result) (λ found. Lexes text.now found) }
    ensures tokens { IfOk result (λ tokens. AreTokensIn text.now (tokens_of tokens)) }
    ensures memory { IfErr result (λ fault. fault ≡ Memory → length text.now ≤ 65536) }
{
    if text.len() > MAX_TEXT {
        return Err(LexFault::LongText);
    }
    let mut items = Vec::new(alloc);
    let mut rest = text;
    while !rest.is_empty() {
        let at = text.len() - rest.len();
        let piece = read_item(rest, at)?;
        let (bytes, after) = rest.split_at(piece.length);
        keep(&mut items, piece.kind, bytes, at)?;
        rest = after;
    }
    Ok(Tokens {
        items,
        end: text.len(),
    })
}

// Puts a piece of the text at the end of the tokens, where it is a token.
fn keep<'a>(
    items: &mut Vec<Token<'a>>,
    kind: Option<TokenKind>,
    bytes: &'a [u8],
    at: usize,
) -> Result<(), LexFault>
    requires right { IsRight (item_of kind) bytes.now }
    ensures kept { OnOk result (map token_of items.new.items ≡ map token_of items.old.items ++ token_in at (item_of kind) bytes.now) }
    ensures full { IfErr result (λ fault. fault ≡ Memory) }
{
    if let Some(kind) = kind {
        let token = Token {
            kind,
            text: bytes,
            at,
        };
        items.push(token).map_err(|_| LexFault::Memory)?;
    }
    Ok(())
}
