//! A token, and the list of a text's tokens.

ghost use Rattle.std.specs.Prelude.{◌≡◌, true, false, IfSome, IfNone};
ghost use Rattle.fl_lex.specs.Words.{is_name};
ghost use Rattle.fl_lex.specs.declared.token.TokenKind.TheVariants.{Word};

use crate::word::is_name;

/// A mark of the language.
#[derive(Clone, Copy, Debug, PartialEq, Eq)]
pub enum Mark {
    /// `{`
    OpenBrace,
    /// `}`
    CloseBrace,
    /// `(`
    OpenParen,
    /// `)`
    CloseParen,
    /// `[`
    OpenBracket,
    /// `]`
    CloseBracket,
    /// `,`
    Comma,
    /// `;`
    Semicolon,
}

/// What a token is.
#[derive(Clone, Copy, Debug, PartialEq, Eq)]
pub enum TokenKind {
    /// A letter or `_`, then letters, digits and `_`.
    Word,
    /// Decimal digits; the value is at most 1,000,000.
    Number(u32),
    /// A description between double quotes.
    Description,
    /// One of `{ } ( ) [ ] , ;`.
    Mark(Mark),
}

/// A token: what it is, its bytes as they stand in the text (a description with its quotes), and
/// where they begin. A word is one of the language: at most 64 bytes.
#[derive(Clone, Copy, Debug)]
pub struct Token<'a> {
    /// What it is; of a number also its value.
    pub kind: TokenKind,
    /// Its bytes, as they stand in the text.
    pub text: &'a [u8],
    /// The place of its first byte in the text, from 0.
    pub at: usize,
    pub ghost named: { kind ≡ Word → is_name text.now ≡ true },
}

impl<'a> Token<'a> {
    /// A token; none where it is to be a word, and the bytes are no word of at most 64 bytes.
    pub fn new(kind: TokenKind, text: &'a [u8], at: usize) -> Option<Token<'a>>
        ensures token { IfSome result (λ token. (token.kind ≡ kind) × (token.text.now ≡ text.now) × (token.at ≡ at)) }
        ensures none { IfNone result ((kind ≡ Word) × (is_name text.now ≡ false)) }
    {
        match kind {
            TokenKind::Word => {
                if !is_name(text) {
                    return None;
                }
                Some(Token { kind, text, at })
            }
            TokenKind::Number(_) | TokenKind::Description | TokenKind::Mark(_) => {
                Some(Token { kind, text, at })
            }
        }
    }
}

/// The tokens of one text, in order.
#[derive(Debug, Drop)]
pub struct Tokens<'a> {
    /// The tokens, in order.
    pub items: Vec<Token<'a>>,
    /// The length of the text in bytes: where a fault at the text's end stands.
    pub end: usize,
}
