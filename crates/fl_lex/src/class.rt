//! What a byte of a text may begin, and what may follow.

ghost use Rattle.std.specs.Prelude.{◌≡◌};
ghost use Rattle.fl_lex.specs.Spelling.{class_of, is_on_line, is_described};

use crate::token::Mark;
use crate::word::{is_digit, is_letter};

/// What a byte may begin. Bytes from 128 up begin nothing.
#[derive(Clone, Copy, Debug, PartialEq, Eq)]
pub enum ByteClass {
    /// A letter or `_`: a word.
    Letter,
    /// A number.
    Digit,
    /// Bytes 9 to 13 and 32, which part tokens.
    Blank,
    /// A description.
    Quote,
    /// A comment, with `/` or `*` behind it.
    Slash,
    /// One of the marks.
    Mark(Mark),
    /// Nothing.
    Other,
}

/// What a byte may begin.
#[tactic(auto, unfolding(crate::specs::Spelling::class_of, crate::specs::Spelling::mark_class))]
#[inline(always)]
pub(crate) fn class_of(byte: u8) -> ByteClass
    ensures class { result ≡ class_of byte }
{
    if is_letter(byte) {
        return ByteClass::Letter;
    }
    if is_digit(byte) {
        return ByteClass::Digit;
    }
    match byte {
        9..=13 | b' ' => ByteClass::Blank,
        b'"' => ByteClass::Quote,
        b'/' => ByteClass::Slash,
        b'{' => ByteClass::Mark(Mark::OpenBrace),
        b'}' => ByteClass::Mark(Mark::CloseBrace),
        b'(' => ByteClass::Mark(Mark::OpenParen),
        b')' => ByteClass::Mark(Mark::CloseParen),
        b'[' => ByteClass::Mark(Mark::OpenBracket),
        b']' => ByteClass::Mark(Mark::CloseBracket),
        b',' => ByteClass::Mark(Mark::Comma),
        b';' => ByteClass::Mark(Mark::Semicolon),
        _ => ByteClass::Other,
    }
}

/// Any byte but a line feed.
#[inline(always)]
pub(crate) fn is_on_line(byte: u8) -> bool
    ensures class { result ≡ is_on_line byte }
{
    byte != b'\n'
}

/// Any byte but a quote and a line feed.
#[inline(always)]
pub(crate) fn is_described(byte: u8) -> bool
    ensures class { result ≡ is_described byte }
{
    byte != b'"' && byte != b'\n'
}
