//! The token or gap that a text begins with, or the fault that stands there.

ghost use Rattle.std.specs.Prelude.{◌≡◌, ◌<◌, ◌≤◌, ◌+◌, ◌≢◌, length, slice_index, drop, SomeIff, MatchOption, ℕ};
ghost use Rattle.std.specs.List.{prefix_len};
ghost use Rattle.fl_lex.specs.Spelling.{is_on_line, is_described, decimal_value, AllBytes};
ghost use Rattle.fl_lex.specs.Words.{is_digit};
ghost use Rattle.fl_lex.specs.Item.{Finds, FirstIs};
ghost use Rattle.fl_lex.specs.declared.class.ByteClass.TheVariants.{Letter, Digit, Quote, Slash};

use crate::class::{ByteClass, class_of, is_described, is_on_line};
use crate::fault::LexFault;
use crate::token::TokenKind;
use crate::word::{MAX_WORD, count_digits, count_word_bytes};

/// The largest number.
const MAX_NUMBER: u32 = 1_000_000;

/// What a text begins with: which token it is, where it isn't a gap, and how many bytes.
#[derive(Clone, Copy)]
pub(crate) struct LexItem {
    pub(crate) kind: Option<TokenKind>,
    pub(crate) length: usize,
}

/// What a text that isn't empty begins with; `at` is where it lies.
pub(crate) fn read_item(rest: &[u8], at: usize) -> Result<LexItem, LexFault>
    requires { 0 < length rest.now }
    ensures found { Finds rest.now at result }
{
    match class_of(rest[0]) {
        ByteClass::Letter => read_word(rest, at),
        ByteClass::Digit => read_number(rest, at),
        ByteClass::Quote => read_description(rest, at),
        ByteClass::Slash => read_comment(rest, at),
        ByteClass::Blank => Ok(LexItem {
            kind: None,
            length: 1,
        }),
        ByteClass::Mark(mark) => Ok(LexItem {
            kind: Some(TokenKind::Mark(mark)),
            length: 1,
        }),
        ByteClass::Other => Err(LexFault::NoToken(at)),
    }
}

fn read_word(rest: &[u8], at: usize) -> Result<LexItem, LexFault>
    requires { FirstIs Letter rest.now }
    ensures found { Finds rest.now at result }
{
    let length = count_word_bytes(rest);
    if length > MAX_WORD {
        return Err(LexFault::LongWord(at));
    }
    Ok(LexItem {
        kind: Some(TokenKind::Word),
        length,
    })
}

fn read_number(rest: &[u8], at: usize) -> Result<LexItem, LexFault>
    requires { FirstIs Digit rest.now }
    ensures found { Finds rest.now at result }
{
    let length = count_digits(rest);
    match value_of(&rest[..length]) {
        Some(value) => Ok(LexItem {
            kind: Some(TokenKind::Number(value)),
            length,
        }),
        None => Err(LexFault::LargeNumber(at)),
    }
}

fn read_description(rest: &[u8], at: usize) -> Result<LexItem, LexFault>
    requires { FirstIs Quote rest.now }
    ensures found { Finds rest.now at result }
{
    let more = after(rest, 1);
    let inside = described_len(more);
    if inside < more.len() && more[inside] == b'"' {
        return Ok(LexItem {
            kind: Some(TokenKind::Description),
            length: inside + 2,
        });
    }
    Err(LexFault::OpenDescription(at))
}

fn read_comment(rest: &[u8], at: usize) -> Result<LexItem, LexFault>
    requires { FirstIs Slash rest.now }
    ensures found { Finds rest.now at result }
{
    match rest.get(1) {
        Some(b'/') => Ok(LexItem {
            kind: None,
            length: line_len(after(rest, 2)) + 2,
        }),
        Some(b'*') => match comment_len(after(rest, 2)) {
            Some(inside) => Ok(LexItem {
                kind: None,
                length: inside + 4,
            }),
            None => Err(LexFault::OpenComment(at)),
        },
        _ => Err(LexFault::NoToken(at)),
    }
}

// What stands behind the first bytes, this many.
fn after(rest: &[u8], count: usize) -> &[u8]
    requires { count ≤ length rest.now }
    ensures rest { result.now ≡ drop count rest.now }
    ensures count { length result.now + count ≡ length rest.now }
{
    rest.split_at(count).1
}

fn line_len(rest: &[u8]) -> usize
    ensures count { result ≡ prefix_len is_on_line rest.now }
    ensures within { result ≤ length rest.now }
{
    rest.iter().take_while(|byte| is_on_line(**byte)).count()
}

fn described_len(rest: &[u8]) -> usize
    ensures count { result ≡ prefix_len is_described rest.now }
    ensures within { result ≤ length rest.now }
{
    rest.iter().take_while(|byte| is_described(**byte)).count()
}

/// How many bytes stand before the first `*/`.
fn comment_len(rest: &[u8]) -> Option<usize>
    ensures none { MatchOption result ((k : ℕ) → k + 1 < length rest.now → slice_index rest.now k ≡ 42 → slice_index rest.now (k + 1) ≢ 47)
        (λ n. (n + 1 < length rest.now) × (slice_index rest.now n ≡ 42) × (slice_index rest.now (n + 1) ≡ 47)
        × ((k : ℕ) → k < n → slice_index rest.now k ≡ 42 → slice_index rest.now (k + 1) ≢ 47)) }
{
    for i in 1..rest.len() {
        if rest[i - 1] == b'*' && rest[i] == b'/' {
            return Some(i - 1);
        }
    }
    None
}

/// The value of decimal digits, where it isn't above the largest number.
fn value_of(digits: &[u8]) -> Option<u32>
    requires { AllBytes is_digit digits.now }
    ensures value { SomeIff result (decimal_value digits.now ≤ 1000000) (decimal_value digits.now) }
{
    let mut value = 0;
    for digit in digits {
        value = value * 10 + u32::from(*digit - b'0');
        if value > MAX_NUMBER {
            return None;
        }
    }
    Some(value)
}
