//! The tokens of a call's text: numbers, texts in quotes, and marks.

ghost use Rattle.std.specs.Prelude.{◌≡◌, ◌+◌, ◌<◌, ◌≤◌, ◌^◌, ℕ, ℤ, pos, neg_ℤ, List, ◌∷◌, IfSome, IfNone, IfOk, MatchOption, length, take, drop, true};
ghost use Rattle.std.specs.List.{prefix_len, list_all};
ghost use Rattle.std.specs.Char.{digit_value};
ghost use Rattle.std.specs.Str.Parse.{digits_value};
ghost use Rattle.fl_lex.specs.Words.{is_digit};
ghost use Rattle.fl_value.specs.CallText.{is_blank, without_blanks, is_mark, is_literal, Blanks, Digits, TextByte, TextBytes};
ghost use Rattle.fl_value.specs.CallText.{Token, a_number, a_text, a_mark, StopsAt, Closed};

use fl_lex::{count_digits, is_digit};
use std::alloc::{AllocError, Global};

/// How many bytes of a text are looked at at once.
const SPAN: usize = 64;

/// A blank or a tab.
#[inline(always)]
pub fn is_blank(byte: u8) -> bool
    ensures same { result ≡ is_blank byte }
{
    byte <= b' ' && (byte == b' ' || byte == b'\t')
}

/// The bytes from the first on that is no blank.
#[inline(always)]
pub fn skip_blanks(bytes: &[u8]) -> &[u8]
    ensures rest { result.now ≡ without_blanks bytes.now }
    ensures blank { Blanks bytes.now result.now }
    ensures stops { StopsAt is_blank result.now }
    ensures shorter { length result.now ≤ length bytes.now }
{
    let mut rest = bytes;
    while let [first, after @ ..] = rest {
        if !is_blank(*first) {
            return rest;
        }
        rest = after;
    }
    rest
}

/// What follows the byte, where the bytes begin with it.
pub(crate) fn after_byte(bytes: &[u8], byte: u8) -> Option<&[u8]>
    ensures found { IfSome result (λ rest. bytes.now ≡ byte ∷ rest.now) }
    ensures none { IfNone result ((rest : List ℕ) → bytes.now ≡ byte ∷ rest → ⊥) }
{
    match bytes {
        [first, rest @ ..] if *first == byte => Some(rest),
        _ => None,
    }
}

/// The number that at most 20 digits write: 20 may be more than a word.
fn digits_value(digits: &[u8]) -> u128
    requires digits { list_all is_digit digits.now ≡ true }
    requires few { length digits.now ≤ 20 }
    ensures value { result ≡ digits_value 10 digits.now }
    ensures small { result < 10 ^ 20 }
{
    let mut value = 0;
    for digit in digits {
        value = value * 10 + u128::from(*digit - b'0');
    }
    value
}

/// The number of 1 to 20 digits that the bytes begin with, and what follows it.
fn read_digits(bytes: &[u8]) -> Option<(u128, &[u8])>
    ensures found { IfSome result (λ r. Digits r.0 bytes.now r.1.now) }
    ensures small { IfSome result (λ r. r.0 < 10 ^ 20) }
    ensures none { IfNone result ((n : ℕ) (rest : List ℕ) → Digits n bytes.now rest → ⊥) }
{
    let count = count_digits(bytes);
    if count == 0 || count > 20 {
        return None;
    }
    Some((digits_value(&bytes[..count]), &bytes[count..]))
}

/// The digits that the bytes begin with: the number that they write, if they are at most 19, and how many they are.
#[inline(always)]
fn short_digits(bytes: &[u8]) -> (u64, usize)
    ensures value { result.1 ≤ 19 → result.0 ≡ digits_value 10 (take result.1 bytes.now) }
    ensures all { result.1 ≡ prefix_len is_digit bytes.now }
    ensures within { result.1 ≤ length bytes.now }
{
    let mut value = 0u64;
    let mut count = 0;
    while count < bytes.len() {
        let byte = bytes[count];
        if !is_digit(byte) {
            return (value, count);
        }
        value = value.wrapping_mul(10).wrapping_add(u64::from(byte - b'0'));
        count += 1;
    }
    (value, count)
}

/// The number of at most 19 digits that the bytes begin with, perhaps after blanks, and what follows it. None where another number
/// stands as well.
#[inline(always)]
pub(crate) fn read_short(bytes: &[u8]) -> Option<(u64, &[u8])>
    ensures found { IfSome result (λ r. Token (a_number (pos r.0)) bytes.now r.1.now) }
{
    let start = skip_blanks(bytes);
    let (value, count) = short_digits(start);
    if count == 0 || count > 19 {
        return None;
    }
    Some((value, &start[count..]))
}

fn positive(value: u128) -> i128
    requires small { value < 10 ^ 20 }
    ensures value { result ≡ pos value }
{
    value as i128
}

fn negative(value: u128) -> i128
    requires small { value < 10 ^ 20 }
    ensures value { result ≡ neg_ℤ (pos value) }
{
    -(value as i128)
}

/// The number that the bytes begin with, perhaps after blanks, and what follows it.
pub(crate) fn read_number(bytes: &[u8]) -> Option<(i128, &[u8])>
    ensures found { IfSome result (λ r. Token (a_number r.0) bytes.now r.1.now) }
    ensures none { IfNone result ((z : ℤ) (rest : List ℕ) → Token (a_number z) bytes.now rest → ⊥) }
{
    let start = skip_blanks(bytes);
    if let Some(digits) = after_byte(start, b'-') {
        let (value, rest) = read_digits(digits)?;
        return Some((negative(value), rest));
    }
    let (value, rest) = read_digits(start)?;
    Some((positive(value), rest))
}

/// What follows the mark, where the bytes begin with it, perhaps after blanks.
pub(crate) fn read_mark(bytes: &[u8], mark: u8) -> Option<&[u8]>
    requires mark { is_mark mark ≡ true }
    ensures found { IfSome result (λ rest. Token (a_mark mark) bytes.now rest.now) }
    ensures none { IfNone result ((rest : List ℕ) → Token (a_mark mark) bytes.now rest → ⊥) }
    ensures shorter { IfSome result (λ rest. length rest.now < length bytes.now) }
{
    after_byte(skip_blanks(bytes), mark)
}

/// What a hexadecimal digit stands for, in either case.
fn hex_value(byte: u8) -> Option<u8>
    ensures value { MatchOption result (16 ≤ digit_value byte) (λ n. (n ≡ digit_value byte) × (n < 16)) }
{
    match byte {
        b'0'..=b'9' => Some(byte - b'0'),
        b'a'..=b'f' => Some(byte - b'a' + 10),
        b'A'..=b'F' => Some(byte - b'A' + 10),
        _ => None,
    }
}

/// The byte that a text's bytes begin with, an escape undone, and what follows it. There is none
/// at the closing quote, and where no byte of a text stands.
pub(crate) fn read_byte(bytes: &[u8]) -> Option<(u8, &[u8])>
    ensures found { IfSome result (λ r. TextByte r.0 bytes.now r.1.now) }
    ensures none { IfNone result ((b : ℕ) (rest : List ℕ) → TextByte b bytes.now rest → ⊥) }
    ensures shorter { IfSome result (λ r. length r.1.now < length bytes.now) }
{
    match bytes {
        [b'\\', b'x', high, low, rest @ ..] => {
            let high = hex_value(*high)?;
            let low = hex_value(*low)?;
            Some((high * 16 + low, rest))
        }
        [b'\\', escaped, rest @ ..] if *escaped == b'"' || *escaped == b'\\' => {
            Some((*escaped, rest))
        }
        [byte, rest @ ..] if *byte >= b' ' && *byte != b'"' && *byte != b'\\' => {
            Some((*byte, rest))
        }
        _ => None,
    }
}

/// Whether a byte stands for itself in a text.
pub(crate) fn is_literal(byte: u8) -> bool
    ensures same { result ≡ is_literal byte }
{
    byte >= b' ' && byte != b'"' && byte != b'\\'
}

/// Whether all bytes stand for themselves in a text. It doesn't stop at the first that doesn't, so that many are looked at at once.
fn are_literal(bytes: &[u8]) -> bool
    ensures same { result ≡ list_all is_literal bytes.now }
{
    let mut all = true;
    for byte in bytes {
        all &= is_literal(*byte);
    }
    all
}

/// How many bytes from here on stand for themselves for sure: whole spans, each looked at at once.
fn count_literal_spans(bytes: &[u8]) -> usize
    ensures within { result ≤ length bytes.now }
    ensures literal { result + prefix_len is_literal (drop result bytes.now) ≡ prefix_len is_literal bytes.now }
{
    let mut count = 0;
    while bytes.len() - count >= SPAN {
        if !are_literal(&bytes[count..count + SPAN]) {
            return count;
        }
        count += SPAN;
    }
    count
}

/// How many bytes from here on stand for themselves in a text.
fn count_literal(bytes: &[u8]) -> usize
    ensures same { result ≡ prefix_len is_literal bytes.now }
    ensures within { result ≤ length bytes.now }
{
    let start = count_literal_spans(bytes);
    start + count_literal_bytes(&bytes[start..])
}

/// The same, one byte after another.
fn count_literal_bytes(bytes: &[u8]) -> usize
    ensures same { result ≡ prefix_len is_literal bytes.now }
    ensures within { result ≤ length bytes.now }
{
    for (count, byte) in bytes.iter().enumerate() {
        if !is_literal(*byte) {
            return count;
        }
    }
    bytes.len()
}

/// The bytes of a text from here on, up to where no byte of a text stands, and what stands there.
fn read_bytes(alloc: Global, bytes: &[u8]) -> Result<(Vec<u8>, &[u8]), AllocError>
    ensures found { IfOk result (λ r. TextBytes r.0.items bytes.now r.1.now) }
    ensures stops { IfOk result (λ r. Closed r.1.now) }
{
    let literal = count_literal(bytes);
    let mut text = Vec::from_slice(alloc, &bytes[..literal])?;
    let mut rest = &bytes[literal..];
    while let Some((byte, after)) = read_byte(rest) {
        text.push(byte)?;
        rest = after;
    }
    Ok((text, rest))
}

/// The bytes of the text that the bytes begin with, perhaps after blanks, and what follows its
/// closing quote.
#[inline(never)]
pub(crate) fn read_text(alloc: Global, bytes: &[u8]) -> Result<Option<(Vec<u8>, &[u8])>, AllocError>
    ensures found { IfOk result (λ o. IfSome o (λ r. Token (a_text r.0.items) bytes.now r.1.now)) }
    ensures none { IfOk result (λ o. IfNone o ((s rest : List ℕ) → Token (a_text s) bytes.now rest → ⊥)) }
{
    let Some(inside) = after_byte(skip_blanks(bytes), b'"') else {
        return Ok(None);
    };
    let (text, last) = read_bytes(alloc, inside)?;
    let Some(rest) = after_byte(last, b'"') else {
        return Ok(None);
    };
    Ok(Some((text, rest)))
}
