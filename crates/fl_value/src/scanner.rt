//! Whether bytes spell a call. It takes no memory: it is asked where memory was refused for a call's values, so that this is told of
//! a call's text alone.

ghost use Rattle.std.specs.Prelude.{◌≡◌, ◌+◌, ◌<◌, ◌≤◌, ◌++◌, ℕ, List, IfSome, IfNone, length, true};
ghost use Rattle.fl_value_data.specs.Value.{Datum, Data};
ghost use Rattle.fl_value.specs.CallText.{Token, a_text, TextBytes, Closed, SpellsValue, SpellsCall, Listed, is_close, depth_of, greatest_depth};

use crate::calls::{MAX_DEPTH, read_word};
use crate::tokens::{after_byte, read_byte, read_mark, read_number, skip_blanks};

// What stands behind the bytes of a text.
fn after_bytes(bytes: &[u8]) -> &[u8]
    ensures found { (s : List ℕ) × TextBytes s bytes.now result.now }
    ensures stops { Closed result.now }
{
    let mut rest = bytes;
    while let Some((_byte, after)) = read_byte(rest) {
        rest = after;
    }
    rest
}

// What stands behind a text in quotes, if the bytes begin with one.
fn after_text(bytes: &[u8]) -> Option<&[u8]>
    ensures found { IfSome result (λ rest. (s : List ℕ) × Token (a_text s) bytes.now rest.now) }
    ensures none { IfNone result ((s rest : List ℕ) → Token (a_text s) bytes.now rest → ⊥) }
{
    let Some(inside) = after_byte(skip_blanks(bytes), b'"') else {
        return None;
    };
    let Some(rest) = after_byte(after_bytes(inside), b'"') else {
        return None;
    };
    Some(rest)
}

// What stands behind a value whose arrays and structs nest at most so deep, if the bytes begin with one.
#[cycle(scan)]
fn after_value(bytes: &[u8], depth: u32) -> Option<&[u8]>
    ensures found { IfSome result (λ rest. (d : Datum) × SpellsValue d bytes.now rest.now × (depth_of d ≤ depth)) }
    ensures shorter { IfSome result (λ rest. length rest.now < length bytes.now) }
    ensures none { IfNone result ((d : Datum) (rest : List ℕ) → depth_of d ≤ depth → SpellsValue d bytes.now rest → ⊥) }
{
    if let Some((_number, rest)) = read_number(bytes) {
        return Some(rest);
    }
    if let Some(rest) = after_text(bytes) {
        return Some(rest);
    }
    if let Some(inside) = read_mark(bytes, b'[') {
        return after_nested(inside, b']', depth);
    }
    if let Some(inside) = read_mark(bytes, b'{') {
        return after_nested(inside, b'}', depth);
    }
    None
}

// What stands behind the values up to a closing mark, which nest one less deep.
#[cycle(scan)]
fn after_nested(bytes: &[u8], closing: u8, depth: u32) -> Option<&[u8]>
    requires closing { is_close closing ≡ true }
    ensures found { IfSome result (λ rest. (ds : Data) × Listed closing ds bytes.now rest.now × (1 + greatest_depth ds ≤ depth)) }
    ensures shorter { IfSome result (λ rest. length rest.now < length bytes.now) }
    ensures none { IfNone result ((ds : Data) (rest : List ℕ) → 1 + greatest_depth ds ≤ depth → Listed closing ds bytes.now rest → ⊥) }
{
    if depth == 0 {
        return None;
    }
    after_values(bytes, closing, depth - 1)
}

// What stands behind the values up to a closing mark, with a comma between any two.
#[cycle(scan)]
fn after_values(bytes: &[u8], closing: u8, depth: u32) -> Option<&[u8]>
    requires closing { is_close closing ≡ true }
    ensures found { IfSome result (λ rest. (ds : Data) × Listed closing ds bytes.now rest.now × (greatest_depth ds ≤ depth)) }
    ensures shorter { IfSome result (λ rest. length rest.now < length bytes.now) }
    ensures none { IfNone result ((ds : Data) (rest : List ℕ) → greatest_depth ds ≤ depth → Listed closing ds bytes.now rest → ⊥) }
{
    if let Some(rest) = read_mark(bytes, closing) {
        return Some(rest);
    }
    let mut start = bytes;
    loop {
        let Some(after) = after_value(start, depth) else {
            return None;
        };
        let Some(next) = read_mark(after, b',') else {
            return read_mark(after, closing);
        };
        start = next;
    }
}

/// The name of the call that the bytes spell; none where they spell none.
pub fn spoken_name(bytes: &[u8]) -> Option<&[u8]>
    ensures found { IfSome result (λ name. (values : List Datum) × SpellsCall bytes.now name.now values) }
    ensures none { IfNone result ((name : List ℕ) (values : List Datum) → SpellsCall bytes.now name values → ⊥) }
{
    let Some((name, after)) = read_word(skip_blanks(bytes)) else {
        return None;
    };
    let Some(inside) = read_mark(after, b'(') else {
        return None;
    };
    let Some(end) = after_values(inside, b')', MAX_DEPTH) else {
        return None;
    };
    if !skip_blanks(end).is_empty() {
        return None;
    }
    Some(name)
}
