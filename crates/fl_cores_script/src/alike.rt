//! Whether two texts tell the same handled calls, end by end.

ghost use Rattle.std.specs.Prelude.{◌≡◌, ◌==◌, ◌<◌, ◌≤◌, ◌++◌, true, None, Some, List, ℕ, map, option_map, length, position, IfOk, IfSome};
ghost use Rattle.std.specs.List.{All};
ghost use Rattle.fl_script_lines.specs.Answers.{line};
ghost use Rattle.fl_cores_script.specs.Replays.{behind, first_word, end_in, is_at, handled_at, HasNoFeed, AreLines, HandlesAlike};
ghost use Rattle.fl_cores_script.specs.Alike.{AlikeAt, IsAmong, OfEnd};

use std::alloc::{AllocError, Global};

// ---- a line

// What stands behind these bytes.
pub(crate) fn behind<'a>(bytes: &[u8], text: &'a [u8]) -> Option<&'a [u8]>
    ensures behind { option_map (λ r. r.now) result ≡ behind bytes.now text.now }
{
    let [b, others @ ..] = bytes else {
        return Some(text);
    };
    let [c, rest @ ..] = text else {
        return None;
    };
    if *b != *c {
        return None;
    }
    behind(others, rest)
}

// How many bytes stand before the first blank.
fn word_length(text: &[u8]) -> usize
    ensures length { result ≡ length (first_word text.now) }
    ensures within { result ≤ length text.now }
{
    let [b, rest @ ..] = text else {
        return 0;
    };
    if *b == b' ' {
        return 0;
    }
    1 + word_length(rest)
}

// The bytes before the first blank.
fn first_word(text: &[u8]) -> &[u8]
    ensures word { result.now ≡ first_word text.now }
{
    let length = word_length(text);
    &text[..length]
}

// The end of a line that tells a handled call.
fn end_in(line: &[u8]) -> Option<&[u8]>
    ensures end { option_map (λ e. e.now) result ≡ end_in line.now }
{
    match behind(b"handle ", line) {
        None => None,
        Some(rest) => Some(first_word(rest)),
    }
}

fn is_at(line: &[u8], end: &[u8]) -> bool
    ensures at { result ≡ is_at end.now line.now }
{
    match end_in(line) {
        None => false,
        Some(other) => other == end,
    }
}

fn is_feed(byte: &u8) -> bool
    ensures feed { result ≡ (byte.now == 10) }
{
    *byte == b'\n'
}

fn feed_in(text: &[u8]) -> Option<usize>
    ensures feed { result ≡ position (λ b. b == 10) text.now }
    ensures within { IfSome result (λ at. at < length text.now) }
{
    text.iter().position(is_feed)
}

// ---- lines

// The first line of a text, and what stands behind its line feed.
fn next_line(text: &[u8]) -> Option<(&[u8], &[u8])>
    ensures line { IfSome result (λ p. text.now ≡ line p.0.now ++ p.1.now) }
    ensures whole { IfSome result (λ p. HasNoFeed p.0.now) }
    ensures shorter { IfSome result (λ p. length p.1.now < length text.now) }
{
    let Some(at) = feed_in(text) else {
        return None;
    };
    let (line, rest) = text.split_at(at);
    let (_, behind) = rest.split_at(1);
    Some((line, behind))
}

// The lines of a text, if it is one of whole lines.
#[tactic(auto, using(crate::proofs::Lines::one_more))]
pub(crate) fn lines_of<'a>(
    alloc: Global,
    text: &'a [u8],
) -> Result<Option<Vec<&'a [u8]>>, AllocError>
    ensures lines { IfOk result (λ found. IfSome found (λ v. AreLines text.now (map (λ l. l.now) v.items))) }
{
    let mut lines = Vec::new(alloc);
    let mut rest = text;
    while !rest.is_empty() {
        let Some((line, behind)) = next_line(rest) else {
            return Ok(None);
        };
        lines.push(line)?;
        rest = behind;
    }
    Ok(Some(lines))
}

// The lines of calls that were handled at an end.
fn handled_at<'a>(
    alloc: Global,
    lines: &[&'a [u8]],
    end: &[u8],
) -> Result<Vec<&'a [u8]>, AllocError>
    ensures handled { IfOk result (λ v. map (λ l. l.now) v.items ≡ handled_at end.now (map (λ l. l.now) lines.now)) }
{
    let mut handled = Vec::new(alloc);
    for line in lines {
        if is_at(*line, end) {
            handled.push(*line)?;
        }
    }
    Ok(handled)
}

pub(crate) fn is_same(line: &[u8], other: &[u8]) -> bool
    ensures same { result ≡ true → line.now ≡ other.now }
{
    line == other
}

// Whether these lines are the same.
fn are_same(lines: &[&[u8]], others: &[&[u8]]) -> bool
    ensures same { result ≡ true → map (λ l. l.now) lines.now ≡ map (λ l. l.now) others.now }
{
    let mut left = lines;
    let mut right = others;
    while let [line, rest @ ..] = left {
        let [other, behind @ ..] = right else {
            return false;
        };
        if !is_same(*line, *other) {
            return false;
        }
        left = rest;
        right = behind;
    }
    right.is_empty()
}

// Whether at an end the same calls were handled.
fn alike_at(
    alloc: Global,
    lines: &[&[u8]],
    others: &[&[u8]],
    end: &[u8],
) -> Result<bool, AllocError>
    ensures alike { IfOk result (λ r. r ≡ true → handled_at end.now (map (λ l. l.now) lines.now) ≡ handled_at end.now (map (λ l. l.now) others.now)) }
{
    let here = handled_at(alloc, lines, end)?;
    let there = handled_at(alloc, others, end)?;
    Ok(are_same(&here, &there))
}

// Whether some line tells of this end.
#[tactic(auto, using(crate::proofs::Lines::here, crate::proofs::Lines::further))]
fn is_among(lines: &[&[u8]], end: &[u8]) -> bool
    ensures among { result ≡ true → IsAmong (map (λ l. l.now) lines.now) end.now }
{
    let mut left = lines;
    while let [line, rest @ ..] = left {
        if is_at(*line, end) {
            return true;
        }
        left = rest;
    }
    false
}

// Whether the line tells of an end that is among the others', or of none.
fn among_by(line: &[u8], others: &[&[u8]]) -> bool
    ensures among { result ≡ true → OfEnd (IsAmong (map (λ l. l.now) others.now)) line.now }
{
    match end_in(line) {
        None => true,
        Some(end) => is_among(others, end),
    }
}

// Whether the ends that these lines tell of are among the others'.
fn all_among(lines: &[&[u8]], others: &[&[u8]]) -> bool
    ensures among { result ≡ true → All (OfEnd (IsAmong (map (λ l. l.now) others.now))) (map (λ l. l.now) lines.now) }
{
    for line in lines {
        if !among_by(*line, others) {
            return false;
        }
    }
    true
}

// Whether the line tells of an end at which the same calls were handled, or of none.
fn alike_by(
    alloc: Global,
    line: &[u8],
    lines: &[&[u8]],
    others: &[&[u8]],
) -> Result<bool, AllocError>
    ensures alike { IfOk result (λ r. r ≡ true → OfEnd (AlikeAt (map (λ l. l.now) lines.now) (map (λ l. l.now) others.now)) line.now) }
{
    match end_in(line) {
        None => Ok(true),
        Some(end) => alike_at(alloc, lines, others, end),
    }
}

// A line of each end that these lines tell of. That none is missing is looked at by whoever takes them.
fn firsts_of<'a>(alloc: Global, lines: &[&'a [u8]]) -> Result<Vec<&'a [u8]>, AllocError> {
    let mut firsts = Vec::new(alloc);
    for line in lines {
        if !among_by(*line, &firsts) {
            firsts.push(*line)?;
        }
    }
    Ok(firsts)
}

// Whether at each end that the first lines tell of the same calls were handled.
fn all_alike(
    alloc: Global,
    firsts: &[&[u8]],
    lines: &[&[u8]],
    others: &[&[u8]],
) -> Result<bool, AllocError>
    ensures alike { IfOk result (λ r. r ≡ true
        → All (OfEnd (AlikeAt (map (λ l. l.now) lines.now) (map (λ l. l.now) others.now))) (map (λ l. l.now) firsts.now)) }
{
    for line in firsts {
        if !alike_by(alloc, *line, lines, others)? {
            return Ok(false);
        }
    }
    Ok(true)
}

// Whether these lines tell the same handled calls, where the first lines tell of all their ends.
fn alike_by_firsts(
    alloc: Global,
    firsts: &[&[u8]],
    lines: &[&[u8]],
    others: &[&[u8]],
) -> Result<bool, AllocError>
    ensures alike { IfOk result (λ r. r ≡ true
        → (end : List ℕ) → AlikeAt (map (λ l. l.now) lines.now) (map (λ l. l.now) others.now) end) }
{
    if !all_among(lines, firsts) {
        return Ok(false);
    }
    if !all_among(others, firsts) {
        return Ok(false);
    }
    all_alike(alloc, firsts, lines, others)
}

// Whether these lines tell the same handled calls.
fn all_handled_alike(alloc: Global, lines: &[&[u8]], others: &[&[u8]]) -> Result<bool, AllocError>
    ensures alike { IfOk result (λ r. r ≡ true
        → (end : List ℕ) → AlikeAt (map (λ l. l.now) lines.now) (map (λ l. l.now) others.now) end) }
{
    let firsts = firsts_of(alloc, others)?;
    alike_by_firsts(alloc, &firsts, lines, others)
}

/// Whether two texts of lines tell the same handled calls, end by end and in order. `false` also where one doesn't
/// end with a line feed.
///
/// # Errors
/// Out of memory.
pub(crate) fn handle_alike(alloc: Global, one: &[u8], other: &[u8]) -> Result<bool, AllocError>
    ensures alike { IfOk result (λ r. r ≡ true → HandlesAlike one.now other.now) }
{
    let Some(lines) = lines_of(alloc, one)? else {
        return Ok(false);
    };
    let Some(others) = lines_of(alloc, other)? else {
        return Ok(false);
    };
    all_handled_alike(alloc, &lines, &others)
}
