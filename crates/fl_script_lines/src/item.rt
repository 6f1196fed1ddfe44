//! A script's lines and items: a line outside blocks, a whole `idl` block, or one that the script's end leaves open.

ghost use Rattle.std.specs.Prelude.{◌≡◌, ◌++◌, ◌∷◌, [], ◌<◌, List, length, true, false, IfSome, MatchOption};
ghost use Rattle.memchr.specs.Find.{IsFirstByte, is_byte};
ghost use Rattle.fl_value_data.specs.declared.value.PlanNo.{PlanNo as Plan};
ghost use Rattle.fl_script_lines.specs.Items.{Item as TheItem, lines_of, WithoutEnd, EndsBlock, ItemsOf};
ghost use Rattle.fl_script_lines.specs.Items.{BlockOf, a_line, a_block, open_block};
ghost use Rattle.fl_script_lines.specs.Reading.{command_by, line_with};
ghost use Rattle.fl_script_lines.specs.Views.{item_of, part_of};

use crate::command::{Line, LineHead, Verb};
use crate::reader::{open_line, read_command, read_repeated};
use fl_value_data::PlanNo;
use memchr::memchr;
use std::simd::prelude::*;

/// One item of a script.
#[derive(Clone, Copy)]
pub enum Item<'a> {
    /// A line outside blocks; never the head of one.
    Line(Line<'a>),
    /// A block: its plan, and its text with all line ends.
    Block(PlanNo, &'a [u8]),
    /// A block that the script's end leaves open.
    OpenBlock,
}

/// One item of a script, told by its first word: what stands behind that isn't read yet.
#[derive(Clone, Copy)]
pub enum RawItem<'a> {
    /// A line that is blank or a comment: no answer.
    Silent,
    /// A line that begins with this word, and what stands behind it: a command, or nothing that is read.
    Command(Verb, &'a [u8]),
    /// A line of nothing that is read: `refused E90`.
    Unread,
    /// A block: its plan, and its text with all line ends.
    Block(PlanNo, &'a [u8]),
    /// A block that the script's end leaves open.
    OpenBlock,
}

// The place of the first line feed of a text. Most lines are short: their first bytes are looked at together, without a call.
#[inline(always)]
fn line_feed(bytes: &[u8]) -> Option<usize>
    ensures first { IsFirstByte (is_byte 10) bytes.now result }
{
    if bytes.len() < 32 {
        return memchr(b'\n', bytes);
    }
    let feeds = u8x32::from_slice(bytes)
        .simd_eq(u8x32::splat(b'\n'))
        .to_bitmask();
    if feeds == 0 {
        return memchr(b'\n', bytes);
    }
    Some(feeds.trailing_zeros() as usize)
}

// The first line of a text, with its line end, and what stands behind it.
#[inline(always)]
fn next_line(bytes: &[u8]) -> (&[u8], &[u8])
    requires { 0 < length bytes.now }
    ensures lines { lines_of bytes.now ≡ result.0.now ∷ lines_of result.1.now }
    ensures whole { bytes.now ≡ result.0.now ++ result.1.now }
    ensures some { 0 < length result.0.now }
{
    match line_feed(bytes) {
        Some(at) => bytes.split_at(at + 1),
        None => bytes.split_at(bytes.len()),
    }
}

// A line without its line feed, and without one carriage return directly before that.
#[inline(always)]
fn without_end(line: &[u8]) -> &[u8]
    ensures text { WithoutEnd line.now result.now }
{
    if let Some(text) = line.strip_suffix(b"\r\n".as_slice()) {
        return text;
    }
    if let Some(text) = line.strip_suffix(b"\n".as_slice()) {
        return text;
    }
    line
}

// Whether a line ends a block: it is `.` and nothing else.
fn ends_block(line: &[u8]) -> bool
    ensures yes { result ≡ true → EndsBlock line.now }
    ensures no { result ≡ false → EndsBlock line.now → ⊥ }
{
    without_end(line) == b".".as_slice()
}

// The text of a block that begins here, and what stands behind its last line.
#[inline(never)]
fn block(bytes: &[u8]) -> Option<(&[u8], &[u8])>
    ensures block { (plan : Plan) → MatchOption result
        (BlockOf plan [] bytes.now (open_block ∷ []))
        (λ p. (items : List TheItem) → ItemsOf p.1.now items → BlockOf plan [] bytes.now (a_block plan p.0.now ∷ items)) }
    ensures shorter { IfSome result (λ p. length p.1.now < length bytes.now) }
{
    let mut rest = bytes;
    let mut taken = 0;
    while !rest.is_empty() {
        let (line, behind) = next_line(rest);
        if ends_block(line) {
            return Some((&bytes[..taken], behind));
        }
        taken += line.len();
        rest = behind;
    }
    None
}

/// The first line of a script that isn't at its end, where it begins with a word that is repeated: that word, what stands behind it in
/// the line, and what stands behind the line. None where it is any other. Takes no memory.
#[inline(always)]
pub fn next_repeated(bytes: &[u8]) -> Option<(Verb, &[u8], &[u8])>
    requires { 0 < length bytes.now }
    ensures items { IfSome result (λ r. (items : List TheItem) → ItemsOf r.2.now items
        → ItemsOf bytes.now (a_line (line_with (command_by r.0 r.1.now)) ∷ items)) }
    ensures shorter { IfSome result (λ r. length r.2.now < length bytes.now) }
{
    let (line, behind) = next_line(bytes);
    match read_repeated(without_end(line)) {
        None => None,
        Some((verb, rest)) => Some((verb, rest, behind)),
    }
}

/// The first item of a script that isn't at its end, by its first word, and what stands behind it. Takes no memory.
#[inline(always)]
pub fn next_part(bytes: &[u8]) -> (RawItem<'_>, &[u8])
    requires { 0 < length bytes.now }
    ensures items { (items : List TheItem) → ItemsOf result.1.now items → ItemsOf bytes.now (part_of result.0 ∷ items) }
    ensures shorter { length result.1.now < length bytes.now }
{
    let (line, behind) = next_line(bytes);
    match open_line(without_end(line)) {
        LineHead::Heading(plan) => match block(behind) {
            None => (RawItem::OpenBlock, &[]),
            Some((text, behind)) => (RawItem::Block(plan, text), behind),
        },
        LineHead::Silent => (RawItem::Silent, behind),
        LineHead::Command(verb, rest) => (RawItem::Command(verb, rest), behind),
        LineHead::Unread => (RawItem::Unread, behind),
    }
}

// The line of a command, or of none.
fn command_item(verb: Verb, rest: &[u8]) -> Item<'_>
    ensures same { item_of result ≡ a_line (line_with (command_by verb rest.now)) }
{
    match read_command(verb, rest) {
        None => Item::Line(Line::Unread),
        Some(command) => Item::Line(Line::Command(command)),
    }
}

// An item whose command is read too.
fn whole_item(part: RawItem<'_>) -> Item<'_>
    ensures same { item_of result ≡ part_of part.entry }
{
    match part {
        RawItem::Silent => Item::Line(Line::Silent),
        RawItem::Command(verb, rest) => command_item(verb, rest),
        RawItem::Unread => Item::Line(Line::Unread),
        RawItem::Block(plan, text) => Item::Block(plan, text),
        RawItem::OpenBlock => Item::OpenBlock,
    }
}

/// The first item of a script that isn't at its end, and what stands behind it. Takes no memory.
pub fn next_item(bytes: &[u8]) -> (Item<'_>, &[u8])
    requires { 0 < length bytes.now }
    ensures items { (items : List TheItem) → ItemsOf result.1.now items → ItemsOf bytes.now (item_of result.0 ∷ items) }
    ensures shorter { length result.1.now < length bytes.now }
{
    let (part, behind) = next_part(bytes);
    let item = whole_item(part);
    (item, behind)
}
