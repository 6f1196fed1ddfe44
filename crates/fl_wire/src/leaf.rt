//! One leaf of a payload from the bytes of fragments, and the zeros before it.

ghost use Rattle.std.specs.Prelude.{◌≡◌, ℕ, ◌+◌, ◌-◌, ◌*◌, ◌/◌, ◌%◌, ◌^◌, ◌<◌, ◌≤◌, ◌⊎◌, nat_lt, map, length, if◌then◌else◌, IfOk, IfErr};
ghost use Rattle.std.specs.Prelude.{slice_get, slice_index};
ghost use Rattle.std.specs.List.{range_with_len};
ghost use Rattle.std.specs.Int.{from_le_bytes, w64, byte_at};
ghost use Rattle.fl_interface.specs.Sizes.{round_up};
ghost use Rattle.fl_wire.specs.Standing.{FirstNonzero, byte_in, word_in, words_in};
ghost use Rattle.fl_wire.specs.Shapes.{StopsNumber, padding, number_below, ReadAt, StopsAt};
ghost use Rattle.fl_wire.specs.declared.leaf.CallReadFault.TheVariants.{Padding, Memory};

use fl_base::{FRAG_BYTES, Frag};
use fl_interface::next_multiple;
use std::alloc::{AllocError, AllocFailed};

/// Why the reading of a call stops before the call's end.
#[derive(Clone, Copy, Drop)]
pub(crate) enum CallReadFault {
    /// The fragments end first.
    Short,
    /// A byte isn't 0 where nothing stands.
    Padding,
    /// A number, an enumerator or a string's byte isn't of its type.
    Value,
    /// A length is above its bound.
    Length,
    /// Memory ran out.
    Memory,
}

impl From<AllocError> for CallReadFault {
    ghost from_gives = { λ _ e. e ≡ Memory };

    fn from(_error: AllocError) -> CallReadFault {
        CallReadFault::Memory
    }
}

impl<T: Drop> From<AllocFailed<T>> for CallReadFault {
    ghost from_gives = { λ _ e. e ≡ Memory };

    fn from(_error: AllocFailed<T>) -> CallReadFault {
        CallReadFault::Memory
    }
}

/// Payload byte `p` of some fragments; 0 past their end.
pub(crate) fn byte_at(frags: &[Frag], p: usize) -> u8
    ensures byte { result ≡ byte_in frags.now p }
{
    match frags.get(p / FRAG_BYTES) {
        Some(frag) => frag.words[p / 8 % 7].to_le_bytes()[p % 8],
        None => 0,
    }
}

/// Word `w` of some fragments' payloads; 0 past their end.
#[inline(always)]
pub(crate) fn word_at(frags: &[Frag], w: usize) -> u64
    ensures word { result ≡ word_in frags.now w }
{
    match frags.get(w / 7) {
        Some(frag) => frag.words[w % 7],
        None => 0,
    }
}

// A word of a fragment; 0 where the fragment isn't there.
#[inline(always)]
fn word_of(frags: &[Frag], frag: usize, word: usize) -> u64
    requires inside { word < 7 }
    ensures word { result ≡ slice_index (words_in (slice_get frags.now frag)) word }
{
    match frags.get(frag) {
        Some(it) => it.words[word],
        None => 0,
    }
}

/// The byte of a word that holds payload byte `p`.
pub(crate) fn byte_of(word: u64, p: usize) -> u8
    ensures byte { result ≡ byte_at (p % 8) word }
{
    word.to_le_bytes()[p % 8]
}

// The number of so many bytes at a multiple of their number, so that it stands in one word.
#[inline(always)]
fn number_at(frags: &[Frag], place: usize, width: usize) -> u64
    requires width { (width ≡ 1) ⊎ ((width ≡ 2) ⊎ ((width ≡ 4) ⊎ (width ≡ 8))) }
    requires aligned { place % width ≡ 0 }
    requires room { place < 2 ^ 63 }
    ensures number { result ≡ from_le_bytes w64 (map (λ j. if nat_lt j width then byte_in frags.now (place + j) else 0) (range_with_len 0 8)) }
{
    let word = word_at(frags, place / 8);
    let low = word >> (8 * (place % 8));
    match width {
        1 => low % 0x100,
        2 => low % 0x1_0000,
        4 => low % 0x1_0000_0000,
        _ => word,
    }
}

/// What is left of a word from payload byte `p` on: 0 where all these bytes are.
#[inline(always)]
fn rest_of_word(frags: &[Frag], p: usize) -> u64
    ensures zeros { result ≡ 0 → (q : ℕ) → p ≤ q → q < p + (8 - p % 8) → byte_in frags.now q ≡ 0 }
{
    word_at(frags, p / 8) >> (8 * (p % 8))
}

/// Past bytes that are all 0, word by word, up to a place or to a word of which one isn't.
#[inline(always)]
fn past_zeros(frags: &[Frag], at: usize, end: usize) -> usize
    ensures later { at ≤ result }
    ensures zeros { (p : ℕ) → at ≤ p → p < result → byte_in frags.now p ≡ 0 }
{
    let mut p = at;
    while p < end && rest_of_word(frags, p) == 0 {
        p += (end - p).min(8 - p % 8);
    }
    p
}

/// Past bytes that are all 0; a stop at the first that isn't.
#[inline(always)]
pub(crate) fn read_zeros(frags: &[Frag], at: usize, end: usize) -> Result<(), CallReadFault>
    ensures zeros { IfOk result (λ u. (p : ℕ) → at ≤ p → p < end → byte_in frags.now p ≡ 0) }
    ensures wrong { IfErr result (λ stop. (stop ≡ Padding) × FirstNonzero frags.now at end) }
{
    for p in past_zeros(frags, at, end)..end {
        if byte_at(frags, p) != 0 {
            return Err(CallReadFault::Padding);
        }
    }
    Ok(())
}

/// The next multiple of an alignment, past bytes that are all 0.
#[inline(always)]
fn skip(frags: &[Frag], at: usize, align: usize) -> Result<usize, CallReadFault>
    requires align { (align ≡ 1) ⊎ ((align ≡ 2) ⊎ ((align ≡ 4) ⊎ (align ≡ 8))) }
    requires within { at ≤ 56 * length frags.now }
    ensures place { IfOk result (λ place. place ≡ round_up at align) }
    ensures zeros { IfOk result (λ place. (p : ℕ) → at ≤ p → p < place → byte_in frags.now p ≡ 0) }
    ensures wrong { IfErr result (λ stop. (stop ≡ Padding) × FirstNonzero frags.now at (round_up at align)) }
{
    let place = next_multiple(at, align);
    read_zeros(frags, at, place)?;
    Ok(place)
}

/// Past zeros up to a multiple of an alignment.
pub(crate) fn read_padding(frags: &[Frag], at: usize, align: usize) -> Result<usize, CallReadFault>
    requires align { (align ≡ 1) ⊎ ((align ≡ 2) ⊎ ((align ≡ 4) ⊎ (align ≡ 8))) }
    requires within { at ≤ 56 * length frags.now }
    ensures within { IfOk result (λ end. end ≤ 56 * length frags.now) }
    ensures later { IfOk result (λ end. at ≤ end) }
    ensures read { IfOk result (λ end. ReadAt (padding align) frags.now at tt end) }
    ensures stop { IfErr result (λ stop. StopsAt stop (padding align) frags.now at) }
{
    let place = skip(frags, at, align)?;
    Ok(place)
}

/// The next number of so many bytes, and where it ends.
#[inline(always)]
pub(crate) fn read_number(
    frags: &[Frag],
    at: usize,
    width: usize,
) -> Result<(u64, usize), CallReadFault>
    requires width { (width ≡ 1) ⊎ ((width ≡ 2) ⊎ ((width ≡ 4) ⊎ (width ≡ 8))) }
    requires within { at ≤ 56 * length frags.now }
    ensures within { IfOk result (λ r. r.1 ≤ 56 * length frags.now) }
    ensures later { IfOk result (λ r. at < r.1) }
    ensures read { IfOk result (λ r. ReadAt (number_below width (2 ^ (8 * width))) frags.now at r.0 r.1) }
    ensures stop { IfErr result (λ stop. StopsNumber stop width frags.now at) }
{
    let place = skip(frags, at, width)?;
    let end = place + width;
    if end > frags.len() * FRAG_BYTES {
        return Err(CallReadFault::Short);
    }
    Ok((number_at(frags, place, width), end))
}

/// The number that is a word of a fragment; 0 where the fragment isn't there.
#[inline(always)]
pub(crate) fn read_word(frags: &[Frag], frag: usize, word: usize) -> u64
    requires inside { word < 7 }
    ensures read { ReadAt (number_below 8 (2 ^ (8 * 8))) frags.now (56 * frag + 8 * word) result (56 * frag + 8 * word + 8) }
{
    word_of(frags, frag, word)
}
