//! Many bytes of fragments at once, word by word.

ghost use Rattle.std.specs.Prelude.{◌≡◌, ◌++◌, ◌+◌, ◌-◌, ◌*◌, ◌%◌, ◌^◌, ◌<◌, ◌≤◌, map, length, OnOk, IfOk};
ghost use Rattle.std.specs.List.{range_with_len};
ghost use Rattle.std.specs.Int.{to_le_bytes, w64};
ghost use Rattle.fl_wire.specs.Standing.{byte_in};

use fl_base::Frag;
use std::alloc::{AllocError, Global};

/// Appends a word's bytes.
#[inline(always)]
fn push_word(bytes: &mut Vec<u8>, word: u64) -> Result<(), AllocError>
    ensures bytes { OnOk result (bytes.new.items ≡ bytes.old.items ++ to_le_bytes w64 word) }
{
    bytes.extend_from_slice(&word.to_le_bytes())
}

/// Appends payload words from one on, up to another or to the last of its fragment, and tells up to which.
#[inline(always)]
fn push_words(
    bytes: &mut Vec<u8>,
    frags: &[Frag],
    first: usize,
    end: usize,
) -> Result<usize, AllocError>
    requires some { first < end }
    requires within { end ≤ 7 * length frags.now }
    ensures later { IfOk result (λ next. first < next) }
    ensures within { IfOk result (λ next. next ≤ end) }
    ensures put { IfOk result (λ next. bytes.new.items
        ≡ bytes.old.items ++ map (byte_in frags.now) (range_with_len (8 * first) (8 * (next - first)))) }
{
    let frag = &frags[first / 7];
    let base = first - first % 7;
    let past = (end - base).min(7);
    for index in first % 7..past {
        push_word(bytes, frag.words[index])?;
    }
    Ok(base + past)
}

/// So many payload bytes, the first of them that of a word.
pub(crate) fn bytes_from(
    alloc: Global,
    frags: &[Frag],
    at: usize,
    count: usize,
) -> Result<Vec<u8>, AllocError>
    requires word { at % 8 ≡ 0 }
    requires within { at + count ≤ 56 * length frags.now }
    requires small { count < 2 ^ 63 }
    ensures bytes { IfOk result (λ bytes. bytes.items ≡ map (byte_in frags.now) (range_with_len at count)) }
{
    let words = (count + 7) / 8;
    let mut bytes = Vec::with_capacity(alloc, 8 * words)?;
    let mut next = at / 8;
    let end = next + words;
    while next < end {
        let after = push_words(&mut bytes, frags, next, end)?;
        next = after;
    }
    bytes.truncate(count);
    Ok(bytes)
}
