//! Numbers and names read off the bytes of an image.

ghost use Rattle.std.specs.Prelude.{◌≡◌, ◌<◌, ◌≤◌, IfOk, IfErr};
ghost use Rattle.std.specs.List.{list_all};
ghost use Rattle.fl_image.specs.Reading.{Gives, IsOfBytes, Behind, one_at, two_at, four_at, len_at, word_at, name_at};

use crate::fault::{BadImage, ImageFault};
use fl_interface::Word;
use fl_lex::{MAX_WORD, is_word};
use std::alloc::Global;

/// A number of one byte.
#[tactic(auto, unfolding(crate::specs::Reading::one_at))]
pub(crate) fn one(bytes: &[u8]) -> Result<(u8, &[u8]), ImageFault>
    ensures reads { Gives (λ x. (x.0, x.1.now)) result (one_at bytes.now) }
    ensures of_bytes { IfErr result IsOfBytes }
{
    match bytes {
        [first, rest @ ..] => Ok((*first, rest)),
        [] => Err(ImageFault::Refused(BadImage::EndsEarly)),
    }
}

/// A number of two bytes.
#[tactic(auto, unfolding(crate::specs::Reading::two_at))]
pub(crate) fn two(bytes: &[u8]) -> Result<(u32, &[u8]), ImageFault>
    ensures reads { Gives (λ x. (x.0, x.1.now)) result (two_at bytes.now) }
    ensures of_bytes { IfErr result IsOfBytes }
    ensures small { IfOk result (λ x. x.0 < 65536) }
{
    let (low, rest) = one(bytes)?;
    let (high, rest) = one(rest)?;
    Ok((u32::from(low) + 256 * u32::from(high), rest))
}

/// A number of four bytes.
#[tactic(auto, unfolding(crate::specs::Reading::four_at))]
pub(crate) fn four(bytes: &[u8]) -> Result<(u32, &[u8]), ImageFault>
    ensures reads { Gives (λ x. (x.0, x.1.now)) result (four_at bytes.now) }
    ensures of_bytes { IfErr result IsOfBytes }
{
    let (low, rest) = two(bytes)?;
    let (high, rest) = two(rest)?;
    Ok((low + 65536 * high, rest))
}

/// A word of so many bytes.
#[tactic(auto, unfolding(crate::specs::Reading::word_at))]
fn word(alloc: Global, len: usize, bytes: &[u8]) -> Result<(Word, &[u8]), ImageFault>
    requires short { len ≤ 64 }
    ensures reads { Gives (λ x. (x.0.bytes.items, x.1.now)) result (word_at len bytes.now) }
    ensures memory { IfErr result (λ e. Behind e (word_at len bytes.now)) }
{
    if bytes.len() < len {
        return Err(ImageFault::Refused(BadImage::EndsEarly));
    }
    let (start, rest) = bytes.split_at(len);
    if !is_word(start) {
        return Err(ImageFault::Refused(BadImage::BadField));
    }
    let bytes = Vec::from_slice(alloc, start)?;
    let word = Word { bytes };
    Ok((word, rest))
}

/// The length of a name.
#[tactic(auto, unfolding(crate::specs::Reading::len_at))]
fn len(bytes: &[u8]) -> Result<(u8, &[u8]), ImageFault>
    ensures reads { Gives (λ x. (x.0, x.1.now)) result (len_at bytes.now) }
    ensures of_bytes { IfErr result IsOfBytes }
    ensures short { IfOk result (λ x. x.0 ≤ 64) }
{
    let (len, rest) = one(bytes)?;
    if !(1 <= len && usize::from(len) <= MAX_WORD) {
        return Err(ImageFault::Refused(BadImage::BadField));
    }
    Ok((len, rest))
}

/// A name: its length, and a word of so many bytes.
#[tactic(auto, unfolding(crate::specs::Reading::name_at))]
pub(crate) fn name(alloc: Global, bytes: &[u8]) -> Result<(Word, &[u8]), ImageFault>
    ensures reads { Gives (λ x. (x.0.bytes.items, x.1.now)) result (name_at bytes.now) }
    ensures memory { IfErr result (λ e. Behind e (name_at bytes.now)) }
{
    let (len, rest) = len(bytes)?;
    word(alloc, usize::from(len), rest)
}
