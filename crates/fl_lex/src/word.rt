//! Letters, digits and words.

ghost use Rattle.std.specs.Prelude.{◌≡◌, ◌≤◌, length};
ghost use Rattle.std.specs.List.{list_all, prefix_len};
ghost use Rattle.fl_lex.specs.Words.{is_letter, is_digit, is_word_byte, is_word, is_name};

/// Bytes of the longest word.
pub const MAX_WORD: usize = 64;

/// A letter or `_`.
#[inline(always)]
pub fn is_letter(byte: u8) -> bool
    ensures exact { result ≡ is_letter byte }
{
    byte.is_ascii_alphabetic() || byte == b'_'
}

/// A decimal digit.
#[inline(always)]
pub fn is_digit(byte: u8) -> bool
    ensures exact { result ≡ is_digit byte }
{
    byte.is_ascii_digit()
}

/// A letter, a digit or `_`.
#[inline(always)]
pub fn is_word_byte(byte: u8) -> bool
    ensures exact { result ≡ is_word_byte byte }
{
    is_letter(byte) || is_digit(byte)
}

/// How many letters, digits and `_` the bytes begin with.
#[inline]
pub fn count_word_bytes(bytes: &[u8]) -> usize
    ensures exact { result ≡ prefix_len is_word_byte bytes.now }
    ensures within { result ≤ length bytes.now }
{
    for (count, byte) in bytes.iter().enumerate() {
        if !is_word_byte(*byte) {
            return count;
        }
    }
    bytes.len()
}

/// How many decimal digits the bytes begin with.
#[inline]
pub fn count_digits(bytes: &[u8]) -> usize
    ensures exact { result ≡ prefix_len is_digit bytes.now }
    ensures within { result ≤ length bytes.now }
{
    for (count, byte) in bytes.iter().enumerate() {
        if !is_digit(*byte) {
            return count;
        }
    }
    bytes.len()
}

/// A letter or `_`, then letters, digits and `_`.
pub fn is_word(bytes: &[u8]) -> bool
    ensures exact { result ≡ is_word bytes.now }
{
    let [first, more @ ..] = bytes else {
        return false;
    };
    is_letter(*first) && are_word_bytes(more)
}

/// A word of at most 64 bytes, as names are.
pub fn is_name(bytes: &[u8]) -> bool
    ensures exact { result ≡ is_name bytes.now }
{
    bytes.len() <= MAX_WORD && is_word(bytes)
}

fn are_word_bytes(bytes: &[u8]) -> bool
    ensures exact { result ≡ list_all is_word_byte bytes.now }
{
    bytes.iter().all(|byte| is_word_byte(*byte))
}
