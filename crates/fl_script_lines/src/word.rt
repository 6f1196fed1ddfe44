//! A line's words, and the numbers that words write.

ghost use Rattle.std.specs.Prelude.{◌≡◌, ◌||◌, ◌==◌};
ghost use Rattle.std.specs.List.{list_all};
ghost use Rattle.fl_script_lines.specs.Words.{first_word, behind_word, begins_comment, number_of};

use fl_lex::is_digit;
use fl_value::{is_blank, skip_blanks};

/// The first word of a line, empty where there is none, and what stands behind it.
#[inline]
pub fn next_word(line: &[u8]) -> (&[u8], &[u8])
    ensures word { result.0.now ≡ first_word line.now }
    ensures behind { result.1.now ≡ behind_word line.now }
{
    let start = skip_blanks(line);
    for (i, byte) in start.iter().enumerate() {
        if is_blank(*byte) {
            return start.split_at(i);
        }
    }
    start.split_at(start.len())
}

/// Whether a line that begins with this word has no answer: there is no word, or it begins with `#`.
pub fn begins_comment(word: &[u8]) -> bool
    ensures same { result ≡ begins_comment word.now }
{
    let [first, ..] = word else {
        return true;
    };
    *first == b'#'
}

/// The number that a word of 1 to 9 digits writes.
pub fn number(word: &[u8]) -> Option<u32>
    ensures same { result ≡ number_of word.now }
{
    if word.is_empty() || word.len() > 9 {
        return None;
    }
    let mut value: u32 = 0;
    for digit in word {
        if !is_digit(*digit) {
            return None;
        }
        value = 10 * value + u32::from(*digit - b'0');
    }
    Some(value)
}
