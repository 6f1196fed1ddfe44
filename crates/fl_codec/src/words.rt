//! Numbers to the words of a fragment, and back.

ghost use Rattle.std.specs.Prelude.{◌≡◌, ◌≤◌, ◌==◌, true, length, take, replicate};
ghost use Rattle.std.specs.List.{list_all};
ghost use Rattle.std.specs.Option.{option_map};
ghost use Rattle.fl_codec.specs.Words.{is_inside, filled, numbers_filling, AreWords};

use crate::place::NumberPlace;

/// The words with the numbers at these places, zeros elsewhere; none where there are not as many, or one is past the last of its
/// place.
#[inline(always)]
pub(crate) fn filled(places: &[NumberPlace], numbers: &[u64]) -> Option<[u64; 7]>
    requires inside { list_all is_inside places.now ≡ true }
    ensures exact { result ≡ filled places.now numbers.now (replicate 7 0) }
{
    if numbers.len() != places.len() {
        return None;
    }
    let mut words = [0; 7];
    for (index, place) in places.iter().enumerate() {
        let number = numbers[index];
        if number > place.last {
            return None;
        }
        words[usize::from(place.word)] |= number << place.shift;
    }
    Some(words)
}

// Whether all words are 0.
#[inline(always)]
fn is_blank(words: &[u64; 7]) -> bool
    ensures { result ≡ list_all (λ word. word == 0) words.now }
{
    words.iter().all(|word| *word == 0)
}

/// The numbers at these places that fill the words, with zeros elsewhere; none where no numbers do.
#[inline(always)]
pub(crate) fn numbers_filling(places: &[NumberPlace], words: &[u64; 7]) -> Option<[u64; 7]>
    requires inside { list_all is_inside places.now ≡ true }
    requires few { length places.now ≤ 7 }
    ensures exact { option_map (take (length places.now)) result ≡ numbers_filling places.now words.now }
    ensures words { AreWords words.now }
{
    let mut left = *words;
    let mut numbers = [0; 7];
    // From the last place on: what stands above a number in its word is taken by then, and padding that isn't 0 makes the number
    // too great.
    for index in (0..places.len()).rev() {
        let place = places[index];
        let word = usize::from(place.word);
        let number = left[word] >> place.shift;
        if number > place.last {
            return None;
        }
        left[word] -= number << place.shift;
        numbers[index] = number;
    }
    if !is_blank(&left) {
        return None;
    }
    Some(numbers)
}
