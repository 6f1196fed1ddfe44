//! The lines of a script that are drawn.

ghost use Rattle.std.specs.Prelude.{◌≡◌, ◌<◌, ◌≤◌, ◌↔◌, SomeIff, IsNone, IfSome};
ghost use Rattle.flounder_chart.specs.Lines.{AreNone, IsNumber, TellsLines, count_of, first_word, last_word, number_of};

/// Some lines of a script, by the numbers of the first and the last, from 1.
#[derive(Clone, Copy)]
pub struct Lines {
    pub first: usize,
    pub last: usize,
    pub ghost some: { 0 < first },
    pub ghost ordered: { first ≤ last },
}

// The number that a word is.
fn number(word: &str) -> Option<usize>
    ensures number { SomeIff result (IsNumber word.now) (number_of word.now) }
{
    word.parse::<usize>().ok()
}

impl Lines {
    /// How many lines these are.
    pub fn count(self) -> usize
        ensures count { result ≡ count_of self.first self.last }
    {
        self.last - self.first + 1
    }

    /// The lines from the one to the other, where there are such.
    pub fn new(first: usize, last: usize) -> Option<Lines>
        ensures none { IsNone result ↔ AreNone first last }
        ensures lines { IfSome result (λ lines. (lines.first ≡ first) × (lines.last ≡ last)) }
    {
        if first == 0 || last < first {
            return None;
        }
        Some(Lines { first, last })
    }

    /// The lines that a text such as `40-60` tells, if it tells any.
    pub fn read(text: &str) -> Option<Lines>
        ensures none { IsNone result ↔ (TellsLines text.now → ⊥) }
        ensures first { IfSome result (λ lines. lines.first ≡ number_of (first_word text.now)) }
        ensures last { IfSome result (λ lines. lines.last ≡ number_of (last_word text.now)) }
    {
        let (first, last) = text.split_once('-')?;
        let first = number(first)?;
        let last = number(last)?;
        Lines::new(first, last)
    }
}
