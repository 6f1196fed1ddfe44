//! A fragment whose bytes are all of one text, which goes on: it is only asked for a byte of 0.

ghost use Rattle.std.specs.Prelude.{◌≡◌, ◌<◌, ◌≤◌, ℕ, List, length, false, IsTrue};
ghost use Rattle.fl_stub.specs.Meaning.{number_bytes};
ghost use Rattle.fl_machine.specs.Taking.{Stands, inner_loop, words_bytes, AreSet, IsTextRun, PassesText, after_fragment};

use crate::cursor::is_op;
use crate::intake::RecvCursor;
use fl_stub::Op;
use std::simd::prelude::*;

// A word's bytes.
#[inline(always)]
fn bytes_of(word: u64) -> u8x8
    ensures { result ≡ number_bytes 8 word }
{
    u8x8::from_array(word.to_le_bytes())
}

// The lesser of each two bytes.
#[inline(always)]
fn lesser(a: u8x8, b: u8x8) -> u8x8
    ensures first { AreSet result → AreSet a }
    ensures second { AreSet result → AreSet b }
{
    a.simd_min(b)
}

// Whether none of the bytes is 0.
#[inline(always)]
fn are_set(bytes: u8x8) -> bool
    ensures { IsTrue result → AreSet bytes }
{
    bytes.simd_eq(u8x8::splat(0)).to_bitmask() == 0
}

// Whether none of the bytes of a fragment's words is 0.
#[inline(always)]
fn has_no_zero(words: &[u64; 7]) -> bool
    ensures { IsTrue result → AreSet (words_bytes words.now) }
{
    let one = lesser(bytes_of(words[0]), bytes_of(words[1]));
    let two = lesser(bytes_of(words[2]), bytes_of(words[3]));
    let three = lesser(bytes_of(words[4]), bytes_of(words[5]));
    let four = lesser(one, bytes_of(words[6]));
    are_set(lesser(lesser(two, three), four))
}

impl RecvCursor {
    // Whether the innermost loop is over one byte of a text alone, which is the one to be taken.
    #[inline(always)]
    fn is_text_run(&self, ops: &[Op]) -> bool
        requires { self.now.depth ≤ 8 }
        ensures { IsTrue result → IsTextRun ops.now self.now }
    {
        if self.depth == 0 || self.have != 0 {
            return false;
        }
        self.loops[self.depth - 1].start == self.place
            && is_op(ops, self.place, Op::ReadText)
            && is_op(ops, self.place + 1, Op::Back)
    }

    // Past as many turns of the innermost loop as a fragment has bytes.
    #[inline(always)]
    fn pass_fragment(&mut self)
        requires low { 0 < self.old.depth }
        requires high { self.old.depth ≤ 8 }
        requires more { 56 ≤ (inner_loop self.old).turns }
        ensures passed { self.new ≡ after_fragment self.old }
        ensures wide { length self.old.loops ≡ 8 }
    {
        self.loops[self.depth - 1].turns -= 56;
    }

    /// Past all bytes of a fragment's seven words, where they are of one text, which goes on; whether it is so. It may say no at any
    /// time: then nothing changes, and [`RecvCursor::take_words`] takes the fragment. How many numbers were taken never changes.
    #[inline(always)]
    pub(crate) fn pass_text(&mut self, ops: &[Op], words: &[u64; 7]) -> bool
        requires { (taken bytes : List ℕ) × Stands ops.now taken self.old bytes }
        ensures passes { IsTrue result → PassesText ops.now self.old words.now self.new }
        ensures stays { result ≡ false → self.new ≡ self.old }
        ensures count { self.new.count ≡ self.old.count }
    {
        if !self.is_text_run(ops) {
            return false;
        }
        if self.turns_left() < 56 {
            return false;
        }
        if !has_no_zero(words) {
            return false;
        }
        self.pass_fragment();
        true
    }
}
