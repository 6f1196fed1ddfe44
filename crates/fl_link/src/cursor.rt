//! An index that goes round the places of a ring.

ghost use Rattle.std.specs.Prelude.{◌≡◌, ◌+◌, ◌-◌, ◌^◌, ◌/◌, ◌%◌, ◌<◌, ◌≤◌};
ghost use Rattle.fl_link.specs.Cursor.{TheCursor, epoch_at};

use std::marker::Model;

/// How many fragments a link that counts carries in all, 2^62: then it is spent.
pub const SPENT: u64 = 4_611_686_018_427_387_904;

/// An index, with its place in a ring of `size` places and the epoch of its round.
///
/// Place and epoch are kept beside the index, so that no step divides.
#[derive(Debug, Drop)]
pub struct Cursor {
    index: u64,
    size: usize,
    place: usize,
    epoch: u64,
}

impl Model for Cursor {
    ghost use Rattle.std.specs.Prelude.{◌≡◌, ◌<◌, ◌%◌, ◌^◌};
    ghost use Rattle.fl_link.specs.Cursor.{TheCursor, epoch_at};

    ghost Value = { TheCursor };

    ghost view = { λ c. record { index = c.index; size = c.size } };

    ghost invariant = { λ c. (0 < c.size) × (c.place ≡ c.index % c.size) × (c.epoch ≡ epoch_at c.size c.index) };
}

impl Cursor {
    /// The cursor at index 0 of a ring of `size` places.
    pub fn new(size: usize) -> Cursor
        requires { 0 < size }
        ensures start { result ≡ record { index = 0; size = size } }
    {
        Cursor {
            index: 0,
            size,
            place: 0,
            epoch: 1,
        }
    }

    /// The cursor at this index.
    pub fn at(size: usize, index: u64) -> Cursor
        requires { 0 < size }
        ensures start { result ≡ record { index = index; size = size } }
    {
        let places = size as u64;
        let round = index / places;
        Cursor {
            index,
            size,
            place: (index % places) as usize,
            epoch: (round % 2 + 1) % 2,
        }
    }

    /// The index: 0 at first, and one more with each step.
    #[inline]
    pub fn index(&self) -> u64
        ensures index { result ≡ self.now.index }
    {
        self.index
    }

    /// How many places the ring has.
    #[inline]
    pub fn size(&self) -> usize
        ensures size { result ≡ self.now.size }
        ensures some { 0 < result }
    {
        self.size
    }

    /// The place in the ring: the index modulo the number of places.
    #[inline]
    pub fn place(&self) -> usize
        ensures place { result ≡ self.now.index % self.now.size }
        ensures within { result < self.now.size }
    {
        self.place
    }

    /// The epoch of this round: 1 in the first, 0 in the second, and so on.
    #[inline]
    pub fn epoch(&self) -> u64
        ensures epoch { result ≡ epoch_at self.now.size self.now.index }
        ensures bit { result < 2 }
    {
        self.epoch
    }

    /// Goes on to the next index.
    #[inline]
    pub fn advance(&mut self)
        requires { self.old.index + 1 < 2 ^ 64 }
        ensures next { self.new ≡ record { index = self.old.index + 1; size = self.old.size } }
    {
        self.index += 1;
        self.place += 1;
        if self.place == self.size {
            self.place = 0;
            self.epoch = next_round(self.epoch);
        }
    }
}

// The epoch of the round after one of this epoch. It stands apart, so that the usual step, which stays
// in its round, is a jump that is foreseen, and no choice that each next step waits for.
#[cold]
#[inline(never)]
fn next_round(epoch: u64) -> u64
    requires { epoch < 2 }
    ensures { result ≡ 1 - epoch }
{
    1 - epoch
}
