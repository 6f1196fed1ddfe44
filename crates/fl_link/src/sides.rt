//! The two sides of a link, as the layers above use them.

ghost use Rattle.std.specs.Prelude.{◌≡◌, ◌≢◌, ℕ, Bool, true, false, IsTrue, OnOk, Ok, Err, ◌<◌, ◌^◌};
ghost use Rattle.fl_base.specs.declared.fragment.Frag.{Frag};
ghost use Rattle.fl_base.specs.Control.{is_ack_only, bare};
ghost use Rattle.fl_link.specs.Looks.{Look, placed, no_room, spent, saw, saw_ack, found, found_ack, peeked, taken, tells};

use crate::fault::PutFault;
use fl_base::Frag;

/// What a look or a take finds.
#[derive(Clone, Copy, Debug, PartialEq, Eq)]
pub enum Sight {
    /// A fragment of a call.
    Data(Frag),
    /// A fragment that only acknowledges, and belongs to no call.
    Acknowledgement,
    /// Nothing stands there.
    Empty,
}

/// What a tell did.
#[derive(Clone, Copy, Debug, PartialEq, Eq)]
pub enum Told {
    /// All that was taken is told now.
    Written,
    /// There was too little to tell, and nothing was told.
    Nothing,
}

/// A side that puts fragments.
///
/// Its relation `puts` says what a put does, by its label; to a caller that is generic in the side
/// it is abstract.
pub trait PutSide {
    ghost puts: { Self → Look → Self → Type 0 };

    ghost has_room: { Self → Bool };

    ghost epoch_of: { Self → ℕ };

    ghost told_of: { Self → ℕ };

    ghost known_of: { Self → ℕ };

    /// Whether a put would find room, by what this side knows.
    fn room(&self) -> bool
        ensures room { result ≡ has_room self.now };

    /// Puts the fragment, in a round of the epoch due. The fragment isn't one that only
    /// acknowledges: these are written by [`TakeSide::tell`].
    ///
    /// # Errors
    /// Too few slots are free (E30); the link has carried 2^62 fragments (E33). Nothing was put then: what
    /// else the side may have learned its relation `puts` says.
    fn put(&mut self, frag: &Frag) -> Result<(), PutFault>
        requires data { is_ack_only frag.now ≡ false }
        ensures placed { OnOk result (puts self.old (placed (bare frag.now)) self.new) }
        ensures full { result ≡ Err PutFault.Full → puts self.old no_room self.new }
        ensures spent { result ≡ Err PutFault.Spent → puts self.old spent self.new };

    /// The epoch bit of the fragment that is put next, 0 or 1.
    fn next_epoch(&self) -> u64
        ensures epoch { result ≡ epoch_of self.now }
        ensures bit { result < 2 };

    /// Bits 48 to 63 of the fragment that is put next: 0 where acknowledgements don't ride in
    /// control words.
    fn next_told(&self) -> u16
        ensures told { result ≡ told_of self.now };

    /// How many of the fragments that it has put this side knows to be read and told; 0 in a queue
    /// that doesn't count.
    fn known(&self) -> u64
        ensures known { result ≡ known_of self.now };
}

/// A side that takes fragments, in the order in which they were put.
///
/// Its relation `takes` says what a look, a take or a tell does, by its label. `front` is the
/// fragment that the last look saw, where that look saw one.
pub trait TakeSide {
    ghost takes: { Self → Look → Self → Type 0 };

    ghost front: { Self → Look };

    /// What stands first, which is left there. After a peek that found something it is that again.
    fn peek(&mut self) -> Sight
        ensures look { takes self.old (peeked result) self.new }
        ensures front { peeked result ≡ front self.new }
        ensures again { (frag : Frag) → front self.old ≡ saw frag → peeked result ≡ saw frag }
        ensures again_acknowledged { front self.old ≡ saw_ack → peeked result ≡ saw_ack }
        ensures of_call { (frag : Frag) → result ≡ Sight.Data frag → is_ack_only frag ≡ false };

    /// Takes what stands first. After a peek that found something it is that.
    fn take(&mut self) -> Sight
        ensures look { takes self.old (taken result) self.new }
        ensures data { (frag : Frag) → front self.old ≡ saw frag → taken result ≡ found frag }
        ensures acknowledgement { front self.old ≡ saw_ack → taken result ≡ found_ack };

    /// Tells the other side what was taken, so that those slots are free.
    ///
    /// # Errors
    /// There is something to tell, and too few slots are free to write it, or the link has carried all
    /// fragments that it ever will (both E30, never E33).
    fn tell(&mut self) -> Result<Told, PutFault>
        ensures tell { takes self.old (tells result) self.new }
        ensures never_spent { result ≢ Err PutFault.Spent };
}

/// Both sides in one value.
pub trait Link: PutSide + TakeSide {}

impl<L: PutSide + TakeSide> Link for L {}
