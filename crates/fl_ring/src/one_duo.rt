//! A ring of two directions with one owner.

ghost use Rattle.std.specs.Prelude.{◌≡◌, ◌≢◌, ◌+◌, ◌*◌, ◌-◌, ◌^◌, ◌/◌, ◌%◌, ◌<◌, ◌≤◌, ◌↔◌, ℕ, true, false, nat_le, nat_lt, ◌&&◌, [], List, length};
ghost use Rattle.std.specs.Prelude.{IfOk, OnOk, Ok, Err};
ghost use Rattle.fl_base.specs.declared.fragment.Frag.{Frag};
ghost use Rattle.fl_base.specs.Control.{is_ack_only, bare};
ghost use Rattle.fl_link.specs.Cursor.{epoch_at};
ghost use Rattle.fl_link.specs.Looks.{placed, no_room, spent, saw, saw_ack, peeked, taken, tells};
ghost use Rattle.fl_link.specs.Queue.{BeginsWith, front_of};
ghost use Rattle.fl_ring.specs.Duo.{TheDuo, DuoPuts, DuoTakes, DuoStands, MayHaveSlots, CountsAreNear, side_of, across, got, half_has_room, new_half};
ghost use Rattle.fl_ring.specs.Duo.{MayForget, knowing};

use crate::fault::RingFault;
use crate::halves::{DuoHalf, peek_at, put_at, room_at, take_at, tell_at};
use fl_base::{Frag, MAX_QUEUE};
use fl_link::{PutFault, Sight, Told};
use std::alloc::Global;
use std::marker::Model;

/// The name of a side.
#[derive(Clone, Copy, Debug, PartialEq, Eq)]
pub enum WhichSide {
    /// The side whose slots come first.
    One,
    /// The side across.
    Two,
}

/// Two directions of N slots each in one table of 16N words, without acknowledgement words: every
/// control word that a side writes tells how many fragments it has taken.
#[derive(Drop)]
pub struct OneDuo {
    words: Vec<u64>,
    one: DuoHalf,
    two: DuoHalf,
}

impl Model for OneDuo {
    ghost use Rattle.std.specs.Prelude.{◌≡◌};
    ghost use Rattle.fl_ring.specs.Duo.{TheDuo};

    ghost Value = { TheDuo };

    ghost use Rattle.fl_ring.specs.Halves.{InStep, duo_of};

    ghost view = { λ d. duo_of d.one.put.size d.words.items d.one d.two };

    ghost invariant = { λ d. (d.one.base ≡ 0) × InStep d.one.put.size d.words.items d.one d.two };
}

impl OneDuo {
    /// A ring of `size` slots each way, a power of two from 4 to 1,024. Nothing was put yet.
    ///
    /// # Errors
    /// `size` isn't such a number (E32); else out of memory (E99).
    pub fn new(alloc: Global, size: usize) -> Result<OneDuo, RingFault>
        ensures made { IfOk result (λ d. d ≡ record { size = size; one = new_half; two = new_half }) }
        ensures sized { OnOk result (MayHaveSlots size) }
        ensures bad_size { (result ≡ Err RingFault.BadSize) ↔ (¬ MayHaveSlots size) }
    {
        if size < 4 || size > MAX_QUEUE || !size.is_power_of_two() {
            return Err(RingFault::BadSize);
        }
        let Ok(words) = vec![in alloc; 0; 16 * size] else {
            return Err(RingFault::Memory);
        };
        Ok(OneDuo {
            words,
            one: DuoHalf::new(0, 8 * size, size),
            two: DuoHalf::new(8 * size, 0, size),
        })
    }

    /// Puts a fragment at this side, which tells all that the side has taken. The fragment isn't one that
    /// only acknowledges.
    ///
    /// # Errors
    /// The side has put 2^62 fragments (E33). Else fewer than two slots are free, also after a look at the
    /// other side's first fragment (E30): the side knows then what that fragment tells, and nothing else has
    /// changed.
    #[inline]
    pub fn put(&mut self, which: WhichSide, frag: &Frag) -> Result<(), PutFault>
        requires { is_ack_only frag.now ≡ false }
        ensures placed { OnOk result (DuoPuts which self.old (placed (bare frag.now)) self.new) }
        ensures full { result ≡ Err PutFault.Full → DuoPuts which self.old no_room self.new }
        ensures spent { result ≡ Err PutFault.Spent → DuoPuts which self.old spent self.new }
    {
        match which {
            WhichSide::One => put_at(&mut self.words, &mut self.one, frag),
            WhichSide::Two => put_at(&mut self.words, &mut self.two, frag),
        }
    }

    /// What stands first for this side, which is left there. The side knows then what it tells.
    #[inline(always)]
    pub fn peek(&mut self, which: WhichSide) -> Sight
        ensures look { DuoTakes which self.old (peeked result) self.new }
        ensures again { (frag : Frag) → front_of (side_of which self.old).waiting ≡ saw frag → peeked result ≡ saw frag }
        ensures again_acknowledged { front_of (side_of which self.old).waiting ≡ saw_ack → peeked result ≡ saw_ack }
        ensures whole { (frag : Frag) → result ≡ Sight.Data frag → BeginsWith (side_of which self.old).waiting frag }
        ensures of_call { (frag : Frag) → result ≡ Sight.Data frag → is_ack_only frag ≡ false }
    {
        match which {
            WhichSide::One => peek_at(&self.words, &mut self.one),
            WhichSide::Two => peek_at(&self.words, &mut self.two),
        }
    }

    /// Takes what stands first for this side.
    #[inline(always)]
    pub fn take(&mut self, which: WhichSide) -> Sight
        ensures look { DuoTakes which self.old (taken result) self.new }
        ensures whole { (frag : Frag) → result ≡ Sight.Data frag → BeginsWith (side_of which self.old).waiting frag }
    {
        match which {
            WhichSide::One => take_at(&self.words, &mut self.one),
            WhichSide::Two => take_at(&self.words, &mut self.two),
        }
    }

    /// Forgets what this side learned by looks: `known` is what it knew before them. So a caller that looked and then is
    /// refused as out of memory leaves the ring as it was (`forgets_looks`).
    pub fn forget(&mut self, which: WhichSide, known: u64)
        requires before { MayForget self.old.size (side_of which self.old) known }
        ensures forgotten { self.new ≡ knowing which self.old known }
    {
        match which {
            WhichSide::One => self.one.known = known,
            WhichSide::Two => self.two.known = known,
        }
    }

    /// Tells what this side has taken, by a fragment that only acknowledges: where at least half of the slots
    /// are read and unacknowledged (else it answers `Nothing`, and nothing has changed).
    ///
    /// # Errors
    /// There is so much to tell, and the side has put 2^62 fragments, or no slot is free, also after a look
    /// at the other side's first fragment (both E30, never E33): nothing has changed but what the side knows.
    #[inline]
    pub fn tell(&mut self, which: WhichSide) -> Result<Told, PutFault>
        ensures tell { DuoTakes which self.old (tells result) self.new }
        ensures never_spent { result ≢ Err PutFault.Spent }
    {
        match which {
            WhichSide::One => tell_at(&mut self.words, &mut self.one),
            WhichSide::Two => tell_at(&mut self.words, &mut self.two),
        }
    }

    /// The table, 16 words for each slot of a direction: first the slots that side one writes, of eight words
    /// each, then those that side two writes.
    pub fn words(&self) -> &[u64]
        ensures stands { DuoStands result.now self.now }
    {
        self.words.as_slice()
    }

    /// Whether a put at this side would find room, by what the side knows.
    #[inline]
    pub fn room(&self, which: WhichSide) -> bool
        ensures room { result ≡ half_has_room self.now.size (side_of which self.now) }
    {
        match which {
            WhichSide::One => room_at(&self.one),
            WhichSide::Two => room_at(&self.two),
        }
    }

    /// The epoch bit of the fragment that this side puts next.
    #[inline]
    pub fn next_epoch(&self, which: WhichSide) -> u64
        ensures epoch { result ≡ epoch_at self.now.size (side_of which self.now).sent }
        ensures bit { result < 2 }
    {
        match which {
            WhichSide::One => self.one.put.epoch(),
            WhichSide::Two => self.two.put.epoch(),
        }
    }

    /// Bits 48 to 63 of the fragment that this side puts next: how many it has taken, modulo 65,536.
    #[inline]
    pub fn next_told(&self, which: WhichSide) -> u16
        ensures told { result ≡ got (side_of which self.now) % 65536 }
    {
        match which {
            WhichSide::One => (self.one.take.index() % 65_536) as u16,
            WhichSide::Two => (self.two.take.index() % 65_536) as u16,
        }
    }

    /// How many of its fragments this side knows to be taken. That number was told, and the side
    /// has put no more than its slots beyond it: so 16 bits of a count name it.
    #[inline]
    pub fn known(&self, which: WhichSide) -> u64
        ensures known { result ≡ (side_of which self.now).known }
        ensures near { CountsAreNear self.now.size (side_of which self.now) (across which self.now) }
    {
        match which {
            WhichSide::One => self.one.known,
            WhichSide::Two => self.two.known,
        }
    }
}
