//! A ring with one owner.

ghost use Rattle.std.specs.Prelude.{◌≡◌, ◌≢◌, ◌+◌, ◌*◌, ◌-◌, ◌^◌, ◌/◌, ◌%◌, ◌<◌, ◌≤◌, ◌↔◌, true, false, [], ◌∷◌, List, length, IfOk, OnOk, Ok, Err};
ghost use Rattle.std.specs.Prelude.{vec_len, MatchOption, refl};
ghost use Rattle.fl_base.specs.declared.fragment.Frag.{Frag};
ghost use Rattle.fl_base.specs.Control.{is_ack_only, bare};
ghost use Rattle.fl_link.specs.Looks.{placed, no_room, spent, saw, saw_ack, found, found_ack, peeked, taken, tells};
ghost use Rattle.fl_link.specs.Queue.{next_epoch_of, has_room, front_of, BeginsWith, MayHave};
ghost use Rattle.fl_ring.specs.Ring.{TheRing, queue_of, RingGains, RingPuts, RingTakes, RingStands};

use crate::fault::RingFault;
use crate::slots::{look, write_next};
use fl_base::{Frag, MAX_QUEUE};
use fl_link::{Cursor, PutFault, PutSide, SPENT, Sight, TakeSide, Told};
use std::alloc::Global;
use std::marker::Model;

/// A ring of N slots, both sides in one hand: 8N words of slots, and a word that holds how many
/// fragments were taken and told.
#[derive(Drop)]
pub struct OneRing {
    words: Vec<u64>,
    put: Cursor,
    take: Cursor,
}

impl Model for OneRing {
    ghost use Rattle.std.specs.Prelude.{◌≡◌};
    ghost use Rattle.fl_ring.specs.Ring.{TheRing, ring_of, IsRing};

    ghost Value = { TheRing };

    ghost view = { λ r. ring_of r.words.items r.put.size r.put.index r.take.index };

    ghost invariant = { λ r. (r.take.size ≡ r.put.size) × IsRing r.words.items r.put.size r.put.index r.take.index };
}

impl OneRing {
    /// A ring of `size` slots, a power of two from 2 to 1,024. Nothing was put yet.
    ///
    /// # Errors
    /// `size` isn't such a number (E32); else out of memory (E99).
    pub fn new(alloc: Global, size: usize) -> Result<OneRing, RingFault>
        ensures made { IfOk result (λ r. r ≡ record { read = []; items = []; told = 0; capacity = size }) }
        ensures sized { OnOk result (MayHave true size) }
        ensures bad_size { (result ≡ Err RingFault.BadSize) ↔ (¬ MayHave true size) }
    {
        if size < 2 || size > MAX_QUEUE || !size.is_power_of_two() {
            return Err(RingFault::BadSize);
        }
        let Ok(words) = vec![in alloc; 0; 8 * size + 1] else {
            return Err(RingFault::Memory);
        };
        Ok(OneRing {
            words,
            put: Cursor::new(size),
            take: Cursor::new(size),
        })
    }

    /// The table: slots of eight words, then the word that holds how many are told. For tests.
    pub fn words(&self) -> &[u64]
        ensures stands { RingStands result.now self.now }
    {
        self.words.as_slice()
    }

    /// Puts the fragment into the next slot, with the epoch due and telling nothing.
    ///
    /// # Errors
    /// The ring has carried 2^62 fragments (E33); else every slot is in use (E30). Nothing has changed then.
    pub fn put(&mut self, frag: &Frag) -> Result<(), PutFault>
        ensures placed { OnOk result (RingGains self.old (bare frag.now) self.new) }
        ensures full { result ≡ Err PutFault.Full → RingPuts self.old no_room self.new }
        ensures spent { result ≡ Err PutFault.Spent → RingPuts self.old spent self.new }
    {
        let sent = self.put.index();
        if sent == SPENT {
            return Err(PutFault::Spent);
        }
        let size = self.put.size();
        if sent - self.words[8 * size] == size as u64 {
            return Err(PutFault::Full);
        }
        write_next(&mut self.words, 0, &mut self.put, frag, 0);
        Ok(())
    }

    // The first fragment, if one stands there.
    fn first(&self) -> Option<Frag>
        ensures first { MatchOption result (self.now.items ≡ []) (λ frag. (rest : List Frag) × (self.now.items ≡ frag ∷ rest)) }
    {
        look(&self.words, 8 * self.take.place(), self.take.epoch())
    }

    /// The first fragment, which is left there.
    pub fn peek(&self) -> Sight
        ensures look { RingTakes self.now (peeked result) self.now }
        ensures front { peeked result ≡ front_of self.now.items }
        ensures whole { (frag : Frag) → result ≡ Sight.Data frag → BeginsWith self.now.items frag }
        ensures of_call { (frag : Frag) → result ≡ Sight.Data frag → is_ack_only frag ≡ false }
    {
        match self.first() {
            None => Sight::Empty,
            Some(frag) if frag.is_ack_only() => Sight::Acknowledgement,
            Some(frag) => Sight::Data(frag),
        }
    }

    /// Takes the first fragment. Its slot isn't free before it is told.
    pub fn take(&mut self) -> Sight
        ensures look { RingTakes self.old (taken result) self.new }
        ensures data { (frag : Frag) → front_of self.old.items ≡ saw frag → taken result ≡ found frag }
        ensures whole { (frag : Frag) → result ≡ Sight.Data frag → BeginsWith self.old.items frag }
        ensures acknowledgement { front_of self.old.items ≡ saw_ack → taken result ≡ found_ack }
    {
        let Some(frag) = self.first() else {
            return Sight::Empty;
        };
        self.take.advance();
        if frag.is_ack_only() {
            return Sight::Acknowledgement;
        }
        Sight::Data(frag)
    }

    /// Tells what was taken: those slots are free then.
    pub fn tell(&mut self) -> Told
        ensures tell { RingTakes self.old (tells (Ok result)) self.new }
    {
        let told = 8 * self.take.size();
        self.words[told] = self.take.index();
        Told::Written
    }

    /// Whether a put would find room.
    pub fn room(&self) -> bool
        ensures room { result ≡ has_room (queue_of self.now) }
    {
        let sent = self.put.index();
        let size = self.put.size();
        sent < SPENT && sent - self.words[8 * size] < size as u64
    }

    /// The epoch bit of the fragment that is put next.
    pub fn next_epoch(&self) -> u64
        ensures epoch { result ≡ next_epoch_of (queue_of self.now) }
        ensures bit { result < 2 }
    {
        self.put.epoch()
    }

    /// How many fragments were taken and told.
    pub fn known(&self) -> u64
        ensures known { result ≡ self.now.told }
    {
        self.words[8 * self.put.size()]
    }
}

impl PutSide for OneRing {
    ghost puts = { RingPuts };

    ghost has_room = { λ r. has_room (queue_of r) };

    ghost epoch_of = { λ r. next_epoch_of (queue_of r) };

    ghost told_of = { λ _. 0 };

    ghost known_of = { λ r. r.told };

    fn room(&self) -> bool {
        OneRing::room(self)
    }

    fn put(&mut self, frag: &Frag) -> Result<(), PutFault> {
        OneRing::put(self, frag)
    }

    fn next_epoch(&self) -> u64 {
        OneRing::next_epoch(self)
    }

    fn next_told(&self) -> u16 {
        0
    }

    fn known(&self) -> u64 {
        OneRing::known(self)
    }
}

impl TakeSide for OneRing {
    ghost takes = { RingTakes };

    ghost front = { λ r. front_of r.items };

    fn peek(&mut self) -> Sight {
        OneRing::peek(self)
    }

    fn take(&mut self) -> Sight {
        OneRing::take(self)
    }

    fn tell(&mut self) -> Result<Told, PutFault> {
        Ok(OneRing::tell(self))
    }
}
