//! A bounded queue of fragments: a link with one owner.

ghost use Rattle.std.specs.Prelude.{◌≡◌, ◌+◌, ◌*◌, ◌^◌, ◌/◌, ◌%◌, ◌<◌, ◌≤◌, ◌-◌, ◌↔◌, ℕ, ◌≢◌};
ghost use Rattle.std.specs.Prelude.{IsTrue, true, false, [], IfOk, OnOk, Ok, Err, refl, if◌then◌else◌};
ghost use Rattle.fl_base.specs.declared.fragment.Frag.{Frag};
ghost use Rattle.fl_base.specs.Control.{is_ack_only, bare};
ghost use Rattle.fl_link.specs.Looks.{placed, no_room, spent, saw, saw_ack, found, found_ack, peeked, taken, tells};
ghost use Rattle.fl_link.specs.Queue.{TheQueue, QueueGains, QueuePuts, QueueTakes, next_epoch_of, used, front_of, BeginsWith, has_room, MayHave};

use crate::cursor::{Cursor, SPENT};
use crate::fault::{LinkFault, PutFault};
use crate::sides::{PutSide, Sight, TakeSide, Told};
use fl_base::{Frag, MAX_QUEUE};
use std::alloc::Global;
use std::collections::VecDeque;
use std::marker::Model;

/// A queue of fragments with a greatest length.
///
/// A `local` queue, within one core, frees a slot when its fragment is taken, and its epoch is
/// always 1. An `acked` queue counts as a ring does: a slot is free once its fragment is told, and
/// the epoch changes with each round.
#[derive(Drop)]
pub struct QueueLink {
    items: VecDeque<Frag>,
    capacity: usize,
    acked: bool,
    unacknowledged: usize,
    next: Cursor,
}

impl Model for QueueLink {
    ghost use Rattle.std.specs.Prelude.{◌≡◌, ◌+◌, ◌<◌, ◌≤◌, ◌^◌, length, true, false};
    ghost use Rattle.std.specs.VecDeque.{deque_capacity};
    ghost use Rattle.fl_link.specs.Queue.{TheQueue};

    ghost Value = { TheQueue };

    ghost view = { λ q. record { items = q.items.items; unacknowledged = q.unacknowledged; sent = q.next.index; capacity = q.capacity; acked = q.acked } };

    ghost invariant = { λ q. (q.capacity ≤ deque_capacity q.items) × (q.next.size ≡ q.capacity)
        × (0 < q.capacity) × (q.capacity ≤ 1024) × (length q.items.items + q.unacknowledged ≤ q.capacity)
        × (q.next.index ≤ 2 ^ 62) × (q.acked ≡ false → (q.next.index ≡ 0) × (q.unacknowledged ≡ 0)) };
}

impl QueueLink {
    /// A queue within one core, of `size` slots, from 1 to 1,024. A slot is free once its fragment is taken.
    ///
    /// # Errors
    /// `size` isn't such a number (E32); else out of memory (E99).
    pub fn local(alloc: Global, size: usize) -> Result<QueueLink, LinkFault>
        ensures made { IfOk result (λ q. q ≡ record { items = []; unacknowledged = 0; sent = 0; capacity = size; acked = false }) }
        ensures sized { OnOk result (MayHave false size) }
        ensures bad_size { (result ≡ Err LinkFault.BadSize) ↔ (¬ MayHave false size) }
    {
        if size == 0 || size > MAX_QUEUE {
            return Err(LinkFault::BadSize);
        }
        QueueLink::make(alloc, size, false)
    }

    /// A queue that frees a slot once its fragment is told, and counts epochs as a ring does. It has `size`
    /// slots, a power of two from 2 to 1,024.
    ///
    /// # Errors
    /// `size` isn't such a number (E32); else out of memory (E99).
    pub fn acked(alloc: Global, size: usize) -> Result<QueueLink, LinkFault>
        ensures made { IfOk result (λ q. q ≡ record { items = []; unacknowledged = 0; sent = 0; capacity = size; acked = true }) }
        ensures sized { OnOk result (MayHave true size) }
        ensures bad_size { (result ≡ Err LinkFault.BadSize) ↔ (¬ MayHave true size) }
    {
        if size < 2 || size > MAX_QUEUE || !size.is_power_of_two() {
            return Err(LinkFault::BadSize);
        }
        QueueLink::make(alloc, size, true)
    }

    fn make(alloc: Global, size: usize, acked: bool) -> Result<QueueLink, LinkFault>
        requires some { 0 < size }
        requires few { size ≤ 1024 }
        ensures made { IfOk result (λ q. q ≡ record { items = []; unacknowledged = 0; sent = 0; capacity = size; acked = acked }) }
        ensures refused { result ≢ Err LinkFault.BadSize }
    {
        let Ok(items) = VecDeque::with_capacity(alloc, size) else {
            return Err(LinkFault::Memory);
        };
        Ok(QueueLink {
            items,
            capacity: size,
            acked,
            unacknowledged: 0,
            next: Cursor::new(size),
        })
    }

    /// Whether a put would find room.
    #[inline]
    pub fn room(&self) -> bool
        ensures room { result ≡ has_room self.now }
    {
        self.next.index() < SPENT && self.items.len() + self.unacknowledged < self.capacity
    }

    /// Puts the fragment last, with the epoch due and telling nothing.
    ///
    /// # Errors
    /// An `acked` queue has carried 2^62 fragments (E33); else every slot is in use (E30). Nothing has
    /// changed then.
    #[inline]
    pub fn put(&mut self, frag: &Frag) -> Result<(), PutFault>
        ensures placed { OnOk result (QueueGains self.old (bare frag.now) self.new) }
        ensures full { result ≡ Err PutFault.Full → QueuePuts self.old no_room self.new }
        ensures spent { result ≡ Err PutFault.Spent → QueuePuts self.old spent self.new }
    {
        if self.next.index() == SPENT {
            return Err(PutFault::Spent);
        }
        if self.items.len() + self.unacknowledged == self.capacity {
            return Err(PutFault::Full);
        }
        let stamped = frag.stamp(self.next.epoch(), 0);
        self.items.push_back_reserved(stamped);
        if self.acked {
            self.next.advance();
        }
        Ok(())
    }

    /// The epoch bit of the fragment that is put next: always 1 in a `local` queue.
    #[inline]
    pub fn next_epoch(&self) -> u64
        ensures epoch { result ≡ next_epoch_of self.now }
        ensures bit { result < 2 }
    {
        self.next.epoch()
    }

    /// The first fragment, which is left there.
    #[inline]
    pub fn peek(&self) -> Sight
        ensures look { QueueTakes self.now (peeked result) self.now }
        ensures front { peeked result ≡ front_of self.now.items }
        ensures whole { (frag : Frag) → result ≡ Sight.Data frag → BeginsWith self.now.items frag }
        ensures of_call { (frag : Frag) → result ≡ Sight.Data frag → is_ack_only frag ≡ false }
    {
        match self.items.front() {
            None => Sight::Empty,
            Some(frag) if frag.is_ack_only() => Sight::Acknowledgement,
            Some(frag) => Sight::Data(*frag),
        }
    }

    /// Takes the first fragment. In a `local` queue its slot is free at once.
    #[inline]
    pub fn take(&mut self) -> Sight
        ensures look { QueueTakes self.old (taken result) self.new }
        ensures data { (frag : Frag) → front_of self.old.items ≡ saw frag → taken result ≡ found frag }
        ensures whole { (frag : Frag) → result ≡ Sight.Data frag → BeginsWith self.old.items frag }
        ensures acknowledgement { front_of self.old.items ≡ saw_ack → taken result ≡ found_ack }
    {
        let Some(first) = self.items.front() else {
            return Sight::Empty;
        };
        let sight = sight_of(first);
        let _ = self.items.pop_front();
        if self.acked {
            self.unacknowledged += 1;
        }
        sight
    }

    /// Tells what was taken: those slots of an `acked` queue are free then. A `local` queue has
    /// nothing to tell.
    #[inline]
    pub fn tell(&mut self) -> Told
        ensures tell { QueueTakes self.old (tells (Ok result)) self.new }
    {
        if !self.acked {
            return Told::Nothing;
        }
        self.unacknowledged = 0;
        Told::Written
    }
}

// What a look sees of this fragment. Every second word is read first: so the words are loaded singly, as a put has stored
// them, where a load of two would wait for both stores.
#[inline(always)]
fn sight_of(frag: &Frag) -> Sight
    ensures sight { result ≡ (if is_ack_only frag.now then Sight.Acknowledgement else Sight.Data frag.now) }
{
    let [_, b, _, d, _, f, _] = frag.words;
    if frag.is_ack_only() {
        return Sight::Acknowledgement;
    }
    let [a, _, c, _, e, _, g] = frag.words;
    Sight::Data(Frag {
        words: [a, b, c, d, e, f, g],
        control: frag.control,
    })
}

impl PutSide for QueueLink {
    ghost puts = { QueuePuts };

    ghost has_room = { has_room };

    ghost epoch_of = { next_epoch_of };

    ghost told_of = { λ _. 0 };

    ghost known_of = { λ _. 0 };

    #[inline]
    fn room(&self) -> bool {
        QueueLink::room(self)
    }

    #[inline]
    fn put(&mut self, frag: &Frag) -> Result<(), PutFault> {
        QueueLink::put(self, frag)
    }

    #[inline]
    fn next_epoch(&self) -> u64 {
        QueueLink::next_epoch(self)
    }

    #[inline]
    fn next_told(&self) -> u16 {
        0
    }

    #[inline]
    fn known(&self) -> u64 {
        0
    }
}

impl TakeSide for QueueLink {
    ghost takes = { QueueTakes };

    ghost front = { λ s. front_of s.items };

    #[inline]
    fn peek(&mut self) -> Sight {
        QueueLink::peek(self)
    }

    #[inline]
    fn take(&mut self) -> Sight {
        QueueLink::take(self)
    }

    #[inline]
    fn tell(&mut self) -> Result<Told, PutFault> {
        Ok(QueueLink::tell(self))
    }
}
