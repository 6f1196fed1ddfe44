//! The side of a ring that takes.

ghost use Rattle.std.specs.Prelude.{◌≡◌, ◌∷◌, ◌++◌, [], false, length, Some, Ok};
ghost use Rattle.fl_base.specs.declared.fragment.Frag.{Frag};
ghost use Rattle.fl_base.specs.Control.{is_ack_only};
ghost use Rattle.fl_link.specs.Looks.{saw, saw_ack, found, found_ack, peeked, taken, tells};
ghost use Rattle.fl_ring.specs.SharedSeats.{ReceiverTakes, front_seen, with_all_told};

use crate::shared::board::{RingSeat, RingTable};
use crate::shared::plays::StoreTold;
use crate::shared::reads::{peek_frag, take_frag};
use crate::shared::sight::sight;
use fl_base::Frag;
use fl_link::{Cursor, PutFault, Sight, TakeSide, Told};
use std::alloc::Global;
use std::marker::Model;
use std::sync::Arc;

/// The side that takes. It moves to a thread of its own.
#[derive(Drop)]
pub struct RingRx {
    pub(crate) table: Arc<RingTable, Global>,
    pub(crate) seat: RingSeat,
    pub(crate) take: Cursor,
}

impl Model for RingRx {
    ghost use Rattle.std.specs.Prelude.{◌≡◌};
    ghost use Rattle.std.specs.Arc.{arc_value};
    ghost use Rattle.fl_ring.specs.SharedSeats.{Receiver, receiver_of, IsSeated, IsReader};

    ghost Value = { Receiver };

    ghost view = { λ s. receiver_of s.seat };

    ghost invariant = { λ s. IsSeated (arc_value s.table).shared.table_id (arc_value s.table).shared.key s.seat × IsReader s.seat s.take.size s.take.index };
}

impl RingRx {
    /// The next fragment, which is left there. It is `Empty` only where this call's load found the
    /// other epoch in its slot.
    #[inline]
    pub fn try_peek(&mut self) -> Sight
        ensures look { ReceiverTakes self.old (peeked result) self.new }
        ensures exact { (frag : Frag) → result ≡ Sight.Data frag → self.new.peeked ≡ Some frag }
        ensures again { (frag : Frag) → front_seen self.old.peeked ≡ saw frag → peeked result ≡ saw frag }
        ensures again_acknowledged { front_seen self.old.peeked ≡ saw_ack → peeked result ≡ saw_ack }
        ensures front { peeked result ≡ front_seen self.new.peeked }
        ensures of_call { (frag : Frag) → result ≡ Sight.Data frag → is_ack_only frag ≡ false }
        ensures ring { self.new.ring ≡ self.old.ring }
    {
        let first = 8 * self.take.place();
        match peek_frag(&self.table.shared, &mut self.seat, first, self.take.epoch()) {
            None => Sight::Empty,
            Some(frag) => sight(frag),
        }
    }

    /// Takes the next fragment, the one that was peeked if one was. Its slot isn't free before it is
    /// told. It is `Empty` only where this call's load found the other epoch in its slot.
    #[inline]
    pub fn try_take(&mut self) -> Sight
        ensures look { ReceiverTakes self.old (taken result) self.new }
        ensures exact { (frag : Frag) → result ≡ Sight.Data frag → self.new.got ≡ self.old.got ++ frag ∷ [] }
        ensures data { (frag : Frag) → front_seen self.old.peeked ≡ saw frag → taken result ≡ found frag }
        ensures acknowledgement { front_seen self.old.peeked ≡ saw_ack → taken result ≡ found_ack }
        ensures ring { self.new.ring ≡ self.old.ring }
    {
        let first = 8 * self.take.place();
        match take_frag(&self.table.shared, &mut self.seat, first, self.take.epoch()) {
            None => Sight::Empty,
            Some(frag) => {
                self.take.advance();
                sight(frag)
            }
        }
    }

    /// Tells the writer what was taken: those slots are free then.
    #[inline]
    pub fn tell(&mut self)
        ensures told { self.new ≡ with_all_told self.old }
        ensures ring { self.new.ring ≡ self.old.ring }
    {
        let word = 8 * self.take.size();
        self.table
            .shared
            .store::<StoreTold>(&mut self.seat, word, self.take.index());
    }
}

impl TakeSide for RingRx {
    ghost takes = { ReceiverTakes };

    ghost front = { λ s. front_seen s.peeked };

    fn peek(&mut self) -> Sight {
        self.try_peek()
    }

    fn take(&mut self) -> Sight {
        self.try_take()
    }

    fn tell(&mut self) -> Result<Told, PutFault> {
        RingRx::tell(self);
        Ok(Told::Written)
    }
}
