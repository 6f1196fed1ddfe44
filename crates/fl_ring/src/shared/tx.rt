//! The side of a ring that puts.

ghost use Rattle.std.specs.Prelude.{◌≡◌, ◌<◌, length, Ok, Err, OnOk};
ghost use Rattle.fl_base.specs.Control.{bare};
ghost use Rattle.fl_link.specs.Cursor.{epoch_at};
ghost use Rattle.fl_link.specs.Looks.{placed, no_room, spent};
ghost use Rattle.fl_ring.specs.SharedSeats.{SenderGains, SenderPuts, sender_has_room};

use crate::shared::board::{RingSeat, RingTable};
use crate::shared::writes::{has_room, put_frag};
use fl_base::Frag;
use fl_link::{Cursor, PutFault, PutSide, SPENT};
use std::alloc::Global;
use std::marker::Model;
use std::sync::Arc;

/// The side that puts. It moves to a thread of its own.
#[derive(Drop)]
pub struct RingTx {
    pub(crate) table: Arc<RingTable, Global>,
    pub(crate) seat: RingSeat,
    pub(crate) put: Cursor,
    // how many of its fragments it knows to be read and told
    pub(crate) known: u64,
}

impl Model for RingTx {
    ghost use Rattle.std.specs.Prelude.{◌≡◌};
    ghost use Rattle.std.specs.Arc.{arc_value};
    ghost use Rattle.fl_ring.specs.SharedSeats.{Sender, sender_of, IsSeated, IsWriter};

    ghost Value = { Sender };

    ghost view = { λ s. sender_of s.seat };

    ghost invariant = { λ s. IsSeated (arc_value s.table).shared.table_id (arc_value s.table).shared.key s.seat
        × IsWriter s.seat s.put.size s.put.index s.known };
}

impl RingTx {
    /// Puts the fragment, with the epoch due and telling nothing.
    ///
    /// # Errors
    /// The side has put 2^62 fragments (E33). Else a look at the number told has shown that no slot is free
    /// (E30): nothing was put, and the side knows that number.
    #[inline(always)]
    pub fn try_put(&mut self, frag: &Frag) -> Result<(), PutFault>
        ensures placed { OnOk result (SenderGains self.old (bare frag.now) self.new) }
        ensures full { result ≡ Err PutFault.Full → SenderPuts self.old no_room self.new }
        ensures spent { result ≡ Err PutFault.Spent → SenderPuts self.old spent self.new }
        ensures ring { self.new.ring ≡ self.old.ring }
    {
        let index = self.put.index();
        if index == SPENT {
            return Err(PutFault::Spent);
        }
        let top = &self.table.shared;
        if !has_room(top, &mut self.seat, self.put.size(), index, &mut self.known) {
            return Err(PutFault::Full);
        }
        let stamped = frag.stamp(self.put.epoch(), 0);
        put_frag(top, &mut self.seat, 8 * self.put.place(), &stamped);
        self.put.advance();
        Ok(())
    }

    /// Whether a put would find room, by what this side knows.
    pub fn room(&self) -> bool
        ensures room { result ≡ sender_has_room self.now }
    {
        let index = self.put.index();
        index < SPENT && index < self.known + self.put.size() as u64
    }

    /// The epoch bit of the fragment that is put next.
    pub fn next_epoch(&self) -> u64
        ensures epoch { result ≡ epoch_at self.now.size (length self.now.sent) }
        ensures bit { result < 2 }
    {
        self.put.epoch()
    }

    /// How many of its fragments this side knows to be read and told.
    pub fn known(&self) -> u64
        ensures known { result ≡ self.now.known }
    {
        self.known
    }
}

impl PutSide for RingTx {
    ghost puts = { SenderPuts };

    ghost has_room = { sender_has_room };

    ghost epoch_of = { λ s. epoch_at s.size (length s.sent) };

    ghost told_of = { λ _. 0 };

    ghost known_of = { λ s. s.known };

    fn room(&self) -> bool {
        RingTx::room(self)
    }

    fn put(&mut self, frag: &Frag) -> Result<(), PutFault> {
        self.try_put(frag)
    }

    fn next_epoch(&self) -> u64 {
        RingTx::next_epoch(self)
    }

    fn next_told(&self) -> u16 {
        0
    }

    fn known(&self) -> u64 {
        RingTx::known(self)
    }
}
