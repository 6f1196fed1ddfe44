//! The side of a stream that puts.

ghost use Rattle.std.specs.Prelude.{◌≡◌, ◌≢◌, ◌<◌, Ok, Err, OnOk, length, true, false};
ghost use Rattle.fl_base.specs.Control.{is_ack_only, bare};
ghost use Rattle.fl_link.specs.Looks.{placed, no_room, spent};
ghost use Rattle.fl_stream.specs.Plain.{all_plain};
ghost use Rattle.fl_stream.specs.Steps.{Sends, LacksRoom, StreamPuts, sender_has_room};

use crate::plain::PlainFrags;
use fl_base::Frag;
use fl_link::{PutFault, PutSide};
use rtrb::Producer;
use std::alloc::Global;
use std::marker::Model;

/// The side that puts. It moves to a thread of its own.
#[derive(Drop)]
pub struct StreamTx {
    pub(crate) producer: Producer<Frag, Global, PlainFrags>,
}

impl Model for StreamTx {
    ghost use Rattle.fl_stream.specs.Sides.{TheSender, sender_of};

    ghost Value = { TheSender };

    ghost view = { λ s. sender_of s.producer };
}

impl StreamTx {
    /// Puts the fragment, with epoch 0 and nothing told. The fragment isn't one that only acknowledges.
    ///
    /// # Errors
    /// No slot is known to be free, also after a look at what the other side took (E30, never E33): nothing
    /// was put.
    #[inline(always)]
    pub fn try_put(&mut self, frag: &Frag) -> Result<(), PutFault>
        requires { is_ack_only frag.now ≡ false }
        ensures placed { OnOk result (StreamPuts self.old (placed (bare frag.now)) self.new) }
        ensures full { result ≡ Err PutFault.Full → StreamPuts self.old no_room self.new }
        ensures never_spent { result ≢ Err PutFault.Spent }
        ensures stream { self.new.stream ≡ self.old.stream }
    {
        if self.producer.is_full() {
            return Err(PutFault::Full);
        }
        self.producer.push_reserved(frag.bare());
        Ok(())
    }

    /// Puts all of these fragments, in order, by one step: a side that takes sees all of them or none. They
    /// are plain ([`crate::is_plain`]), and go as they are.
    ///
    /// # Errors
    /// Fewer slots than there are fragments are known to be free, also after a look at what the other side
    /// took (E30, never E33): nothing was put. So it is whenever they are more than the stream has slots.
    #[inline]
    pub fn put_all(&mut self, frags: &[Frag]) -> Result<(), PutFault>
        requires { all_plain frags.now ≡ true }
        ensures placed { OnOk result (Sends self.old frags.now self.new) }
        ensures full { result ≡ Err PutFault.Full → LacksRoom (length frags.now) self.old self.new }
        ensures never_spent { result ≢ Err PutFault.Spent }
        ensures stream { self.new.stream ≡ self.old.stream }
    {
        match self.producer.push_entire_slice(frags) {
            Ok(()) => Ok(()),
            Err(_) => Err(PutFault::Full),
        }
    }

    /// Whether a put would find room, by what this side knows.
    #[inline]
    pub fn room(&self) -> bool
        ensures room { result ≡ sender_has_room self.now }
    {
        self.producer.cached_slots() > 0
    }
}

impl PutSide for StreamTx {
    ghost puts = { StreamPuts };

    ghost has_room = { sender_has_room };

    ghost epoch_of = { λ _. 0 };

    ghost told_of = { λ _. 0 };

    ghost known_of = { λ _. 0 };

    #[inline]
    fn room(&self) -> bool {
        StreamTx::room(self)
    }

    #[inline]
    fn put(&mut self, frag: &Frag) -> Result<(), PutFault> {
        self.try_put(frag)
    }

    #[inline]
    fn next_epoch(&self) -> u64 {
        0
    }

    #[inline]
    fn next_told(&self) -> u16 {
        0
    }

    #[inline]
    fn known(&self) -> u64 {
        0
    }
}
