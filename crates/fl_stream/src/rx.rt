//! The side of a stream that takes.

ghost use Rattle.std.specs.Prelude.{◌≡◌, ◌≢◌, ◌++◌, ◌∷◌, [], Ok, Err};
ghost use Rattle.fl_base.specs.declared.fragment.Frag.{Frag};
ghost use Rattle.fl_base.specs.Control.{is_ack_only};
ghost use Rattle.fl_link.specs.Looks.{saw, saw_ack, found, found_ack, peeked, taken, tells};
ghost use Rattle.fl_stream.specs.Steps.{Fills, StreamTakes, front_of};

use crate::plain::{PlainFrags, is_plain};
use fl_base::Frag;
use fl_link::{PutFault, Sight, TakeSide, Told};
use rtrb::Consumer;
use std::alloc::Global;
use std::marker::Model;

/// The side that takes. It moves to a thread of its own.
#[derive(Drop)]
pub struct StreamRx {
    pub(crate) consumer: Consumer<Frag, Global, PlainFrags>,
}

impl Model for StreamRx {
    ghost use Rattle.fl_stream.specs.Sides.{TheReceiver, receiver_of};

    ghost Value = { TheReceiver };

    ghost view = { λ s. receiver_of s.consumer };
}

impl StreamRx {
    /// The other side's next fragment, which is left there. It is never `Acknowledgement`.
    #[inline]
    pub fn try_peek(&mut self) -> Sight
        ensures look { StreamTakes self.old (peeked result) self.new }
        ensures front { peeked result ≡ front_of self.new.seen }
        ensures stream { self.new.stream ≡ self.old.stream }
    {
        if self.consumer.is_empty() {
            return Sight::Empty;
        }
        let frag = *self.consumer.peek_known();
        if !is_plain(&frag) {
            self.consumer.pop_known();
            unreachable!()
        }
        Sight::Data(frag)
    }

    /// Takes the other side's next fragment: its slot is free then. It is never `Acknowledgement`.
    #[inline(always)]
    pub fn try_take(&mut self) -> Sight
        ensures look { StreamTakes self.old (taken result) self.new }
        ensures exact { (frag : Frag) → result ≡ Sight.Data frag → self.new.got ≡ self.old.got ++ frag ∷ [] }
        ensures stream { self.new.stream ≡ self.old.stream }
    {
        match self.consumer.pop() {
            Ok(frag) => Sight::Data(frag),
            Err(_) => Sight::Empty,
        }
    }

    /// Takes as many of the other side's next fragments as wait and `out` has places for, by one step: their
    /// slots are all free then. It answers how many; they stand in `out`'s first places.
    #[inline]
    pub fn take_all(&mut self, out: &mut [Frag]) -> usize
        ensures fills { Fills self.old result out.old out.new self.new }
        ensures stream { self.new.stream ≡ self.old.stream }
    {
        self.consumer.pop_partial_slice(out)
    }

    /// Nothing: what was taken is free already. It is there because a side that takes has it.
    #[inline]
    pub fn tell(&mut self) -> Told
        ensures same { self.new ≡ self.old }
        ensures nothing { result ≡ Told.Nothing }
    {
        Told::Nothing
    }
}

impl TakeSide for StreamRx {
    ghost takes = { StreamTakes };

    ghost front = { λ s. front_of s.seen };

    #[inline]
    fn peek(&mut self) -> Sight {
        self.try_peek()
    }

    #[inline]
    fn take(&mut self) -> Sight {
        self.try_take()
    }

    #[inline]
    fn tell(&mut self) -> Result<Told, PutFault> {
        Ok(StreamRx::tell(self))
    }
}
