//! Two streams, one each way, as one side.

ghost use Rattle.fl_stream.specs.Steps.{SidePuts, SideTakes, front_of, sender_has_room};

use crate::rx::StreamRx;
use crate::tx::StreamTx;
use fl_base::Frag;
use fl_link::{PutFault, PutSide, Sight, TakeSide, Told};

/// A side of two streams: it puts into one and takes from the other, so it is a whole link.
#[derive(Drop)]
pub struct StreamSide {
    /// Where it puts.
    pub tx: StreamTx,
    /// Where it takes.
    pub rx: StreamRx,
}

impl PutSide for StreamSide {
    ghost puts = { λ s look t. SidePuts s.tx s.rx look t.tx t.rx };

    ghost has_room = { λ s. sender_has_room s.tx };

    ghost epoch_of = { λ _. 0 };

    ghost told_of = { λ _. 0 };

    ghost known_of = { λ _. 0 };

    #[inline]
    fn room(&self) -> bool {
        self.tx.room()
    }

    #[inline]
    fn put(&mut self, frag: &Frag) -> Result<(), PutFault> {
        self.tx.try_put(frag)
    }

    #[inline]
    fn next_epoch(&self) -> u64 {
        0
    }

    #[inline]
    fn next_told(&self) -> u16 {
        0
    }

    #[inline]
    fn known(&self) -> u64 {
        0
    }
}

impl TakeSide for StreamSide {
    ghost takes = { λ s look t. SideTakes s.tx s.rx look t.tx t.rx };

    ghost front = { λ s. front_of s.rx.seen };

    #[inline]
    fn peek(&mut self) -> Sight {
        self.rx.try_peek()
    }

    #[inline]
    fn take(&mut self) -> Sight {
        self.rx.try_take()
    }

    #[inline]
    fn tell(&mut self) -> Result<Told, PutFault> {
        Ok(self.rx.tell())
    }
}
