//! One side of a ring of two directions, lent.

ghost use Rattle.std.specs.Prelude.{◌≡◌, ◌≢◌, ◌%◌, false, Ok, Err, OnOk};
ghost use Rattle.fl_base.specs.declared.fragment.Frag.{Frag};
ghost use Rattle.fl_base.specs.Control.{is_ack_only};
ghost use Rattle.fl_link.specs.Looks.{placed, no_room, spent, peeked, taken, tells};
ghost use Rattle.fl_link.specs.Cursor.{epoch_at};
ghost use Rattle.fl_link.specs.Queue.{front_of};
ghost use Rattle.fl_ring.specs.Duo.{half_has_room, side_of, got};
ghost use Rattle.fl_ring.specs.Side.{SidePuts, SideTakes};

use crate::one_duo::{OneDuo, WhichSide};
use fl_base::Frag;
use fl_link::{PutFault, PutSide, Sight, TakeSide, Told};

/// A side of a [`OneDuo`]: it puts into one direction and takes from the other.
#[derive(Drop)]
pub struct DuoSide<'a> {
    pub(crate) duo: &'a mut OneDuo,
    pub(crate) which: WhichSide,
}

impl OneDuo {
    /// The side of this name, for as long as it is lent.
    #[inline]
    pub fn side(&mut self, which: WhichSide) -> DuoSide<'_>
        ensures same { result.duo.ghost_name ≡ self.entry.ghost_name }
        ensures ring { result.duo.now ≡ self.old }
        ensures side { result.which ≡ which }
    {
        DuoSide { duo: self, which }
    }
}

impl PutSide for DuoSide<'_> {
    ghost puts = { SidePuts };

    ghost has_room = { λ s. half_has_room s.duo.now.size (side_of s.which s.duo.now) };

    ghost epoch_of = { λ s. epoch_at s.duo.now.size (side_of s.which s.duo.now).sent };

    ghost told_of = { λ s. got (side_of s.which s.duo.now) % 65536 };

    ghost known_of = { λ s. (side_of s.which s.duo.now).known };

    #[inline]
    fn room(&self) -> bool {
        self.duo.room(self.which)
    }

    #[inline]
    fn put(&mut self, frag: &Frag) -> Result<(), PutFault> {
        self.duo.put(self.which, frag)
    }

    #[inline]
    fn next_epoch(&self) -> u64 {
        self.duo.next_epoch(self.which)
    }

    #[inline]
    fn next_told(&self) -> u16 {
        self.duo.next_told(self.which)
    }

    #[inline]
    fn known(&self) -> u64 {
        self.duo.known(self.which)
    }
}

impl TakeSide for DuoSide<'_> {
    ghost takes = { SideTakes };

    ghost front = { λ s. front_of (side_of s.which s.duo.now).waiting };

    #[inline(always)]
    fn peek(&mut self) -> Sight {
        self.duo.peek(self.which)
    }

    #[inline(always)]
    fn take(&mut self) -> Sight {
        self.duo.take(self.which)
    }

    #[inline]
    fn tell(&mut self) -> Result<Told, PutFault> {
        self.duo.tell(self.which)
    }
}
