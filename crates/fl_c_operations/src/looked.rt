//! A side of a ring, and the fragment that it has seen standing first: so who has looked lends it to an end, which doesn't look again.

ghost use Rattle.std.specs.Prelude.{◌≡◌, false, option_copied, Some, None, Err, OnOk};
ghost use Rattle.fl_base.specs.declared.fragment.Frag.{Frag};
ghost use Rattle.fl_base.specs.Control.{bare, is_ack_only};
ghost use Rattle.fl_link.specs.Looks.{placed, no_room, spent, saw, saw_ack, found, found_ack, peeked, taken};
ghost use Rattle.fl_ring.specs.SharedSeats.{front_seen};
ghost use Rattle.fl_ring.specs.SharedSides.{SharedPuts, SharedTakes};
ghost use Rattle.fl_c_operations.specs.Seen.{SeenTakes};

use fl_base::Frag;
use fl_link::{PutFault, Sight, TakeSide, Told};
use fl_ring::SharedSide;
use std::marker::Model;

/// A side, and the fragment of a call that it has seen standing first.
#[derive(Drop)]
pub(crate) struct LookedSide {
    pub(crate) side: SharedSide,
    seen: Option<Frag>,
}

impl Model for LookedSide {
    ghost use Rattle.std.specs.Coded.{codes};
    ghost use Rattle.fl_c_operations.specs.Seen.{TheLooked, IsSeen};

    ghost Value = { TheLooked };

    ghost coded = { Prim.hlevel codes };

    ghost view = { λ s. record { side = s.side; seen = s.seen } };

    ghost invariant = { λ s. IsSeen s.seen s.side };
}

impl LookedSide {
    // A side that has seen nothing.
    pub(crate) fn new(side: SharedSide) -> LookedSide
        ensures side { result.side ≡ side }
        ensures none { result.seen ≡ None }
    {
        LookedSide { side, seen: None }
    }

    // Forgets what was seen. Seldom anything was, so it is looked at first.
    #[inline(always)]
    pub(crate) fn forget(&mut self)
        ensures side { self.new.side ≡ self.old.side }
        ensures none { self.new.seen ≡ None }
    {
        if self.seen.is_some() {
            self.seen = None;
        }
    }

    // Puts a fragment that doesn't only acknowledge. What was seen stands there still.
    #[inline(always)]
    pub(crate) fn put(&mut self, frag: &Frag) -> Result<(), PutFault>
        requires { is_ack_only frag.now ≡ false }
        ensures placed { OnOk result (SharedPuts self.old.side (placed (bare frag.now)) self.new.side) }
        ensures full { result ≡ Err PutFault.Full → SharedPuts self.old.side no_room self.new.side }
        ensures spent { result ≡ Err PutFault.Spent → SharedPuts self.old.side spent self.new.side }
    {
        self.side.try_put(frag)
    }

    // Looks at what stands first, where nothing was seen.
    #[inline(always)]
    pub(crate) fn look(&mut self) -> Sight
        requires unseen { self.old.seen ≡ None }
        ensures look { SharedTakes self.old.side (peeked result) self.new.side }
        ensures none { self.new.seen ≡ None }
        ensures front { peeked result ≡ front_seen self.new.side.peeked }
        ensures of_call { (frag : Frag) → result ≡ Sight.Data frag → is_ack_only frag ≡ false }
    {
        self.side.try_peek()
    }

    // Keeps the fragment of a call that was looked at, which is told again to who looks next.
    #[inline(always)]
    pub(crate) fn keep(&mut self, frag: Frag)
        requires front { front_seen self.old.side.peeked ≡ saw (bare frag) }
        requires of_call { is_ack_only frag ≡ false }
        ensures side { self.new.side ≡ self.old.side }
        ensures seen { self.new.seen ≡ Some frag }
    {
        self.seen = Some(frag);
    }

    // Takes what was looked at, where it isn't kept.
    #[inline(always)]
    pub(crate) fn take_looked(&mut self) -> Sight
        requires unseen { self.old.seen ≡ None }
        ensures none { self.new.seen ≡ None }
        ensures look { SharedTakes self.old.side (taken result) self.new.side }
        ensures data { (frag : Frag) → front_seen self.old.side.peeked ≡ saw frag → taken result ≡ found frag }
        ensures acknowledgement { front_seen self.old.side.peeked ≡ saw_ack → taken result ≡ found_ack }
    {
        self.side.try_take()
    }

    // Takes what it has seen.
    #[inline(always)]
    pub(crate) fn take_seen(&mut self) -> Sight
        ensures look { SharedTakes self.old.side (taken result) self.new.side }
        ensures none { self.new.seen ≡ None }
        ensures data { (frag : Frag) → self.old.seen ≡ Some frag → taken result ≡ found (bare frag) }
    {
        self.seen = None;
        self.side.try_take()
    }

    // What it has seen.
    #[inline(always)]
    pub(crate) fn seen(&self) -> Option<&Frag>
        ensures seen { option_copied result ≡ self.now.seen }
    {
        self.seen.as_ref()
    }
}

impl TakeSide for LookedSide {
    ghost takes = { λ s look t. SeenTakes s.seen s.side look t.seen t.side };

    ghost front = { λ s. front_seen s.side.peeked };

    #[inline(always)]
    fn peek(&mut self) -> Sight {
        match self.seen {
            Some(frag) => Sight::Data(frag),
            None => self.side.try_peek(),
        }
    }

    #[inline(always)]
    fn take(&mut self) -> Sight {
        self.seen = None;
        self.side.try_take()
    }

    #[inline(always)]
    fn tell(&mut self) -> Result<Told, PutFault> {
        self.seen = None;
        self.side.tell()
    }
}
