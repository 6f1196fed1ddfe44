//! What stands first on a link is looked at, and moves.

ghost use Rattle.std.specs.Prelude.{◌≡◌, ◌<◌, false, length, IfErr};
ghost use Rattle.fl_base.specs.Control.{is_ack_only, with_circuit};
ghost use Rattle.fl_world_refines.specs.View.{ring_at};
ghost use Rattle.fl_world_refines.specs.Lending.{OverSide};
ghost use Rattle.fl_world_refines.specs.Linking.{LooksWith, incoming, HearsWith, ArrivesWith, offers_in};
ghost use Rattle.fl_model.specs.Views.{brief_of};
ghost use Rattle.fl_world_events.specs.Places.{HasLink};
ghost use Rattle.fl_world_events.specs.Passing.{StandsAt};
ghost use Rattle.fl_core.specs.Links.{inbound};
ghost use Rattle.fl_world.specs.Hearing.{WouldSay};

use crate::world::World;
use fl_base::{EndId, Frag};
use fl_core::{LinkFront, LinkReceiveFault, MonitorAnswer};
use fl_model::BriefAnswer;
use fl_world_events::{LinkWithSide, arrive_by_ring, hear_by_ring, look_by_ring, ring_at};

// ---- in a world

impl World {
    // A core looks at what stands first on a link.
    pub(crate) fn look(&mut self, n: usize, at: LinkWithSide) -> Result<LinkFront, LinkReceiveFault>
        requires link { HasLink self.old.cores n at.link.0 }
        requires ring { ring_at at.side < length self.old.rings }
        ensures looks { OverSide self.old n at.side (LooksWith at.link.0 result) self.new }
    {
        let ring = &mut self.rings[ring_at(at.side)];
        look_by_ring(&mut self.cores[n], at, ring)
    }

    // What stands first, and was seen, arrives for an end of the core. In line, as all that makes a forward's answer: from a function
    // out of line it is moved on, and each move waits for the stores of the one before.
    #[inline(always)]
    pub(crate) fn arrive(
        &mut self,
        n: usize,
        at: LinkWithSide,
        frag: &Frag,
        name: EndId,
    ) -> BriefAnswer
        requires link { HasLink self.old.cores n at.link.0 }
        requires ring { ring_at at.side < length self.old.rings }
        requires seen { StandsAt self.old.rings at.side frag.now }
        requires call { is_ack_only (with_circuit 0 frag.now) ≡ false }
        ensures arrives { OverSide self.old n at.side (ArrivesWith (inbound at.link.0 frag.now name) (brief_of result)) self.new }
    {
        let ring = &mut self.rings[ring_at(at.side)];
        arrive_by_ring(&mut self.cores[n], at, ring, frag, name)
    }

    // What stands first, and was seen, is heard.
    pub(crate) fn hear(
        &mut self,
        n: usize,
        at: LinkWithSide,
        frag: &Frag,
    ) -> Result<MonitorAnswer, LinkReceiveFault>
        requires link { HasLink self.old.cores n at.link.0 }
        requires ring { ring_at at.side < length self.old.rings }
        requires seen { StandsAt self.old.rings at.side frag.now }
        ensures hears { OverSide self.old n at.side (HearsWith (incoming (offers_in self.old) at.link frag.now) result) self.new }
        ensures last { IfErr result (λ fault. WouldSay n at.link frag.now fault self.old) }
    {
        let ring = &mut self.rings[ring_at(at.side)];
        hear_by_ring(
            &mut self.cores[n],
            at,
            ring,
            frag,
            &self.names,
            self.programs.as_slice(),
        )
    }
}
