//! Events of links.

ghost use Rattle.std.specs.Prelude.{◌⊎◌};
ghost use Rattle.fl_world_refines.specs.View.{ring_at};
ghost use Rattle.fl_world_refines.specs.Lending.{OverSide, IsStray};
ghost use Rattle.fl_world_refines.specs.Linking.{MonitorWritesWith, WritesMessage, AcksLinkWith, AcksLink};
ghost use Rattle.fl_model.specs.Views.{answer_of};
ghost use Rattle.fl_world_events.specs.Places.{HasLink};

use crate::world::World;
use fl_base::faults;
use fl_model::Answer;
use fl_world_events::{LinkWithSide, monitor_ack_by_ring, monitor_write_by_ring, ring_at};

// ---- the monitor writes

impl World {
    /// A core's monitor writes the message that waits first for its link to a neighbour.
    #[inline(never)]
    pub(crate) fn monitor_write(&mut self, core: u32, neighbour: u32) -> Answer
        ensures writes { WritesMessage core neighbour self.old (answer_of result) self.new }
    {
        match self.link_side(core, neighbour) {
            None => Answer::Refused(faults::NO_SUCH_ROUTE),
            Some(at) => self.write_over(core as usize, at),
        }
    }

    fn write_over(&mut self, n: usize, at: LinkWithSide) -> Answer
        requires link { HasLink self.old.cores n at.link.0 }
        ensures writes { OverSide self.old n at.side (MonitorWritesWith at.link.0 (answer_of result)) self.new
            ⊎ IsStray self.old.rings (ring_at at.side) self.old (answer_of result) self.new }
    {
        let Some(ring) = self.rings.get_mut(ring_at(at.side)) else {
            return Answer::Nothing;
        };
        monitor_write_by_ring(&mut self.cores[n], at.link, ring, at.side)
    }

    /// A core tells what was taken on its link to a neighbour.
    #[inline(never)]
    pub(crate) fn monitor_ack(&mut self, core: u32, neighbour: u32) -> Answer
        ensures acks { AcksLink core neighbour self.old (answer_of result) self.new }
    {
        match self.link_side(core, neighbour) {
            None => Answer::Refused(faults::NO_SUCH_ROUTE),
            Some(at) => self.ack_over(core as usize, at),
        }
    }

    fn ack_over(&mut self, n: usize, at: LinkWithSide) -> Answer
        requires link { HasLink self.old.cores n at.link.0 }
        ensures acks { OverSide self.old n at.side (AcksLinkWith (answer_of result)) self.new
            ⊎ IsStray self.old.rings (ring_at at.side) self.old (answer_of result) self.new }
    {
        let Some(ring) = self.rings.get_mut(ring_at(at.side)) else {
            return Answer::Nothing;
        };
        monitor_ack_by_ring(&self.cores[n], at.link, ring, at.side)
    }
}
