//! Where ends and links are.

ghost use Rattle.std.specs.Prelude.{◌≡◌, IfSome};
ghost use Rattle.std.specs.Option.{option_map};
ghost use Rattle.fl_world_refines.specs.View.{location_of, has_dispatcher};
ghost use Rattle.fl_world_refines.specs.Linking.{link_side_to};
ghost use Rattle.fl_model.specs.Views.{id_of};
ghost use Rattle.fl_world_events.specs.Places.{location_from, IsThere, link_side_from, HasLink};

use crate::world::World;
use fl_base::{CoreId, EndId};
use fl_model::DispatcherId;
use fl_world_events::{EndLocation, LinkWithSide, link_side_at, location_at};
use fl_world_refines::core_in;

impl World {
    /// Where the end of a name is. Nothing is searched.
    #[inline(always)]
    pub(crate) fn location(&self, e: EndId) -> EndLocation
        ensures location { location_from result ≡ location_of self.now e }
        ensures there { IsThere self.now.cores result }
    {
        match self.bindings.get(e.binding) {
            None => EndLocation::Nowhere,
            Some(binding) => location_at(self.cores.as_slice(), core_in(e.side, binding), e),
        }
    }

    /// A core's end of its link to a neighbour, if there is such a link.
    #[inline(always)]
    pub(crate) fn link_side(&self, core: u32, neighbour: u32) -> Option<LinkWithSide>
        ensures link_side { option_map link_side_from result ≡ link_side_to self.now core neighbour }
        ensures there { IfSome result (λ at. HasLink self.now.cores core at.link.0) }
    {
        if neighbour > 255 {
            return None;
        }
        link_side_at(
            self.cores.as_slice(),
            core as usize,
            CoreId(neighbour as u8),
        )
    }

    /// Whether there is such a dispatcher.
    #[inline(always)]
    pub(crate) fn has_dispatcher(&self, d: DispatcherId) -> bool
        ensures has { result ≡ has_dispatcher self.now (id_of d) }
    {
        match self.cores.get(d.core as usize) {
            None => false,
            Some(core) => d.place < core.board().dispatchers(),
        }
    }
}
