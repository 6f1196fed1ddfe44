//! A world is taken apart, so that its cores may run on threads of their own.

ghost use Rattle.std.specs.Prelude.{◌≤◌, length};
ghost use Rattle.fl_world_refines.specs.Apart.{AllUnused, AreParts};

use crate::world::World;
use fl_world_refines::Parts;

impl World {
    /// The world's parts, before anything was put on a ring: so each ring may be any other that is new and of its size.
    pub fn into_parts(self) -> Parts
        requires unused { AllUnused self.rings }
        ensures parts { AreParts self result }
        ensures unused { AllUnused result.rings.items }
        ensures few { length result.cores.items ≤ 16 }
    {
        let World {
            alloc: _,
            may_set_cores: _,
            cores,
            dispatchers: _,
            rings,
            queues,
            programs,
            names,
            bindings,
            number: _,
        } = self;
        Parts {
            cores,
            rings,
            queues,
            programs,
            names,
            bindings,
        }
    }
}
