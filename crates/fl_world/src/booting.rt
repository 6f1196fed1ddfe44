//! A world is booted: so many cores, and a set-up.

ghost use Rattle.std.specs.Prelude.{◌≡◌, true, [], ◌∷◌, map, IfOk, IfErr, OnOk};
ghost use Rattle.std.specs.List.{list_all};
ghost use Rattle.fl_model.specs.Views.{event_of, answer_of};
ghost use Rattle.fl_model.specs.State.{State};
ghost use Rattle.fl_model.specs.Step.{step};
ghost use Rattle.fl_world_refines.specs.ShowsState.{Shows};
ghost use Rattle.fl_world_refines.specs.Apart.{AllUnused, is_making, KeepsUnused};
ghost use Rattle.fl_world.specs.Booting.{config_by, config_of, Passes, Stands, AcceptsAll, IsFaultOf, number_of, StopsBy, StopsAt};
ghost use Rattle.fl_world.specs.Stepping.{fault_in};

use crate::world::World;
use fl_base::{MAX_CORES, faults};
use fl_model::{Answer, Event};
use fl_world_events::let_go;
use fl_world_refines::{Parts, law_fresh_world_shows};
use std::alloc::Global;
use thiserror::Error;

/// What a world is booted with.
#[derive(Drop)]
pub struct Config<'a> {
    /// How many cores there are at the start. The set-up may still set the number.
    pub cores: u8,
    /// What is done first, in order.
    pub setup: Vec<Event<'a>>,
}

/// Why there is no world.
#[derive(Clone, Copy, Debug, PartialEq, Eq, Error)]
pub enum BootFault {
    /// The event at this place, from 1, is refused, with the fault's number; at place 0 the number of cores.
    #[error("the set-up is refused")]
    Refused { number: u8, place: usize },
    /// Memory was refused.
    #[error("out of memory")]
    Memory,
}

impl BootFault {
    /// The fault's number, as answers show it: the refused event's own, 94 for the number of cores, or 99.
    pub fn number(self) -> u8
        ensures number { result ≡ number_of self }
    {
        match self {
            BootFault::Refused { number, .. } => number,
            BootFault::Memory => 99,
        }
    }
}

// The fault for which an event was refused.
fn fault_in(answer: &Answer) -> Option<u8>
    ensures fault { result ≡ fault_in (answer_of answer.now) }
{
    match answer {
        Answer::Refused(number) => Some(*number),
        _ => None,
    }
}

impl World {
    // Does the event of a set-up that has this place.
    fn set_up_one(&mut self, event: &Event<'_>, place: usize) -> Result<(), BootFault>
        ensures passes { OnOk result ((s : State) → Shows self.old s → Passes s (event_of event.now ∷ []) self.new) }
        ensures stops { IfErr result (λ fault. (s : State) → Shows self.old s → StopsAt place (step s (event_of event.now)) fault) }
        ensures unused { OnOk result (KeepsUnused (event_of event.now ∷ []) self.old self.new) }
    {
        let Ok(answer) = self.replay(event) else {
            return Err(BootFault::Memory);
        };
        match fault_in(&answer) {
            Some(number) => Err(BootFault::Refused { number, place }),
            None => Ok(()),
        }
    }

    // Does the events of a set-up, until one is refused.
    fn set_up(&mut self, events: &[Event<'_>]) -> Result<(), BootFault>
        ensures passes { OnOk result ((s : State) → Shows self.old s → Passes s (map event_of events.now) self.new) }
        ensures stops { IfErr result (λ fault. (s : State) → Shows self.old s → StopsBy s (map event_of events.now) fault) }
        ensures unused { OnOk result (KeepsUnused (map event_of events.now) self.old self.new) }
    {
        for (k, event) in events.iter().enumerate() {
            if let Err(fault) = self.set_up_one(event, k + 1) {
                return Err(fault);
            }
        }
        Ok(())
    }

    // Lets go of the world.
    fn end(self) {
        let World {
            alloc: _,
            may_set_cores: _,
            cores,
            dispatchers: _,
            rings,
            queues,
            programs,
            names,
            bindings,
            number: _,
        } = self;
        let_go(Parts {
            cores,
            rings,
            queues,
            programs,
            names,
            bindings,
        });
    }

    /// A world of so many cores, after these events. If they only make things, but no circuit, the world may be taken apart ([`World::into_parts`]).
    ///
    /// # Errors
    /// [`BootFault`]: 94 at place 0 where the number of cores isn't 1 to 16; else the first event that is refused; or out of memory.
    pub fn boot_by(alloc: Global, cores: u8, events: &[Event<'_>]) -> Result<World, BootFault>
        ensures stands { IfOk result (λ w. Stands (config_by cores events.now) w) }
        ensures refused { IfErr result (λ fault. IsFaultOf (config_by cores events.now) fault) }
        ensures unused { IfOk result (λ w. list_all is_making (map event_of events.now) ≡ true → AllUnused w.rings) }
    {
        let cores = u32::from(cores);
        if cores < 1 || cores as usize > MAX_CORES {
            return Err(BootFault::Refused {
                number: faults::TOO_MANY,
                place: 0,
            });
        }
        law_fresh_world_shows();
        let Ok(mut world) = World::with_cores(alloc, cores) else {
            return Err(BootFault::Memory);
        };
        match world.set_up(events) {
            Ok(()) => Ok(world),
            Err(fault) => {
                world.end();
                Err(fault)
            }
        }
    }

    /// Does these events on a world of its own, which is dropped then: whether a world of so many cores accepts them.
    ///
    /// # Errors
    /// As [`World::boot_by`].
    pub fn rehearse(alloc: Global, cores: u8, events: &[Event<'_>]) -> Result<(), BootFault>
        ensures accepted { OnOk result (AcceptsAll (config_by cores events.now)) }
        ensures refused { IfErr result (λ fault. IsFaultOf (config_by cores events.now) fault) }
    {
        match World::boot_by(alloc, cores, events) {
            Ok(world) => {
                world.end();
                Ok(())
            }
            Err(fault) => Err(fault),
        }
    }

    /// A world of a configuration, by [`World::boot_by`].
    ///
    /// # Errors
    /// As there.
    pub fn boot(alloc: Global, config: &Config<'_>) -> Result<World, BootFault>
        ensures stands { IfOk result (λ w. Stands (config_of config.now) w) }
        ensures refused { IfErr result (λ fault. IsFaultOf (config_of config.now) fault) }
        ensures unused { IfOk result (λ w. list_all is_making (config_of config.now).setup ≡ true → AllUnused w.rings) }
    {
        World::boot_by(alloc, config.cores, config.setup.as_slice())
    }
}
