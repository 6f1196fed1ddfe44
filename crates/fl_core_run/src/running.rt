//! A core that runs.

ghost use Rattle.std.specs.Prelude.{◌≡◌, ◌<◌, length, Some, IfSome, OnOk, OnErr};
ghost use Rattle.fl_core_run.specs.Run.{run_by};
ghost use Rattle.fl_core_run.specs.LogEntries.{IsSound, IsSoundAt};
ghost use Rattle.fl_core_run.specs.EndProgress.{progress_place};
ghost use Rattle.fl_core_run.specs.Inside.{OfPlace};
ghost use Rattle.fl_core_run.specs.Turn.{OneTurn};
ghost use Rattle.fl_core_run.specs.Stops.{PartOfTurn};
ghost use Rattle.fl_core_run.specs.Accepted.{count_waiting};

use crate::core_sides::CoreSides;
use crate::dispatchers::turn_all;
use crate::end_progress::{EndProgress, find};
use crate::ends::{ack_all, serve_all};
use crate::links::{forward_all, say_all, tell_all};
use crate::plan::TurnPlan;
use fl_base::EndId;
use fl_compile::Program;
use fl_core::{Core, CoreJob, in_own_memory};
use fl_hop::law_never_shared;
use fl_link::QueueLink;
use fl_nameserv::Names;
use std::alloc::{AllocError, Global};

/// A core with all that its thread works on.
#[derive(Drop)]
pub struct RunningCore<S> {
    pub alloc: Global,
    pub core: Core,
    /// Its sides of rings, by the numbers by which the core names them.
    pub rings: S,
    /// Its local queues, likewise.
    pub queues: Vec<QueueLink>,
    /// The end's progress of each end, by name: that of the client of binding b at 2 b, that of its server at 2 b + 1.
    pub progresses: Vec<EndProgress>,
    /// The core's copy of the table of names.
    pub names: Names,
    /// The programs of the services' interfaces, by their places.
    pub programs: Vec<Program>,
    /// How many turns on end found nothing to do: after those the core pauses. No clause speaks of it.
    pub idle: u32,
}

// What is known of its core, and of its sides, at any time. It does nothing.
pub(crate) fn law_sound<S: CoreSides>(run: &RunningCore<S>)
    ensures sound { IsSound run.now.core }
    ensures whole { S.ways.whole (S.states run.now.rings) }
{
    run.core.law_sound();
    law_never_shared(run.core.monitor().circuits());
    run.rings.shows();
}

// What is known of the end at a place at any time. It does nothing.
pub(crate) fn law_sound_at<S: CoreSides>(run: &RunningCore<S>, e: usize)
    requires there { e < length run.now.core.board.seats }
    ensures sound { OfPlace (Some e) (run_by S.states run.now) (λ name. IsSoundAt (run_by S.states run.now) name) }
{
    run.core.board().law_end_sound(e);
}

impl<S: CoreSides> RunningCore<S> {
    // Where the progress of an end is, if it has one. Nothing is searched.
    #[inline(always)]
    pub(crate) fn progress_of(&self, name: EndId) -> Option<usize>
        ensures place { result ≡ progress_place self.now.progresses.items name }
        ensures within { IfSome result (λ n. n < length self.now.progresses.items) }
    {
        find(&self.progresses, name)
    }

    /// How many replies wait at an end; none where it isn't at this core.
    pub fn replies_waiting(&self, name: EndId) -> usize
        ensures waiting { result ≡ count_waiting (run_by S.states self.now) name }
    {
        match self.core.place(name) {
            None => 0,
            Some(e) => self.core.board().end(e).replies_waiting(),
        }
    }
}

impl<S: CoreSides> RunningCore<S> {
    /// What its turns write is moved into memory that is asked for now, but for its sides; where there is none, it stays where it is. A core's thread calls
    /// this as it starts. One thread made all cores, so what one core writes lies beside what another reads, and the two would wait for each other; memory
    /// that a thread asks for is its own.
    pub fn take_own_memory(&mut self)
        ensures same { run_by S.states self.new ≡ run_by S.states self.old }
        ensures rings { self.new.rings ≡ self.old.rings }
    {
        self.core.take_own_memory();
        in_own_memory(self.alloc, &mut self.progresses);
    }

    /// One turn: a forward for each link, a monitor write for each link, for each end its next job where that can be done and one write, a turn for
    /// each dispatcher, an acknowledgement for each link and each end of a ring. It takes no memory but where a call is made or becomes whole, a circuit is
    /// begun, or a monitors' message is heard at which something is said.
    ///
    /// # Errors
    /// Out of memory, only where one of these would be done. The turn wasn't finished then: what of it was done is told.
    pub fn turn(&mut self, plan: &TurnPlan, jobs: &[CoreJob]) -> Result<(), AllocError>
        ensures turn { OnOk result (OneTurn S.ways plan.now jobs.now
            (run_by S.states self.old) (run_by S.states self.new)) }
        ensures part { OnErr result (PartOfTurn S.ways plan.now jobs.now
            (run_by S.states self.old) (run_by S.states self.new)) }
    {
        self.idle = self.idle.saturating_add(1);
        forward_all(self, &plan.links)?;
        say_all(self, &plan.links);
        serve_all(self, &plan.ends, jobs)?;
        turn_all(self, jobs, plan.dispatchers)?;
        tell_all(self, &plan.links);
        ack_all(self, &plan.ends);
        Ok(())
    }
}
