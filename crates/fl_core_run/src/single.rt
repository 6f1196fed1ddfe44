//! What a turn is made of, one by one; and a core over other sides.

ghost use Rattle.std.specs.Prelude.{◌≡◌, OnOk, OnErr};
ghost use Rattle.fl_core_run.specs.Run.{run_by, with_rings, next_job, lent_link_side, lent_post};
ghost use Rattle.fl_core_run.specs.Single.{TellsDue};
ghost use Rattle.fl_core_run.specs.Steps.{Forwards, Says, Tells, Tries, WritesFrom, TakesTurn, Acknowledges};
ghost use Rattle.fl_core_run.specs.Stops.{LeavesMessage, LeavesJob, LeavesTurn};

use crate::core_sides::CoreSides;
use crate::dispatchers::{awaits, turn};
use crate::ends::{ack, try_job, write};
use crate::lent::{LentTakeEnd, lent_due, lent_link_side};
use crate::links::{forward, say, tell};
use crate::running::RunningCore;
use fl_base::{EndId, LinkId};
use fl_core::CoreJob;
use std::alloc::AllocError;

impl<R> RunningCore<R> {
    /// The core over other sides, and those that it had.
    pub fn with_rings<Q>(self, rings: Q) -> (RunningCore<Q>, R)
        ensures over { result.0 ≡ with_rings rings self }
        ensures had { result.1 ≡ self.rings }
    {
        let core = RunningCore {
            alloc: self.alloc,
            core: self.core,
            rings,
            queues: self.queues,
            progresses: self.progresses,
            names: self.names,
            programs: self.programs,
            idle: self.idle,
        };
        (core, self.rings)
    }
}

impl<S: CoreSides> RunningCore<S> {
    /// The side of a link, where the core has it.
    pub fn side_of(&self, link: LinkId) -> Option<usize>
        ensures side { result ≡ lent_link_side (run_by S.states self.now) link }
    {
        lent_link_side(self, link)
    }

    /// The end at which a dispatcher's turn looks, and where that takes; none where no end is due or it is to
    /// wait.
    pub fn due(&self, jobs: &[CoreJob], dispatcher: usize) -> Option<LentTakeEnd>
        ensures due { TellsDue jobs.now (run_by S.states self.now) dispatcher result }
    {
        let Some(at) = lent_due(self, dispatcher) else {
            return None;
        };
        let name = self.core.name(at.end);
        let progress = self.progress_of(name);
        if awaits(self, jobs, progress) {
            return None;
        }
        Some(at)
    }

    /// A forward for a link.
    ///
    /// # Errors
    /// Out of memory, only where a monitors' message would be heard and something said. It is left there.
    pub fn forward(&mut self, link: LinkId) -> Result<(), AllocError>
        ensures forwards { OnOk result (Forwards S.ways link
            (run_by S.states self.old) (run_by S.states self.new)) }
        ensures left { OnErr result (LeavesMessage S.ways link
            (run_by S.states self.old) (run_by S.states self.new)) }
    {
        forward(self, link)
    }

    /// A monitor write for a link.
    pub fn say(&mut self, link: LinkId)
        ensures says { Says S.ways link (run_by S.states self.old) (run_by S.states self.new) }
    {
        say(self, link);
    }

    /// The next job of an end, where that can be done.
    ///
    /// # Errors
    /// Out of memory, only where the job would be done. Nothing has happened then.
    pub fn try_job(&mut self, jobs: &[CoreJob], name: EndId) -> Result<(), AllocError>
        ensures tries { OnOk result (Tries S.ways name
            (next_job jobs.now (run_by S.states self.old) name) (run_by S.states self.old) (run_by S.states self.new)) }
        ensures kept { OnErr result (run_by S.states self.new ≡ run_by S.states self.old) }
        ensures left { OnErr result (LeavesJob jobs.now name (run_by S.states self.old) (run_by S.states self.new)) }
    {
        try_job(self, jobs, name)?;
        Ok(())
    }

    /// A write of an end.
    pub fn write(&mut self, name: EndId)
        ensures writes { WritesFrom S.ways name (lent_post (run_by S.states self.old) name)
            (run_by S.states self.old) (run_by S.states self.new) }
    {
        let place = self.core.place(name);
        write(self, place);
    }

    /// A turn of a dispatcher.
    ///
    /// # Errors
    /// Out of memory, only where a call is or would be handled. The end that is due left the fragment that it saw, or its progress doesn't have the call.
    pub fn turn_of(&mut self, jobs: &[CoreJob], dispatcher: usize) -> Result<(), AllocError>
        ensures turns { OnOk result (TakesTurn S.ways jobs.now dispatcher
            (run_by S.states self.old) (run_by S.states self.new)) }
        ensures left { OnErr result (LeavesTurn S.ways jobs.now dispatcher
            (run_by S.states self.old) (run_by S.states self.new)) }
    {
        turn(self, jobs, dispatcher)
    }

    /// An acknowledgement for a link.
    pub fn tell(&mut self, link: LinkId)
        ensures tells { Tells S.ways link (run_by S.states self.old) (run_by S.states self.new) }
    {
        tell(self, link);
    }

    /// An acknowledgement of an end.
    pub fn ack(&mut self, name: EndId)
        ensures acks { Acknowledges S.ways name (run_by S.states self.old) (run_by S.states self.new) }
    {
        ack(self, name);
    }
}
