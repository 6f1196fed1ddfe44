//! What is promised of the run of one core by itself: laws, as the contracts of functions that do nothing.

ghost use Rattle.fl_core_run.specs.Run.{ways};
ghost use Rattle.fl_core_refines.specs.AloneCalls.{JobsGoByCalls};
ghost use Rattle.fl_core_refines.specs.AloneHanded.{HandedShow};
ghost use Rattle.fl_core_refines.specs.AloneLaws.{CallsAreTheMachines, RulesAreTheMachines, WritesAreTheMachines, TurnsAreTheMachines};
ghost use Rattle.fl_core_refines.specs.AloneLaws.{RoundsAreTheMachines, CountsAreTheMachines, RunsAreTheMachines, LaterTurnsChangeNothing};

use fl_link::{PutSide, TakeSide};
use fl_world_refines::law_steps_agree;

/// Each event of a core that shows a state of the machine is the machine's of that name.
pub fn law_events_are_the_machines<S: PutSide + TakeSide>()
    ensures call { CallsAreTheMachines (ways S.puts S.takes S.front) }
    ensures rule { RulesAreTheMachines (ways S.puts S.takes S.front) }
    ensures write { WritesAreTheMachines (ways S.puts S.takes S.front) }
    ensures turn { TurnsAreTheMachines (ways S.puts S.takes S.front) }
{
    law_steps_agree();
}

/// So many turns of such a core are so many of the machine's: afterwards it shows the state, and its ends' progress
/// have, what these come to.
pub fn law_turns_are_the_machines<S: PutSide + TakeSide>()
    ensures rounds { RoundsAreTheMachines (ways S.puts S.takes S.front) }
{
    law_steps_agree();
}

/// The counted turns of such a core end at the first number at which the machine's state and the ends' progress show
/// that nothing is left to do, or at the limit. In the end it shows what so many turns more come to.
pub fn law_runs_are_the_machines<S: PutSide + TakeSide>()
    ensures counts { CountsAreTheMachines (ways S.puts S.takes S.front) }
    ensures runs { RunsAreTheMachines (ways S.puts S.takes S.front) }
{
    law_steps_agree();
}

/// Turns behind those that are counted change no end's progress, where each was clear, and none has more handled in
/// the end than is to be.
pub fn law_later_turns_change_nothing()
    ensures nothing { LaterTurnsChangeNothing }
{}

/// A core that names its queues by other numbers, and has them where these say, shows what it showed.
pub fn law_handed_cores_show()
    ensures show { HandedShow }
{}

/// Where each job is a call, turns by jobs are turns by these calls: as many of them come to the same, as many
/// are counted, and by the one nothing is left to do where nothing is by the other.
pub fn law_jobs_go_by_calls()
    ensures calls { JobsGoByCalls }
{}
