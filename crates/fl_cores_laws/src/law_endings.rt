//! What is promised of the report of running cores, beside that it is honest: laws, as the contracts of
//! functions that do nothing.

ghost use Rattle.fl_cores_laws.specs.EndedTurns.{TurnsAreKept};
ghost use Rattle.fl_cores_laws.specs.EndedHeard.{TablesTell};
ghost use Rattle.fl_cores_laws.specs.Complete.{RunsKeepRefusals, RefusalsAreNamed};
ghost use Rattle.fl_cores_laws.specs.Complete.{CompleteHasAsMany, CompleteHasThese, CompleteHasAll};
ghost use Rattle.fl_cores_laws.specs.Few.{EndsStay, UnfinishedHandleFew, DispatchersHandleFew};
ghost use Rattle.fl_cores_laws.specs.Refused.{SetUpIsNotRefused, RefusedAreOpened, RefusedAreSilent, HonestHandleFew};

use fl_core_run_laws::{law_counted_are_turns, law_jobs_are_made, law_turns_are_logged};
use fl_ring::SharedSide;

/// A report tells of as many turns as cores, each within the limit; and `turns out` only where a core that
/// hadn't finished took all of its turns.
pub fn law_turns_are_kept()
    ensures kept { TurnsAreKept }
{}

/// What cores had heard of a job's refusal was told, where a seat in which all seats are put finds in each
/// job's word what was heard of it.
pub fn law_tables_tell()
    ensures heard { TablesTell }
{}

/// A refusal that stood at an end's progress stays there. So each binding of which a core knew that its opening was
/// refused is named: what it knew of a client's end by itself, and what it heard of a job, which was told.
pub fn law_refusals_are_named()
    ensures stay { RunsKeepRefusals }
    ensures named { RefusalsAreNamed }
    ensures set_up { SetUpIsNotRefused }
{
    law_counted_are_turns::<SharedSide>();
    law_turns_are_logged::<SharedSide>();
}

/// `complete` comes only where at each end, but on the bindings that are named as refused, as many calls
/// were handled as are handed in for it, or more; and just those, where what is told of the end is the first
/// of them, as in an honest report.
pub fn law_complete_has_all()
    ensures as_many { CompleteHasAsMany }
    ensures these { CompleteHasThese }
    ensures all { CompleteHasAll }
{
    law_counted_are_turns::<SharedSide>();
    law_turns_are_logged::<SharedSide>();
    law_refusals_are_named();
}

/// What the ends of a dispatcher handled is together at most its core's counted turns, where the core
/// didn't finish; and where what is told of these ends is the first of what is handed in, also where it
/// finished and went on with turns that nobody counts. Ends stay at their dispatchers.
pub fn law_dispatchers_handle_few()
    ensures stay { EndsStay }
    ensures unfinished { UnfinishedHandleFew }
    ensures few { DispatchersHandleFew }
{
    law_counted_are_turns::<SharedSide>();
    law_turns_are_logged::<SharedSide>();
}

/// A binding that is named as refused is one that a job opens; its client's end handled nothing, and made
/// no call. So in an honest report no end handled a call where its core knew of a refusal, and no
/// dispatcher handled more calls than its core took turns.
pub fn law_refused_do_nothing()
    ensures opened { RefusedAreOpened }
    ensures silent { RefusedAreSilent }
    ensures few { HonestHandleFew }
{
    law_counted_are_turns::<SharedSide>();
    law_turns_are_logged::<SharedSide>();
    law_jobs_are_made::<SharedSide>();
    law_dispatchers_handle_few();
}
