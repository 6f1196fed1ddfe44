//! What is told of any report that a run of cores answers: laws, as the contracts of functions that do
//! nothing.

ghost use Rattle.fl_cores.specs.Outcomes.{ReportsAreOfRuns, ReportsKeepTurns, UnfinishedHandleFew, FirstAreFew};
ghost use Rattle.fl_cores.specs.Outcomes.{HonestHandleFew, RefusedAreOpened, SetUpUnfinishedHandleFew, SetUpHandleFew};
ghost use Rattle.fl_cores.specs.Outcomes.{CompleteHasAsMany, CompleteHasAll};

/// Behind each report stand cores that began with the jobs joined for them and ran by their plans; what they
/// heard of refused openings was told; and it tells what came of that.
pub fn law_reports_are_of_runs()
    ensures runs { ReportsAreOfRuns }
{
    fl_core_refines::law_set_ups_start_fresh();
    fl_cores_laws::law_tables_tell();
}

/// A report tells of as many turns as cores, each within the limit; and `turns out` only where a core that
/// hadn't finished took all of its turns.
pub fn law_reports_keep_turns()
    ensures kept { ReportsKeepTurns }
{
    law_reports_are_of_runs();
    fl_cores_laws::law_turns_are_kept();
}

/// What the ends of a dispatcher handled is together at most the turns that are told of its core, where
/// that didn't finish; and where what is told of these ends is the first of what is handed in for them,
/// where it did. So it is of each in an honest report.
pub fn law_reports_handle_few()
    ensures unfinished { UnfinishedHandleFew }
    ensures few { FirstAreFew }
    ensures honest { HonestHandleFew }
{
    law_reports_are_of_runs();
    fl_cores_laws::law_dispatchers_handle_few();
    fl_cores_laws::law_refused_do_nothing();
}

/// A binding that is named as refused is one that a job opens; its client's end handled nothing, and made
/// no call.
pub fn law_refused_are_opened()
    ensures opened { RefusedAreOpened }
{
    law_reports_are_of_runs();
    fl_cores_laws::law_refused_do_nothing();
}

/// So it is of the ends that the machine has at a dispatcher behind the set-up: what they handled is
/// together at most the turns that are told of its core, where that didn't finish, and in an honest report.
pub fn law_dispatchers_handle_few()
    ensures unfinished { SetUpUnfinishedHandleFew }
    ensures set_up { SetUpHandleFew }
{
    fl_core_refines::law_set_ups_start_fresh();
    law_reports_are_of_runs();
    law_reports_handle_few();
    fl_cores_laws::law_dispatchers_handle_few();
}

/// `complete` comes only where as many calls were handled as are handed in, or more, at both ends of each
/// binding, but on bindings that are named as refused; and just those, where the report is honest.
pub fn law_complete_has_all()
    ensures as_many { CompleteHasAsMany }
    ensures all { CompleteHasAll }
{
    law_reports_are_of_runs();
    fl_cores_laws::law_complete_has_all();
}
