//! When a core has nothing left to do.

ghost use Rattle.std.specs.Prelude.{◌≡◌, ◌<◌, length};
ghost use Rattle.fl_core_run.specs.Run.{run_by};
ghost use Rattle.fl_core_run.specs.Finished.{is_at_rest, is_progress_clear, is_done_at, is_finished};

use crate::core_sides::CoreSides;
use crate::opening_status::OpeningStatus;
use crate::running::RunningCore;
use fl_base::EndId;

// Whether an end is bound and has written all that it accepted, where it is at this core.
fn is_at_rest<S: CoreSides>(run: &RunningCore<S>, name: EndId) -> bool
    ensures rest { result ≡ is_at_rest run.now.core name }
{
    match run.core.place(name) {
        None => true,
        Some(e) => {
            let end = run.core.board().end(e);
            end.is_bound() && !end.is_busy()
        }
    }
}

// Whether all jobs at an end are done, and all calls for it handled.
fn is_progress_clear<S: CoreSides>(run: &RunningCore<S>, name: EndId) -> bool
    ensures clear { result ≡ is_progress_clear (run_by S.states run.now) name }
{
    match run.progress_of(name) {
        None => true,
        Some(place) => run.progresses[place].is_clear(),
    }
}

// Whether nothing is left to do at an end.
fn is_done_at<S: CoreSides>(run: &RunningCore<S>, name: EndId, word: OpeningStatus) -> bool
    ensures done { result ≡ is_done_at (run_by S.states run.now) name word }
{
    match word {
        OpeningStatus::Refused(_) => true,
        OpeningStatus::Silent => is_progress_clear(run, name) && is_at_rest(run, name),
        OpeningStatus::Tells(_) => is_progress_clear(run, name) && is_at_rest(run, name),
        OpeningStatus::Hears(_) => is_progress_clear(run, name) && is_at_rest(run, name),
    }
}

/// Whether nothing is left to do.
pub(crate) fn is_finished<S: CoreSides>(
    run: &RunningCore<S>,
    ends: &[EndId],
    words: &[OpeningStatus],
) -> bool
    requires { length words.now ≡ length ends.now }
    ensures finished { result ≡ is_finished (run_by S.states run.now) ends.now words.now }
{
    for k in 0..ends.len() {
        if !is_done_at(run, ends[k], words[k]) {
            return false;
        }
    }
    true
}
