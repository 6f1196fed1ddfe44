//! What a run over sides of one table is: a law, as the contract of a function that does nothing.

ghost use Rattle.fl_history_runs.specs.Shown.{RunsAreShown};

/// A core's run over sides of one table is one by the steps of sides of rings by themselves. All name the one table
/// still.
pub fn law_runs_are_shown()
    ensures shown { RunsAreShown }
{}
