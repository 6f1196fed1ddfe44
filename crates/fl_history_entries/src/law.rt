//! Each event of a core's log is an event of its steps: laws, as contracts of functions that do nothing.

ghost use Rattle.fl_history_entries.specs.Laws.{EntriesAreEvents, LooksSee};

/// What a core does by its sides where an event of its log happens is one event of its steps: all of it can happen
/// at one moment. Where a fragment passes on, one was seen before, and a turn looks where its end takes.
pub fn law_entries_are_events()
    ensures events { EntriesAreEvents }
{}

/// A look that finds a fragment which passes on leaves its side with one seen and not taken.
pub fn law_looks_see()
    ensures seen { LooksSee }
{}
