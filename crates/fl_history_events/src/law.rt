//! Where steps have one order, events have one: laws, as contracts of functions that do nothing.

ghost use Rattle.fl_history_events.specs.Laws.{EventsHaveOneOrder, GatheredEventsHaveOneOrder};
ghost use Rattle.fl_history_events.specs.Laws.{EventsHaveMoments, BegunEventsAreEvents, EventsStayEvents};

/// Where steps of many cores have one order, each by the core whose side it is by, and what each core did is
/// cut into events, the events have one order that leads to the same. In it the steps of each event stand in
/// a row, with no other between, and each core's events stand in its order.
pub fn law_events_have_one_order()
    ensures order { EventsHaveOneOrder }
{}

/// So it is of cores that are gathered from one table, where all cores of its sides are.
pub fn law_gathered_events_have_one_order()
    ensures order { GatheredEventsHaveOneOrder }
{}

/// An event is steps that may all wait, then one of any kind, and then steps that may all come earlier: at the
/// moment of that one all of it can happen.
pub fn law_events_have_moments()
    ensures moments { EventsHaveMoments }
{}

/// An event that stopped halfway is an event as far as it came.
pub fn law_begun_events_are_events()
    ensures begun { BegunEventsAreEvents }
{}

/// What is an event whatever its core did before is one after anything that it did.
pub fn law_events_stay_events()
    ensures stay { EventsStayEvents }
{}
