//! Steps in one order are true steps of sides that face each other: laws, as contracts of functions that do
//! nothing.

ghost use Rattle.fl_history_facing.specs.Laws.{StepsAreTrue, SidesFace, OwnStepsShowSides, EntriesHappenTruly};

/// In one order of all steps each step of a side finds what stands in its ring then, and the side across stays.
pub fn law_steps_are_true()
    ensures true_steps { StepsAreTrue }
{}

/// The two sides of each ring face each other, at each moment of one order of all steps.
pub fn law_sides_face()
    ensures face { SidesFace }
{}

/// What a core did itself shows its sides as all steps do.
pub fn law_own_steps_show_sides()
    ensures own { OwnStepsShowSides }
{}

/// Where the steps of an event of a core's log stand in a row in one order of all, it happens at that moment over
/// sides that face each other, and its loads find what stands then. Each ring is between two cores; where a fragment
/// passes on, one was seen before.
pub fn law_entries_happen_truly()
    ensures happen { EntriesHappenTruly }
{}
