//! What holds after set-ups: laws, as the contracts of functions that do nothing.

ghost use Rattle.fl_core_refines.specs.SetUpUntouched.{SetUpsTouchNothing};
ghost use Rattle.fl_core_refines.specs.SetUpStart.{UntouchedStartsFresh, SetUpsStartFresh};

/// After a set-up that only makes things, each binding is off links, both its ends are bound, and nothing was done with them; nor was a circuit
/// opened on any link.
pub fn law_set_ups_touch_nothing()
    ensures untouched { SetUpsTouchNothing }
{}

/// In a world that shows such a machine, all ends and queues are new, and no circuit was opened. Each binding's two ends stand at their cores, joined by two
/// queues or by a ring of their own; links are paired; and no side of a ring and no queue is named by two cores, or twice by one.
pub fn law_untouched_starts_fresh()
    ensures fresh { UntouchedStartsFresh }
{}

/// So it is in each world that shows what such a set-up comes to, whether the machine refuses some of its events or none.
pub fn law_set_ups_start_fresh()
    ensures fresh { SetUpsStartFresh }
{}
