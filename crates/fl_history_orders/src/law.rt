//! Cores ran in one order of their logs: a law, as the contract of a function that does nothing.

ghost use Rattle.fl_history_orders.specs.Laws.{RunsAreLogged, LogsHaveOneOrder};

/// What a core's whole run did over its sides at one table is events of its log, each in its place. Between any two of them all
/// sides are its own, and the steps of each stand behind those before.
pub fn law_runs_are_logged()
    ensures logged { RunsAreLogged }
{}

/// Where all that cores did by the sides of one table has one order, their logs have one, in which each event
/// happens in its turn, over rings as they stand then. Rings are between two cores; each core ran from its beginning, its
/// log has all that it did, and between any two events all its sides are its own. A look and what follows it are two
/// events: others may come between.
pub fn law_logs_have_one_order()
    ensures order { LogsHaveOneOrder }
{}
