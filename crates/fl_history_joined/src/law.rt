//! An order of cores' logs is a run of them: laws, as contracts of functions that do nothing.

ghost use Rattle.fl_core_turned.specs.Turned.{shared_ways};
ghost use Rattle.fl_history_joined.specs.InTurn.{TurnsAreInTurn};
ghost use Rattle.fl_history_joined.specs.Logged.{RunsAreOfTurns};
ghost use Rattle.fl_history_joined.specs.Runs.{OrdersAreRuns, IdleCoresRan};
ghost use Rattle.fl_history_sides.specs.Ways.{history_ways};

use fl_cores_joined::law_steps_interleave;

/// In a core's whole turns what follows a look comes directly behind that look, and any other event where no look
/// waits for one. The core is lent the sides of its links, of which no two have one.
pub fn law_turns_are_in_turn()
    ensures history { TurnsAreInTurn history_ways }
    ensures shared { TurnsAreInTurn shared_ways }
{}

/// So a core's whole run over its sides at one table is events of the log of its turns, each of which is in turn, and
/// in the end the core did just what its sides tell.
pub fn law_runs_are_of_turns()
    ensures runs { RunsAreOfTurns }
{}

/// Where each core's log is so, an order of events, each in its turn, is one of steps, and one of moments that are
/// whole in themselves: of each core they are the entries of its log, and in the end no look waits.
pub fn law_orders_are_runs()
    ensures runs { OrdersAreRuns }
{
    law_steps_interleave();
}

/// There are cores that ran in one order: those without sides that did nothing.
pub fn law_idle_cores_ran()
    ensures ran { IdleCoresRan }
{}
