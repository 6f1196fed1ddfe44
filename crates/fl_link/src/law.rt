//! What holds of looks in a row, and of a queue over them: laws, as the contracts of functions that do nothing.

ghost use Rattle.fl_link.specs.Looks.{LinkStep};
ghost use Rattle.fl_link.specs.Laws.{LooksJoin, LooksWiden, PutsJoin, TakesJoin, CallsJoin, CallsBare, CallsAgain, CallsPrefix, QueueLaw};

use crate::sides::{PutSide, TakeSide};

/// Looks at a side, and then more looks at it, are one list of looks; and looks of one kind, puts or takes, are looks of a
/// side that does both.
pub fn law_looks_join<L: PutSide + TakeSide>()
    ensures puts { LooksJoin L.puts }
    ensures takes { LooksJoin L.takes }
    ensures either { LooksJoin (LinkStep L.puts L.takes) }
    ensures puts_are { LooksWiden L.puts (LinkStep L.puts L.takes) }
    ensures takes_are { LooksWiden L.takes (LinkStep L.puts L.takes) }
{}

/// What was placed, and what was found, in looks and then more looks.
pub fn law_filters_join()
    ensures puts { PutsJoin }
    ensures takes { TakesJoin }
{}

/// The fragments of calls in a list and then another, in a prefix, and with what links write set aside.
pub fn law_calls_alone()
    ensures joins { CallsJoin }
    ensures bare { CallsBare }
    ensures again { CallsAgain }
    ensures prefix { CallsPrefix }
{}

/// What stood in a queue and what was put is what was taken and what stands there; its capacity and kind stay.
pub fn law_queue_conserves()
    ensures conserves { QueueLaw }
{}
