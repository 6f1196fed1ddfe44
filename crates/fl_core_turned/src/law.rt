//! What holds of turns on cuts: a law, as the contract of a function that does nothing.

ghost use Rattle.fl_core_turned.specs.ReadyTurns.{ReadyTurns, TurnsHappen};

use fl_core_refines::law_ready_cores_follow;

/// The events of a core's turns happen one after another, each in its place. Where the core shows a cut, and
/// is ready, and hears of no route that names a core twice, they are turns on its cut: behind each event it
/// shows what the machine makes of the cut by that, and a side is found empty, or full, no more often than it
/// was looked at.
pub fn law_ready_turns()
    ensures happen { TurnsHappen }
    ensures ready { ReadyTurns }
{
    law_ready_cores_follow();
}
