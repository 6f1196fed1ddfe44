//! What is promised of cuts: laws, as the contracts of functions that do nothing.

ghost use Rattle.fl_core_refines.specs.CutLaws.{AllTurnsFollow, EventsFollow, LogsFollow};
ghost use Rattle.fl_core_refines.specs.CutReady.{ReadyFollow, ReadyTurnsFollow};
ghost use Rattle.fl_core_refines.specs.CutSides.{SideLooks, SidePuts, SideTakes};
ghost use Rattle.fl_core_refines.specs.CutStart.{StartsShow};

use fl_endpoint::law_on_another_circuit;
use fl_world_refines::{
    law_hears_agree, law_opens_agree, law_outboxes_are_shown, law_rooms_agree, law_take_shows,
};

/// Whatever a side of a ring between threads comes to, it shows what the machine makes of what it showed, by
/// what its looks found; and it finds the machine's room.
pub fn law_sides_agree()
    ensures puts { SidePuts }
    ensures looks { SideLooks }
    ensures takes { SideTakes }
{}

/// A core with which nothing was done yet shows the cut in which no call was accepted, and none came: with the
/// core of the machine that it shows.
pub fn law_starts_show()
    ensures show { StartsShow }
{}

/// Each event of a running core is the machine's on the cut that the core shows, whatever other cores do: the answer is
/// the machine's, and afterwards the core shows what the machine makes of the cut. So are the events of a log, one
/// after another. Of a monitors' message that is heard it is asked that it comes in order.
pub fn law_events_follow()
    ensures follow { EventsFollow }
    ensures logs { LogsFollow }
{
    law_take_shows();
    law_outboxes_are_shown();
    law_rooms_agree();
    law_opens_agree();
    law_hears_agree();
}

/// So are the events of so many turns, as long as the messages that are heard come in order. At a core without links
/// none is heard.
pub fn law_turns_follow()
    ensures turns { AllTurnsFollow }
{
    law_take_shows();
    law_outboxes_are_shown();
    law_rooms_agree();
    law_opens_agree();
    law_hears_agree();
}

/// A core that is ready meets what is asked of messages, whatever is said to it: where its names are the machine's
/// services, which it serves, its ends that aren't bound accepted nothing, and its table leads to them. So the events
/// of a log are the machine's on its cut, one after another, and so are those of so many turns; and it is ready still.
/// But for one case, which the machine hasn't: an opening whose route leads back over the link on which it came is
/// refused, as the machine refuses it where no link leads on.
pub fn law_ready_cores_follow()
    ensures logs { ReadyFollow }
    ensures turns { ReadyTurnsFollow }
{
    law_take_shows();
    law_outboxes_are_shown();
    law_rooms_agree();
    law_opens_agree();
    law_hears_agree();
    law_on_another_circuit();
}
