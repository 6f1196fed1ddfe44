//! Whole events: a world begins as the machine does, and each event is one step of it.

ghost use Rattle.fl_world_refines.specs.Laws.{FreshShows, StepsAgree};

use crate::law_of_ends::{
    law_acknowledges_agree, law_calls_agree, law_deregisters_agree, law_previews_agree,
    law_registers_agree, law_replies_agree,
};
use crate::law_of_fragments::{law_turns_agree, law_writes_agree};
use crate::law_of_joining::law_binds_agree;
use crate::law_of_links::{law_forwards_agree, law_monitor_acks_agree, law_monitor_writes_agree};
use crate::law_of_making::{
    law_cores_agree, law_dispatchers_agree, law_exports_agree, law_interfaces_agree,
    law_links_agree,
};

/// A world of 1 to 16 cores, before any event, shows the machine's start with so many.
pub fn law_fresh_world_shows()
    ensures shows { FreshShows }
{}

/// Whatever an event comes to in a world that shows a state, the answer is the machine's, and the world shows the machine's next state.
pub fn law_steps_agree()
    ensures agree { StepsAgree }
{
    law_interfaces_agree();
    law_cores_agree();
    law_links_agree();
    law_dispatchers_agree();
    law_exports_agree();
    law_binds_agree();
    law_calls_agree();
    law_previews_agree();
    law_writes_agree();
    law_turns_agree();
    law_acknowledges_agree();
    law_registers_agree();
    law_deregisters_agree();
    law_replies_agree();
    law_monitor_writes_agree();
    law_monitor_acks_agree();
    law_forwards_agree();
}
