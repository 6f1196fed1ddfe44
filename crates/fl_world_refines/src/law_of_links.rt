//! What happens on links.

ghost use Rattle.fl_world_refines.specs.Laws.{MonitorWritesAgree, MonitorAcksAgree, ForwardsAgree};

use crate::{law_calls_go_on, law_messages_are_said};

/// What a core's monitor writes on a link in a world is the machine's.
pub fn law_monitor_writes_agree()
    ensures agree { MonitorWritesAgree }
{
    law_messages_are_said();
    law_calls_go_on();
}

/// What a core acknowledges on a link in a world is the machine's.
pub fn law_monitor_acks_agree()
    ensures agree { MonitorAcksAgree }
{
    law_messages_are_said();
    law_calls_go_on();
}

/// What a core forwards in a world is the machine's: a fragment goes on or arrives, or a message is heard.
pub fn law_forwards_agree()
    ensures agree { ForwardsAgree }
{
    law_messages_are_said();
    law_calls_go_on();
}
