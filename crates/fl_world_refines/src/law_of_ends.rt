//! What ends of a world are asked: each comes to what it comes to in the machine, and the world goes on showing the machine's
//! state.

ghost use Rattle.fl_world_refines.specs.Laws.{CallsAgree, PreviewsAgree, AcknowledgesAgree, RegistersAgree, DeregistersAgree, RepliesAgree};

/// A call that an end is asked to make is accepted or refused as in the machine, and its fragments are the machine's.
pub fn law_calls_agree()
    ensures agree { CallsAgree }
{}

/// The fragment that an end shows is the one that the machine would write next, in the epoch and with the count of the side that
/// would take it.
pub fn law_previews_agree()
    ensures agree { PreviewsAgree }
{}

/// An end acknowledges what it has read of a ring where the machine does, and finds room where the machine does.
pub fn law_acknowledges_agree()
    ensures agree { AcknowledgesAgree }
{}

/// An end's channel is registered, or that is refused, as in the machine, and it waits in the machine's list.
pub fn law_registers_agree()
    ensures agree { RegistersAgree }
{}

/// An end's channel is deregistered, or that is refused, as in the machine.
pub fn law_deregisters_agree()
    ensures agree { DeregistersAgree }
{}

/// A reply rule is set or refused as in the machine, also at a server's end that isn't made yet.
pub fn law_replies_agree()
    ensures agree { RepliesAgree }
{}
