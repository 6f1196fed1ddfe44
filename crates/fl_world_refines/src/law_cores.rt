//! What else a core keeps: names, outboxes, and what its monitor makes of messages.

ghost use Rattle.fl_world_refines.specs.CoreLaws.{
  NamesAreShown,
  OutboxesAreShown,
  MonitorsBegin,
  RoomsAgree,
  OpensAgree,
  HearsAgree,
};

use crate::law_labels::law_messages_are_said;

/// A look-up in the table of names finds what the machine does, by name and by interface reference.
pub fn law_names_are_shown()
    ensures agree { NamesAreShown }
{}

/// The first message that waits for a link is the machine's, and so are the others once it is gone.
pub fn law_outboxes_are_shown()
    ensures first { OutboxesAreShown }
{
    law_messages_are_said();
}

/// The monitor of a new core has nothing to say, nor has one with a new link there.
pub fn law_monitors_begin()
    ensures begin { MonitorsBegin }
{}

/// An outbox has room for one more message where the machine's has.
pub fn law_rooms_agree()
    ensures agree { RoomsAgree }
{}

/// A circuit that a monitor opens is the machine's, in its table and in the outbox.
pub fn law_opens_agree()
    ensures agree { OpensAgree }
{}

/// What a monitor makes of a message is what the machine's core makes of what was said: it tells the same, and what is shown of
/// circuits and outboxes goes on; or the outbox that is needed is full in both.
pub fn law_hears_agree()
    ensures agree { HearsAgree }
{}
