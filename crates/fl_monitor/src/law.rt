//! What the monitors' messages come to as fragments: laws, as the contracts of functions that do nothing.

ghost use Rattle.fl_monitor.specs.Hearing.{OneOutcome};
ghost use Rattle.fl_monitor.specs.Outboxes.{OneListOfMessages, PutIsOneMore, SentIsOneLess};
ghost use Rattle.fl_monitor.specs.Saying.{
  FitsByWidths,
  EachCallIsAMessage,
  OneMessageACall,
  EachTakesOneFragment,
  NoneIsPart,
  SaysNoOther,
  SaysWhatIsWritten,
  SaysTheSame,
  RefusedTheSame,
  RefusedForOne,
  SaysAlone,
};

/// A message whose numbers have their widths fits the monitors' interface, and each call that fits is that of one message.
pub fn law_messages_are_calls()
    ensures fit { FitsByWidths }
    ensures each { EachCallIsAMessage }
    ensures one { OneMessageACall }
{}

/// Each message takes one fragment, so that none is ever under way between two fragments.
pub fn law_one_fragment()
    ensures one { EachTakesOneFragment }
    ensures none { NoneIsPart }
{}

/// No fragment says two messages, and the fragment that is written for a message says it. So what [`Messenger::frag`] gives,
/// [`Messenger::read`] gives back.
///
/// [`Messenger::frag`]: crate::Messenger::frag
/// [`Messenger::read`]: crate::Messenger::read
pub fn law_one_message()
    ensures one { SaysNoOther }
    ensures written { SaysWhatIsWritten }
{}

/// The epoch that a link sets in a fragment, and the count that it tells there, change neither what the fragment says nor
/// why it is refused.
pub fn law_epochs_say_nothing()
    ensures says { SaysTheSame }
    ensures refused { RefusedTheSame }
{}

/// A fragment that isn't read is refused for one reason, which it tells alone: its first fault.
pub fn law_one_reason()
    ensures one { RefusedForOne }
{}

/// A fragment that says a message is the first of its message, on circuit 0, and none that only acknowledges: so a link takes
/// it, and a monitor knows it as its own.
pub fn law_stands_alone()
    ensures alone { SaysAlone }
{}

/// The fragments in an outbox are those of one list of messages. A fragment that is put is that of one message more, the last, and
/// with the first fragment that is sent the first message goes.
pub fn law_outboxes_say_messages()
    ensures one { OneListOfMessages }
    ensures put { PutIsOneMore }
    ensures sent { SentIsOneLess }
{}

/// A message comes to one thing at most at the core that hears it. So a monitor's answer to a message is told by its table of
/// circuits, the table of names, and what its core knows; and a message is out of its place, or not.
pub fn law_one_outcome()
    ensures one { OneOutcome }
{}
