//! Labels: which fragment each stands for, from place to place.

ghost use Rattle.fl_world_refines.specs.FragmentLaws.{
  MessagesAreSaid,
  CallsCarried,
  CallsGoOn,
  LinksTell,
  SetsAside,
  LabelsStay,
};

use fl_endpoint::law_on_another_circuit;
use fl_monitor::{
    law_epochs_say_nothing, law_messages_are_calls, law_one_fragment, law_one_message,
    law_stands_alone,
};

/// What a monitor says is written as one fragment, and read from it again, whatever its epoch and the count that it tells.
pub fn law_messages_are_said()
    ensures said { MessagesAreSaid }
{
    law_messages_are_calls();
    law_one_fragment();
    law_one_message();
    law_epochs_say_nothing();
    law_stands_alone();
}

/// Links carry calls' fragments unchanged, and take none for one that only acknowledges.
pub fn law_calls_are_carried()
    ensures carried { CallsCarried }
{}

/// A call's fragment carries the number of its circuit on the link where it stands. With the number of another link it is what
/// its label stands for there, and with none what it stands for in a queue.
pub fn law_calls_go_on()
    ensures goes_on { CallsGoOn }
{
    law_on_another_circuit();
}

/// By its circuit a fragment on a link is told to be a call's, which carries its circuit's number there, or a monitor's, which
/// carries 0.
pub fn law_links_tell()
    ensures tell { LinksTell }
{}

/// Labels stand for the same fragments while ends accept more calls and circuits get more numbers.
pub fn law_labels_stay()
    ensures stay { LabelsStay }
{}

/// What links write in a control word leaves the fragment's circuit alone, and doesn't stand in the way of another.
pub fn law_links_set_aside()
    ensures aside { SetsAside }
{}
