//! Ends: each event leads from what is shown to what is shown.

ghost use Rattle.fl_world_refines.specs.EndLaws.{
  FreshShows,
  BoundShows,
  CallShows,
  NextShows,
  WriteShows,
  TakeShows,
  ReceiveShows,
  RuleShows,
  OthersStay,
};

use fl_endpoint::law_takes_in_order;
use fl_link::{PutSide, TakeSide};

/// A new end is what is shown of an end that isn't bound and accepted nothing.
pub fn law_fresh_shows()
    ensures shows { FreshShows }
{}

/// An end that is bound shows the machine's end bound to that circuit.
pub fn law_bound_shows()
    ensures shows { BoundShows }
{}

/// A call is accepted or refused as in the machine, for the first of its reasons, and the end goes on showing the machine's.
pub fn law_call_shows()
    ensures shows { CallShows }
{}

/// The fragment that an end shows is the machine's next.
pub fn law_next_shows()
    ensures shows { NextShows }
{}

/// A write puts the machine's next fragment, answers its numbers, and the end goes on showing the machine's; or it finds no room,
/// or nothing to write, where the machine does.
pub fn law_write_shows<P: PutSide>()
    ensures shows { WriteShows P.puts }
{}

/// The fragment next in turn of the other end's calls is never refused. It makes a call whole exactly where it does in the
/// machine, with the reply by rule, and the end goes on showing the machine's.
pub fn law_take_shows()
    ensures shows { TakeShows }
{
    law_takes_in_order();
}

/// So does a receive, where what stands first at the side that it is lent is the fragment next in turn.
pub fn law_receive_shows<T: TakeSide>()
    ensures shows { ReceiveShows T.takes }
{
    law_take_shows();
}

/// A rule is set or refused as the machine does.
pub fn law_rule_shows()
    ensures shows { RuleShows }
{}

/// What an end has taken of the other's calls stays as it is when the other accepts and writes.
pub fn law_others_stay()
    ensures stay { OthersStay }
{}
