//! What holds of ends over time, whatever their sides: laws, as the contracts of functions that do nothing.

ghost use Rattle.fl_endpoint.specs.Laws.{
  AddUp,
  RepliesAddUp,
  CallAccounts,
  WriteAccounts,
  ReceiveAccounts,
  BindAccounts,
  RuleAccounts,
  ExchangeAccounts,
  SinceMade,
  OnAnotherCircuit,
  HandlesInOrder,
  TakesInOrder,
};

use fl_link::{PutSide, TakeSide};
use fl_wire::law_none_begins_with_another;

/// The accounts of two stretches of time, one after the other, add up to that of both.
pub fn law_accounts_add_up()
    ensures adds_up { AddUp }
{}

/// So do the replies, where no rule is set in either.
pub fn law_replies_add_up()
    ensures adds_up { RepliesAddUp }
{}

/// A call that is made is accepted, and a refused one adds nothing.
pub fn law_call_accounts()
    ensures account { CallAccounts }
{}

/// A write puts the next fragment of what was accepted, and with the last of a call the first reply that waits is accepted;
/// or it adds nothing.
pub fn law_write_accounts<P: PutSide>()
    ensures account { WriteAccounts P.puts }
{}

/// A receive takes the next fragment and handles the call that it ends, and the reply by rule is due; or it adds nothing.
pub fn law_receive_accounts<T: TakeSide>()
    ensures account { ReceiveAccounts T.takes }
{}

/// Binding an end adds nothing.
pub fn law_bind_accounts()
    ensures account { BindAccounts }
{}

/// Setting a rule adds nothing.
pub fn law_rule_accounts()
    ensures account { RuleAccounts }
{}

/// Exchanging rules with an end of the same interface adds nothing.
pub fn law_exchange_accounts()
    ensures account { ExchangeAccounts }
{}

/// Since an end was made: what it put is a prefix of its accepted calls' fragments, and what it took reads as
/// its handled calls and a rest.
pub fn law_since_made()
    ensures since { SinceMade }
{}

/// What is sent on a circuit is, once its circuit is set to another, what is sent on that one; on circuit 0, off links.
pub fn law_on_another_circuit()
    ensures on { OnAnotherCircuit }
{}

/// The calls that an end handled are the first of those whose fragments it took, in order: what it took since is of the next.
pub fn law_handles_in_order()
    ensures handles { HandlesInOrder }
{
    law_none_begins_with_another();
}

/// The next fragment of calls that come off links is never refused: where it is the last of its call, that call is handled,
/// and else it is a part.
pub fn law_takes_in_order()
    ensures takes { TakesInOrder }
{
    law_none_begins_with_another();
}
