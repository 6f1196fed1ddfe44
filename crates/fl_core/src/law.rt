//! What an event leaves alone, on every board.

ghost use Rattle.fl_core.specs.BoardAccounts.{TurnAccounts};
ghost use Rattle.fl_core.specs.BoardLaws.{OtherEndsStay, EndIsThere, SameEnd, OtherDispatchersStay, DispatcherIsThere, SameLists};

use fl_endpoint::{law_bind_accounts, law_receive_accounts};
use fl_link::TakeSide;

/// A change of one end leaves all others as they are, and that end at its place.
pub fn law_one_end_changes()
    ensures others { OtherEndsStay }
    ensures there { EndIsThere }
    ensures same { SameEnd }
{}

/// A change of one dispatcher's lists leaves all others as they are, and that dispatcher at its place.
pub fn law_one_dispatcher_changes()
    ensures others { OtherDispatchersStay }
    ensures there { DispatcherIsThere }
    ensures same { SameLists }
{}

/// A turn adds to the account of the end that is due the fragment that was taken, if one was, the call that it made whole and the
/// reply that is due then; or it adds nothing. So a turn handles one call at most, and a sound end stays sound.
pub fn law_turn_accounts<T: TakeSide>()
    ensures account { TurnAccounts T.takes }
{
    law_bind_accounts();
    law_receive_accounts::<T>();
}
