//! The fragments that the tests put, and the steps of a worked example.

ghost use Rattle.std.specs.Prelude.{◌≡◌, false};
ghost use Rattle.fl_base.specs.Control.{is_ack_only};

use fl_base::Frag;
use fl_link::{Link, PutFault, Sight, Told};

/// The only fragment of `ping(v)`, message 0 of its interface.
pub fn ping(v: u64) -> Frag
    ensures data { is_ack_only result ≡ false }
{
    Frag {
        words: [v, 0, 0, 0, 0, 0, 0],
        control: 2,
    }
}

/// What a look finds where `ping(v)` stands with this control word.
pub fn sight_of(v: u64, control: u64) -> Sight {
    Sight::Data(Frag {
        words: [v, 0, 0, 0, 0, 0, 0],
        control,
    })
}

/// A call of a link or of one of its sides, and what it has to answer. A fragment is told by its first word
/// and its control word.
#[derive(Clone, Copy)]
pub enum LinkCall {
    Put(u64, Result<(), PutFault>),
    Peek(u64, u64),
    Take(u64, u64),
    TakeNothing,
    TakeAcknowledgement,
    Tell(Result<Told, PutFault>),
    Room(bool),
    NextEpoch(u64),
    NextTold(u16),
    Known(u64),
}

/// Takes a step, and says whether the link answers so.
pub fn answers<L: Link>(link: &mut L, step: LinkCall) -> bool {
    match step {
        LinkCall::Put(v, answer) => link.put(&ping(v)) == answer,
        LinkCall::Peek(v, control) => link.peek() == sight_of(v, control),
        LinkCall::Take(v, control) => link.take() == sight_of(v, control),
        LinkCall::TakeNothing => link.take() == Sight::Empty,
        LinkCall::TakeAcknowledgement => link.take() == Sight::Acknowledgement,
        LinkCall::Tell(told) => link.tell() == told,
        LinkCall::Room(room) => link.room() == room,
        LinkCall::NextEpoch(epoch) => link.next_epoch() == epoch,
        LinkCall::NextTold(told) => link.next_told() == told,
        LinkCall::Known(known) => link.known() == known,
    }
}

/// Whether the link answers so to the steps in turn.
pub fn follows<L: Link>(link: &mut L, steps: &[LinkCall]) -> bool {
    for step in steps {
        if !answers(link, *step) {
            return false;
        }
    }
    true
}
