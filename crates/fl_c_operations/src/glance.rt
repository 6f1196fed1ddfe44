//! What an end takes at its first look, where no call is under way: so a call of one fragment and of scalars and enums alone
//! needs no values, and no memory.

ghost use Rattle.std.specs.Prelude.{◌≡◌, None};
ghost use Rattle.fl_link.specs.Looks.{saw_ack, found_ack};
ghost use Rattle.fl_ring.specs.SharedSeats.{front_seen};
ghost use Rattle.fl_ring.specs.SharedSides.{SharedTakes};
ghost use Rattle.fl_c_operations.specs.Glances.{Glances};

use crate::looked::LookedSide;
use crate::short::ShortCall;
use crate::transmitting::TransmittingEnd;
use fl_link::Sight;

/// What an end took at its first look.
#[derive(Drop)]
pub(crate) enum Glance {
    /// Nothing stands there.
    Nothing,
    /// A fragment that only acknowledges.
    Acknowledgement,
    /// The only fragment of this call, to which there is no reply by rule.
    Short(ShortCall),
    /// No fragment was taken; the end itself has to receive.
    Untaken,
}

// Takes what only acknowledges. Out of line, since it seldom stands there.
#[cold]
#[inline(never)]
fn take_acknowledgement(side: &mut LookedSide)
    requires unseen { side.old.seen ≡ None }
    requires acknowledgement { front_seen side.old.side.peeked ≡ saw_ack }
    ensures takes { SharedTakes side.old.side found_ack side.new.side }
{
    let _ = side.take_looked();
}

/// Looks at what stands first where no call is under way, by a side that has seen nothing, and takes what only acknowledges and what is
/// a short call.
#[inline(always)]
pub(crate) fn take_glance(end: &TransmittingEnd, side: &mut LookedSide, between: bool) -> Glance
    requires unseen { side.old.seen ≡ None }
    ensures glances { Glances end.now between side.old.side result side.new.seen side.new.side }
{
    if !between {
        return Glance::Untaken;
    }
    if !end.may_take() {
        return Glance::Untaken;
    }
    match side.look() {
        Sight::Empty => Glance::Nothing,
        Sight::Acknowledgement => {
            take_acknowledgement(side);
            Glance::Acknowledgement
        }
        Sight::Data(frag) => {
            let Some(call) = end.short_call(&frag) else {
                side.keep(frag);
                return Glance::Untaken;
            };
            let _ = side.take_looked();
            Glance::Short(call)
        }
    }
}
