//! Where a channel waits, and what a turn makes of it.

ghost use Rattle.std.specs.Prelude.{◌≡◌, ◌<◌, if◌then◌else◌, slice_get, Ok, Err, Some};
ghost use Rattle.fl_waitset.specs.Waiting.{IsWaitset, registered_answer, next_pick};
ghost use Rattle.fl_endpoint.specs.Events.{IsReady};
ghost use Rattle.fl_lists.specs.declared.place.Place.{Place};
ghost use Rattle.fl_lists.specs.ThreeLists.{list_at};
ghost use Rattle.fl_endpoint.specs.Lent.{IsPlaceOf};
ghost use Rattle.fl_core.specs.BoardTurns.{WaitsIn, put_off, lent, moment, Examines};
ghost use Rattle.fl_core.specs.BoardEvents.{Joins};
ghost use Rattle.fl_core.specs.BoardInside.{Settles, MayCome, Refuses, end_turn, LooksAtPlace};

use crate::board_fault::BoardFault;
use crate::kind::ChannelKind;
use crate::turn_answer::TurnAnswer;
use fl_base::ChanId;
use fl_endpoint::{End, EndFault, ReceiveAnswer};
use fl_link::{Sight, TakeSide};
use fl_machine::Reassemblies;
use fl_waitset::{Pick, Place, Waitset};
use std::alloc::AllocError;

// Where a channel of this kind waits, by a look at its side.
#[inline]
fn place_for<T: TakeSide>(kind: ChannelKind, from: &mut T) -> Place
    ensures waits { WaitsIn T.takes kind from.old result from.new }
{
    match kind {
        ChannelKind::Ring => Place::Polled,
        ChannelKind::Queue => match from.peek() {
            Sight::Data(_) | Sight::Acknowledgement => Place::Pending,
            Sight::Empty => Place::Idle,
        },
    }
}

/// Registers a channel, at the back of the list in which it waits. Where it is registered already, its side isn't looked
/// at.
pub(crate) fn join<T: TakeSide>(
    waitset: &mut Waitset,
    c: ChanId,
    kind: ChannelKind,
    from: &mut T,
) -> Result<(), BoardFault>
    requires { c.0 < waitset.old.size }
    ensures waitset { IsWaitset waitset.new }
    ensures joins { Joins T.takes kind c.0 (lent waitset.old from.old) result (lent waitset.new from.new) }
{
    let Ok(()) = waitset.register(c) else {
        return Err(BoardFault::Registered);
    };
    let place = place_for(kind, from);
    waitset.put_back(c, place).unwrap();
    Ok(())
}

// The first channel of a list goes to the back of one.
#[inline]
fn put_off(waitset: &mut Waitset, c: ChanId, to: Place)
    requires { registered_answer waitset.old c.0 ≡ Ok tt }
    ensures waitset { IsWaitset waitset.new }
    ensures put_off { (from : Place) → slice_get (list_at waitset.old from) 0 ≡ Some c.0 → waitset.new ≡ put_off waitset.old from c.0 to }
{
    waitset.put_back(c, to).unwrap();
}

// Where the end looked at its side, its channel goes where it waits for the next fragment; else to the back of pending.
#[inline]
fn settle<T: TakeSide>(
    waitset: &mut Waitset,
    c: ChanId,
    kind: ChannelKind,
    answer: &ReceiveAnswer,
    from: &mut T,
)
    requires first { next_pick waitset.old ≡ Ok (Pick.Pending c) }
    requires registered { registered_answer waitset.old c.0 ≡ Ok tt }
    ensures waitset { IsWaitset waitset.new }
    ensures settles { Settles T.takes kind c.0 (lent waitset.old from.old) answer.now (lent waitset.new from.new) }
{
    match answer {
        ReceiveAnswer::HeldBack => put_off(waitset, c, Place::Pending),
        ReceiveAnswer::Handle(_)
        | ReceiveAnswer::Part
        | ReceiveAnswer::Quiet
        | ReceiveAnswer::Empty => {
            let place = place_for(kind, from);
            put_off(waitset, c, place);
        }
    }
}

// The end took nothing: where it has failed, its channel is deregistered.
#[cold]
#[inline(never)]
fn refuse(waitset: &mut Waitset, c: ChanId, fault: EndFault) -> Result<TurnAnswer, AllocError>
    requires waitset { IsWaitset waitset.old }
    requires registered { registered_answer waitset.old c.0 ≡ Ok tt }
    requires fault { MayCome fault }
    ensures waitset { IsWaitset waitset.new }
    ensures refused { Refuses c.0 waitset.old fault result waitset.new }
{
    match fault {
        EndFault::Wire(fault) => {
            waitset.deregister(c).unwrap();
            Ok(TurnAnswer::Refused(fault))
        }
        EndFault::Memory => Err(AllocError),
        EndFault::Spent
        | EndFault::Busy
        | EndFault::UnknownMessage
        | EndFault::Misfit
        | EndFault::NotBound
        | EndFault::Failed => unreachable!(),
    }
}

// The first polled channel is examined: whether a fragment of a call stands there.
#[inline]
fn examine<T: TakeSide>(waitset: &mut Waitset, c: ChanId, from: &mut T) -> bool
    requires waitset { IsWaitset waitset.old }
    requires first { next_pick waitset.old ≡ Ok (Pick.Polled c) }
    ensures waitset { IsWaitset waitset.new }
    ensures examines { Examines T.takes c.0 (lent waitset.old from.old) (Ok (if result then TurnAnswer.Ready else TurnAnswer.Quiet))
        (lent waitset.new from.new) }
{
    match from.peek() {
        Sight::Data(_) => {
            put_off(waitset, c, Place::Pending);
            true
        }
        Sight::Acknowledgement => {
            let _ = from.take();
            put_off(waitset, c, Place::Polled);
            false
        }
        Sight::Empty => {
            put_off(waitset, c, Place::Polled);
            false
        }
    }
}

// The end of the first pending channel takes a fragment, and the channel goes where it waits for the next. It stands
// apart, so that a look at a polled channel prepares nothing of it.
#[inline(always)]
fn take_pending<T: TakeSide>(
    waitset: &mut Waitset,
    c: ChanId,
    end: &mut End,
    kind: ChannelKind,
    from: &mut T,
    calls: &mut Reassemblies,
    place: usize,
) -> Result<TurnAnswer, AllocError>
    requires waitset { IsWaitset waitset.old }
    requires picked { next_pick waitset.old ≡ Ok (Pick.Pending c) }
    requires ready { IsReady end.old }
    requires place { IsPlaceOf end.old calls.old place }
    ensures waitset { IsWaitset waitset.new }
    ensures looks { LooksAtPlace T.takes (end_turn (Pick.Pending c) kind (moment waitset.old end.old from.old) result
        (moment waitset.new end.new from.new)) calls.old place calls.new }
{
    match end.receive(from, calls, place) {
        Err(fault) => refuse(waitset, c, fault),
        Ok(answer) => {
            settle(waitset, c, kind, &answer, from);
            match answer {
                ReceiveAnswer::Handle(call) => Ok(TurnAnswer::Handle(call)),
                ReceiveAnswer::Part => Ok(TurnAnswer::Part),
                ReceiveAnswer::Quiet => Ok(TurnAnswer::Quiet),
                ReceiveAnswer::Empty => Ok(TurnAnswer::Nothing),
                ReceiveAnswer::HeldBack => Ok(TurnAnswer::Full),
            }
        }
    }
}

/// The turn of what a waitset picked, at its end and the end's place among calls.
pub(crate) fn look_at<T: TakeSide>(
    waitset: &mut Waitset,
    pick: Pick,
    end: &mut End,
    kind: ChannelKind,
    from: &mut T,
    calls: &mut Reassemblies,
    place: usize,
) -> Result<TurnAnswer, AllocError>
    requires waitset { IsWaitset waitset.old }
    requires picked { next_pick waitset.old ≡ Ok pick }
    requires ready { IsReady end.old }
    requires place { IsPlaceOf end.old calls.old place }
    ensures waitset { IsWaitset waitset.new }
    ensures looks { LooksAtPlace T.takes (end_turn pick kind (moment waitset.old end.old from.old) result (moment waitset.new end.new from.new))
        calls.old place calls.new }
{
    match pick {
        Pick::Pending(c) => take_pending(waitset, c, end, kind, from, calls, place),
        Pick::Polled(c) => {
            if examine(waitset, c, from) {
                return Ok(TurnAnswer::Ready);
            }
            Ok(TurnAnswer::Quiet)
        }
    }
}
