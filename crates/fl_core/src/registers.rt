//! Channels that are registered, deregistered, triggered and acknowledged.

ghost use Rattle.std.specs.Prelude.{◌≡◌, ◌<◌, length, OnErr};
ghost use Rattle.fl_waitset.specs.Waiting.{triggered};
ghost use Rattle.fl_core.specs.BoardEvents.{ChangesLists, Holds, Registers, Deregisters, Acks};
ghost use Rattle.fl_core.specs.BoardInside.{Tells};
ghost use Rattle.fl_core.specs.BoardTurns.{lent};

use crate::board_fault::BoardFault;
use crate::kind::ChannelKind;
use crate::one_board::Board;
use crate::turn_answer::AckAnswer;
use crate::waiting::join;
use fl_link::{TakeSide, Told};

impl Board {
    /// Registers an end's channel at its dispatcher: a ring's channel goes to the back of polled, and one of a queue to the
    /// back of pending where a fragment stands, else to the back of idle. Takes no memory.
    ///
    /// # Errors
    /// In this order: the end isn't bound yet (E43), it failed earlier (E64), its channel is registered already (E50). Board
    /// and side are as they were then.
    pub fn register<T: TakeSide>(&mut self, e: usize, from: &mut T) -> Result<(), BoardFault>
        requires { e < length self.old.seats }
        ensures registers { ChangesLists self.old e (λ s w v. Registers T.takes s (lent w from.old) result (lent v from.new)) self.new }
        ensures kept { OnErr result (self.new ≡ self.old) }
    {
        let seat = &self.seats[e];
        if !seat.end.is_bound() {
            return Err(BoardFault::NotBound);
        }
        if seat.end.is_failed() {
            return Err(BoardFault::Failed);
        }
        let dispatcher = &mut self.dispatchers[seat.dispatcher];
        join(&mut dispatcher.waitset, seat.channel, seat.kind, from)
    }

    /// Deregisters an end's channel: turns don't look at it until it is registered again. Takes no memory.
    ///
    /// # Errors
    /// The end isn't bound yet (E43); its channel isn't registered (E51). The board is as it was then.
    pub fn deregister(&mut self, e: usize) -> Result<(), BoardFault>
        requires { e < length self.old.seats }
        ensures deregisters { ChangesLists self.old e (λ s w v. Deregisters s w result v) self.new }
        ensures kept { OnErr result (self.new ≡ self.old) }
    {
        let seat = &self.seats[e];
        if !seat.end.is_bound() {
            return Err(BoardFault::NotBound);
        }
        let dispatcher = &mut self.dispatchers[seat.dispatcher];
        let Ok(()) = dispatcher.waitset.deregister(seat.channel) else {
            return Err(BoardFault::NotRegistered);
        };
        Ok(())
    }

    /// Tells that a fragment has come to stand on an end's queue: an idle channel goes to the back of pending. One that is
    /// pending or polled stays, and one that isn't registered is not touched. Takes no memory.
    #[inline]
    pub fn trigger(&mut self, e: usize)
        requires { e < length self.old.seats }
        ensures triggers { ChangesLists self.old e (λ s w v. v ≡ triggered w s.channel) self.new }
    {
        let seat = &self.seats[e];
        let dispatcher = &mut self.dispatchers[seat.dispatcher];
        dispatcher.waitset.trigger(seat.channel).unwrap();
    }

    /// Tells what was taken at an end's ring, so that those slots are free. A queue frees its slots without. The board
    /// doesn't change.
    ///
    /// # Errors
    /// The end isn't bound yet (E43). The side is as it was then.
    pub fn ack<T: TakeSide>(&self, e: usize, from: &mut T) -> Result<AckAnswer, BoardFault>
        requires { e < length self.now.seats }
        ensures acks { Holds self.now e (λ s. Acks T.takes s.kind s.end from.old result from.new) }
    {
        let seat = &self.seats[e];
        if !seat.end.is_bound() {
            return Err(BoardFault::NotBound);
        }
        match seat.kind {
            ChannelKind::Queue => Ok(AckAnswer::Nothing),
            ChannelKind::Ring => Ok(tell(from)),
        }
    }
}

// What a ring's side tells.
fn tell<T: TakeSide>(from: &mut T) -> AckAnswer
    ensures tells { Tells T.takes from.old result from.new }
{
    match from.tell() {
        Ok(Told::Written) => AckAnswer::Done,
        Ok(Told::Nothing) => AckAnswer::Nothing,
        Err(_) => AckAnswer::Full,
    }
}
