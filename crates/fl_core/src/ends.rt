//! Events of an end, and turns of dispatchers.

ghost use Rattle.std.specs.Prelude.{◌≡◌, ◌<◌, length, Some, None, IsSome, Ok, OnErr};
ghost use Rattle.fl_value_data.specs.Value.{call_of};
ghost use Rattle.fl_link.specs.Queue.{QueueTakes};
ghost use Rattle.fl_endpoint.specs.View.{interface_in};
ghost use Rattle.fl_endpoint.specs.Events.{Calls, ShowsNext, SetsRule, Exchanges};
ghost use Rattle.fl_core.specs.BoardView.{due};
ghost use Rattle.fl_core.specs.BoardEvents.{ChangesEnd, ChangesLists, Holds, Deregisters, Acks};
ghost use Rattle.fl_core.specs.BoardTurns.{Turns, over};
ghost use Rattle.fl_core.specs.View.{arrivals_of};
ghost use Rattle.fl_core.specs.Ends.{at_side, OnBoard, OverArrivals, RegistersAt, TriggersIf, woken_by, WritesAt};

use crate::one_core::Core;
use crate::{AckAnswer, BoardFault, TurnAnswer};
use fl_base::{Frag, MsgNo};
use fl_compact_calls::CompactCall;
use fl_endpoint::{End, EndFault, WriteAnswer};
use fl_link::{PutSide, TakeSide};
use fl_value_data::Call;
use std::alloc::AllocError;

impl Core {
    /// Makes a call at an end ([`fl_endpoint::End::call`]).
    ///
    /// # Errors
    /// As the end's, in its order: E41, E42, E43, E64, E40, E99. The core is as it was then.
    pub fn call(&mut self, e: usize, call: &Call) -> Result<(), EndFault>
        requires { e < length self.old.board.seats }
        ensures calls { OnBoard self.old (λ b c. ChangesEnd b e (λ s t. Calls s (call_of call.now) result t) c) self.new }
        ensures kept { OnErr result (self.new ≡ self.old) }
    {
        self.board.call(e, call)
    }

    /// As [`Core::call`], of a call in little memory.
    ///
    /// # Errors
    /// As [`Core::call`]'s. The core is as it was then.
    #[inline]
    pub fn call_compact(&mut self, e: usize, call: &CompactCall) -> Result<(), EndFault>
        requires { e < length self.old.board.seats }
        ensures calls { OnBoard self.old (λ b c. ChangesEnd b e (λ s t. Calls s (call_of call.now) result t) c) self.new }
        ensures kept { OnErr result (self.new ≡ self.old) }
    {
        self.board.call_compact(e, call)
    }

    /// Takes back the memory of a call that was done with: the next call that is read as a list takes it, and its values are dropped
    /// then. Where that call is held as its number, the memory is given up.
    #[inline(always)]
    pub fn give_back(&mut self, call: Box<Call>)
        ensures same { self.new ≡ self.old }
    {
        self.board.give_back(call);
    }

    /// Its dispatchers and ends are moved into memory that is asked for now, so into that of the thread on which this is called. Where there is none, all
    /// stays where it is.
    pub fn take_own_memory(&mut self)
        ensures same { self.new ≡ self.old }
    {
        self.board.take_own_memory();
    }

    /// Sets a reply rule at an end ([`fl_endpoint::End::reply_rule`]). Takes no memory.
    ///
    /// # Errors
    /// As the end's: E41, E42. The core is as it was then.
    pub fn reply_rule(&mut self, e: usize, msg: MsgNo, reply: MsgNo) -> Result<(), EndFault>
        requires { e < length self.old.board.seats }
        ensures sets { OnBoard self.old (λ b c. ChangesEnd b e (λ s t. SetsRule s msg.0 reply.0 result t) c) self.new }
        ensures kept { OnErr result (self.new ≡ self.old) }
    {
        self.board.reply_rule(e, msg, reply)
    }

    /// An end exchanges its reply rules with another of the same interface, which is at no core ([`fl_endpoint::End::exchange_rules`]). So an end that is made
    /// late gets the rules that were set before. Takes no memory.
    pub fn exchange_rules(&mut self, e: usize, other: &mut End)
        requires there { e < length self.old.board.seats }
        requires interface { Holds self.old.board e (λ s. interface_in s.end ≡ interface_in other.old) }
        ensures exchanges { OnBoard self.old (λ b c. ChangesEnd b e (λ s t. Exchanges s other.old t other.new) c) self.new }
    {
        self.board.exchange_rules(e, other);
    }

    /// The fragment that a write at an end would put next, over the end's outlet ([`Core::outlet`]); none where no call is in transmission.
    ///
    /// # Errors
    /// As the end's: E43, E64.
    pub fn show<P: PutSide>(&self, e: usize, out: &P) -> Result<Option<Frag>, EndFault>
        requires { e < length self.now.board.seats }
        ensures shows { Holds self.now.board e (λ s. ShowsNext (P.epoch_of out.now) (P.told_of out.now) s.end result) }
    {
        self.board.show(e, out)
    }

    /// Puts the next fragment of an end's call in transmission, over the end's outlet ([`Core::outlet`]). Where that is a queue, the channel of the end on its
    /// other side is triggered. Takes no memory.
    ///
    /// # Errors
    /// As the end's: E43, E64, E33. The core is as it was then.
    #[inline(always)]
    pub fn write<P: PutSide>(&mut self, e: usize, out: &mut P) -> Result<WriteAnswer, EndFault>
        requires { e < length self.old.board.seats }
        ensures writes { WritesAt P.puts e (at_side self.old out.old) result (at_side self.new out.new) }
        ensures kept { OnErr result (self.new ≡ self.old) }
    {
        match self.board.write(e, out) {
            Err(fault) => Err(fault),
            Ok(answer) => {
                self.wake(e, answer);
                Ok(answer)
            }
        }
    }

    // Triggers the channel of the end that learns of a write at an end by this answer.
    fn wake(&mut self, e: usize, answer: WriteAnswer)
        ensures triggers { OnBoard self.old (TriggersIf (woken_by self.old e (Ok answer))) self.new }
    {
        match answer {
            WriteAnswer::Full | WriteAnswer::Nothing => (),
            WriteAnswer::Written { .. } => match self.joined_to(e) {
                None => (),
                Some(peer) => self.board.trigger(peer),
            },
        }
    }

    /// Deregisters an end's channel: turns don't look at it until it is registered again. Takes no memory.
    ///
    /// # Errors
    /// The end isn't bound yet (E43); its channel isn't registered (E51). The core is as it was then.
    pub fn deregister(&mut self, e: usize) -> Result<(), BoardFault>
        requires { e < length self.old.board.seats }
        ensures deregisters { OnBoard self.old (λ b c. ChangesLists b e (λ s w v. Deregisters s w result v) c) self.new }
        ensures kept { OnErr result (self.new ≡ self.old) }
    {
        self.board.deregister(e)
    }

    /// Registers an end's channel, over the end's inlet ([`Core::inlet`]): one of a ring is polled; one of a queue is pending where a fragment stands, else
    /// idle. Takes no memory.
    ///
    /// # Errors
    /// In this order: the end isn't bound yet (E43), it failed earlier (E64), its channel is registered already (E50). Core and side are as they were then.
    pub fn register<T: TakeSide>(&mut self, e: usize, from: &mut T) -> Result<(), BoardFault>
        requires there { e < length self.old.board.seats }
        requires lent { arrivals_of self.old e ≡ None }
        ensures registers { OnBoard self.old (λ b c. RegistersAt T.takes e (over b from.old) result (over c from.new)) self.new }
        ensures kept { OnErr result (self.new ≡ self.old) }
    {
        self.board.register(e, from)
    }

    /// The same for an end that has an arrival queue.
    ///
    /// # Errors
    /// As [`Core::register`].
    pub fn register_arrivals(&mut self, e: usize) -> Result<(), BoardFault>
        requires { IsSome (arrivals_of self.old e) }
        ensures registers { OverArrivals self.old e (λ b p c q. RegistersAt QueueTakes e (over b p) result (over c q)) self.new }
        ensures kept { OnErr result (self.new ≡ self.old) }
    {
        let Some(a) = self.arrivals_of(e) else {
            unreachable!();
        };
        self.board.register(e, &mut self.arrivals[a])
    }

    /// Tells what was taken at an end's ring, over the end's inlet ([`Core::inlet`]), so that those slots are free. A queue frees its slots without. The core
    /// doesn't change.
    ///
    /// # Errors
    /// The end isn't bound yet (E43). The side is as it was then.
    pub fn ack<T: TakeSide>(&self, e: usize, from: &mut T) -> Result<AckAnswer, BoardFault>
        requires there { e < length self.now.board.seats }
        requires lent { arrivals_of self.now e ≡ None }
        ensures acks { Holds self.now.board e (λ s. Acks T.takes s.kind s.end from.old result from.new) }
    {
        self.board.ack(e, from)
    }

    /// One turn of a dispatcher, over the inlet of the end that is due ([`crate::Board::due`], [`Core::inlet`]): see [`crate::Board::turn`].
    ///
    /// # Errors
    /// Out of memory (E99), only where the fragment would make a call whole. The core is as it was then, and the fragment, which was looked at, is left.
    pub fn turn<T: TakeSide>(
        &mut self,
        dispatcher: usize,
        e: usize,
        from: &mut T,
    ) -> Result<TurnAnswer, AllocError>
        requires there { dispatcher < length self.old.board.dispatchers }
        requires due { due self.old.board dispatcher ≡ Some e }
        requires lent { arrivals_of self.old e ≡ None }
        ensures turns { OnBoard self.old (λ b c. Turns T.takes dispatcher e (over b from.old) result (over c from.new)) self.new }
        ensures kept { OnErr result (self.new ≡ self.old) }
    {
        self.board.turn(dispatcher, e, from)
    }

    /// The same where the end that is due has an arrival queue.
    ///
    /// # Errors
    /// As [`Core::turn`].
    pub fn turn_arrivals(&mut self, dispatcher: usize, e: usize) -> Result<TurnAnswer, AllocError>
        requires there { dispatcher < length self.old.board.dispatchers }
        requires due { due self.old.board dispatcher ≡ Some e }
        requires own { IsSome (arrivals_of self.old e) }
        ensures turns { OverArrivals self.old e (λ b p c q. Turns QueueTakes dispatcher e (over b p) result (over c q)) self.new }
        ensures kept { OnErr result (self.new ≡ self.old) }
    {
        let Some(a) = self.arrivals_of(e) else {
            unreachable!();
        };
        self.board.turn(dispatcher, e, &mut self.arrivals[a])
    }
}
