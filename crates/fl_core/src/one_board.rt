//! The board of one core: its dispatchers and their ends.

ghost use Rattle.std.specs.Prelude.{◌≡◌, ◌<◌, ℕ, [], length, slice_get, Some, IfOk, IfErr, OnOk, OnErr, vec_len};
ghost use Rattle.std.specs.Vec.{vec_capacity};
ghost use Rattle.fl_value_data.specs.Value.{call_of};
ghost use Rattle.fl_endpoint.specs.View.{TheEnd, with_parts, interface_in, bound};
ghost use Rattle.fl_endpoint.specs.Accounts.{Sound};
ghost use Rattle.fl_endpoint.specs.Events.{Calls, Writes, ShowsNext, SetsRule, Exchanges};
ghost use Rattle.fl_core.specs.BoardSound.{IsBoard};
ghost use Rattle.fl_core.specs.BoardView.{TheDispatcher, TheBoard, with_dispatcher, with_new_end};
ghost use Rattle.fl_core.specs.declared.kind.ChannelKind.{ChannelKind};
ghost use Rattle.fl_core.specs.BoardEvents.{ChangesEnd, Holds, Adds, IsGrown};
ghost use Rattle.fl_core.specs.BoardInside.{HasNoRoom};

use crate::board_fault::BoardFault;
use crate::dispatcher::Dispatcher;
use crate::kind::ChannelKind;
use crate::own_memory::in_own_memory;
use crate::seat::EndAtChannel;
use fl_base::{ChanId, Circuit, Frag, MAX_CHANNELS, MsgNo};
use fl_compact_calls::CompactCall;
use fl_endpoint::{
    End, EndFault, WriteAnswer, law_bind_accounts, law_call_accounts, law_exchange_accounts,
    law_rule_accounts, law_write_accounts,
};
use fl_link::PutSide;
use fl_machine::Reassemblies;
use fl_value_data::Call;
use std::alloc::{AllocError, Global};
use std::marker::Model;

/// The dispatchers of one core, and the ends that sit at them. Both are named by their places, from 0, in the order in which
/// they were added.
///
/// The links that ends use are not part of a board: the side that an event needs is lent to it. It is for the caller to lend
/// the side of the end that is named, and at a turn the side of the end that is due ([`Board::due`]).
#[derive(Drop)]
pub struct Board {
    alloc: Global,
    pub(crate) dispatchers: Vec<Dispatcher>,
    pub(crate) seats: Vec<EndAtChannel>,
    // for each seat, at its place, what was taken of the call that comes to its end
    pub(crate) calls: Reassemblies,
    // memory that calls write their numbers to
    spare: Vec<u64>,
}

impl Model for Board {
    ghost use Rattle.std.specs.Coded.{codes};
    ghost use Rattle.fl_compile.specs.contracts.program.Program.{the_row};
    ghost use Rattle.fl_core.specs.BoardView.{TheBoard};
    ghost use Rattle.fl_core.specs.BoardInside.{board_of, IsStored};

    ghost Value = { TheBoard };

    ghost coded = { Prim.hlevel (codes, the_row.coded) };

    ghost view = { λ k. board_of k.dispatchers.items k.seats.items k.calls };

    ghost invariant = { λ k. IsStored k.dispatchers.items k.seats.items k.calls };
}

// Room for one end more at a dispatcher with these ends, and on the board.
fn make_room(ends: &mut Vec<usize>, seats: &mut Vec<EndAtChannel>) -> Result<(), BoardFault>
    ensures ends { ends.new.items ≡ ends.old.items }
    ensures seats { seats.new.items ≡ seats.old.items }
    ensures room { OnOk result (vec_len ends.old < 1024) }
    ensures room_for_end { OnOk result (vec_len ends.new < vec_capacity ends.new) }
    ensures room_for_seat { OnOk result (vec_len seats.new < vec_capacity seats.new) }
    ensures refused { IfErr result (HasNoRoom (vec_len ends.old)) }
{
    if ends.len() >= MAX_CHANNELS {
        return Err(BoardFault::TooManyEnds);
    }
    let Ok(()) = ends.reserve(1) else {
        return Err(BoardFault::Memory);
    };
    let Ok(()) = seats.reserve(1) else {
        return Err(BoardFault::Memory);
    };
    Ok(())
}

impl Board {
    /// A board without dispatchers and ends. Takes no memory.
    pub fn new(alloc: Global) -> Board
        ensures empty { result ≡ record { dispatchers = []; seats = [] } }
    {
        Board {
            alloc,
            dispatchers: Vec::new(alloc),
            seats: Vec::new(alloc),
            calls: Reassemblies::new(alloc),
            spare: Vec::new(alloc),
        }
    }

    /// What is known of a board at any time. It does nothing.
    pub fn law_sound(&self)
        ensures sound { IsBoard self.now }
    {
        let _ends = self.seats.len();
    }

    /// How many dispatchers there are.
    pub fn dispatchers(&self) -> usize
        ensures dispatchers { result ≡ length self.now.dispatchers }
    {
        self.dispatchers.len()
    }

    /// How many ends there are.
    pub fn ends(&self) -> usize
        ensures ends { result ≡ length self.now.seats }
    {
        self.seats.len()
    }

    /// How many ends a dispatcher has, at most 1,024.
    pub fn ends_at(&self, dispatcher: usize) -> usize
        requires { dispatcher < length self.now.dispatchers }
        ensures ends { (d : TheDispatcher) → slice_get self.now.dispatchers dispatcher ≡ Some d → result ≡ length d.ends }
    {
        let dispatcher = &self.dispatchers[dispatcher];
        dispatcher.ends.len()
    }

    /// One dispatcher more, without ends: its place.
    ///
    /// # Errors
    /// Out of memory (E99). The board is as it was then.
    pub fn add_dispatcher(&mut self) -> Result<usize, AllocError>
        ensures place { IfOk result (λ n. n ≡ length self.old.dispatchers) }
        ensures added { OnOk result (self.new ≡ with_dispatcher self.old) }
        ensures kept { OnErr result (self.new ≡ self.old) }
    {
        let place = self.dispatchers.len();
        let dispatcher = Dispatcher::new(self.alloc)?;
        let Ok(()) = self.dispatchers.push(dispatcher) else {
            return Err(AllocError);
        };
        Ok(place)
    }

    /// One end more, at a dispatcher, with a channel there that isn't registered yet: the end's place. An end that is refused
    /// is dropped. The kind is that of the sides that the end will be lent: it is for the caller to keep the two alike.
    ///
    /// # Errors
    /// The dispatcher has 1,024 ends (E54, see [`Board::ends_at`]); out of memory (E99). The board is as it was then.
    pub fn add_end(
        &mut self,
        dispatcher: usize,
        end: End,
        kind: ChannelKind,
    ) -> Result<usize, BoardFault>
        requires { dispatcher < length self.old.dispatchers }
        ensures adds { Adds self.old dispatcher end kind result self.new }
    {
        let place = self.seats.len();
        let at = &mut self.dispatchers[dispatcher];
        match make_room(&mut at.ends, &mut self.seats) {
            Err(fault) => Err(fault),
            Ok(()) => {
                end.law_sound();
                let Ok(()) = end.add_place(&mut self.calls) else {
                    return Err(BoardFault::Memory);
                };
                let channel = ChanId(at.ends.len() as u16);
                at.ends.push_reserved(place);
                self.seats.push_reserved(EndAtChannel {
                    end,
                    dispatcher,
                    channel,
                    kind,
                });
                Ok(place)
            }
        }
    }

    /// Takes back the end that was added last, where nothing else has happened since: the board is as it was before. So a
    /// caller that adds two ends leaves the board as it was where there is no memory for the second.
    pub fn take_back(&mut self)
        requires { IsGrown self.old }
        ensures before { (b : TheBoard) (n : ℕ) (d : TheDispatcher) (s : TheEnd) (kind : ChannelKind) → slice_get b.dispatchers n ≡ Some d
            → self.old ≡ with_new_end b n d s kind → self.new ≡ b }
    {
        let Some(seat) = self.seats.pop() else {
            unreachable!();
        };
        let at = &mut self.dispatchers[seat.dispatcher];
        at.ends.pop();
        self.calls.take_back();
    }

    /// The end at a place, by itself: it shows all but what was taken of the call under way.
    #[inline]
    pub fn end(&self, e: usize) -> &End
        requires { e < length self.now.seats }
        ensures end { Holds self.now e (λ s. s.end ≡ with_parts result.now s.end.parts) }
    {
        let seat = &self.seats[e];
        &seat.end
    }

    /// What is known of an end at any time. It does nothing.
    #[inline]
    pub fn law_end_sound(&self, e: usize)
        requires { e < length self.now.seats }
        ensures sound { Holds self.now e (λ s. Sound s.end) }
    {
        let _seat = &self.seats[e];
    }

    /// Binds an end to a circuit; 0 off links. An end that is bound already stays as it is.
    pub fn bind(&mut self, e: usize, circuit: Circuit)
        requires { e < length self.old.seats }
        ensures binds { ChangesEnd self.old e (λ s t. t ≡ bound s circuit.0) self.new }
    {
        // It has 16 bits, which the proof knows once it is read.
        let _number = circuit.0;
        law_bind_accounts();
        let seat = &mut self.seats[e];
        seat.end.bind(circuit);
    }

    /// Sets a reply rule at an end ([`End::reply_rule`]).
    ///
    /// # Errors
    /// As the end's: E41, E42. The board is as it was then.
    pub fn reply_rule(&mut self, e: usize, msg: MsgNo, reply: MsgNo) -> Result<(), EndFault>
        requires { e < length self.old.seats }
        ensures sets { ChangesEnd self.old e (λ s t. SetsRule s msg.0 reply.0 result t) self.new }
        ensures kept { OnErr result (self.new ≡ self.old) }
    {
        law_rule_accounts();
        let seat = &mut self.seats[e];
        seat.end.reply_rule(msg, reply)
    }

    /// An end exchanges its reply rules with another of the same interface, which sits nowhere ([`End::exchange_rules`]). Takes
    /// no memory.
    pub fn exchange_rules(&mut self, e: usize, other: &mut End)
        requires there { e < length self.old.seats }
        requires interface { Holds self.old e (λ s. interface_in s.end ≡ interface_in other.old) }
        ensures exchanges { ChangesEnd self.old e (λ s t. Exchanges s other.old t other.new) self.new }
    {
        other.law_sound();
        law_exchange_accounts();
        let seat = &mut self.seats[e];
        seat.end.exchange_rules(other);
    }

    /// Makes a call at an end ([`End::call`]).
    ///
    /// # Errors
    /// As the end's, in its order: E41, E42, E43, E64, E40, E99. The board is as it was then.
    #[inline]
    pub fn call(&mut self, e: usize, call: &Call) -> Result<(), EndFault>
        requires { e < length self.old.seats }
        ensures calls { ChangesEnd self.old e (λ s t. Calls s (call_of call.now) result t) self.new }
        ensures kept { OnErr result (self.new ≡ self.old) }
    {
        law_call_accounts();
        let seat = &mut self.seats[e];
        seat.end.call(call, &mut self.spare)
    }

    /// As [`Board::call`], of a call in little memory.
    ///
    /// # Errors
    /// As [`Board::call`]'s. The board is as it was then.
    #[inline]
    pub fn call_compact(&mut self, e: usize, call: &CompactCall) -> Result<(), EndFault>
        requires { e < length self.old.seats }
        ensures calls { ChangesEnd self.old e (λ s t. Calls s (call_of call.now) result t) self.new }
        ensures kept { OnErr result (self.new ≡ self.old) }
    {
        law_call_accounts();
        let seat = &mut self.seats[e];
        seat.end.call_compact(call, &mut self.spare)
    }

    /// Takes back the memory of a call that was done with: the next call that is read as a list takes it, and its values are dropped
    /// then. Where that call is held as its number, the memory is given up.
    #[inline(always)]
    pub fn give_back(&mut self, call: Box<Call>)
        ensures same { self.new ≡ self.old }
    {
        self.calls.give_back(call);
    }

    /// Its dispatchers and ends are moved into memory that is asked for now, so into that of the thread on which this is called. Where there is none, all
    /// stays where it is.
    pub fn take_own_memory(&mut self)
        ensures same { self.new ≡ self.old }
    {
        in_own_memory(self.alloc, &mut self.dispatchers);
        in_own_memory(self.alloc, &mut self.seats);
    }

    /// The fragment that [`Board::write`] would put next ([`End::show`]).
    ///
    /// # Errors
    /// As the end's: E43, E64.
    #[inline]
    pub fn show<P: PutSide>(&self, e: usize, out: &P) -> Result<Option<Frag>, EndFault>
        requires { e < length self.now.seats }
        ensures shows { Holds self.now e (λ s. ShowsNext (P.epoch_of out.now) (P.told_of out.now) s.end result) }
    {
        let seat = &self.seats[e];
        seat.end.show(out)
    }

    /// Puts the next fragment of an end's call in transmission ([`End::write`]). The channel of the end that the fragment
    /// goes to is triggered by its own core ([`Board::trigger`]). Takes no memory.
    ///
    /// # Errors
    /// As the end's: E43, E64, E33. The board is as it was then.
    #[inline(always)]
    pub fn write<P: PutSide>(&mut self, e: usize, out: &mut P) -> Result<WriteAnswer, EndFault>
        requires { e < length self.old.seats }
        ensures writes { ChangesEnd self.old e (λ s t. Writes P.puts s out.old result t out.new) self.new }
        ensures kept { OnErr result (self.new ≡ self.old) }
    {
        law_write_accounts::<P>();
        let seat = &mut self.seats[e];
        seat.end.write(out)
    }
}
