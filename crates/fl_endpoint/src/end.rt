//! An end of a binding.

ghost use Rattle.std.specs.Prelude.{◌≡◌, ℕ, [], true, false, length, slice_get, Some, None, IfOk, OnOk, OnErr, IfSome};
ghost use Rattle.fl_value_data.specs.Value.{call_of};
ghost use Rattle.fl_value_data.specs.Fits.{fits_of};
ghost use Rattle.fl_base.specs.Control.{bare};
ghost use Rattle.fl_endpoint.specs.Accounts.{Sound};
ghost use Rattle.fl_endpoint.specs.Rules.{rule_of};
ghost use Rattle.fl_endpoint.specs.Lent.{IsPlaceOf, AddsPlace, taking, TakesInAt, receipt, ReceivesAt};
ghost use Rattle.fl_endpoint.specs.Stored.{IsOwn};
ghost use Rattle.fl_endpoint.specs.Inside.{circuit_of};
ghost use Rattle.fl_endpoint.specs.View.{interface_in, fresh, bound, is_circuit, is_busy, rule_at, has_rules, holds_back};
ghost use Rattle.fl_endpoint.specs.Events.{Readies, AdmitsBy, Admits, Calls, Writes, ShowsNext, Handles, SetsRule, Exchanges};

use crate::answer::{ReceiveAnswer, WriteAnswer};
use crate::fault::EndFault;
use crate::incoming::{most_fragments, reply_by_rule};
use crate::outgoing::{MOST_WAITING, Outgoing, QueuedCall};
use crate::rules::{ReplyRules, message};
use fl_base::{Circuit, Frag, MsgNo};
use fl_compact_calls::CompactCall;
use fl_compile::Program;
use fl_interface::same_args;
use fl_link::{PutFault, PutSide, Sight, TakeSide};
use fl_machine::{Reassemblies, TakeFault, Taken};
use fl_value_data::{Call, fits};
use fl_wire::law_one_reading;
use std::alloc::{AllocError, Global};
use std::marker::Model;
use std::mem;

/// One end of a binding. It sends calls, one at a time, by the side that a write is lent, and handles those that come by
/// the side that a receive is lent. What it has taken of a call that isn't whole yet stands at a place of `Reassemblies`, which
/// a receive is lent too ([`End::add_place`]): so many ends have them in one, and an end shows by itself none of it.
///
/// An end that was given a fragment that can't follow those before it has failed, and answers E64 for good.
#[derive(Drop)]
pub struct End {
    alloc: Global,
    program: Program,
    rules: ReplyRules,
    circuit: Option<Circuit>,
    outgoing: Outgoing,
    failed: bool,
}

impl Model for End {
    ghost use Rattle.std.specs.Coded.{codes};
    ghost use Rattle.fl_compile.specs.contracts.program.Program.{the_row};
    ghost use Rattle.fl_endpoint.specs.View.{TheEnd};
    ghost use Rattle.fl_endpoint.specs.Inside.{end_of, IsEnd};

    ghost Value = { TheEnd };

    ghost coded = { Prim.hlevel (codes, the_row.coded) };

    ghost view = { end_of };

    ghost invariant = { IsEnd };
}

impl End {
    /// An end that is bound to a circuit; 0 off links that circuits share. It has no memory for replies that wait: what
    /// a reply takes it takes with the receive that it answers, so that a write never needs any.
    ///
    /// # Errors
    /// Out of memory (E99).
    pub fn new(alloc: Global, program: Program, circuit: Circuit) -> Result<End, AllocError>
        ensures made { IfOk result (λ e. e ≡ fresh program (Some circuit.0)) }
        ensures sound { IfOk result (λ e. Sound e) }
    {
        // It has 16 bits, which the proof knows once it is read.
        let _number = circuit.0;
        let mut end = End::unbound(alloc, program)?;
        end.bind(circuit);
        Ok(end)
    }

    /// An end that isn't bound yet: until [`End::bind`] it answers E43 to calls, writes, looks and receives. Rules may be
    /// set.
    ///
    /// # Errors
    /// Out of memory (E99).
    pub fn unbound(alloc: Global, program: Program) -> Result<End, AllocError>
        ensures made { IfOk result (λ e. e ≡ fresh program None) }
        ensures sound { IfOk result (λ e. Sound e) }
    {
        let rules = ReplyRules::new(alloc, program.interface().messages.len())?;
        let outgoing = Outgoing::new(alloc);
        Ok(End {
            alloc,
            program,
            rules,
            circuit: None,
            outgoing,
            failed: false,
        })
    }

    /// Binds the end to a circuit. An end that is bound already stays as it is.
    #[inline]
    pub fn bind(&mut self, circuit: Circuit)
        ensures bound { self.new ≡ bound self.old circuit.0 }
        ensures program { self.new.program ≡ self.old.program }
    {
        if self.circuit.is_none() {
            self.circuit = Some(circuit);
        }
    }

    /// What is known of an end by itself at any time: a law of each end, for the layers above. It does nothing.
    #[inline]
    pub fn law_sound(&self)
        ensures sound { Sound self.now }
        ensures alone { self.now.parts ≡ [] }
    {
        let _circuit = self.circuit;
    }

    /// The program of the binding's interface.
    #[inline]
    pub fn program(&self) -> &Program
        ensures program { result.now ≡ self.now.program }
    {
        &self.program
    }

    /// The circuit; none where the end isn't bound yet.
    #[inline]
    pub fn circuit(&self) -> Option<Circuit>
        ensures circuit { circuit_of result ≡ self.now.circuit }
    {
        self.circuit
    }

    /// Whether the end is bound.
    #[inline]
    pub fn is_bound(&self) -> bool
        ensures bound { result ≡ is_circuit self.now.circuit }
    {
        self.circuit.is_some()
    }

    /// Whether the end failed: it was given a fragment that can't follow those before it.
    #[inline]
    pub fn is_failed(&self) -> bool
        ensures failed { result ≡ self.now.failed }
    {
        self.failed
    }

    /// Whether a call is in transmission.
    #[inline]
    pub fn is_busy(&self) -> bool
        ensures busy { result ≡ is_busy self.now.outgoing }
    {
        self.outgoing.is_busy()
    }

    /// How many replies wait, at most 16.
    #[inline]
    pub fn replies_waiting(&self) -> usize
        ensures waiting { result ≡ length self.now.outgoing.waiting }
    {
        self.outgoing.waiting()
    }

    /// Whether the end has a reply rule for any message.
    #[inline]
    pub fn has_rules(&self) -> bool
        ensures rules { result ≡ has_rules self.now.rules }
    {
        self.rules.any()
    }

    /// The message of the reply to a message, where there is a rule.
    #[inline]
    pub fn rule_for(&self, msg: MsgNo) -> Option<MsgNo>
        ensures rule { rule_of result ≡ rule_at self.now.rules msg.0 }
    {
        self.rules.reply_to(msg)
    }

    /// Sets a rule: each call of the first message that the end handles is answered by a call of the second with the same
    /// arguments. A later rule for the message replaces an earlier one. Takes no memory.
    ///
    /// # Errors
    /// The interface doesn't have both messages (E41); their argument types differ (E42). The end is as it was then.
    #[inline]
    pub fn reply_rule(&mut self, msg: MsgNo, reply: MsgNo) -> Result<(), EndFault>
        ensures sets { SetsRule self.old msg.0 reply.0 result self.new }
        ensures program { self.new.program ≡ self.old.program }
    {
        let interface = self.program.interface();
        let Some(from) = message(interface, msg) else {
            return Err(EndFault::UnknownMessage);
        };
        let Some(to) = message(interface, reply) else {
            return Err(EndFault::UnknownMessage);
        };
        if !same_args(&from.args, &to.args) {
            return Err(EndFault::Misfit);
        }
        self.rules.set(msg, reply);
        Ok(())
    }

    /// The two ends exchange their reply rules, and nothing else. Takes no memory.
    ///
    /// So the rules of an end that can't be made yet are set at another end of the same interface, and it gets them once it
    /// is made.
    #[inline]
    pub fn exchange_rules(&mut self, other: &mut End)
        requires interface { interface_in self.old ≡ interface_in other.old }
        ensures exchanges { Exchanges self.old other.old self.new other.new }
    {
        mem::swap(&mut self.rules, &mut other.rules);
    }

    // The circuit of an end that is bound and has not failed.
    fn ready(&self) -> Result<Circuit, EndFault>
        ensures ready { Readies self.now result }
    {
        match self.circuit {
            None => Err(EndFault::NotBound),
            Some(_) if self.failed => Err(EndFault::Failed),
            Some(circuit) => Ok(circuit),
        }
    }

    // The fragment that is to be written next: no link changes it, or takes it for an acknowledgement.
    fn next(&self) -> Option<Frag>
        ensures next { result ≡ slice_get self.now.outgoing.unwritten 0 }
        ensures own { IfSome result IsOwn }
    {
        self.outgoing.next()
    }

    // Why a call of a message may not be made, before memory is asked for, by whether it fits; else the circuit.
    fn admit_by(&self, msg: MsgNo, fits: bool) -> Result<Circuit, EndFault>
        ensures admits { AdmitsBy self.now msg.0 fits result }
    {
        let interface = self.program.interface();
        if usize::from(msg.0) >= interface.messages.len() {
            return Err(EndFault::UnknownMessage);
        }
        if !fits {
            return Err(EndFault::Misfit);
        }
        let circuit = match self.ready() {
            Ok(circuit) => circuit,
            Err(fault) => return Err(fault),
        };
        if self.is_busy() {
            return Err(EndFault::Busy);
        }
        Ok(circuit)
    }

    // Why a call may not be made, before memory is asked for; else the circuit.
    fn admit(&self, call: &Call) -> Result<Circuit, EndFault>
        ensures admits { Admits self.now (call_of call.now) result }
    {
        self.admit_by(call.msg, fits(call, self.program.interface()))
    }

    // The same of a call in little memory.
    #[inline(always)]
    fn admit_compact(&self, call: &CompactCall) -> Result<Circuit, EndFault>
        ensures admits { Admits self.now (call_of call.now) result }
    {
        self.admit_by(call.msg(), call.fits(self.program.interface()))
    }

    /// Makes a call: it is accepted, and the end is busy until its last fragment is written. The numbers of the arguments of a
    /// call of one fragment are written to `spare`, whatever stands there, and that memory is left for the next call, of
    /// whichever end; a longer call is kept as its payload, in memory of its own.
    ///
    /// # Errors
    /// In this order: the interface has no such message (E41), the arguments don't fit (E42), the end isn't bound yet
    /// (E43), it failed earlier (E64), a call is in transmission (E40); then out of memory (E99). The end is as it was
    /// then.
    #[inline]
    pub fn call(&mut self, call: &Call, spare: &mut Vec<u64>) -> Result<(), EndFault>
        ensures calls { Calls self.old (call_of call.now) result self.new }
        ensures program { self.new.program ≡ self.old.program }
    {
        let circuit = match self.admit(call) {
            Ok(circuit) => circuit,
            Err(fault) => return Err(fault),
        };
        let Ok(queued) = QueuedCall::of(self.alloc, spare, &self.program, call, call.msg) else {
            return Err(EndFault::Memory);
        };
        self.outgoing
            .begin_from(&self.program, circuit, queued, spare);
        Ok(())
    }

    /// As [`End::call`], for a call in little memory. One of one number of 0 to 2^64 - 1 takes no memory, and leaves `spare` alone: the
    /// number is its tape, whatever scalar or enum the argument is.
    ///
    /// # Errors
    /// Those of [`End::call`], in the same order. The end is as it was then.
    #[inline(always)]
    pub fn call_compact(&mut self, call: &CompactCall, spare: &mut Vec<u64>) -> Result<(), EndFault>
        ensures calls { Calls self.old (call_of call.now) result self.new }
        ensures program { self.new.program ≡ self.old.program }
    {
        let circuit = match self.admit_compact(call) {
            Ok(circuit) => circuit,
            Err(fault) => return Err(fault),
        };
        let Ok(queued) = QueuedCall::of_compact(self.alloc, spare, &self.program, call, call.msg())
        else {
            return Err(EndFault::Memory);
        };
        self.outgoing
            .begin_from(&self.program, circuit, queued, spare);
        Ok(())
    }

    /// The fragment that [`End::write`] would put next, with the epoch and the number told that the side would give it;
    /// none where no call is in transmission.
    ///
    /// # Errors
    /// The end isn't bound yet (E43), or failed earlier (E64).
    #[inline]
    pub fn show<P: PutSide>(&self, out: &P) -> Result<Option<Frag>, EndFault>
        ensures shows { ShowsNext (P.epoch_of out.now) (P.told_of out.now) self.now result }
    {
        if let Err(fault) = self.ready() {
            return Err(fault);
        }
        match self.next() {
            None => Ok(None),
            Some(frag) => Ok(Some(frag.stamp(out.next_epoch(), out.next_told()))),
        }
    }

    /// Puts the next fragment of the call in transmission. Where it was the last, the first reply that waits is accepted
    /// at once. Takes no memory.
    ///
    /// # Errors
    /// The end isn't bound yet (E43), or failed earlier (E64); the side has carried as many fragments as it ever will
    /// (E33). End and side are as they were then.
    #[inline]
    pub fn write<P: PutSide>(&mut self, out: &mut P) -> Result<WriteAnswer, EndFault>
        ensures writes { Writes P.puts self.old out.old result self.new out.new }
        ensures program { self.new.program ≡ self.old.program }
    {
        let circuit = match self.ready() {
            Ok(circuit) => circuit,
            Err(fault) => return Err(fault),
        };
        let Some(frag) = self.next() else {
            return Ok(WriteAnswer::Nothing);
        };
        match out.put(&frag) {
            Err(PutFault::Full) => Ok(WriteAnswer::Full),
            Err(PutFault::Spent) => Err(EndFault::Spent),
            Ok(()) => {
                let (number, count) = self.outgoing.mark_written(&self.program, circuit);
                Ok(WriteAnswer::Written { number, count })
            }
        }
    }

    // As `handle`. Out of line, so that a call to which there is no reply has nothing of it.
    #[inline(never)]
    fn handle_with_reply(
        &mut self,
        circuit: Circuit,
        call: CompactCall,
    ) -> Result<ReceiveAnswer, EndFault>
        requires bound { self.old.circuit ≡ Some circuit.0 }
        requires takes { holds_back self.old ≡ false }
        requires fits { fits_of (interface_in self.old) (call_of call) ≡ true }
        ensures handles { Handles self.old (call_of call) result self.new }
    {
        match reply_by_rule(self.alloc, &self.program, &self.rules, &call) {
            Err(_) => Err(EndFault::Memory),
            Ok(reply) => {
                let Ok(()) = self.outgoing.accept(&self.program, circuit, reply) else {
                    return Err(EndFault::Memory);
                };
                Ok(ReceiveAnswer::Handle(call))
            }
        }
    }

    // A call that is whole is handled, and the reply to it by rule accepted, if there is one.
    #[inline(always)]
    fn handle(&mut self, circuit: Circuit, call: CompactCall) -> Result<ReceiveAnswer, EndFault>
        requires bound { self.old.circuit ≡ Some circuit.0 }
        requires takes { holds_back self.old ≡ false }
        requires fits { fits_of (interface_in self.old) (call_of call) ≡ true }
        ensures handles { Handles self.old (call_of call) result self.new }
    {
        match self.rules.reply_to(call.msg()) {
            Some(_) => self.handle_with_reply(circuit, call),
            None => {
                let handled = ReceiveAnswer::Handle(call);
                Ok(handled)
            }
        }
    }

    /// One place more, for the calls that come to this end: of its program, and between two calls. It has memory for any call
    /// of the interface.
    ///
    /// # Errors
    /// Out of memory (E99). The places are as they were then.
    pub fn add_place(&self, calls: &mut Reassemblies) -> Result<(), AllocError>
        ensures added { OnOk result (AddsPlace self.now calls.old calls.new) }
        ensures place { OnOk result (IsPlaceOf self.now calls.new (length calls.old)) }
        ensures kept { OnErr result (calls.new ≡ calls.old) }
    {
        let program = self.program.duplicate(self.alloc)?;
        let capacity = most_fragments(program.plans());
        calls.add(program, capacity)
    }

    // What a fragment that is to be taken comes to, at the end's place. In line, so that the call isn't read back just after its
    // parts were stored.
    #[inline(always)]
    fn take_in(
        &mut self,
        circuit: Circuit,
        frag: &Frag,
        calls: &mut Reassemblies,
        place: usize,
    ) -> Result<ReceiveAnswer, EndFault>
        requires bare { bare frag.now ≡ frag.now }
        requires bound { self.old.circuit ≡ Some circuit.0 }
        requires takes { holds_back self.old ≡ false }
        requires place { IsPlaceOf self.old calls.old place }
        ensures takes_in { TakesInAt (taking self.old frag.now result self.new) calls.old place calls.new }
    {
        // What is known of the end is known once it is read.
        let _circuit = self.circuit;
        law_one_reading();
        match calls.take(place, frag) {
            Err(TakeFault::Memory) => Err(EndFault::Memory),
            Err(TakeFault::Wire(fault)) => {
                self.failed = true;
                Err(EndFault::Wire(fault))
            }
            Ok(Taken::Part) => Ok(ReceiveAnswer::Part),
            Ok(Taken::Whole(call)) => match self.handle(circuit, call) {
                Err(refused) => Err(refused),
                Ok(answer) => {
                    calls.finish(place);
                    Ok(answer)
                }
            },
        }
    }

    /// Takes the fragment that stands first, and handles the call that it makes whole: what was taken of it before stands at the
    /// end's place among `calls`. Where the message has a rule, the reply is accepted at once if no call is in transmission, and
    /// else waits. An end with a rule takes nothing while 16 replies wait. Memory is taken only where a call becomes whole.
    ///
    /// # Errors
    /// The end isn't bound yet (E43), or failed earlier (E64). The fragment can't follow those before it (E60 to E63,
    /// E65, E66): it is left, and the end has failed for good. Out of memory (E99): the fragment is left, and the end
    /// is as it was.
    #[inline]
    pub fn receive<T: TakeSide>(
        &mut self,
        from: &mut T,
        calls: &mut Reassemblies,
        place: usize,
    ) -> Result<ReceiveAnswer, EndFault>
        requires place { IsPlaceOf self.old calls.old place }
        ensures receives { ReceivesAt T.takes (receipt self.old from.old result self.new from.new) calls.old place calls.new }
        ensures place { IsPlaceOf self.new calls.new place }
    {
        let circuit = match self.ready() {
            Ok(circuit) => circuit,
            Err(fault) => return Err(fault),
        };
        if self.replies_waiting() == MOST_WAITING && self.has_rules() {
            return Ok(ReceiveAnswer::HeldBack);
        }
        match from.peek() {
            Sight::Empty => Ok(ReceiveAnswer::Empty),
            Sight::Acknowledgement => {
                let _ = from.take();
                Ok(ReceiveAnswer::Quiet)
            }
            Sight::Data(frag) => {
                match self.take_in(circuit, &frag.bare(), calls, place) {
                    Err(fault) => Err(fault),
                    Ok(answer) => {
                        let _ = from.take();
                        Ok(answer)
                    }
                }
            }
        }
    }
}
