//! An end with a call of one fragment in transmission, which needs no values, and no memory.

ghost use Rattle.std.specs.Prelude.{◌≡◌, ◌≢◌, ◌∷◌, [], true, take, length, Err, IsSome, IfOk, IfSome, IfNone};
ghost use Rattle.fl_base.specs.declared.fragment.Frag.{Frag};
ghost use Rattle.fl_base.specs.Control.{bare};
ghost use Rattle.fl_ring.specs.SharedSides.{SharedPuts};
ghost use Rattle.fl_value_data.specs.Value.{TheCall, call_of};
ghost use Rattle.fl_value_data.specs.Fits.{fits_of};
ghost use Rattle.fl_codec.specs.Codecs.{numbers_of};
ghost use Rattle.fl_compile.specs.Programs.{program_of};
ghost use Rattle.fl_endpoint.specs.View.{interface_in, frags_from, is_busy, number_or_0};
ghost use Rattle.fl_endpoint.specs.Events.{IsReady, IsOpen, Calls, Writes, SetsRule};
ghost use Rattle.fl_endpoint.specs.Lent.{IsPlaceOf, receipt, ReceivesAt};
ghost use Rattle.fl_endpoint.specs.Stored.{IsOwn};
ghost use Rattle.fl_c_operations.specs.Codecs.{AreCodecs};
ghost use Rattle.fl_c_operations.specs.Shorts.{AreNoShorts};
ghost use Rattle.fl_c_operations.specs.Transmissions.{all_of, transmitting_frag, Transmits, RefusesFitting, holds_all};
ghost use Rattle.fl_c_operations.specs.Transmissions.{IsFragFrom, IsShortAt, IsNoShortAt, SendsOne};

use crate::by_stub::{TapedCall, taped_call, taped_frag};
use crate::codecs::codecs_of;
use crate::looked::LookedSide;
use crate::short::{ShortCall, short_call, short_frag};
use fl_base::{Circuit, Frag, MsgNo};
use fl_codec::Codec;
use fl_compile::Program;
use fl_endpoint::{End, EndFault, ReceiveAnswer, WriteAnswer};
use fl_link::{PutFault, TakeSide};
use fl_machine::Reassemblies;
use fl_ring::SharedSide;
use fl_value_data::Call;
use std::alloc::{AllocError, Global};
use std::marker::Model;

/// An end, and the only fragment of a call in transmission, behind which all that the end sends waits until that is put.
#[derive(Drop)]
pub(crate) struct TransmittingEnd {
    end: End,
    // The codec of each message that has one.
    codecs: Vec<Option<Codec>>,
    in_transmission: Option<Frag>,
}

impl Model for TransmittingEnd {
    ghost use Rattle.std.specs.Coded.{codes};
    ghost use Rattle.fl_compile.specs.contracts.program.Program.{the_row};
    ghost use Rattle.fl_endpoint.specs.View.{TheEnd};
    ghost use Rattle.fl_c_operations.specs.Transmissions.{transmitting, IsTransmitting};

    ghost Value = { TheEnd };

    ghost coded = { Prim.hlevel (codes, the_row.coded) };

    ghost view = { λ h. transmitting h.in_transmission h.end };

    ghost invariant = { λ h. IsTransmitting h.in_transmission h.end h.codecs.items };
}

/// What the write of a call's only fragment came to.
#[derive(Clone, Copy)]
pub(crate) enum Sent {
    /// It was put.
    PutNow,
    /// There was no room: it is in transmission.
    NoRoom,
    /// The ring has carried all that it ever will: it is in transmission.
    RingSpent,
}

// What a fitting call is refused for, but for the want of memory.
#[inline]
fn refused(end: &End) -> Option<EndFault>
    ensures some { IfSome result (λ fault. RefusesFitting end.now fault) }
    ensures not_memory { IfSome result (λ fault. fault ≢ EndFault.Memory) }
    ensures none { IfNone result (IsReady end.now × (end.now.outgoing.unwritten ≡ [])) }
{
    if !end.is_bound() {
        return Some(EndFault::NotBound);
    }
    if end.is_failed() {
        return Some(EndFault::Failed);
    }
    if end.is_busy() {
        return Some(EndFault::Busy);
    }
    None
}

// What a fitting call comes to for which memory ran out.
#[inline(never)]
fn without_memory(end: &End) -> EndFault
    ensures refuses { RefusesFitting end.now result }
{
    match refused(end) {
        Some(fault) => fault,
        None => EndFault::Memory,
    }
}

// What a fitting call is refused for while one of one fragment is in transmission.
#[cold]
#[inline(never)]
fn refused_transmitting(end: &End) -> EndFault
    requires bound { IsSome end.now.circuit }
    ensures refuses { (f : Frag) → RefusesFitting (transmitting_frag f end.now) result }
    ensures not_memory { result ≢ EndFault.Memory }
{
    if end.is_failed() {
        return EndFault::Failed;
    }
    EndFault::Busy
}

// The circuit of an end; 0 where it isn't bound.
#[inline(always)]
fn circuit_of(end: &End) -> Circuit
    ensures circuit { result.0 ≡ number_or_0 end.now.circuit }
{
    match end.circuit() {
        Some(circuit) => circuit,
        None => Circuit(0),
    }
}

// How many calls are to be sent, with the one in transmission.
#[inline]
fn all_calls(end: &End) -> usize
    ensures all { result ≡ length (all_of end.now.outgoing) }
{
    end.law_sound();
    let waiting = end.replies_waiting();
    if end.is_busy() {
        return waiting + 1;
    }
    waiting
}

// Whether an end with a call of one fragment in transmission takes no fragment.
#[inline]
fn is_held(end: &End) -> bool
    ensures held { result ≡ holds_all end.now }
{
    if all_calls(end) != 16 {
        return false;
    }
    end.has_rules()
}

// Takes what stands first, while a call of one fragment is in transmission.
#[inline(never)]
fn receive_transmitting<T: TakeSide>(
    frag: &Frag,
    end: &mut End,
    from: &mut T,
    calls: &mut Reassemblies,
    place: usize,
) -> Result<ReceiveAnswer, EndFault>
    requires transmits { Transmits frag.now end.old }
    requires place { IsPlaceOf end.old calls.old place }
    ensures transmits { Transmits frag.now end.new }
    ensures receives { ReceivesAt T.takes (receipt (transmitting_frag frag.now end.old) from.old result (transmitting_frag frag.now end.new) from.new)
        calls.old place calls.new }
    ensures place { IsPlaceOf end.new calls.new place }
{
    if end.is_failed() {
        return Err(EndFault::Failed);
    }
    if is_held(end) {
        return Ok(ReceiveAnswer::HeldBack);
    }
    end.law_sound();
    end.receive(from, calls, place)
}

impl TransmittingEnd {
    // An end with no such call in transmission.
    //
    // # Errors
    // Out of memory (E99), for the codecs of its program.
    pub(crate) fn new(alloc: Global, end: End) -> Result<TransmittingEnd, AllocError>
        ensures same { IfOk result (λ transmitting. transmitting ≡ end) }
    {
        let codecs = codecs_of(alloc, end.program())?;
        Ok(TransmittingEnd {
            end,
            codecs,
            in_transmission: None,
        })
    }

    // The program of the binding's interface.
    #[inline]
    pub(crate) fn program(&self) -> &Program
        ensures program { result.now ≡ self.now.program }
    {
        self.end.program()
    }

    // Whether a call is in transmission.
    #[inline]
    pub(crate) fn is_busy(&self) -> bool
        ensures busy { result ≡ is_busy self.now.outgoing }
    {
        match &self.in_transmission {
            Some(_) => true,
            None => self.end.is_busy(),
        }
    }

    // What a fitting call comes to for which memory ran out: what the end refuses it for, else the want of memory.
    #[cold]
    #[inline(never)]
    pub(crate) fn without_memory(&self) -> EndFault
        ensures refuses { RefusesFitting self.now result }
    {
        match &self.in_transmission {
            Some(_) => refused_transmitting(&self.end),
            None => without_memory(&self.end),
        }
    }

    // The only fragment of the call of these numbers. None exactly where they are those of no call of a message of few numbers.
    #[inline(always)]
    pub(crate) fn short_frag(&self, numbers: &[u64]) -> Option<Frag>
        ensures short { IfSome result (λ f. IsFragFrom self.now numbers.now f) }
        ensures own { IfSome result IsOwn }
        ensures none { IfNone result (AreNoShorts (program_of self.now.program) numbers.now) }
    {
        let codecs = self.codecs.as_slice();
        let Some(frag) = short_frag(codecs, circuit_of(&self.end), numbers) else {
            return None;
        };
        Some(frag)
    }

    // The only fragment of the call of these numbers, where its message has no codec. It may find none.
    pub(crate) fn taped_frag(&self, numbers: &[u64]) -> Option<Frag>
        ensures short { IfSome result (λ f. IsFragFrom self.now numbers.now f) }
        ensures own { IfSome result IsOwn }
    {
        let Some(frag) = taped_frag(self.end.program(), circuit_of(&self.end), numbers) else {
            return None;
        };
        Some(frag)
    }

    // Makes a call of one fragment, which this is. It is never out of memory.
    #[inline(always)]
    pub(crate) fn call_frag(&mut self, frag: Frag) -> Result<(), EndFault>
        requires own { IsOwn frag }
        ensures calls { (c : TheCall) → fits_of (interface_in self.old) c ≡ true → frags_from self.old c ≡ frag ∷ []
            → Calls self.old c result self.new }
        ensures not_memory { result ≢ Err EndFault.Memory }
        ensures program { self.new.program ≡ self.old.program }
    {
        match &self.in_transmission {
            Some(_) => Err(refused_transmitting(&self.end)),
            None => match refused(&self.end) {
                Some(fault) => Err(fault),
                None => {
                    self.end.law_sound();
                    self.in_transmission = Some(frag);
                    Ok(())
                }
            },
        }
    }

    // Makes a call of one fragment, which this is, and puts that: what the write comes to, or why the call is refused. It is never
    // out of memory.
    #[inline(always)]
    pub(crate) fn send_frag(&mut self, frag: Frag, side: &mut LookedSide) -> Result<Sent, EndFault>
        requires own { IsOwn frag }
        ensures sends { (c : TheCall) → fits_of (interface_in self.old) c ≡ true → frags_from self.old c ≡ frag ∷ []
            → SendsOne self.old side.old.side c result self.new side.new.side }
        ensures program { self.new.program ≡ self.old.program }
    {
        match &self.in_transmission {
            Some(_) => Err(refused_transmitting(&self.end)),
            None => match refused(&self.end) {
                Some(fault) => Err(fault),
                None => {
                    self.end.law_sound();
                    match side.put(&frag) {
                        Ok(()) => Ok(Sent::PutNow),
                        Err(PutFault::Full) => {
                            self.in_transmission = Some(frag);
                            Ok(Sent::NoRoom)
                        }
                        Err(PutFault::Spent) => {
                            self.in_transmission = Some(frag);
                            Ok(Sent::RingSpent)
                        }
                    }
                }
            },
        }
    }

    // Makes a call that fits.
    #[inline]
    pub(crate) fn call(&mut self, call: &Call, spare: &mut Vec<u64>) -> Result<(), EndFault>
        requires fits { fits_of (interface_in self.old) (call_of call.now) ≡ true }
        ensures calls { Calls self.old (call_of call.now) result self.new }
        ensures program { self.new.program ≡ self.old.program }
    {
        match &self.in_transmission {
            Some(_) => Err(refused_transmitting(&self.end)),
            None => self.end.call(call, spare),
        }
    }

    // Puts the next fragment of the call in transmission.
    #[inline]
    pub(crate) fn write(&mut self, side: &mut SharedSide) -> Result<WriteAnswer, EndFault>
        ensures writes { Writes SharedPuts self.old side.old result self.new side.new }
        ensures program { self.new.program ≡ self.old.program }
    {
        let Some(frag) = &self.in_transmission else {
            return self.end.write(side);
        };
        if self.end.is_failed() {
            return Err(EndFault::Failed);
        }
        match side.try_put(frag) {
            Err(PutFault::Full) => Ok(WriteAnswer::Full),
            Err(PutFault::Spent) => Err(EndFault::Spent),
            Ok(()) => {
                self.in_transmission = None;
                Ok(WriteAnswer::Written {
                    number: 1,
                    count: 1,
                })
            }
        }
    }

    // Takes what stands first, and handles the call that it makes whole.
    #[inline]
    pub(crate) fn receive<T: TakeSide>(
        &mut self,
        from: &mut T,
        calls: &mut Reassemblies,
        place: usize,
    ) -> Result<ReceiveAnswer, EndFault>
        requires place { IsPlaceOf self.old calls.old place }
        ensures receives { ReceivesAt T.takes (receipt self.old from.old result self.new from.new) calls.old place calls.new }
        ensures place { IsPlaceOf self.new calls.new place }
    {
        match &self.in_transmission {
            Some(frag) => receive_transmitting(frag, &mut self.end, from, calls, place),
            None => self.end.receive(from, calls, place),
        }
    }

    // Tells that the end takes a fragment. It may miss that where 15 calls or more wait.
    #[inline(always)]
    pub(crate) fn may_take(&self) -> bool
        ensures opened { result ≡ true → IsOpen self.now }
    {
        if !self.end.is_bound() {
            return false;
        }
        if self.end.is_failed() {
            return false;
        }
        self.end.replies_waiting() < 15
    }

    // The call whose only fragment this is, whatever its epoch and the count that it tells, if there is no reply to it by rule. None
    // exactly where there is a reply, or where it is that of no call of a message of few numbers.
    #[inline(always)]
    pub(crate) fn short_call(&self, frag: &Frag) -> Option<ShortCall>
        ensures short { IfSome result (λ call. IsShortAt self.now call.msg.0 (numbers_of call.numbers) (bare frag.now)) }
        ensures none { IfNone result (IsNoShortAt self.now (bare frag.now)) }
    {
        let Some(call) = short_call(self.codecs.as_slice(), frag) else {
            return None;
        };
        match self.end.rule_for(call.msg) {
            Some(_) => None,
            None => {
                self.end.law_sound();
                Some(call)
            }
        }
    }

    // The same of a message that has no codec. It may find none.
    pub(crate) fn taped_call(&self, frag: &Frag) -> Option<TapedCall>
        ensures short { IfSome result (λ call. IsShortAt self.now call.msg.0 (take call.count call.numbers) (bare frag.now)) }
    {
        let Some(found) = taped_call(self.end.program(), frag) else {
            return None;
        };
        match self.end.rule_for(found.msg) {
            Some(_) => None,
            None => {
                self.end.law_sound();
                Some(found)
            }
        }
    }

    // Sets a rule.
    #[inline]
    pub(crate) fn reply_rule(&mut self, msg: MsgNo, reply: MsgNo) -> Result<(), EndFault>
        ensures sets { SetsRule self.old msg.0 reply.0 result self.new }
        ensures program { self.new.program ≡ self.old.program }
    {
        self.end.reply_rule(msg, reply)
    }
}
