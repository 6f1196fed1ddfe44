//! A call in little memory.

ghost use Rattle.std.specs.Prelude.{◌≡◌, IfOk, IfSome};
ghost use Rattle.fl_interface.specs.Interface.{interface_of};
ghost use Rattle.fl_value_data.specs.Fits.{fits_of};
ghost use Rattle.fl_value_data.specs.Value.{call_of};
ghost use Rattle.fl_compact_calls.specs.Held.{one_number, seen_in};

use crate::holding::{HeldCall, SeenCall};
use crate::number_call::NumberCall;
use fl_base::MsgNo;
use fl_interface::Interface;
use fl_value_data::Call;
use std::alloc::{AllocError, Global};
use std::marker::Model;
use std::snapshot::Snapshot;
use std::{fmt, mem};

/// A call in little memory. Contracts see it as the call that it was made of.
#[derive(Drop)]
pub struct CompactCall {
    held: HeldCall,
    // for contracts alone
    was: Snapshot<Call>,
}

impl Model for CompactCall {
    ghost use Rattle.std.specs.Prelude.{◌≡◌};
    ghost use Rattle.fl_value_data.specs.declared.value.Call.{Call};
    ghost use Rattle.fl_value_data.specs.contracts.value.Call.{the_row};
    ghost use Rattle.fl_value_data.specs.Value.{call_of};
    ghost use Rattle.fl_compact_calls.specs.Held.{held_in};

    ghost Value = { Call };

    ghost coded = { the_row.coded };

    ghost view = { λ c. c.was.value };

    ghost invariant = { λ c. held_in c.held ≡ call_of c.was.value };
}

impl CompactCall {
    /// A call. Where its arguments are one number of 0 to 2^64 - 1 they stay in it, and no memory is taken; else they are taken
    /// out of it.
    ///
    /// # Errors
    /// Out of memory. The arguments may be gone then.
    #[inline(always)]
    pub fn take(alloc: Global, call: &mut Call) -> Result<CompactCall, AllocError>
        ensures taken { IfOk result (λ c. c ≡ call.old) }
    {
        let was = Snapshot::of(call);
        let held = HeldCall::take(alloc, call)?;
        Ok(CompactCall { held, was })
    }

    /// A call. Takes no memory for one of one number of 0 to 2^64 - 1.
    ///
    /// # Errors
    /// Out of memory.
    #[inline(always)]
    pub fn keep(alloc: Global, call: Call) -> Result<CompactCall, AllocError>
        ensures kept { IfOk result (λ c. c ≡ call) }
    {
        let was = Snapshot::of(&call);
        let held = HeldCall::keep(alloc, call)?;
        Ok(CompactCall { held, was })
    }

    /// A call of one number. Takes no memory. What stands in `spare` is for contracts alone.
    #[inline(always)]
    pub fn of_number(spare: &mut NumberCall, msg: MsgNo, number: u64) -> CompactCall
        ensures call { call_of result ≡ record { msg = msg.0; args = one_number number } }
    {
        let was = Snapshot::of(spare.set(msg, number));
        let held = HeldCall::Number(msg, number);
        CompactCall { held, was }
    }

    /// As [`CompactCall::keep`], in memory that was used before, if there is some. That memory is gone where the call wants none.
    ///
    /// # Errors
    /// Out of memory.
    #[inline(always)]
    pub fn keep_in(
        alloc: Global,
        room: Option<Box<Call>>,
        call: Call,
    ) -> Result<CompactCall, AllocError>
        ensures kept { IfOk result (λ c. c ≡ call) }
    {
        let was = Snapshot::of(&call);
        let held = HeldCall::keep_in(alloc, room, call)?;
        Ok(CompactCall { held, was })
    }

    /// The call takes the place of one, and takes no memory. Gives the memory of that one: one of one number of 0 to 2^64 - 1 has
    /// none.
    #[inline(always)]
    pub fn put_in(self, place: &mut CompactCall) -> Option<Box<Call>>
        ensures put { place.new ≡ self }
    {
        let CompactCall { held, was: _ } = mem::replace(place, self);
        held.into_memory()
    }

    /// The call as it is held.
    #[inline(always)]
    pub fn seen(&self) -> SeenCall<'_>
        ensures seen { seen_in result ≡ call_of self.now }
    {
        self.held.seen()
    }

    /// Its number, where its one argument is a number of 0 to 2^64 - 1.
    #[inline(always)]
    pub fn number(&self) -> Option<u64>
        ensures number { IfSome result (λ n. (call_of self.now).args ≡ one_number n) }
    {
        self.held.number()
    }

    /// Its message.
    #[inline(always)]
    pub fn msg(&self) -> MsgNo
        ensures msg { result.0 ≡ (call_of self.now).msg }
    {
        self.held.msg()
    }

    /// Whether it fits an interface.
    #[inline(always)]
    pub fn fits(&self, interface: &Interface) -> bool
        ensures same { result ≡ fits_of (interface_of interface.now) (call_of self.now) }
    {
        self.held.fits(interface)
    }

    /// The call, for one of one number by memory that is used again. Takes no memory.
    #[inline(always)]
    pub fn lend<'a>(&'a self, spare: &'a mut NumberCall) -> &'a Call
        ensures same { call_of result.now ≡ call_of self.now }
    {
        self.held.lend(spare)
    }
}

impl fmt::Debug for CompactCall {
    fn fmt<W: fmt::Write>(&self, f: &mut fmt::Formatter<W>) -> fmt::Result {
        fmt::Debug::fmt(&self.held, f)
    }
}
