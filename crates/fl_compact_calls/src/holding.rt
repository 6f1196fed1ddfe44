//! What a call in little memory holds.

ghost use Rattle.std.specs.Prelude.{◌≡◌, IfOk, IfSome};
ghost use Rattle.fl_interface.specs.Interface.{interface_of};
ghost use Rattle.fl_value_data.specs.Fits.{fits_of};
ghost use Rattle.fl_value_data.specs.Value.{call_of};
ghost use Rattle.fl_compact_calls.specs.Held.{held_in, seen_in, one_number};

use crate::number::{one_number, takes_number};
use crate::number_call::NumberCall;
use fl_base::MsgNo;
use fl_interface::Interface;
use fl_value_data::{Call, fits};
use std::alloc::{AllocError, Global};

/// What is held of a call.
#[derive(Debug, Drop)]
pub(crate) enum HeldCall {
    /// A call of one number from 0 to 2^64 - 1.
    Number(MsgNo, u64),
    /// Any other call, also one of a negative number.
    Other(Box<Call>),
}

/// A call as it is held.
#[derive(Debug)]
pub enum SeenCall<'a> {
    /// One of one number from 0 to 2^64 - 1: its message, and the number.
    Number(MsgNo, u64),
    /// Any other call, also one of a negative number.
    Other(&'a Call),
}

#[inline(never)]
fn box_call(alloc: Global, call: Call) -> Result<HeldCall, AllocError>
    ensures boxed { IfOk result (λ h. held_in h ≡ call_of call) }
{
    Ok(HeldCall::Other(Box::new(alloc, call)?))
}

// The arguments are moved into a list with just the memory that they want.
#[inline(never)]
fn take_all(alloc: Global, call: &mut Call) -> Result<HeldCall, AllocError>
    ensures taken { IfOk result (λ h. held_in h ≡ call_of call.old) }
{
    let mut args = Vec::with_capacity(alloc, call.args.len())?;
    args.append(&mut call.args)?;
    box_call(
        alloc,
        Call {
            msg: call.msg,
            args,
        },
    )
}

impl HeldCall {
    // What is held of a call. Its arguments are taken out of it, but those of a call of one number, which stay.
    #[inline(always)]
    pub(crate) fn take(alloc: Global, call: &mut Call) -> Result<HeldCall, AllocError>
        ensures taken { IfOk result (λ h. held_in h ≡ call_of call.old) }
    {
        match one_number(&call.args) {
            Some(number) => Ok(HeldCall::Number(call.msg, number)),
            None => take_all(alloc, call),
        }
    }

    // What is held of a call.
    #[inline(always)]
    pub(crate) fn keep(alloc: Global, call: Call) -> Result<HeldCall, AllocError>
        ensures kept { IfOk result (λ h. held_in h ≡ call_of call) }
    {
        match one_number(&call.args) {
            Some(number) => Ok(HeldCall::Number(call.msg, number)),
            None => box_call(alloc, call),
        }
    }

    // A call in memory that was used before, if there is some.
    #[inline(always)]
    fn box_in(alloc: Global, room: Option<Box<Call>>, call: Call) -> Result<HeldCall, AllocError>
        ensures boxed { IfOk result (λ h. held_in h ≡ call_of call) }
    {
        match room {
            None => box_call(alloc, call),
            Some(room) => {
                let mut room = room;
                *room = call;
                Ok(HeldCall::Other(room))
            }
        }
    }

    // What is held of a call, in memory that was used before, if it wants some. That memory is gone where it wants none.
    #[inline(always)]
    pub(crate) fn keep_in(
        alloc: Global,
        room: Option<Box<Call>>,
        call: Call,
    ) -> Result<HeldCall, AllocError>
        ensures kept { IfOk result (λ h. held_in h ≡ call_of call) }
    {
        match one_number(&call.args) {
            Some(number) => Ok(HeldCall::Number(call.msg, number)),
            None => HeldCall::box_in(alloc, room, call),
        }
    }

    // Its memory, if it has some.
    #[inline(always)]
    pub(crate) fn into_memory(self) -> Option<Box<Call>> {
        match self {
            HeldCall::Number(_, _) => None,
            HeldCall::Other(call) => Some(call),
        }
    }

    // What it is, without memory.
    #[inline(always)]
    pub(crate) fn seen(&self) -> SeenCall<'_>
        ensures seen { seen_in result ≡ held_in self.now }
    {
        match self {
            HeldCall::Number(msg, number) => SeenCall::Number(*msg, *number),
            HeldCall::Other(call) => SeenCall::Other(call),
        }
    }

    // Its number, if it is held as one of one number.
    #[inline(always)]
    pub(crate) fn number(&self) -> Option<u64>
        ensures number { IfSome result (λ n. (held_in self.now).args ≡ one_number n) }
    {
        match self {
            HeldCall::Number(_, number) => Some(*number),
            HeldCall::Other(_) => None,
        }
    }

    // Its message.
    #[inline(always)]
    pub(crate) fn msg(&self) -> MsgNo
        ensures msg { result.0 ≡ (held_in self.now).msg }
    {
        match self {
            HeldCall::Number(msg, _) => *msg,
            HeldCall::Other(call) => call.msg,
        }
    }

    // Whether it fits an interface.
    #[inline(always)]
    pub(crate) fn fits(&self, interface: &Interface) -> bool
        ensures same { result ≡ fits_of (interface_of interface.now) (held_in self.now) }
    {
        match self {
            HeldCall::Number(msg, number) => takes_number(interface, *msg, *number),
            HeldCall::Other(call) => fits(call, interface),
        }
    }

    // The call.
    #[inline(always)]
    pub(crate) fn lend<'a>(&'a self, spare: &'a mut NumberCall) -> &'a Call
        ensures same { call_of result.now ≡ held_in self.now }
    {
        match self {
            HeldCall::Number(msg, number) => spare.set(*msg, *number),
            HeldCall::Other(call) => call,
        }
    }
}
