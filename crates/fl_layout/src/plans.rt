//! The plan of an interface: lengths of payloads and tapes, and places of arguments.

ghost use Rattle.std.specs.Prelude.{◌≡◌, ◌<◌, ◌≤◌, map, length, true, IfOk, slice_get};
ghost use Rattle.std.specs.Option.{option_map};
ghost use Rattle.fl_interface.specs.Interface.{interface_of, message_of};
ghost use Rattle.fl_value_data.specs.Value.{call_of};
ghost use Rattle.fl_value_data.specs.Fits.{fits_of};
ghost use Rattle.fl_layout.specs.Places.{count, count_for};
ghost use Rattle.fl_layout.specs.Leaves.{argument_types};
ghost use Rattle.fl_layout.specs.Extents.{placed_of};
ghost use Rattle.fl_layout.specs.Layouts.{payload_length, tape_length, argument_size, IsLeast, IsGreatest, IsPlace};

use crate::arrange::{MessagePlan, plan_message};
use crate::extent::Fill;
use crate::filling::{extent_among, limit, start_among, tape_limit};
use fl_base::{FRAG_BYTES, MsgNo};
use fl_interface::Interface;
use fl_value_data::{Call, PlanNo};
use std::alloc::{AllocError, Global};

/// How many fragments a payload of so many bytes takes: one for each 56 bytes or part of them, and one for none.
pub fn fragment_count(len: usize) -> usize
    ensures count { result ≡ count_for len }
    ensures some { 0 < result }
{
    len.div_ceil(FRAG_BYTES).max(1)
}

/// The layout of each message of an interface under a plan, with a copy of the interface.
#[derive(Debug, Drop)]
pub struct Plans {
    /// The copy of the interface that is laid out.
    pub interface: Interface,
    /// The plan that lays it out.
    pub plan: PlanNo,
    messages: Vec<MessagePlan>,
    ghost laid: { map (λ m. m.placed.items) messages.items ≡ map (placed_of plan) (map message_of interface.messages.items) },
}

/// The plan of an interface.
///
/// # Errors
/// Out of memory (E99).
pub fn plan(alloc: Global, interface: &Interface, plan: PlanNo) -> Result<Plans, AllocError>
    ensures interface { IfOk result (λ p. interface_of p.interface ≡ interface_of interface.now) }
    ensures plan { IfOk result (λ p. p.plan ≡ plan) }
{
    let copy = interface.duplicate(alloc)?;
    let messages = plan_messages(alloc, &copy, plan)?;
    Ok(Plans {
        interface: copy,
        plan,
        messages,
    })
}

fn plan_messages(
    alloc: Global,
    interface: &Interface,
    plan: PlanNo,
) -> Result<Vec<MessagePlan>, AllocError>
    ensures laid { IfOk result (λ v. map (λ m. m.placed.items) v.items ≡ map (placed_of plan) (map message_of interface.now.messages.items)) }
{
    let mut messages = Vec::with_capacity(alloc, interface.messages.len())?;
    for message in &interface.messages {
        messages.push(plan_message(alloc, message, plan)?)?;
    }
    Ok(messages)
}

impl Plans {
    // What the plan keeps of a message; none where there is no such message.
    fn message(&self, msg: MsgNo) -> Option<&MessagePlan>
        ensures found { option_map (λ m. m.now) result ≡ slice_get self.now.messages.items msg.0 }
    {
        self.messages.get(usize::from(msg.0))
    }

    /// How many bytes a call's payload has, at most 32,768. Where the message has a string or a sized array, it goes
    /// over the call's arguments once, and over no element of an array; else the length is the same for each call.
    pub fn size_of(&self, call: &Call) -> usize
        requires fits { fits_of (interface_of self.now.interface) (call_of call.now) ≡ true }
        ensures size { result ≡ payload_length self.now.plan (interface_of self.now.interface) (call_of call.now) }
        ensures small { result ≤ 32768 }
    {
        match self.message(call.msg) {
            Some(message) => message.length_with(&call.args),
            None => 0,
        }
    }

    /// How many fragments a call takes, 1 to 586: one for each 56 bytes of its payload or part of them, and one for
    /// none.
    pub fn fragments_of(&self, call: &Call) -> usize
        requires fits { fits_of (interface_of self.now.interface) (call_of call.now) ≡ true }
        ensures count { result ≡ count self.now.plan (interface_of self.now.interface) (call_of call.now) }
        ensures some { 0 < result }
        ensures few { result ≤ 586 }
    {
        fragment_count(self.size_of(call))
    }

    /// The offset in bytes at which an argument begins in the payload of every call of the message. Arguments count
    /// from 0, as declared.
    ///
    /// None exactly where there is no such argument, or where a string or a sized array stands before it in the
    /// payload, so that its offset depends on the call.
    pub fn place(&self, msg: MsgNo, argument: usize) -> Option<usize>
        ensures place { IsPlace self.now.plan (interface_of self.now.interface) msg.0 argument result }
    {
        let message = self.message(msg)?;
        start_among(&message.placed, argument)
    }

    /// The bytes of a fixed argument, of a sized array's element, and of a string's, which is 1; 0 where there is no
    /// such argument. Arguments count from 0, as declared.
    pub fn arg_size(&self, msg: MsgNo, argument: usize) -> usize
        ensures size { result ≡ argument_size (slice_get (argument_types (interface_of self.now.interface) msg.0) argument) }
    {
        match self.message(msg) {
            Some(message) => match extent_among(&message.placed, argument) {
                Some(extent) => extent.unit(),
                None => 0,
            },
            None => 0,
        }
    }

    /// The least number of bytes that a payload of the message has.
    pub fn least(&self, msg: MsgNo) -> usize
        requires exists { msg.0 < length self.now.interface.messages.items }
        ensures least { IsLeast (payload_length self.now.plan (interface_of self.now.interface)) (interface_of self.now.interface) msg.0 result }
    {
        match self.message(msg) {
            Some(message) => limit(&message.placed, Fill::Empty),
            None => 0,
        }
    }

    /// The greatest number of bytes that a payload of the message has: under either plan at most 32,768.
    pub fn greatest(&self, msg: MsgNo) -> usize
        requires exists { msg.0 < length self.now.interface.messages.items }
        ensures greatest { IsGreatest (payload_length self.now.plan (interface_of self.now.interface)) (interface_of self.now.interface) msg.0 result }
        ensures small { result ≤ 32768 }
    {
        match self.message(msg) {
            Some(message) => message.greatest(),
            None => 0,
        }
    }

    /// The greatest number of numbers that a tape of the message has.
    pub fn tape_capacity(&self, msg: MsgNo) -> usize
        requires exists { msg.0 < length self.now.interface.messages.items }
        ensures greatest { IsGreatest (tape_length self.now.plan (interface_of self.now.interface)) (interface_of self.now.interface) msg.0 result }
    {
        match self.message(msg) {
            Some(message) => tape_limit(&message.placed),
            None => 0,
        }
    }
}
