//! Calls and a rest from a list of fragments, or its first fault.

ghost use Rattle.std.specs.Prelude.{◌≡◌, ◌+◌, ◌<◌, ◌≤◌, map, length, take, slice_get, IfOk, IfErr, IfSome, Some, None};
ghost use Rattle.fl_base.specs.declared.fragment.Frag.{Frag as TheFrag};
ghost use Rattle.fl_interface.specs.Interface.{interface_of};
ghost use Rattle.fl_value_data.specs.Value.{call_of};
ghost use Rattle.fl_wire.specs.Reading.{ReadsLeaving, IsPart, IsWrong};
ghost use Rattle.fl_wire.specs.Wrong.{start_fault, follow_fault, BeginsWell, IsNextFault, IsFirstFault};
ghost use Rattle.fl_wire.specs.Headers.{Group, StandsFirst};
ghost use Rattle.fl_wire.specs.declared.fault.WireFault.{WireFault as TheFault};
ghost use Rattle.fl_wire.specs.declared.fault.WireFault.TheVariants.{Memory};

use crate::call::read_whole;
use crate::fault::WireFault;
use crate::header::{following, is_line, start_fault};
use crate::leaf::CallReadFault;
use crate::types::arguments_of;
use fl_base::{Frag, MsgNo};
use fl_interface::Interface;
use fl_value_data::{Call, PlanNo};
use std::alloc::Global;

/// What a list of fragments reads as.
#[derive(Debug, Drop)]
pub struct Reading {
    /// The whole calls, in order.
    pub calls: Vec<Call>,
    /// How many fragments are left at the end: some of the first of another call, or none.
    pub rest: usize,
}

// The first fragments that may be those of one call, by their control words.
#[derive(Clone, Copy)]
struct Prefix {
    msg: MsgNo,
    count: usize,
    // The fault of the next fragment's control word; none where there is no next one.
    next: Option<WireFault>,
}

/// The first fragments that may be those of one call, by their control words: at least one.
///
/// Fails with the fault of the first one's control word.
fn prefix_of(interface: &Interface, frags: &[Frag]) -> Result<Prefix, WireFault>
    requires some { 0 < length frags.now }
    ensures within { IfOk result (λ r. r.count ≤ length frags.now) }
    ensures group { IfOk result (λ r. Group (interface_of interface.now) r.msg.0 (take r.count frags.now)) }
    ensures next { IfOk result (λ r. (f : TheFrag) → slice_get frags.now r.count ≡ Some f → follow_fault r.msg.0 f ≡ r.next) }
    ensures all { IfOk result (λ r. r.next ≡ None → r.count ≡ length frags.now) }
    ensures more { IfOk result (λ r. (fault : TheFault) → r.next ≡ Some fault → r.count < length frags.now) }
    ensures fault { IfErr result (λ fault. (f : TheFrag) × (slice_get frags.now 0 ≡ Some f) × (start_fault (interface_of interface.now) f ≡ Some fault)) }
{
    let first = &frags[0];
    if let Some(fault) = start_fault(interface, first) {
        return Err(fault);
    }
    is_line(first);
    let msg = first.msg();
    let (others, next) = following(&frags[1..], msg);
    Ok(Prefix {
        msg,
        count: 1 + others,
        next,
    })
}

/// The call that stands first, and the number of its fragments; none where the fragments are part of a call.
fn next_call(
    alloc: Global,
    interface: &Interface,
    plan: PlanNo,
    frags: &[Frag],
) -> Result<Option<(Call, usize)>, WireFault>
    requires some { 0 < length frags.now }
    ensures call { IfOk result (λ found. IfSome found (λ r. StandsFirst plan (interface_of interface.now) frags.now (call_of r.0) r.1)) }
    ensures part { IfOk result (λ found. found ≡ None → IsPart plan (interface_of interface.now) frags.now) }
    ensures begins { IfOk result (λ found. BeginsWell (interface_of interface.now) frags.now) }
    ensures wrong { IfErr result (IsNextFault plan (interface_of interface.now) frags.now) }
{
    let prefix = prefix_of(interface, frags)?;
    let msg = prefix.msg;
    let types = arguments_of(interface, msg);
    match read_whole(alloc, &frags[..prefix.count], plan, types) {
        Ok((args, many)) => Ok(Some((Call { msg, args }, many))),
        Err(CallReadFault::Short) => match prefix.next {
            Some(fault) => Err(fault),
            None => Ok(None),
        },
        Err(CallReadFault::Padding) => Err(WireFault::NotZero),
        Err(CallReadFault::Value) => Err(WireFault::OutOfType),
        Err(CallReadFault::Length) => Err(WireFault::TooLong),
        Err(CallReadFault::Memory) => Err(WireFault::Memory),
    }
}

/// The calls that fragments mean, and how many fragments are left at the end: none, or some of the first of
/// another call. Epochs and the counts told aren't looked at. It takes time linear in the fragments, and in the types of the messages that they name.
///
/// # Errors
/// The first fault of the first fragment that makes the list one that no calls' fragments begin with: a
/// reserved bit or a circuit that isn't 0 (E63), no first fragment where one is due (E60), a first
/// fragment inside a call (E61), a message that the interface doesn't have or that changes (E62), then the first byte at
/// fault: where nothing stands (E63), in a value (E65) or in a length (E66). Out of memory (E99): then some of the
/// fragments read as whole calls, and the control word of the next one may begin a call.
pub fn read_frags(
    alloc: Global,
    interface: &Interface,
    frags: &[Frag],
    plan: PlanNo,
) -> Result<Reading, WireFault>
    ensures read { IfOk result (λ r. ReadsLeaving plan (interface_of interface.now) frags.now (map call_of r.calls.items) r.rest) }
    ensures right { IfOk result (λ r. IsWrong plan (interface_of interface.now) frags.now → ⊥) }
    ensures wrong { IfErr result (IsFirstFault plan (interface_of interface.now) frags.now) }
{
    let mut calls = Vec::new(alloc);
    let mut left = frags;
    while !left.is_empty() {
        match next_call(alloc, interface, plan, left)? {
            Some((call, count)) => {
                calls.push(call)?;
                left = &left[count..];
            }
            None => break,
        }
    }
    Ok(Reading {
        calls,
        rest: left.len(),
    })
}
