//! What control words tell: which fragments may stand in a call, and how many of them come first.

ghost use Rattle.std.specs.Prelude.{◌≡◌, ℕ, ◌*◌, ◌/◌, ◌%◌, ◌<◌, ◌≤◌, ◌==◌, ◌&&◌, length, slice_get, Some, None};
ghost use Rattle.fl_base.specs.declared.fragment.Frag.{Frag as TheFrag};
ghost use Rattle.fl_interface.specs.Interface.{interface_of};
ghost use Rattle.fl_wire.specs.Wrong.{is_clean, start_fault, follow_fault};
ghost use Rattle.fl_wire.specs.Headers.{Line};
ghost use Rattle.fl_wire.specs.declared.fault.WireFault.{WireFault as TheFault};

use crate::fault::WireFault;
use fl_base::{Frag, MsgNo};
use fl_interface::Interface;

// Whether bits 2 to 15 and the circuit are 0.
fn is_clean(frag: &Frag) -> bool
    ensures clean { result ≡ is_clean frag.now }
{
    frag.unused_bits() == 0 && frag.circuit().0 == 0
}

/// The fault of the control word of a fragment that is to begin a call; none where it has none. In order: a
/// reserved bit or the circuit isn't 0 (E63), it is no first fragment (E60), the interface has no such message (E62).
/// Takes no memory.
pub fn start_fault(interface: &Interface, frag: &Frag) -> Option<WireFault>
    ensures fault { result ≡ start_fault (interface_of interface.now) frag.now }
{
    if !is_clean(frag) {
        Some(WireFault::NotZero)
    } else if !frag.is_first() {
        Some(WireFault::NotFirst)
    } else if usize::from(frag.msg().0) < interface.messages.len() {
        None
    } else {
        Some(WireFault::UnknownMessage)
    }
}

/// The fault of the control word of a fragment that is to follow in a call of a message; none where it has none. In
/// order: a reserved bit or the circuit isn't 0 (E63), it is a first fragment (E61), it is of another message (E62).
/// Takes no memory.
pub fn follow_fault(msg: MsgNo, frag: &Frag) -> Option<WireFault>
    ensures fault { result ≡ follow_fault msg.0 frag.now }
{
    if !is_clean(frag) {
        Some(WireFault::NotZero)
    } else if frag.is_first() {
        Some(WireFault::FirstInside)
    } else if frag.msg().0 == msg.0 {
        None
    } else {
        Some(WireFault::UnknownMessage)
    }
}

/// A fragment has seven words of 64 bits, as any in memory: it only reads these. Takes no memory.
pub fn is_line(frag: &Frag)
    ensures line { Line frag.now }
{
    for word in &frag.words {
        let _word = *word;
    }
}

/// How many of these may follow in a call of a message, and the fault of the next one's control word; none
/// where all may.
pub(crate) fn following(frags: &[Frag], msg: MsgNo) -> (usize, Option<WireFault>)
    ensures within { result.0 ≤ length frags.now }
    ensures follow { (k : ℕ) (f : TheFrag) → k < result.0 → slice_get frags.now k ≡ Some f → follow_fault msg.0 f ≡ None }
    ensures lines { (k : ℕ) (f : TheFrag) → k < result.0 → slice_get frags.now k ≡ Some f → Line f }
    ensures next { (f : TheFrag) → slice_get frags.now result.0 ≡ Some f → follow_fault msg.0 f ≡ result.1 }
    ensures all { result.1 ≡ None → result.0 ≡ length frags.now }
    ensures more { (fault : TheFault) → result.1 ≡ Some fault → result.0 < length frags.now }
{
    for (k, frag) in frags.iter().enumerate() {
        is_line(frag);
        let fault = follow_fault(msg, frag);
        if fault.is_some() {
            return (k, fault);
        }
    }
    (frags.len(), None)
}
