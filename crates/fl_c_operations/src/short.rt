//! Calls of messages of few numbers, by prepared codecs: between a call's numbers and its only fragment, with no value between them,
//! and no memory. Each function finds something exactly where there is such a call; what the numbers or the fragment are else the
//! long way tells.

ghost use Rattle.std.specs.Prelude.{◌≡◌, true, slice_get, IfSome, IfNone};
ghost use Rattle.fl_base.specs.Control.{bare};
ghost use Rattle.fl_compile.specs.Programs.{TheProgram};
ghost use Rattle.fl_codec.specs.Codecs.{numbers_of};
ghost use Rattle.fl_codec.specs.NumberPlaces.{has_few_numbers};
ghost use Rattle.fl_endpoint.specs.Stored.{IsOwn};
ghost use Rattle.fl_c_operations.specs.Codecs.{AreCodecs};
ghost use Rattle.fl_c_operations.specs.Shorts.{IsFragOfTape, IsFragOfNumbers, AreNoShorts, IsNoShorts};

use crate::calls::first_and_rest;
use crate::codecs::codec_at;
use fl_base::{Circuit, Frag, MsgNo};
use fl_codec::{Codec, Numbers};

/// The only fragment, on a circuit, of the call of these numbers: its message's, and its tape. None exactly where they are those of no
/// call of a message of few numbers.
#[inline(always)]
pub(crate) fn short_frag(
    codecs: &[Option<Codec>],
    circuit: Circuit,
    numbers: &[u64],
) -> Option<Frag>
    ensures short { (x : TheProgram) → AreCodecs x codecs.now → IfSome result (λ f. IsFragOfNumbers x circuit.0 numbers.now f) }
    ensures own { (x : TheProgram) → AreCodecs x codecs.now → IfSome result IsOwn }
    ensures none { (x : TheProgram) → AreCodecs x codecs.now → IfNone result (AreNoShorts x numbers.now) }
{
    // It has 16 bits, which the proof knows once it is read.
    let _circuit = circuit.0;
    let Some((message, tape)) = first_and_rest(numbers) else {
        return None;
    };
    let Some(codec) = codec_at(codecs, message) else {
        return None;
    };
    let Some(frag) = codec.encode(circuit, tape) else {
        return None;
    };
    Some(frag)
}

/// A call of a message of few numbers.
#[derive(Drop)]
pub(crate) struct ShortCall {
    pub(crate) msg: MsgNo,
    numbers: Numbers,
}

impl ShortCall {
    /// Its tape.
    #[inline(always)]
    pub(crate) fn tape(&self) -> &[u64]
        ensures tape { result.now ≡ numbers_of self.now.numbers }
    {
        self.numbers.as_slice()
    }
}

/// The call whose only fragment this is, off circuits, whatever its epoch and the count that it tells. None exactly where it is that of
/// no call of a message of few numbers.
#[inline(always)]
pub(crate) fn short_call(codecs: &[Option<Codec>], frag: &Frag) -> Option<ShortCall>
    ensures short { (x : TheProgram) → AreCodecs x codecs.now
        → IfSome result (λ call. IsFragOfTape x 0 call.msg.0 (numbers_of call.numbers) (bare frag.now)) }
    ensures few { (x : TheProgram) → AreCodecs x codecs.now
        → IfSome result (λ call. has_few_numbers (slice_get x.interface.messages call.msg.0) ≡ true) }
    ensures none { (x : TheProgram) → AreCodecs x codecs.now → IfNone result (IsNoShorts x (bare frag.now)) }
{
    let msg = frag.msg();
    let Some(codec) = codec_at(codecs, u64::from(msg.0)) else {
        return None;
    };
    let Some(numbers) = codec.decode(Circuit(0), frag) else {
        return None;
    };
    Some(ShortCall { msg, numbers })
}
