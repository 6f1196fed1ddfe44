//! The fragments that pass through a stream.

ghost use Rattle.std.specs.Prelude.{◌≡◌, true};
ghost use Rattle.fl_stream.specs.Plain.{is_plain};

use fl_base::Frag;
use rtrb::Protocol;

/// Whether this is a fragment of a call with epoch 0 and nothing told, as it leaves a stub.
#[inline]
pub fn is_plain(frag: &Frag) -> bool
    ensures plain { result ≡ is_plain frag.now }
{
    !frag.is_ack_only() && frag.control == frag.bare().control
}

/// What a ring of fragments carries: plain ones alone.
#[derive(Clone, Copy)]
pub struct PlainFrags;

impl Protocol<Frag> for PlainFrags {
    ghost allows = { λ _ frag. is_plain frag ≡ true };
}
