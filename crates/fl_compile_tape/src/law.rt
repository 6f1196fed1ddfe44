//! What prepared code takes from calls' payloads: laws, as the contracts of functions that do nothing.

ghost use Rattle.fl_compile_tape.specs.TapeLaws.{TakesPackedCalls};

/// From the payload of a fitting call, steps that mean the message's receive code take the call's packed tape. So do those
/// that mean its send code.
pub fn law_takes_packed_calls()
    ensures takes { TakesPackedCalls }
{}
