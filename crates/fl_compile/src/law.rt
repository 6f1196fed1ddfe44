//! What the compiler's code does: laws, as the contracts of functions that do nothing.

ghost use Rattle.fl_compile.specs.Laws.{SendsCalls, TakesCalls, CompilesToCode, TellsFaults, OneFault, OneRefusal};
ghost use Rattle.fl_compile.specs.PackedLaws.{PacksCalls, SpreadsCalls, CodesMoveAlike};

/// The send code of a message turns the tape of each fitting call into the call's payload.
pub fn law_sends_calls()
    ensures sends { SendsCalls }
{}

/// The receive code of a message takes the tape of each fitting call from the call's payload, and takes nothing else.
pub fn law_takes_calls()
    ensures takes { TakesCalls }
{}

/// The code of each message has the structure that its types tell, so that it is always verified: its operands are in
/// range, and its loops go at most 8 deep.
pub fn law_compiles_to_code()
    ensures code { CompilesToCode }
{}

/// The receive code of a message tells, at each byte of a fitting call's payload, what a byte is that no payload goes on
/// with: a length above its bound, a number out of its type, or not zero.
pub fn law_tells_faults()
    ensures tells { TellsFaults }
{}

/// In every interface within the limits, a fragment that can't follow those since the last whole call has one first fault, and
/// so has a list of fragments that isn't read as calls and a rest: the fragments alone tell what a receive run refuses them
/// by, and `fl_wire::read_frags` where memory doesn't run out.
pub fn law_one_fault()
    ensures fault { OneFault }
    ensures refusal { OneRefusal }
{}

/// The tape of a fitting call, packed as its message's send code takes it, is the call's packed tape; and of that the code
/// makes the call's payload.
pub fn law_spreads_calls()
    ensures packs { PacksCalls }
    ensures spreads { SpreadsCalls }
{}

/// The receive code of a message makes of a packed tape what its send code makes of it: so steps that mean the one mean
/// the other.
pub fn law_codes_move_alike()
    ensures alike { CodesMoveAlike }
{}
