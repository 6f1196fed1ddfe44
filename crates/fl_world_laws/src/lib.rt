//! The laws of worlds and of their runs: what the fragments that stand in a world mean, and what holds of
//! every run from a world of 1 to 16 cores. Each is the contract of a function that does nothing.
//!
//! - `law_fragments_mean_accepted_calls`: of a world that shows a state of the machine (`fl_world_refines`);
//!   `specs/Meaning.antt`
//! - the laws of runs from a booted world: `specs/Booted.antt`
//! - `law_openings_fail_for`: why an opening is refused, `specs/Refusing.antt`
#![tactic(auto)]

ghost use Rattle.fl_world_laws.specs.Meaning.{FragmentsMeanAcceptedCalls};
ghost use Rattle.fl_world_laws.specs.Booted.{EverHandledIsAPrefix, EverHandledIsCounted, EverAllAccepted};
ghost use Rattle.fl_world_laws.specs.Booted.{EverPassedFalls, EverCounted, EverOnce, EverPendingHas};
ghost use Rattle.fl_world_laws.specs.Booted.{EverPaired, EverInOrderOpenings, EverGivenOnce};
ghost use Rattle.fl_world_laws.specs.Refusing.{OpeningsFailFor};

// ---- Fragments

/// In a world that shows a state of the machine, the fragments on every link, on every binding's ring, in
/// every local queue and in every arrival queue mean the accepted calls and no others. Circuit by circuit
/// those that stand on a link are the next fragments of the calls that the end accepted whose circuit it is,
/// under its number there; on circuit 0 are the monitors' messages, and what only acknowledges; before an end
/// are the next fragments of the other end's calls.
pub fn law_fragments_mean_accepted_calls()
    ensures mean { FragmentsMeanAcceptedCalls }
{}

// ---- Runs from a world of 1 to 16 cores: calls

/// The calls that an end handled over a run are a prefix of those that were accepted at the other end, in
/// order, with equal arguments: whatever number of cores the world was booted with, over every route and back
/// end.
pub fn law_handled_is_ever_a_prefix()
    ensures prefix { EverHandledIsAPrefix }
{}

/// The calls that an end handled over a run are those that the fragments taken make whole.
pub fn law_handled_is_ever_counted()
    ensures counted { EverHandledIsCounted }
{}

/// What an end accepted over a run is the calls that it was asked for and that were accepted, and its replies
/// by rule, merged in order; these replies, and then those that still wait, are all that fell due.
pub fn law_all_ever_accepted()
    ensures accepted { EverAllAccepted }
{}

/// All calls of an end but the last are written, and no more fragments than its calls have.
pub fn law_writes_are_ever_counted()
    ensures counted { EverCounted }
{}

/// No more fragments of a direction have passed a station than the one before it.
pub fn law_passed_ever_falls()
    ensures falls { EverPassedFalls }
{}

// ---- Waitsets

/// No channel stands twice in a waitset's lists.
pub fn law_channels_are_ever_once()
    ensures once { EverOnce }
{}

/// A pending channel has a fragment, and where that is a ring's it was looked at.
pub fn law_pending_ever_has_a_fragment()
    ensures has { EverPendingHas }
{}

// ---- Links and circuits

/// Each link is there both ways, and each side of a ring has one owner.
pub fn law_links_are_ever_paired()
    ensures paired { EverPaired }
{}

/// The openings under way on each link are in order.
pub fn law_openings_ever_go_in_order()
    ensures order { EverInOrderOpenings }
{}

/// Where two routes have one number on the link from one core to the next, they are one binding's.
pub fn law_numbers_are_ever_given_once()
    ensures once { EverGivenOnce }
{}

/// In every run a client hears that its opening was refused for one of four faults: there is no such service
/// (70), its dispatcher has no place for one more end (54), a core of the route has no link to the next (73),
/// or that link has no number left (74).
pub fn law_openings_fail_for()
    ensures faults { OpeningsFailFor }
{}
