//! What stands first on a link is looked at, and moves.

ghost use Rattle.std.specs.Prelude.{◌≡◌, ◌<◌, false, length, IfErr};
ghost use Rattle.fl_base.specs.Control.{is_ack_only, with_circuit, bare};
ghost use Rattle.fl_link.specs.Looks.{saw};
ghost use Rattle.fl_link.specs.Queue.{front_of};
ghost use Rattle.fl_ring.specs.Duo.{side_of};
ghost use Rattle.fl_world_refines.specs.View.{which_at};
ghost use Rattle.fl_world_refines.specs.Linking.{LooksWith, incoming, HearsWith, ArrivesWith, IsMoved, moved_answer};
ghost use Rattle.fl_model.specs.Views.{brief_of};
ghost use Rattle.fl_world_events.specs.Parts.{ByRing};
ghost use Rattle.fl_world_events.specs.Passing.{Passes};
ghost use Rattle.fl_core.specs.Links.{inbound};
ghost use Rattle.fl_core.specs.Hearing.{HearsFragLast};

use crate::lending::{law_whole, which_at};
use crate::places::LinkWithSide;
use fl_base::{Circuit, EndId, Frag};
use fl_compile::Program;
use fl_core::{Core, LinkFront, LinkReceiveFault, MonitorAnswer};
use fl_hop::{ForwardOutcome, move_on};
use fl_model::BriefAnswer;
use fl_nameserv::Names;
use fl_ring::OneDuo;

// ---- a look

/// A core looks at what stands first on a link, over the link's side of a ring.
///
/// # Errors
/// As the core answers.
pub fn look_by_ring(
    core: &mut Core,
    at: LinkWithSide,
    ring: &mut OneDuo,
) -> Result<LinkFront, LinkReceiveFault>
    requires link { at.link.0 < length core.old.link_sides }
    ensures looks { ByRing at.side (LooksWith at.link.0 result) core.old ring.old core.new ring.new }
{
    law_whole(core);
    let mut side = ring.side(which_at(at.side));
    let ahead = core.look(at.link, &mut side);
    law_whole(core);
    ahead
}

// ---- a message is heard

/// A core hears what stands first on a link, over the link's side of a ring.
///
/// # Errors
/// As the core answers.
pub fn hear_by_ring(
    core: &mut Core,
    at: LinkWithSide,
    ring: &mut OneDuo,
    frag: &Frag,
    names: &Names,
    programs: &[Program],
) -> Result<MonitorAnswer, LinkReceiveFault>
    requires link { at.link.0 < length core.old.link_sides }
    requires seen { front_of (side_of (which_at at.side) ring.old).waiting ≡ saw (bare frag.now) }
    ensures hears { ByRing at.side (HearsWith (incoming (record { names = names.now; programs = programs.now }) at.link frag.now) result)
        core.old ring.old core.new ring.new }
    ensures last { IfErr result (HearsFragLast (record { names = names.now; programs = programs.now }) at.link frag.now core.old) }
{
    law_whole(core);
    let mut side = ring.side(which_at(at.side));
    let answer = core.hear(at.link, &mut side, frag, names, programs);
    law_whole(core);
    answer
}

// ---- a fragment moves

// What is answered for a fragment that was to move.
fn answer_move(outcome: ForwardOutcome) -> BriefAnswer
    ensures moved { brief_of result ≡ moved_answer outcome }
{
    match outcome {
        ForwardOutcome::Moved => BriefAnswer::Forwarded,
        ForwardOutcome::Full | ForwardOutcome::Spent => BriefAnswer::Full,
    }
}

// What is answered for a fragment that was to arrive.
fn answer_arrival(outcome: Result<ForwardOutcome, LinkReceiveFault>) -> BriefAnswer
    ensures moved { IsMoved outcome (brief_of result) }
{
    match outcome {
        Ok(outcome) => answer_move(outcome),
        Err(fault) => BriefAnswer::Refused(fault.number()),
    }
}

/// What stands first on a link arrives for an end of the core, over the link's side of a ring.
pub fn arrive_by_ring(
    core: &mut Core,
    at: LinkWithSide,
    ring: &mut OneDuo,
    frag: &Frag,
    name: EndId,
) -> BriefAnswer
    requires link { at.link.0 < length core.old.link_sides }
    requires seen { front_of (side_of (which_at at.side) ring.old).waiting ≡ saw (bare frag.now) }
    requires call { is_ack_only (with_circuit 0 frag.now) ≡ false }
    ensures arrives { ByRing at.side (ArrivesWith (inbound at.link.0 frag.now name) (brief_of result)) core.old ring.old core.new ring.new }
{
    law_whole(core);
    let mut side = ring.side(which_at(at.side));
    let outcome = core.arrive(at.link, &mut side, frag, name);
    law_whole(core);
    answer_arrival(outcome)
}

/// A fragment that is to move on: from one side of a ring to a side of another, with this circuit's number there.
#[derive(Clone, Copy)]
pub struct ForwardFrag {
    /// The fragment, as a look at the first ring saw it.
    pub frag: Frag,
    /// The side on which it stands first, by its number.
    pub from: usize,
    /// The side onto which it goes.
    pub onto: usize,
    /// Its circuit's number there.
    pub circuit: Circuit,
}

// It moves over two rings. In line, as what calls it: an answer that is made out of line is moved on, and each move waits for the
// stores of the one before.
#[inline(always)]
pub(crate) fn move_between(
    passing: &ForwardFrag,
    from: &mut OneDuo,
    onto: &mut OneDuo,
) -> BriefAnswer
    requires seen { front_of (side_of (which_at passing.now.from) from.old).waiting ≡ saw (bare passing.now.frag) }
    requires call { is_ack_only (with_circuit passing.now.circuit.0 passing.now.frag) ≡ false }
    ensures passes { Passes passing.now (record { from = from.old; onto = onto.old }) (brief_of result) (record { from = from.new; onto = onto.new }) }
{
    let mut side = from.side(which_at(passing.from));
    let mut next = onto.side(which_at(passing.onto));
    answer_move(move_on(&mut side, &mut next, &passing.frag, passing.circuit))
}
