//! What was seen to stand first on a link is followed: what is answered, rules that are brought, and a fragment that moves on.

ghost use Rattle.std.specs.Prelude.{◌≡◌, ◌≢◌, ◌<◌, ◌↔◌, true, false, IsTrue, length, None, IfOk, OnErr, Ok, Err};
ghost use Rattle.fl_base.specs.Control.{is_ack_only, with_circuit};
ghost use Rattle.fl_endpoint.specs.View.{interface_in};
ghost use Rattle.fl_core.specs.BoardEvents.{Holds};
ghost use Rattle.fl_world_refines.specs.View.{ring_at};
ghost use Rattle.fl_world_refines.specs.Linking.{IsHeard};
ghost use Rattle.fl_model.specs.Views.{brief_of};
ghost use Rattle.fl_world_events.specs.Parts.{InCore};
ghost use Rattle.fl_world_events.specs.Passing.{StandsAt, PassesOver};
ghost use Rattle.fl_world_events.specs.Following.{TakesRulesOf, TakesKept};

use crate::lending::{law_whole, ring_at};
use crate::moving::{ForwardFrag, move_between};
use fl_core::{Core, LinkReceiveFault, MonitorAnswer};
use fl_endpoint::End;
use fl_model::BriefAnswer;
use fl_ring::OneDuo;
use fl_world_refines::Binding;
use std::alloc::AllocError;

// ---- a message is heard

/// What is answered for a message that is heard.
pub fn answer_heard(answer: MonitorAnswer) -> BriefAnswer
    ensures heard { IsHeard (Ok answer) (brief_of result) }
{
    match answer {
        MonitorAnswer::Full => BriefAnswer::Full,
        MonitorAnswer::Done => BriefAnswer::Done,
        MonitorAnswer::Opened(end) => BriefAnswer::Opened(end),
        MonitorAnswer::OpeningRefused(end, number) => BriefAnswer::OpeningRefused { number, end },
    }
}

/// What is answered where a message isn't heard.
///
/// # Errors
/// Out of memory.
pub fn answer_unheard(fault: LinkReceiveFault) -> Result<BriefAnswer, AllocError>
    ensures heard { IfOk result (λ a. IsHeard (Err fault) (brief_of a)) }
    ensures memory { OnErr result (fault ≡ LinkReceiveFault.Memory) }
{
    match fault {
        LinkReceiveFault::Memory => Err(AllocError),
        _ => Ok(BriefAnswer::Refused(fault.number())),
    }
}

// ---- rules are brought

// A binding gives away the end that it keeps.
fn take_kept(binding: &mut Binding) -> Option<End>
    ensures kept { result ≡ binding.old.unmade }
    ensures none { binding.new ≡ record binding.old { unmade = None } }
{
    binding.unmade.take()
}

// Whether two ends are of one interface.
fn are_like(one: &End, other: &End) -> bool
    ensures like { IsTrue result ↔ interface_in one.now ≡ interface_in other.now }
{
    one.program().interface().same(other.program().interface())
}

// Whether the end at a place of a core's board has the interface of another.
fn is_like(core: &Core, place: usize, kept: &End) -> bool
    requires place { place < length core.now.board.seats }
    ensures like { result ≡ true → Holds core.now.board place (λ s. interface_in s.end ≡ interface_in kept.now) }
    ensures other { result ≡ false → Holds core.now.board place (λ s. interface_in s.end ≢ interface_in kept.now) }
{
    are_like(core.board().end(place), kept)
}

// The end at a place of a core's board gets the rules of another, where the two are of one interface.
fn exchange(core: &mut Core, place: usize, kept: &mut End)
    requires place { place < length core.old.board.seats }
    ensures takes { TakesRulesOf kept.old place core.old core.new }
{
    if is_like(core, place, kept) {
        core.exchange_rules(place, kept);
    }
}

// The same for an end that a binding kept.
fn take_rules_in(core: &mut Core, place: usize, kept: End)
    requires place { place < length core.old.board.seats }
    ensures takes { InCore (TakesRulesOf kept place) core.old core.new }
{
    law_whole(core);
    let mut kept = kept;
    exchange(core, place, &mut kept);
    law_whole(core);
}

/// The end at a place of a core's board gets the rules of the one that a binding keeps for it, if it keeps one: then it keeps none any more.
pub fn take_rules_of(core: &mut Core, place: usize, binding: &mut Binding)
    requires place { place < length core.old.board.seats }
    ensures takes { TakesKept place core.old binding.old core.new binding.new }
{
    let Some(kept) = take_kept(binding) else {
        return;
    };
    take_rules_in(core, place, kept);
}

// ---- a fragment moves on

// It moves onto a ring behind the one that it comes from, in the order of the rings.
#[inline(always)]
fn move_up(passing: &ForwardFrag, rings: &mut [OneDuo]) -> BriefAnswer
    requires up { ring_at passing.now.from < ring_at passing.now.onto }
    requires onto { ring_at passing.now.onto < length rings.old }
    requires seen { StandsAt rings.old passing.now.from passing.now.frag }
    requires call { is_ack_only (with_circuit passing.now.circuit.0 passing.now.frag) ≡ false }
    ensures passes { PassesOver passing.now rings.old (brief_of result) rings.new }
{
    let (low, high) = rings.split_at_mut(ring_at(passing.onto));
    move_between(passing, &mut low[ring_at(passing.from)], &mut high[0])
}

// It moves onto a ring before it.
#[inline(always)]
fn move_down(passing: &ForwardFrag, rings: &mut [OneDuo]) -> BriefAnswer
    requires down { ring_at passing.now.onto < ring_at passing.now.from }
    requires from { ring_at passing.now.from < length rings.old }
    requires seen { StandsAt rings.old passing.now.from passing.now.frag }
    requires call { is_ack_only (with_circuit passing.now.circuit.0 passing.now.frag) ≡ false }
    ensures passes { PassesOver passing.now rings.old (brief_of result) rings.new }
{
    let (low, high) = rings.split_at_mut(ring_at(passing.from));
    move_between(passing, &mut high[0], &mut low[ring_at(passing.onto)])
}

/// A fragment moves on, from one of the world's rings onto another.
#[inline(always)]
pub fn move_among(passing: &ForwardFrag, rings: &mut [OneDuo]) -> BriefAnswer
    requires apart { ring_at passing.now.from ≢ ring_at passing.now.onto }
    requires from { ring_at passing.now.from < length rings.old }
    requires onto { ring_at passing.now.onto < length rings.old }
    requires seen { StandsAt rings.old passing.now.from passing.now.frag }
    requires call { is_ack_only (with_circuit passing.now.circuit.0 passing.now.frag) ≡ false }
    ensures passes { PassesOver passing.now rings.old (brief_of result) rings.new }
    ensures apart { ring_at passing.now.from ≢ ring_at passing.now.onto }
{
    if ring_at(passing.from) < ring_at(passing.onto) {
        move_up(passing, rings)
    } else {
        move_down(passing, rings)
    }
}
