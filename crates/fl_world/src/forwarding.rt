//! What was seen to stand first on a link is followed.

ghost use Rattle.std.specs.Prelude.{◌≡◌, ◌<◌, false, length, IfOk, OnOk, OnErr, Ok, Err};
ghost use Rattle.fl_base.specs.Control.{is_ack_only, with_circuit};
ghost use Rattle.fl_world_refines.specs.View.{ring_at, location_of};
ghost use Rattle.fl_world_refines.specs.Linking.{IsHeard, BringsRules, ThenRules};
ghost use Rattle.fl_world_refines.specs.Linking.{HearsFirst, ForwardsBy, ForwardsFirst, Forwards};
ghost use Rattle.fl_model.specs.Views.{brief_of};
ghost use Rattle.fl_world_events.specs.Places.{HasEnd, HasLink, link_side_from};
ghost use Rattle.fl_world_events.specs.Passing.{StandsAt};
ghost use Rattle.fl_world.specs.Following.{KnowsAt, MayForgetAt, Forgot, MayFollow, Forgets, GoesOn, TakesRulesOrNone};
ghost use Rattle.fl_world.specs.Hearing.{WouldSay, SaysAhead, FindsMessage, WantsToSay};

use crate::world::World;
use fl_base::{EndId, Frag, Side, faults};
use fl_core::{LinkFront, LinkReceiveFault, MonitorAnswer};
use fl_model::BriefAnswer;
use fl_ring::law_forgets_looks;
use fl_world_events::{
    EndLocation, ForwardFrag, LinkWithSide, answer_heard, answer_unheard, move_among, ring_at,
    take_rules_of, which_at,
};
use std::alloc::AllocError;

// ---- a core forwards

impl World {
    /// A core forwards what stands first on its link to a neighbour.
    ///
    /// # Errors
    /// Out of memory, where a message is heard that makes a monitor say something.
    #[inline(never)]
    pub(crate) fn forward(&mut self, core: u32, neighbour: u32) -> Result<BriefAnswer, AllocError>
        ensures forwards { IfOk result (λ a. Forwards core neighbour self.old (brief_of a) self.new) }
        ensures kept { OnErr result (self.new ≡ self.old) }
        ensures last { OnErr result (WantsToSay core neighbour self.old) }
    {
        let Some(at) = self.link_side(core, neighbour) else {
            return Ok(BriefAnswer::Refused(faults::NO_SUCH_ROUTE));
        };
        let place = ring_at(at.side);
        if place >= self.rings.len() {
            return Ok(BriefAnswer::Nothing);
        }
        self.forward_first(core as usize, at)
    }

    fn forward_first(&mut self, n: usize, at: LinkWithSide) -> Result<BriefAnswer, AllocError>
        requires link { HasLink self.old.cores n at.link.0 }
        requires ring { ring_at at.side < length self.old.rings }
        ensures forwards { IfOk result (λ a. ForwardsFirst n (link_side_from at) self.old (brief_of a) self.new) }
        ensures kept { OnErr result (self.new ≡ self.old) }
        ensures last { OnErr result (FindsMessage n (link_side_from at) self.old) }
    {
        let known = self.known(at.side);
        law_forgets_looks();
        match self.look(n, at) {
            Err(fault) => Ok(BriefAnswer::Refused(fault.number())),
            Ok(ahead) => self.follow(n, at, ahead, known),
        }
    }

    // How many of its fragments a side knows to be taken.
    fn known(&self, m: usize) -> u64
        requires ring { ring_at m < length self.now.rings }
        ensures known { KnowsAt self.now.rings m result }
    {
        self.rings[ring_at(m)].known(which_at(m))
    }

    // What was seen to be ahead is followed. Where memory is refused the side knows what it knew before the look.
    fn follow(
        &mut self,
        n: usize,
        at: LinkWithSide,
        ahead: LinkFront,
        known: u64,
    ) -> Result<BriefAnswer, AllocError>
        requires link { HasLink self.old.cores n at.link.0 }
        requires ring { ring_at at.side < length self.old.rings }
        requires seen { MayFollow ahead at.side known self.old.rings }
        ensures forwards { IfOk result (λ a. ForwardsBy (Ok ahead) n (link_side_from at) self.old (brief_of a) self.new) }
        ensures forgot { OnErr result (Forgets ahead self.old at.side known self.new) }
        ensures last { OnErr result (SaysAhead ahead n (link_side_from at) self.old) }
    {
        match ahead {
            LinkFront::Nothing => Ok(BriefAnswer::Nothing),
            LinkFront::Acknowledged => Ok(BriefAnswer::Done),
            LinkFront::Message(frag) => self.hear_first(n, at, &frag, known),
            LinkFront::Onward(frag, onto, circuit) => Ok(self.move_on(&ForwardFrag {
                frag,
                from: at.side,
                onto,
                circuit,
            })),
            LinkFront::Arrival(frag, name) => Ok(self.arrive(n, at, &frag, name)),
        }
    }

    // What stands first, and was seen, moves on.
    fn move_on(&mut self, passing: &ForwardFrag) -> BriefAnswer
        requires seen { StandsAt self.old.rings passing.now.from passing.now.frag }
        requires call { is_ack_only (with_circuit passing.now.circuit.0 passing.now.frag) ≡ false }
        ensures goes { GoesOn passing.now self.old (brief_of result) self.new }
    {
        let (from, onto) = (ring_at(passing.from), ring_at(passing.onto));
        if from == onto {
            return BriefAnswer::Nothing;
        }
        if from >= self.rings.len() {
            return BriefAnswer::Nothing;
        }
        if onto >= self.rings.len() {
            return BriefAnswer::Nothing;
        }
        move_among(passing, &mut self.rings)
    }

    // What stands first, and was seen, is heard. Where memory is refused the side knows what it knew before the look.
    #[inline(never)]
    fn hear_first(
        &mut self,
        n: usize,
        at: LinkWithSide,
        frag: &Frag,
        known: u64,
    ) -> Result<BriefAnswer, AllocError>
        requires link { HasLink self.old.cores n at.link.0 }
        requires ring { ring_at at.side < length self.old.rings }
        requires seen { StandsAt self.old.rings at.side frag.now }
        requires known { MayForgetAt self.old.rings at.side known }
        ensures hears { IfOk result (λ a. HearsFirst n (link_side_from at) frag.now self.old (brief_of a) self.new) }
        ensures forgot { OnErr result (Forgot self.old at.side known self.new) }
        ensures last { OnErr result (WouldSay n at.link frag.now LinkReceiveFault.Memory self.old) }
    {
        match self.hear(n, at, frag) {
            Ok(answer) => {
                self.then_rules(answer);
                Ok(answer_heard(answer))
            }
            Err(fault) => self.leave(at.side, fault, known),
        }
    }

    // A message isn't heard. Where memory is refused the side knows what it knew before the look.
    fn leave(
        &mut self,
        m: usize,
        fault: LinkReceiveFault,
        known: u64,
    ) -> Result<BriefAnswer, AllocError>
        requires ring { ring_at m < length self.old.rings }
        requires known { fault ≡ LinkReceiveFault.Memory → MayForgetAt self.old.rings m known }
        ensures heard { IfOk result (λ a. IsHeard (Err fault) (brief_of a)) }
        ensures same { OnOk result (self.new ≡ self.old) }
        ensures memory { OnErr result (fault ≡ LinkReceiveFault.Memory) }
        ensures forgot { OnErr result (Forgot self.old m known self.new) }
    {
        match answer_unheard(fault) {
            Ok(answer) => Ok(answer),
            Err(error) => {
                self.forget(m, known);
                Err(error)
            }
        }
    }

    // A side knows again what it knew before.
    fn forget(&mut self, m: usize, known: u64)
        requires ring { ring_at m < length self.old.rings }
        requires known { MayForgetAt self.old.rings m known }
        ensures forgot { Forgot self.old m known self.new }
    {
        let ring = &mut self.rings[ring_at(m)];
        ring.forget(which_at(m), known);
    }

    // An end that is opened gets the rules that were set for it before.
    fn then_rules(&mut self, answer: MonitorAnswer)
        ensures rules { ThenRules (Ok answer) self.old self.new }
    {
        match answer {
            MonitorAnswer::Opened(end) => self.bring_rules(end),
            MonitorAnswer::Full => (),
            MonitorAnswer::Done => (),
            MonitorAnswer::OpeningRefused(_, _) => (),
        }
    }

    // A server's end that was made gets the rules that were set for it before.
    fn bring_rules(&mut self, e: EndId)
        ensures brings { BringsRules (location_of self.old e) e.side e.binding self.old self.new }
    {
        match self.location(e) {
            EndLocation::Nowhere => (),
            EndLocation::Unmade => (),
            EndLocation::Made(n, place) => match e.side {
                Side::Client => (),
                Side::Server => self.take_rules(n, place, e.binding),
            },
        }
    }

    // The end at a place of a core gets the rules of the one that a binding keeps for it.
    fn take_rules(&mut self, n: usize, place: usize, binding: usize)
        requires end { HasEnd self.old.cores n place }
        ensures takes { TakesRulesOrNone self.old n place binding self.new }
    {
        let Some(binding) = self.bindings.get_mut(binding) else {
            return;
        };
        take_rules_of(&mut self.cores[n], place, binding);
    }
}
