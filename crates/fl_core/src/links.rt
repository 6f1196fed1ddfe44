//! Events of a link.

ghost use Rattle.std.specs.Prelude.{◌≡◌, ◌<◌, false, length};
ghost use Rattle.fl_base.specs.Control.{is_ack_only, with_circuit, bare};
ghost use Rattle.fl_link.specs.Looks.{saw, tells};
ghost use Rattle.fl_core.specs.View.{failed_at, with_failed};
ghost use Rattle.fl_core.specs.Links.{MonitorWrites, LooksAhead, inbound, ArrivesAt, Acknowledges};
ghost use Rattle.fl_core.specs.Inside.{FailsFor};
ghost use Rattle.fl_core.specs.Ends.{at_side};

use crate::AckAnswer;
use crate::answer::{LinkFront, MonitorWrite};
use crate::fault::LinkReceiveFault;
use crate::one_core::Core;
use crate::wiring::LinkSide;
use fl_base::{EndId, Frag, LinkId};
use fl_hop::{ForwardOutcome, HopFault, HopFront, HopTarget, deliver};
use fl_link::{PutFault, PutSide, TakeSide, Told};

// What comes on a link has failed.
pub(crate) fn fail(link_sides: &mut Vec<LinkSide>, link: LinkId)
    ensures failed { link_sides.new.items ≡ failed_at link_sides.old.items link.0 }
{
    let place = usize::from(link.0);
    if place < link_sides.len() {
        link_sides[place] = LinkSide {
            side: link_sides[place].side,
            failed: true,
        };
    }
}

impl Core {
    /// Puts the message that waits first for a link on it, over the core's side of the link ([`Core::side`]). Takes no memory.
    pub fn monitor_write<P: PutSide>(&mut self, link: LinkId, out: &mut P) -> MonitorWrite
        ensures writes { MonitorWrites P.puts link.0 (at_side self.old out.old) result (at_side self.new out.new) }
    {
        let Some(frag) = self.monitor.next_out(link) else {
            return MonitorWrite::Nothing;
        };
        match out.put(&frag) {
            Err(PutFault::Full) => MonitorWrite::Full,
            Err(PutFault::Spent) => MonitorWrite::Spent,
            Ok(()) => {
                self.monitor.sent_out(link);
                MonitorWrite::Written
            }
        }
    }

    /// What stands first on a link, over the core's side of it ([`Core::side`]), and what it needs. It is left there, but one that only acknowledges is taken.
    /// Takes no memory.
    ///
    /// # Errors
    /// What comes there failed earlier (E64), and isn't looked at. The fragment's circuit has no entry (E67), or it has the form of one that only acknowledges
    /// (E63): it is left, and what comes there has failed for good.
    pub fn look<T: TakeSide>(
        &mut self,
        link: LinkId,
        from: &mut T,
    ) -> Result<LinkFront, LinkReceiveFault>
        requires { link.0 < length self.old.link_sides }
        ensures looks { LooksAhead T.takes T.front link.0 (at_side self.old from.old) result (at_side self.new from.new) }
    {
        if self.link_sides[usize::from(link.0)].failed {
            return Err(LinkReceiveFault::Failed);
        }
        match self.monitor.circuits().look(link, from) {
            Ok(HopFront::Nothing) => Ok(LinkFront::Nothing),
            Ok(HopFront::Acknowledged) => Ok(LinkFront::Acknowledged),
            Ok(HopFront::Monitor(frag)) => Ok(LinkFront::Message(frag)),
            Ok(HopFront::Goes(frag, HopTarget::End(end))) => Ok(LinkFront::Arrival(frag, end)),
            Ok(HopFront::Goes(frag, HopTarget::Link(next, circuit))) => {
                let side = self.link_sides[usize::from(next.0)].side;
                Ok(LinkFront::Onward(frag, side, circuit))
            }
            Err(fault) => Err(self.fails(link, fault)),
        }
    }

    // What comes on a link has failed, for this reason.
    fn fails(&mut self, link: LinkId, fault: HopFault) -> LinkReceiveFault
        ensures failed { self.new ≡ with_failed self.old link.0 }
        ensures fault { FailsFor fault result }
    {
        fail(&mut self.link_sides, link);
        match fault {
            HopFault::Marked => LinkReceiveFault::Marked,
            _ => LinkReceiveFault::Misrouted,
        }
    }

    /// Takes a fragment that was seen to stand first on a link to the arrival queue of an end at this core, and triggers the end's channel. Where the queue has
    /// no room it is left. Takes no memory.
    ///
    /// # Errors
    /// There is no such end at this core (E67): the fragment is left, and what comes on the link has failed for good.
    pub fn arrive<T: TakeSide>(
        &mut self,
        link: LinkId,
        from: &mut T,
        frag: &Frag,
        name: EndId,
    ) -> Result<ForwardOutcome, LinkReceiveFault>
        requires there { link.0 < length self.old.link_sides }
        requires seen { T.front from.old ≡ saw (bare frag.now) }
        requires call { is_ack_only (with_circuit 0 frag.now) ≡ false }
        ensures arrives { ArrivesAt T.takes (inbound link.0 frag.now name) (at_side self.old from.old) result (at_side self.new from.new) }
    {
        let Some(at) = self.arriving_at(name) else {
            fail(&mut self.link_sides, link);
            return Err(LinkReceiveFault::Misrouted);
        };
        let outcome = deliver(from, &mut self.arrivals[at.queue], frag);
        if let ForwardOutcome::Moved = outcome {
            self.board.trigger(at.end);
        }
        Ok(outcome)
    }

    /// Tells what was taken on a link, over the core's side of it ([`Core::side`]), so that those slots are free. The core doesn't change.
    pub fn monitor_ack<T: TakeSide>(&self, link: LinkId, from: &mut T) -> AckAnswer
        requires { link.0 < length self.now.link_sides }
        ensures acks { Acknowledges T.takes from.old result from.new }
    {
        match from.tell() {
            Ok(Told::Written) => AckAnswer::Done,
            Ok(Told::Nothing) => AckAnswer::Nothing,
            Err(_) => AckAnswer::Full,
        }
    }
}
