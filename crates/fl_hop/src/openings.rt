//! How entries come and go: each of the three ways in which a circuit is opened at a core, and its removal.

ghost use Rattle.std.specs.Prelude.{◌≡◌, None, Some, IfOk, IfErr, OnOk, OnErr, IfSome, OnSome, IfNone};
ghost use Rattle.fl_hop.specs.declared.entry.HopTarget.{HopTarget};
ghost use Rattle.fl_hop.specs.declared.entry.Hop.{Hop};
ghost use Rattle.fl_hop.specs.Table.{hop_at, without_entry};
ghost use Rattle.fl_hop.specs.Numbers.{next_own, next_due, after_taking};
ghost use Rattle.fl_hop.specs.Openings.{IsRefusal, open_fault, opened, pass_fault, passed_on};
ghost use Rattle.fl_hop.specs.Openings.{arrive_fault, arrived, refuse_fault, is_next, IsWaiting, answered};
ghost use Rattle.fl_hop.specs.Later.{Later};

use crate::circuits::Circuits;
use crate::entry::{Cell, Entry, Hop, HopTarget, cell_at, clear, enter};
use crate::fault::HopFault;
use crate::links::{count_opening, count_taking};
use fl_base::{Circuit, EndId, LinkId, Side};

impl Circuits {
    /// Opens a circuit on a link for a binding whose client is at this core: gives the next of this core's own numbers
    /// there, and joins it with the client's end. A number is given once, also where its entry is removed later.
    ///
    /// # Errors
    /// There is no such link (E73); an entry of the binding stands here (E67); this core has opened 1,023 circuits
    /// there (E74); out of memory (E99). Nothing has changed then.
    pub fn open(&mut self, link: LinkId, binding: usize) -> Result<Circuit, HopFault>
        ensures may { OnOk result (open_fault self.old link.0 binding ≡ None) }
        ensures next { IfOk result (λ c. next_own self.old link.0 ≡ Some c.0) }
        ensures opened { IfOk result (λ c. self.new ≡ opened self.old link c binding) }
        ensures later { OnOk result (Later self.old self.new) }
        ensures refused { IfErr result (IsRefusal (open_fault self.old link.0 binding)) }
        ensures kept { OnErr result (self.new ≡ self.old) }
    {
        if usize::from(link.0) >= self.links.len() {
            return Err(HopFault::NoLink);
        }
        if self.stands(binding) {
            return Err(HopFault::Misrouted);
        }
        let Some(circuit) = self.next(link) else {
            return Err(HopFault::UsedUp);
        };
        let entry = Entry {
            binding,
            client: HopTarget::End(EndId {
                binding,
                side: Side::Client,
            }),
            server: HopTarget::Link(link, circuit),
            answered: false,
        };
        let Ok(()) = enter(&mut self.cells, &mut self.entries, entry) else {
            return Err(HopFault::Memory);
        };
        count_opening(&mut self.links, link);
        Ok(circuit)
    }

    /// Takes the neighbour's opening on a link and passes it on over another: opens a circuit there, and joins the two
    /// numbers.
    ///
    /// # Errors
    /// The number isn't the neighbour's next there, or an entry of the binding stands here (E67); the way on isn't another
    /// link of this core (E73); this core has opened 1,023 circuits there (E74); out of memory (E99). Nothing has
    /// changed then.
    pub fn pass_on(
        &mut self,
        link: LinkId,
        circuit: Circuit,
        onward: LinkId,
        binding: usize,
    ) -> Result<Circuit, HopFault>
        ensures may { OnOk result (pass_fault self.old link.0 circuit.0 onward.0 binding ≡ None) }
        ensures next { IfOk result (λ c. next_own self.old onward.0 ≡ Some c.0) }
        ensures passed_on { IfOk result (λ c. self.new ≡ passed_on self.old link circuit onward c binding) }
        ensures later { OnOk result (Later self.old self.new) }
        ensures refused { IfErr result (IsRefusal (pass_fault self.old link.0 circuit.0 onward.0 binding)) }
        ensures kept { OnErr result (self.new ≡ self.old) }
    {
        if !self.is_next(link, circuit) || self.stands(binding) {
            return Err(HopFault::Misrouted);
        }
        if link.0 == onward.0 || usize::from(onward.0) >= self.links.len() {
            return Err(HopFault::NoLink);
        }
        let Some(next) = self.next(onward) else {
            return Err(HopFault::UsedUp);
        };
        let entry = Entry {
            binding,
            client: HopTarget::Link(link, circuit),
            server: HopTarget::Link(onward, next),
            answered: false,
        };
        let Ok(()) = enter(&mut self.cells, &mut self.entries, entry) else {
            return Err(HopFault::Memory);
        };
        count_taking(&mut self.links, link);
        count_opening(&mut self.links, onward);
        Ok(next)
    }

    /// Takes the neighbour's opening on a link for a binding whose server is at this core, and joins the number with the
    /// server's end.
    ///
    /// # Errors
    /// The number isn't the neighbour's next there, or an entry of the binding stands here (E67); out of memory (E99).
    /// Nothing has changed then.
    pub fn arrive(&mut self, link: LinkId, circuit: Circuit, binding: usize) -> Result<(), HopFault>
        ensures may { OnOk result (arrive_fault self.old link.0 circuit.0 binding ≡ None) }
        ensures arrived { OnOk result (self.new ≡ arrived self.old link circuit binding) }
        ensures later { OnOk result (Later self.old self.new) }
        ensures refused { IfErr result (IsRefusal (arrive_fault self.old link.0 circuit.0 binding)) }
        ensures kept { OnErr result (self.new ≡ self.old) }
    {
        if !self.is_next(link, circuit) || self.stands(binding) {
            return Err(HopFault::Misrouted);
        }
        let entry = Entry {
            binding,
            client: HopTarget::Link(link, circuit),
            server: HopTarget::End(EndId {
                binding,
                side: Side::Server,
            }),
            answered: false,
        };
        let Ok(()) = enter(&mut self.cells, &mut self.entries, entry) else {
            return Err(HopFault::Memory);
        };
        count_taking(&mut self.links, link);
        Ok(())
    }

    /// Takes the neighbour's opening on a link without an entry, where it is refused. It is counted, so that both sides
    /// agree on the next. Takes no memory.
    ///
    /// # Errors
    /// The number isn't the neighbour's next there (E67). Nothing has changed then.
    pub fn refuse(&mut self, link: LinkId, circuit: Circuit) -> Result<(), HopFault>
        ensures may { OnOk result (refuse_fault self.old link.0 circuit.0 ≡ None) }
        ensures counted { OnOk result (self.new ≡ after_taking self.old link.0) }
        ensures later { OnOk result (Later self.old self.new) }
        ensures refused { IfErr result (λ fault. refuse_fault self.old link.0 circuit.0 ≡ Some fault) }
        ensures kept { OnErr result (self.new ≡ self.old) }
    {
        if !self.is_next(link, circuit) {
            return Err(HopFault::Misrouted);
        }
        count_taking(&mut self.links, link);
        Ok(())
    }

    /// Notes that the answer to one of this core's own openings came, and gives what its entry says: that is where the
    /// answer goes back to.
    ///
    /// # Errors
    /// The number isn't one that this core gave there, no entry stands at it, or its answer came before (E67). Nothing has
    /// changed then.
    pub fn answer(&mut self, link: LinkId, circuit: Circuit) -> Result<Hop, HopFault>
        ensures waited { IfOk result (IsWaiting self.old link.0 circuit.0) }
        ensures answered { IfOk result (λ hop. self.new ≡ answered self.old link circuit hop) }
        ensures later { OnOk result (Later self.old self.new) }
        ensures misrouted { OnErr result ((hop : Hop) → IsWaiting self.old link.0 circuit.0 hop → ⊥) }
        ensures refused { IfErr result (λ fault. fault ≡ HopFault.Misrouted) }
        ensures kept { OnErr result (self.new ≡ self.old) }
    {
        let Cell::ServerSide(key) = cell_at(self.cells.as_slice(), link, circuit) else {
            return Err(HopFault::Misrouted);
        };
        let Some(entry) = self.entries.get_mut(key) else {
            return Err(HopFault::Misrouted);
        };
        let hop = entry.from_server();
        if hop.answered {
            return Err(HopFault::Misrouted);
        }
        entry.answered = true;
        Ok(hop)
    }

    // Whether the number is the one that the neighbour's next opening on the link has.
    fn is_next(&self, link: LinkId, circuit: Circuit) -> bool
        ensures next { result ≡ is_next (next_due self.now link.0) circuit.0 }
    {
        match self.next_due(link) {
            Some(next) => next.0 == circuit.0,
            None => false,
        }
    }

    /// Removes the entry at a number of a link, from both its sides, and gives what it said; `None` where there is
    /// none, and then nothing changes. Its numbers aren't given again.
    pub fn remove(&mut self, link: LinkId, circuit: Circuit) -> Option<Hop>
        ensures hop { result ≡ hop_at self.old link.0 circuit.0 }
        ensures removed { IfSome result (λ hop. self.new ≡ without_entry self.old (HopTarget.Link link circuit) hop.way) }
        ensures later { OnSome result (Later self.old self.new) }
        ensures none { IfNone result (self.new ≡ self.old) }
    {
        match cell_at(self.cells.as_slice(), link, circuit) {
            Cell::Free => None,
            Cell::ClientSide(key) => {
                let Some(entry) = self.entries.try_remove(key) else {
                    return None;
                };
                clear(
                    &mut self.cells,
                    HopTarget::Link(link, circuit),
                    entry.server,
                );
                Some(entry.from_client())
            }
            Cell::ServerSide(key) => {
                let Some(entry) = self.entries.try_remove(key) else {
                    return None;
                };
                clear(
                    &mut self.cells,
                    HopTarget::Link(link, circuit),
                    entry.client,
                );
                Some(entry.from_server())
            }
        }
    }
}
