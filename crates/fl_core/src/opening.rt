//! The client's end of a circuit.

ghost use Rattle.std.specs.Prelude.{◌≡◌, ◌<◌, length, None, IfErr, OnOk};
ghost use Rattle.fl_core.specs.View.{place_of, client_of};
ghost use Rattle.fl_core.specs.Making.{HasPlace, asked, BeginsOn, Asks, MayOpen, RefusesOpen, OpensLast};

use crate::Board;
use crate::fault::OpenFault;
use crate::makers::{add_circuit_end, find_place, make_arrivals, put_circuit_wired_end};
use crate::one_core::Core;
use fl_base::{EndId, LinkId, Side};
use fl_compile::Program;
use fl_monitor::{Monitor, Opening};
use std::alloc::Global;

// Adds the client's end, not bound yet, and starts the opening of its circuit. Where that is refused the end is taken back.
fn add_client_end(
    alloc: Global,
    board: &mut Board,
    monitor: &mut Monitor,
    dispatcher: usize,
    program: Program,
    link: LinkId,
    opening: &Opening,
) -> Result<usize, OpenFault>
    requires there { dispatcher < length board.old.dispatchers }
    requires place { HasPlace board.old dispatcher }
    ensures begins { BeginsOn (asked dispatcher program link opening.now) board.old monitor.old result board.new monitor.new }
{
    board.law_sound();
    match add_circuit_end(alloc, board, dispatcher, program, None) {
        Err(fault) => Err(OpenFault::Board(fault)),
        Ok(place) => match monitor.start_open(link, opening) {
            Err(fault) => {
                board.take_back();
                Err(OpenFault::Monitor(fault))
            }
            Ok(_) => Ok(place),
        },
    }
}

impl Core {
    /// Whether [`Core::open`] begins a circuit, memory aside. Takes no memory.
    ///
    /// # Errors
    /// In this order: the dispatcher has 1,024 ends (E54); there is no such link (E73), an entry of the binding stands here (E67), 1,023 circuits were opened
    /// there (E74), 64 messages wait there (E75).
    pub fn may_open(
        &self,
        dispatcher: usize,
        link: LinkId,
        opening: &Opening,
    ) -> Result<(), OpenFault>
        requires { dispatcher < length self.now.board.dispatchers }
        ensures may { OnOk result (MayOpen dispatcher link opening.now self.now) }
        ensures refused { IfErr result (RefusesOpen dispatcher link opening.now self.now) }
    {
        if let Err(fault) = find_place(&self.board, dispatcher) {
            return Err(OpenFault::Board(fault));
        }
        match self.monitor.may_start(link, opening) {
            Err(fault) => Err(OpenFault::Monitor(fault)),
            Ok(_) => Ok(()),
        }
    }

    // Begins a circuit that may be begun.
    fn open_there(
        &mut self,
        dispatcher: usize,
        program: Program,
        link: LinkId,
        opening: &Opening,
    ) -> Result<usize, OpenFault>
        requires dispatcher { dispatcher < length self.old.board.dispatchers }
        requires few { opening.now.binding < 1024 }
        requires new { place_of self.old (client_of opening.now.binding) ≡ None }
        ensures asks { Asks (asked dispatcher program link opening.now) self.old result self.new }
    {
        match make_arrivals(
            self.alloc,
            &self.board,
            dispatcher,
            &mut self.wired_ends,
            &mut self.arrivals,
        ) {
            Err(fault) => Err(OpenFault::Board(fault)),
            Ok(queue) => {
                match add_client_end(
                    self.alloc,
                    &mut self.board,
                    &mut self.monitor,
                    dispatcher,
                    program,
                    link,
                    opening,
                ) {
                    Err(fault) => Err(fault),
                    Ok(place) => {
                        let name = EndId {
                            binding: opening.binding as usize,
                            side: Side::Client,
                        };
                        put_circuit_wired_end(
                            &mut self.wired_ends,
                            &mut self.places,
                            &mut self.arrivals,
                            queue,
                            (name, link, place),
                        );
                        Ok(place)
                    }
                }
            }
        }
    }

    /// Begins a circuit for a binding whose client is at this core: the client's end is added at a dispatcher, with an arrival queue, and isn't bound yet;
    /// its entry is made on the link on which the route begins ([`fl_monitor::Monitor::may_open`]), and the opening goes into that link's outbox. The
    /// end's place is the answer.
    ///
    /// # Errors
    /// In this order: the dispatcher has 1,024 ends (E54); there is no such link (E73), an entry of the binding stands here (E67), 1,023 circuits were opened
    /// there (E74), 64 messages wait there (E75). Or out of memory (E99). The core is as it was then.
    pub fn open(
        &mut self,
        dispatcher: usize,
        program: Program,
        link: LinkId,
        opening: &Opening,
    ) -> Result<usize, OpenFault>
        requires dispatcher { dispatcher < length self.old.board.dispatchers }
        requires few { opening.now.binding < 1024 }
        requires new { place_of self.old (client_of opening.now.binding) ≡ None }
        ensures asks { Asks (asked dispatcher program link opening.now) self.old result self.new }
        ensures last { IfErr result (OpensLast dispatcher link opening.now self.old) }
    {
        match self.may_open(dispatcher, link, opening) {
            Err(fault) => Err(fault),
            Ok(()) => self.open_there(dispatcher, program, link, opening),
        }
    }
}
