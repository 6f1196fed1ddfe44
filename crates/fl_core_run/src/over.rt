//! What a core does over one of its sides, which is lent for that.

ghost use Rattle.std.specs.Prelude.{◌≡◌, ◌<◌, false, length, Some, None, IfErr};
ghost use Rattle.fl_base.specs.Control.{is_ack_only, with_circuit, bare};
ghost use Rattle.fl_link.specs.Looks.{found};
ghost use Rattle.fl_core.specs.BoardView.{due};
ghost use Rattle.fl_core.specs.BoardEvents.{Holds, Acks};
ghost use Rattle.fl_core.specs.BoardTurns.{Turns, over};
ghost use Rattle.fl_core.specs.Ends.{at_side, OnBoard, WritesAt};
ghost use Rattle.fl_core.specs.Hearing.{HearsFrag, HearsFragLast, TakesHeard};
ghost use Rattle.fl_core.specs.Links.{MonitorWrites, LooksAhead, inbound, ArrivesAt, Acknowledges};
ghost use Rattle.fl_core.specs.View.{arrivals_of};
ghost use Rattle.fl_core_run.specs.Inside.{OverSide, StandsFirst, put_label};

use crate::core_sides::CoreSides;
use fl_base::{EndId, Frag, LinkId};
use fl_compile::Program;
use fl_core::{
    AckAnswer, BoardFault, Core, LinkFront, LinkReceiveFault, MonitorAnswer, MonitorWrite,
    TurnAnswer,
};
use fl_endpoint::{EndFault, WriteAnswer};
use fl_hop::ForwardOutcome;
use fl_link::{PutFault, PutSide, Sight, TakeSide};
use fl_nameserv::Names;
use std::alloc::AllocError;

// ---- for a link

/// What stands first there.
pub(crate) fn look<S: CoreSides>(
    core: &mut Core,
    sides: &mut S,
    n: usize,
    link: LinkId,
) -> Result<LinkFront, LinkReceiveFault>
    requires side { n < length (S.states sides.old) }
    requires link { link.0 < length core.old.link_sides }
    ensures looks { OverSide n (S.states sides.old)
        (λ p q. LooksAhead S.ways.takes S.ways.front link.0 (at_side core.old p) result (at_side core.new q))
        (S.states sides.new) }
{
    core.look(link, sides.side(n))
}

/// A monitors' message that was seen to stand first there is heard.
pub(crate) fn hear<S: CoreSides>(
    core: &mut Core,
    sides: &mut S,
    n: usize,
    link: LinkId,
    frag: &Frag,
    names: &Names,
    programs: &[Program],
) -> Result<MonitorAnswer, LinkReceiveFault>
    requires side { n < length (S.states sides.old) }
    requires link { link.0 < length core.old.link_sides }
    requires seen { StandsFirst S.ways.front n frag.now (S.states sides.old) }
    ensures hears { HearsFrag (record { names = names.now; programs = programs.now }) link frag.now core.old result core.new }
    ensures takes { OverSide n (S.states sides.old) (λ p q. TakesHeard S.ways.takes frag.now p result q)
        (S.states sides.new) }
    ensures last { IfErr result (HearsFragLast (record { names = names.now; programs = programs.now }) link frag.now core.old) }
{
    core.hear(link, sides.side(n), frag, names, programs)
}

/// A fragment that was seen to stand first there is brought to an end.
pub(crate) fn arrive<S: CoreSides>(
    core: &mut Core,
    sides: &mut S,
    n: usize,
    link: LinkId,
    frag: &Frag,
    end: EndId,
) -> Result<ForwardOutcome, LinkReceiveFault>
    requires side { n < length (S.states sides.old) }
    requires link { link.0 < length core.old.link_sides }
    requires seen { StandsFirst S.ways.front n frag.now (S.states sides.old) }
    requires call { is_ack_only (with_circuit 0 frag.now) ≡ false }
    ensures arrives { OverSide n (S.states sides.old)
        (λ p q. ArrivesAt S.ways.takes (inbound link.0 frag.now end) (at_side core.old p) result (at_side core.new q))
        (S.states sides.new) }
{
    core.arrive(link, sides.side(n), frag, end)
}

/// The monitor writes.
pub(crate) fn say<S: CoreSides>(
    core: &mut Core,
    sides: &mut S,
    n: usize,
    link: LinkId,
) -> MonitorWrite
    requires side { n < length (S.states sides.old) }
    ensures writes { OverSide n (S.states sides.old)
        (λ p q. MonitorWrites S.ways.puts link.0 (at_side core.old p) result (at_side core.new q))
        (S.states sides.new) }
{
    core.monitor_write(link, sides.side(n))
}

/// What was taken on a link is told.
pub(crate) fn tell<S: CoreSides>(core: &Core, sides: &mut S, n: usize, link: LinkId) -> AckAnswer
    requires side { n < length (S.states sides.old) }
    requires link { link.0 < length core.now.link_sides }
    ensures tells { OverSide n (S.states sides.old) (λ p q. Acknowledges S.ways.takes p result q) (S.states sides.new) }
{
    core.monitor_ack(link, sides.side(n))
}

// ---- of a fragment that passes on

/// It is put there.
pub(crate) fn put<S: CoreSides>(sides: &mut S, n: usize, frag: &Frag) -> Result<(), PutFault>
    requires side { n < length (S.states sides.old) }
    requires call { is_ack_only frag.now ≡ false }
    ensures puts { OverSide n (S.states sides.old) (λ p q. S.ways.puts p (put_label frag.now result) q)
        (S.states sides.new) }
{
    sides.side(n).put(frag)
}

/// It was seen to stand first there, and is taken.
pub(crate) fn take<S: CoreSides>(sides: &mut S, n: usize, frag: &Frag) -> Sight
    requires side { n < length (S.states sides.old) }
    requires seen { StandsFirst S.ways.front n frag.now (S.states sides.old) }
    ensures takes { OverSide n (S.states sides.old) (λ p q. S.ways.takes p (found (bare frag.now)) q)
        (S.states sides.new) }
{
    sides.side(n).take()
}

// ---- for an end, or a dispatcher

/// The end at a place writes a fragment there.
pub(crate) fn write<S: CoreSides>(
    core: &mut Core,
    sides: &mut S,
    n: usize,
    e: usize,
) -> Result<WriteAnswer, EndFault>
    requires side { n < length (S.states sides.old) }
    requires there { e < length core.old.board.seats }
    ensures writes { OverSide n (S.states sides.old)
        (λ p q. WritesAt S.ways.puts e (at_side core.old p) result (at_side core.new q)) (S.states sides.new) }
{
    core.write(e, sides.side(n))
}

/// The end at a place tells what it took there.
pub(crate) fn ack<S: CoreSides>(
    core: &Core,
    sides: &mut S,
    n: usize,
    e: usize,
) -> Result<AckAnswer, BoardFault>
    requires side { n < length (S.states sides.old) }
    requires there { e < length core.now.board.seats }
    requires lent { arrivals_of core.now e ≡ None }
    ensures acks { OverSide n (S.states sides.old)
        (λ p q. Holds core.now.board e (λ seat. Acks S.ways.takes seat.kind seat.end p result q)) (S.states sides.new) }
{
    core.ack(e, sides.side(n))
}

/// A dispatcher has a turn, at the end at a place, which takes from there.
pub(crate) fn turn<S: CoreSides>(
    core: &mut Core,
    sides: &mut S,
    n: usize,
    dispatcher: usize,
    e: usize,
) -> Result<TurnAnswer, AllocError>
    requires side { n < length (S.states sides.old) }
    requires there { dispatcher < length core.old.board.dispatchers }
    requires due { due core.old.board dispatcher ≡ Some e }
    requires lent { arrivals_of core.old e ≡ None }
    ensures turns { OverSide n (S.states sides.old)
        (λ p q. OnBoard core.old (λ b c. Turns S.ways.takes dispatcher e (over b p) result (over c q)) core.new)
        (S.states sides.new) }
{
    core.turn(dispatcher, e, sides.side(n))
}
