//! A ring between two cores in one thread; memory that is refused.

ghost use Rattle.std.specs.Prelude.{◌≡◌, [], IfOk};
ghost use Rattle.fl_history_rings.specs.Cores.{next_core, without_next};
ghost use Rattle.fl_history_rings.specs.Sides.{SideFor};

use crate::ring::fragments::ping;
use fl_base::Frag;
use fl_history_rings::{CoresLeft, RingEnds, RingSide, RingsCore, rings};
use fl_link::{PutFault, Told};
use std::alloc::{AllocError, Global};

// A call by one side of the ring, and what it has to answer. A fragment is told by its first word and its control word.
#[derive(Clone, Copy)]
enum RingCall {
    Put(u64, Result<(), PutFault>),
    Look(u64, u64),
    Take(u64, u64),
    LookForNothing,
    TakeNothing,
    Tell(Result<Told, PutFault>),
}

// By the first side, or by the second.
#[derive(Clone, Copy)]
enum Row {
    First(RingCall),
    Second(RingCall),
}

// So many fragments are told in a control word.
const TOLD: u64 = 1 << 48;

// Four slots each way. A put wants two free slots and an acknowledgement one; each fragment tells how many its side took.
const RING_OF_FOUR: &[Row] = &[
    Row::First(RingCall::LookForNothing),
    Row::Second(RingCall::TakeNothing),
    Row::First(RingCall::Put(5, Ok(()))),
    Row::First(RingCall::Put(6, Ok(()))),
    Row::First(RingCall::Put(7, Ok(()))),
    Row::First(RingCall::Put(8, Err(PutFault::Full))),
    Row::Second(RingCall::Look(5, 3)),
    Row::Second(RingCall::Take(5, 3)),
    Row::Second(RingCall::Tell(Ok(Told::Nothing))),
    Row::Second(RingCall::Take(6, 3)),
    Row::First(RingCall::Put(8, Err(PutFault::Full))),
    Row::Second(RingCall::Tell(Ok(Told::Written))),
    Row::First(RingCall::Put(8, Ok(()))),
    Row::First(RingCall::Put(9, Ok(()))),
    Row::First(RingCall::Put(10, Err(PutFault::Full))),
    Row::First(RingCall::Take(0, 5 + 2 * TOLD)),
    Row::First(RingCall::TakeNothing),
    Row::Second(RingCall::Tell(Ok(Told::Nothing))),
    Row::Second(RingCall::Put(20, Ok(()))),
    Row::Second(RingCall::Take(7, 3)),
    Row::Second(RingCall::Take(8, 3)),
    Row::Second(RingCall::Take(9, 2)),
    Row::Second(RingCall::TakeNothing),
    Row::First(RingCall::Look(20, 3 + 2 * TOLD)),
    Row::First(RingCall::Put(10, Err(PutFault::Full))),
    Row::Second(RingCall::Put(21, Ok(()))),
    Row::First(RingCall::Take(20, 3 + 2 * TOLD)),
    Row::First(RingCall::Put(10, Ok(()))),
    Row::Second(RingCall::Take(10, 2 + 2 * TOLD)),
    Row::First(RingCall::Take(21, 3 + 5 * TOLD)),
    Row::Second(RingCall::LookForNothing),
];

// What a look finds where `ping(v)` stands with this control word.
fn found(v: u64, control: u64) -> Option<Frag> {
    Some(Frag {
        words: [v, 0, 0, 0, 0, 0, 0],
        control,
    })
}

// Takes a step by the side of a core, and says whether it answers so.
fn side_answers(core: &mut RingsCore, side: &mut RingSide, step: RingCall) -> bool
    requires mine { SideFor core.old side.old }
    ensures mine { SideFor core.new side.new }
{
    match step {
        RingCall::Put(v, answer) => core.put(side, &ping(v)) == answer,
        RingCall::Look(v, control) => core.look(side) == found(v, control),
        RingCall::Take(v, control) => core.take(side) == found(v, control),
        RingCall::LookForNothing => core.look(side).is_none(),
        RingCall::TakeNothing => core.take(side).is_none(),
        RingCall::Tell(answer) => core.tell(side) == answer,
    }
}

// The same by either side.
fn ring_answers(
    one: &mut RingsCore,
    first: &mut RingSide,
    two: &mut RingsCore,
    second: &mut RingSide,
    row: Row,
) -> bool
    requires mine { SideFor one.old first.old × SideFor two.old second.old }
    ensures mine { SideFor one.new first.new × SideFor two.new second.new }
{
    match row {
        Row::First(step) => side_answers(one, first, step),
        Row::Second(step) => side_answers(two, second, step),
    }
}

fn ring_follows(
    mut one: RingsCore,
    mut first: RingSide,
    mut two: RingsCore,
    mut second: RingSide,
) -> bool
    requires mine { SideFor one first × SideFor two second }
{
    for row in RING_OF_FOUR {
        if !ring_answers(&mut one, &mut first, &mut two, &mut second, *row) {
            return false;
        }
    }
    true
}

// The ring from core 0 to core 1. The sides of others, and those that aren't there, aren't given.
fn goes_both_ways(one: RingsCore, two: RingsCore) -> bool
    requires new { (one.steps ≡ []) × (two.steps ≡ []) }
{
    let own_alone = one.side(1).is_err()
        && two.side(0).is_err()
        && one.side(2).is_err()
        && two.side(3).is_err();
    let Ok(first) = one.side(0) else {
        return false;
    };
    let Ok(second) = two.side(1) else {
        return false;
    };
    own_alone && ring_follows(one, first, two, second)
}

// The next core.
pub fn next_core_of(left: &mut CoresLeft) -> Result<RingsCore, AllocError>
    ensures core { IfOk result (λ core. (core ≡ next_core left.old) × (left.new ≡ without_next left.old)) }
{
    let Ok(given) = left.core() else {
        return Err(AllocError);
    };
    let Some(core) = given else {
        return Err(AllocError);
    };
    Ok(core)
}

// A ring of four slots each way between two cores.
pub fn ring_of_four(alloc: Global) -> Result<CoresLeft, AllocError> {
    let ends = [RingEnds {
        slots: 4,
        first: 0,
        second: 1,
    }];
    rings(alloc, &ends, 2)
}

fn follows(alloc: Global) -> Result<bool, AllocError> {
    let mut left = ring_of_four(alloc)?;
    let one = next_core_of(&mut left)?;
    let two = next_core_of(&mut left)?;
    Ok(left.core()?.is_none() && goes_both_ways(one, two))
}

// Where there is no memory for it, there is no ring.
#[test]
fn a_ring_both_ways_without_memory(rt: HostRuntime) {
    assert!(rt; follows(rt.alloc()).unwrap_or(true));
}
