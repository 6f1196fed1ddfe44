//! Two cores at one table with two rings between them, whose sides are lent by number, in one thread.

ghost use Rattle.std.specs.Prelude.{◌≡◌, false, IfOk};
ghost use Rattle.fl_base.specs.Control.{is_ack_only};
ghost use Rattle.fl_history_rings.specs.Cores.{next_core, without_next};

use fl_base::Frag;
use fl_core_run::CoreSides;
use fl_history_rings::{CoresLeft, Gathering, RingEnds, RingsCore, rings};
use fl_history_sides::{HistorySides, LentSide};
use fl_link::{PutFault, PutSide, Sight, TakeSide, Told};
use std::alloc::{AllocError, Global};

// What a side is asked, and what it has to answer. A fragment is told by its first word and its control word.
#[derive(Clone, Copy)]
enum Asked {
    Put(u64, Result<(), PutFault>),
    Peek(u64, u64),
    Take(u64, u64),
    PeekAtNothing,
    TakeNothing,
    TakeAcknowledgement,
    Tell(Result<Told, PutFault>),
    // Whether there is room, the epoch and the number told that come next, and what is known to be taken.
    Stands(bool, u64, u16, u64),
}

// By so manyth side of the first core, or of the second.
#[derive(Clone, Copy)]
enum Row {
    First(usize, Asked),
    Second(usize, Asked),
}

// So many fragments are told in a control word.
const TOLD: u64 = 1 << 48;

// Four slots each way. Side 0 of each core is of the ring of the other's side 1.
const ROWS: &[Row] = &[
    Row::First(0, Asked::Stands(true, 1, 0, 0)),
    Row::First(1, Asked::PeekAtNothing),
    Row::First(0, Asked::Put(5, Ok(()))),
    Row::First(0, Asked::Put(6, Ok(()))),
    Row::First(1, Asked::Put(7, Ok(()))),
    Row::First(0, Asked::Put(8, Ok(()))),
    Row::First(0, Asked::Stands(false, 1, 0, 0)),
    Row::First(0, Asked::Put(9, Err(PutFault::Full))),
    Row::Second(0, Asked::Peek(7, 3)),
    Row::Second(1, Asked::Peek(5, 3)),
    Row::Second(1, Asked::Take(5, 3)),
    Row::Second(1, Asked::Tell(Ok(Told::Nothing))),
    Row::Second(1, Asked::Take(6, 3)),
    Row::Second(1, Asked::Tell(Ok(Told::Written))),
    Row::Second(0, Asked::Take(7, 3)),
    Row::Second(0, Asked::TakeNothing),
    Row::Second(0, Asked::Put(20, Ok(()))),
    Row::First(0, Asked::Put(9, Ok(()))),
    Row::First(0, Asked::Stands(true, 0, 0, 2)),
    Row::First(0, Asked::TakeAcknowledgement),
    Row::First(0, Asked::Stands(true, 0, 1, 2)),
    Row::First(1, Asked::Take(20, 3 + TOLD)),
    Row::First(1, Asked::Stands(true, 1, 1, 1)),
];

// A fragment of a call with this first word.
fn call(v: u64) -> Frag
    ensures data { is_ack_only result ≡ false }
{
    Frag {
        words: [v, 0, 0, 0, 0, 0, 0],
        control: 2,
    }
}

// What a look answers that finds it with this control word.
fn sight(v: u64, control: u64) -> Sight {
    Sight::Data(Frag {
        words: [v, 0, 0, 0, 0, 0, 0],
        control,
    })
}

// Whether the side that is lent answers so.
fn side_answers(side: &mut LentSide, asked: Asked) -> bool {
    match asked {
        Asked::Put(v, answer) => side.put(&call(v)) == answer,
        Asked::Peek(v, control) => side.peek() == sight(v, control),
        Asked::Take(v, control) => side.take() == sight(v, control),
        Asked::PeekAtNothing => side.peek() == Sight::Empty,
        Asked::TakeNothing => side.take() == Sight::Empty,
        Asked::TakeAcknowledgement => side.take() == Sight::Acknowledgement,
        Asked::Tell(answer) => side.tell() == answer,
        Asked::Stands(room, epoch, told, known) => {
            (
                side.room(),
                side.next_epoch(),
                side.next_told(),
                side.known(),
            ) == (room, epoch, told, known)
        }
    }
}

// The same of a core's side of this number.
fn answers(sides: &mut HistorySides, n: usize, asked: Asked) -> bool {
    sides.shows();
    if n >= sides.count() {
        return false;
    }
    side_answers(sides.side(n), asked)
}

fn row_answers(first: &mut HistorySides, second: &mut HistorySides, row: Row) -> bool {
    match row {
        Row::First(n, asked) => answers(first, n, asked),
        Row::Second(n, asked) => answers(second, n, asked),
    }
}

// Whether a core comes back, whose steps have one order.
fn settles(sides: HistorySides) -> bool {
    let Some(core) = sides.into_core() else {
        return false;
    };
    let mut gathering = Gathering::of(core);
    gathering.settle();
    true
}

fn all_answer(mut first: HistorySides, mut second: HistorySides) -> bool {
    for row in ROWS {
        if !row_answers(&mut first, &mut second, *row) {
            return false;
        }
    }
    !answers(&mut first, 2, Asked::PeekAtNothing) && settles(first) && settles(second)
}

// The next core.
fn next_core_of(left: &mut CoresLeft) -> Result<RingsCore, AllocError>
    ensures core { IfOk result (λ core. (core ≡ next_core left.old) × (left.new ≡ without_next left.old)) }
{
    let Ok(given) = left.core() else {
        return Err(AllocError);
    };
    let Some(core) = given else {
        return Err(AllocError);
    };
    Ok(core)
}

// The first core's sides of both rings, and the second core's, each in an order of its own; and none of another.
fn sides(alloc: Global) -> Result<(HistorySides, HistorySides, HistorySides), AllocError> {
    let ring = RingEnds {
        slots: 4,
        first: 0,
        second: 1,
    };
    let mut left = rings(alloc, &[ring, ring], 3)?;
    let first = HistorySides::of(alloc, next_core_of(&mut left)?, &[2, 0])?;
    let second = HistorySides::of(alloc, next_core_of(&mut left)?, &[1, 3])?;
    let none = HistorySides::of(alloc, next_core_of(&mut left)?, &[])?;
    Ok((first, second, none))
}

fn all_go(alloc: Global) -> Result<bool, AllocError> {
    let (first, second, none) = sides(alloc)?;
    let nothing = none.count() == 0 && none.into_core().is_none();
    Ok(nothing && all_answer(first, second))
}

// Where there is no memory for them, there are none.
#[test]
fn sides_of_two_cores_without_memory(rt: HostRuntime) {
    assert!(rt; all_go(rt.alloc()).unwrap_or(true));
}
