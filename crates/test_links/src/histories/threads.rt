//! A ring between two cores in two threads, each of which puts and takes as many fragments.

ghost use Rattle.std.specs.Prelude.{◌≡◌, []};
ghost use Rattle.fl_history_rings.specs.Cores.{IsSameCore};
ghost use Rattle.fl_history_rings.specs.Sides.{SideFor};

use crate::histories::rows::{next_core_of, ring_of_four};
use crate::ring::fragments::ping;
use fl_history_rings::{Gathering, RingSide, RingsCore};
use std::sync::Wait;
use std::test::Fail;
use std::thread::{Threads, join, yield_now};

const COUNT: u64 = 1_000;

// Puts the next fragment, if one is left to put and there is room, and counts it.
fn put_next(core: &mut RingsCore, side: &mut RingSide, sent: u64) -> u64
    requires mine { SideFor core.old side.old }
    ensures mine { SideFor core.new side.new }
    ensures same { IsSameCore core.old core.new }
{
    if sent >= COUNT {
        return sent;
    }
    match core.put(side, &ping(sent)) {
        Ok(()) => sent + 1,
        Err(_) => sent,
    }
}

// Takes the next fragment, if one is there; `None` where it carries a value that isn't due.
fn take_next(core: &mut RingsCore, side: &mut RingSide, next: u64) -> Option<u64>
    requires mine { SideFor core.old side.old }
    ensures mine { SideFor core.new side.new }
    ensures same { IsSameCore core.old core.new }
{
    match core.take(side) {
        Some(frag) if frag.is_ack_only() => Some(next),
        Some(frag) if frag.words[0] == next && next < COUNT => Some(next + 1),
        Some(_) => None,
        None => Some(next),
    }
}

// Acknowledges what was taken, if it is enough.
fn acknowledge(core: &mut RingsCore, side: &mut RingSide)
    requires mine { SideFor core.old side.old }
    ensures mine { SideFor core.new side.new }
    ensures same { IsSameCore core.old core.new }
{
    let _ = core.tell(side);
}

// Puts and takes as many fragments, whose word 0 counts from 0, and says how many came in order.
fn exchanges<R: Wait>(rt: &R, mut core: RingsCore, mut side: RingSide) -> (RingsCore, u64)
    requires mine { SideFor core side }
    ensures same { IsSameCore core result.0 }
{
    let mut sent = 0;
    let mut next = 0;
    for _ in rt.forever() {
        if sent >= COUNT && next >= COUNT {
            break;
        }
        sent = put_next(&mut core, &mut side, sent);
        let Some(count) = take_next(&mut core, &mut side, next) else {
            break;
        };
        next = count;
        acknowledge(&mut core, &mut side);
        yield_now();
    }
    (core, next)
}

fn exchanges_by<R: Wait>(rt: &R, core: RingsCore, number: usize) -> (RingsCore, u64)
    requires new { core.steps ≡ [] }
    ensures same { IsSameCore core result.0 }
{
    let Ok(side) = core.side(number) else {
        return (core, 0);
    };
    exchanges(rt, core, side)
}

// A thread for each core. All that was done has one order.
fn exchange_in_threads<R: Threads + Wait + Sync>(
    rt: &R,
    one: RingsCore,
    two: RingsCore,
) -> (u64, u64)
    requires new { (one.steps ≡ []) × (two.steps ≡ []) }
    requires table { two.table ≡ one.table }
{
    let ((one, there), (two, back)) = join(
        rt,
        move || -> (RingsCore, u64)
            requires { one.steps ≡ [] }
            ensures { IsSameCore one result.0 }
        { exchanges_by(rt, one, 0) },
        move || -> (RingsCore, u64)
            requires { two.steps ≡ [] }
            ensures { IsSameCore two result.0 }
        { exchanges_by(rt, two, 1) },
    );
    let mut all = Gathering::of(one);
    all.add(two);
    all.settle();
    (there, back)
}

#[test]
fn two_threads_put_and_take_in_order(rt: HostRuntime) -> Result<(), Fail> {
    let mut left = ring_of_four(rt.alloc())?;
    let one = next_core_of(&mut left)?;
    let two = next_core_of(&mut left)?;
    assert!(rt; exchange_in_threads(&rt, one, two) == (COUNT, COUNT));
    Ok(())
}
