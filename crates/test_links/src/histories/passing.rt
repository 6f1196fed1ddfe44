//! Three cores with three rings: one puts into two rings, one passes on what comes by the first of them, and one takes from two.

ghost use Rattle.std.specs.Prelude.{◌≡◌, []};
ghost use Rattle.fl_history_rings.specs.Cores.{IsSameCore};
ghost use Rattle.fl_history_rings.specs.Sides.{SideFor, LeavesOthers};
ghost use Rattle.test_links.specs.TwoSides.{HasBoth};

use crate::histories::rows::next_core_of;
use crate::ring::fragments::ping;
use fl_history_rings::{CoresLeft, Gathering, RingEnds, RingSide, RingsCore, rings};
use std::alloc::{AllocError, Global};
use std::sync::Wait;
use std::test::Fail;
use std::thread::{Threads, join, yield_now};

const COUNT: u64 = 1_000;

// Ring 0 is from core 0 to core 1, ring 1 from there to core 2, and ring 2 from core 0 to core 2.
fn three(alloc: Global) -> Result<CoresLeft, AllocError> {
    let ends = [
        RingEnds {
            slots: 8,
            first: 0,
            second: 1,
        },
        RingEnds {
            slots: 4,
            first: 1,
            second: 2,
        },
        RingEnds {
            slots: 16,
            first: 0,
            second: 2,
        },
    ];
    rings(alloc, &ends, 3)
}

// Puts the next fragment, if one is left to put and there is room, and counts it.
fn put_next(core: &mut RingsCore, side: &mut RingSide, sent: u64) -> u64
    requires mine { SideFor core.old side.old }
    ensures same { IsSameCore core.old core.new }
    ensures mine { SideFor core.new side.new }
    ensures beside { LeavesOthers side.old side.new core.old core.new }
{
    if sent >= COUNT {
        return sent;
    }
    match core.put(side, &ping(sent)) {
        Ok(()) => sent + 1,
        Err(_) => sent,
    }
}

// Takes what stands first, and lets it go.
fn take_and_drop(core: &mut RingsCore, side: &mut RingSide)
    requires mine { SideFor core.old side.old }
    ensures same { IsSameCore core.old core.new }
    ensures mine { SideFor core.new side.new }
    ensures beside { LeavesOthers side.old side.new core.old core.new }
{
    let _ = core.take(side);
}

// Acknowledges what was taken, if it is enough.
fn acknowledge(core: &mut RingsCore, side: &mut RingSide)
    requires mine { SideFor core.old side.old }
    ensures same { IsSameCore core.old core.new }
    ensures mine { SideFor core.new side.new }
    ensures beside { LeavesOthers side.old side.new core.old core.new }
{
    let _ = core.tell(side);
}

// Puts fragments into two rings, whose word 0 counts from 0.
fn puts_both<R: Wait>(
    rt: &R,
    mut core: RingsCore,
    mut near: RingSide,
    mut far: RingSide,
) -> RingsCore
    requires sides { HasBoth core near far }
    ensures same { IsSameCore core result }
{
    let mut sent = (0, 0);
    for _ in rt.forever() {
        if sent.0 >= COUNT && sent.1 >= COUNT {
            break;
        }
        sent.0 = put_next(&mut core, &mut near, sent.0);
        take_and_drop(&mut core, &mut near);
        sent.1 = put_next(&mut core, &mut far, sent.1);
        take_and_drop(&mut core, &mut far);
        yield_now();
    }
    core
}

// Passes the first fragment on, if there is one and there is room for it.
fn pass_one(core: &mut RingsCore, from: &mut RingSide, to: &mut RingSide) -> bool
    requires sides { HasBoth core.old from.old to.old }
    ensures sides { HasBoth core.new from.new to.new }
    ensures same { IsSameCore core.old core.new }
{
    take_and_drop(core, to);
    let Some(frag) = core.look(from) else {
        return false;
    };
    if frag.is_ack_only() || core.put(to, &frag).is_err() {
        return false;
    }
    take_and_drop(core, from);
    acknowledge(core, from);
    true
}

// Passes as many on.
fn passes_on<R: Wait>(
    rt: &R,
    mut core: RingsCore,
    mut from: RingSide,
    mut to: RingSide,
) -> RingsCore
    requires sides { HasBoth core from to }
    ensures same { IsSameCore core result }
{
    let mut passed: u64 = 0;
    for _ in rt.forever() {
        if passed >= COUNT {
            break;
        }
        if pass_one(&mut core, &mut from, &mut to) {
            passed += 1;
        }
        yield_now();
    }
    core
}

// Takes the next fragment, if it is there; `None` where it isn't the one due.
fn take_next(core: &mut RingsCore, side: &mut RingSide, next: u64) -> Option<u64>
    requires mine { SideFor core.old side.old }
    ensures same { IsSameCore core.old core.new }
    ensures mine { SideFor core.new side.new }
    ensures beside { LeavesOthers side.old side.new core.old core.new }
{
    match core.take(side) {
        Some(frag) if frag.words[0] == next && next < COUNT => Some(next + 1),
        Some(_) => None,
        None => Some(next),
    }
}

// Takes as many from each of two rings, and says how many came in order.
fn takes_both<R: Wait>(
    rt: &R,
    mut core: RingsCore,
    mut passed: RingSide,
    mut far: RingSide,
) -> (RingsCore, u64, u64)
    requires sides { HasBoth core passed far }
    ensures same { IsSameCore core result.0 }
{
    let mut next = (0, 0);
    for _ in rt.forever() {
        if next.0 >= COUNT && next.1 >= COUNT {
            break;
        }
        let Some(count) = take_next(&mut core, &mut passed, next.0) else {
            break;
        };
        next.0 = count;
        acknowledge(&mut core, &mut passed);
        let Some(count) = take_next(&mut core, &mut far, next.1) else {
            break;
        };
        next.1 = count;
        acknowledge(&mut core, &mut far);
        yield_now();
    }
    (core, next.0, next.1)
}

fn first_core<R: Wait>(rt: &R, core: RingsCore) -> RingsCore
    requires new { core.steps ≡ [] }
    ensures same { IsSameCore core result }
{
    let Ok(near) = core.side(0) else {
        return core;
    };
    let Ok(far) = core.side(4) else {
        return core;
    };
    puts_both(rt, core, near, far)
}

fn middle_core<R: Wait>(rt: &R, core: RingsCore) -> RingsCore
    requires new { core.steps ≡ [] }
    ensures same { IsSameCore core result }
{
    let Ok(from) = core.side(1) else {
        return core;
    };
    let Ok(to) = core.side(2) else {
        return core;
    };
    passes_on(rt, core, from, to)
}

fn last_core<R: Wait>(rt: &R, core: RingsCore) -> (RingsCore, u64, u64)
    requires new { core.steps ≡ [] }
    ensures same { IsSameCore core result.0 }
{
    let Ok(passed) = core.side(3) else {
        return (core, 0, 0);
    };
    let Ok(far) = core.side(5) else {
        return (core, 0, 0);
    };
    takes_both(rt, core, passed, far)
}

// A thread for each of the last two cores.
fn two_more<R: Threads + Wait + Sync>(
    rt: &R,
    one: RingsCore,
    two: RingsCore,
) -> (RingsCore, (RingsCore, u64, u64))
    requires new { (one.steps ≡ []) × (two.steps ≡ []) }
    ensures one { IsSameCore one result.0 }
    ensures two { IsSameCore two result.1.0 }
{
    join(
        rt,
        move || -> RingsCore
            requires { one.steps ≡ [] }
            ensures { IsSameCore one result }
        { middle_core(rt, one) },
        move || -> (RingsCore, u64, u64)
            requires { two.steps ≡ [] }
            ensures { IsSameCore two result.0 }
        { last_core(rt, two) },
    )
}

// A thread for each core. All that was done has one order. It says how many came in order by each of the last core's rings.
fn pass_in_threads<R: Threads + Wait + Sync>(
    rt: &R,
    zero: RingsCore,
    one: RingsCore,
    two: RingsCore,
) -> (u64, u64)
    requires new { (zero.steps ≡ []) × (one.steps ≡ []) × (two.steps ≡ []) }
    requires table { (one.table ≡ zero.table) × (two.table ≡ zero.table) }
{
    let (zero, (one, (two, passed, far))) = join(
        rt,
        move || -> RingsCore
            requires { zero.steps ≡ [] }
            ensures { IsSameCore zero result }
        { first_core(rt, zero) },
        move || -> (RingsCore, (RingsCore, u64, u64))
            requires { (one.steps ≡ []) × (two.steps ≡ []) }
            ensures { IsSameCore one result.0 × IsSameCore two result.1.0 }
        { two_more(rt, one, two) },
    );
    let mut all = Gathering::of(zero);
    all.add(one);
    all.add(two);
    all.settle();
    (passed, far)
}

#[test]
fn three_threads_pass_on_in_order(rt: HostRuntime) -> Result<(), Fail> {
    let mut left = three(rt.alloc())?;
    let zero = next_core_of(&mut left)?;
    let one = next_core_of(&mut left)?;
    let two = next_core_of(&mut left)?;
    let none_left = left.core()?.is_none();
    assert!(rt; none_left && pass_in_threads(&rt, zero, one, two) == (COUNT, COUNT));
    Ok(())
}
