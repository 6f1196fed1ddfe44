//! Worked examples: rings over shared words, in one thread and in two.

ghost use Rattle.std.specs.Prelude.{◌≡◌, ◌≤◌, ◌^◌};

use crate::ring::fragments::{LinkCall, answers, ping, sight_of};
use fl_link::{PutFault, Sight, Told};
use fl_ring::{
    RingFault, RingRx, RingTx, SharedSide, WhichSide, duo, duo_from, law_receiver_conserves,
    law_sender_conserves, law_side_conserves, ring, settle, settle_duo,
};
use std::alloc::Global;
use std::hint;
use std::sync::Wait;
use std::test::Fail;
use std::thread::{Threads, join};

// Takes a step by the side for it, and says whether it answers so.
fn ring_answers(tx: &mut RingTx, rx: &mut RingRx, step: LinkCall) -> bool {
    match step {
        LinkCall::Put(v, answer) => tx.try_put(&ping(v)) == answer,
        LinkCall::Peek(v, control) => rx.try_peek() == sight_of(v, control),
        LinkCall::Take(v, control) => rx.try_take() == sight_of(v, control),
        LinkCall::TakeNothing => rx.try_take() == Sight::Empty,
        LinkCall::Tell(told) => {
            rx.tell();
            told == Ok(Told::Written)
        }
        LinkCall::NextEpoch(epoch) => tx.next_epoch() == epoch,
        LinkCall::Known(known) => tx.known() == known,
        _ => false,
    }
}

const RING_OF_TWO: &[LinkCall] = &[
    LinkCall::Put(5, Ok(())),
    LinkCall::Put(6, Ok(())),
    LinkCall::Put(7, Err(PutFault::Full)),
    LinkCall::Peek(5, 3),
    LinkCall::Take(5, 3),
    LinkCall::Put(7, Err(PutFault::Full)),
    LinkCall::Tell(Ok(Told::Written)),
    LinkCall::Put(7, Ok(())),
    LinkCall::Known(1),
    LinkCall::NextEpoch(0),
    LinkCall::Take(6, 3),
    LinkCall::Take(7, 2),
    LinkCall::TakeNothing,
];

fn ring_follows(tx: &mut RingTx, rx: &mut RingRx) -> bool {
    for step in RING_OF_TWO {
        if !ring_answers(tx, rx, *step) {
            return false;
        }
    }
    true
}

fn sides_follow(
    one: &mut SharedSide,
    two: &mut SharedSide,
    rows: &[(WhichSide, LinkCall)],
) -> bool {
    for (which, step) in rows {
        let answers = match which {
            WhichSide::One => answers(one, *step),
            WhichSide::Two => answers(two, *step),
        };
        if !answers {
            return false;
        }
    }
    true
}

// Whose step it is, and the step.
const DUO_OF_FOUR: &[(WhichSide, LinkCall)] = &[
    (WhichSide::One, LinkCall::Put(5, Ok(()))),
    (WhichSide::One, LinkCall::Put(6, Ok(()))),
    (WhichSide::One, LinkCall::Put(7, Ok(()))),
    (WhichSide::One, LinkCall::Put(8, Err(PutFault::Full))),
    (WhichSide::Two, LinkCall::Peek(5, 3)),
    (WhichSide::Two, LinkCall::Take(5, 3)),
    (WhichSide::Two, LinkCall::Tell(Ok(Told::Nothing))),
    (WhichSide::Two, LinkCall::Take(6, 3)),
    (WhichSide::Two, LinkCall::Tell(Ok(Told::Written))),
    (WhichSide::One, LinkCall::Known(0)),
    (WhichSide::One, LinkCall::Put(8, Ok(()))),
    (WhichSide::One, LinkCall::Known(2)),
    (WhichSide::One, LinkCall::TakeAcknowledgement),
    (WhichSide::One, LinkCall::TakeNothing),
    (WhichSide::One, LinkCall::NextEpoch(0)),
    (WhichSide::One, LinkCall::NextTold(1)),
];

// Through this ring so many fragments have passed each way. Its sides are told nothing of them, so
// that no proof writes so long a list out.
fn began_long_ago(alloc: Global, start: u64) -> Result<(SharedSide, SharedSide), RingFault>
    requires { start ≤ 2 ^ 62 }
{
    duo_from(alloc, 4, start)
}

// What is put each way, and the control word that it arrives with there and back.
const CROSSED: &[(u64, u64, u64)] = &[
    (0, 0xfffa_0000_0000_0003, 0xfffb_0000_0000_0003),
    (1, 0xfffb_0000_0000_0003, 0xfffc_0000_0000_0003),
    (2, 0xfffc_0000_0000_0002, 0xfffd_0000_0000_0002),
    (3, 0xfffd_0000_0000_0002, 0xfffe_0000_0000_0002),
    (4, 0xfffe_0000_0000_0002, 0xffff_0000_0000_0002),
    (5, 0xffff_0000_0000_0002, 0x0000_0000_0000_0002),
    (6, 0x0000_0000_0000_0003, 0x0001_0000_0000_0003),
    (7, 0x0001_0000_0000_0003, 0x0002_0000_0000_0003),
    (8, 0x0002_0000_0000_0003, 0x0003_0000_0000_0003),
    (9, 0x0003_0000_0000_0003, 0x0004_0000_0000_0003),
];

// The numbers told turn over at 65,536, and the epochs every four fragments.
fn each_crosses(one: &mut SharedSide, two: &mut SharedSide) -> bool {
    for (word, there, back) in CROSSED {
        if one.try_put(&ping(*word)).is_err()
            || two.try_take() != sight_of(*word, *there)
            || two.try_put(&ping(*word)).is_err()
            || one.try_take() != sight_of(*word, *back)
        {
            return false;
        }
    }
    true
}

// Whose step it is, and the step: through this ring 2^62 fragments less two have passed each way. A side puts two more, and
// no more after them; nor can it tell what it took since.
const DUO_AT_ITS_END: &[(WhichSide, LinkCall)] = &[
    (WhichSide::One, LinkCall::NextEpoch(0)),
    (WhichSide::One, LinkCall::Put(5, Ok(()))),
    (WhichSide::One, LinkCall::Room(true)),
    (WhichSide::One, LinkCall::Put(6, Ok(()))),
    (WhichSide::One, LinkCall::Room(false)),
    (WhichSide::One, LinkCall::Put(7, Err(PutFault::Spent))),
    (WhichSide::Two, LinkCall::Put(8, Ok(()))),
    (WhichSide::Two, LinkCall::Put(9, Ok(()))),
    (WhichSide::Two, LinkCall::Put(9, Err(PutFault::Spent))),
    (WhichSide::One, LinkCall::Take(8, 0xfffe_0000_0000_0002)),
    (WhichSide::One, LinkCall::Tell(Ok(Told::Nothing))),
    (WhichSide::One, LinkCall::Take(9, 0xfffe_0000_0000_0002)),
    (WhichSide::One, LinkCall::Tell(Err(PutFault::Full))),
    (WhichSide::One, LinkCall::Put(7, Err(PutFault::Spent))),
    (WhichSide::Two, LinkCall::Take(5, 0xfffe_0000_0000_0002)),
];

#[test]
fn shared_rings(rt: HostRuntime) -> Result<(), Fail> {
    law_sender_conserves();
    law_receiver_conserves();
    law_side_conserves();
    let (mut tx, mut rx) = ring(rt.alloc(), 2)?;
    assert!(rt; ring_follows(&mut tx, &mut rx));
    let (mut one, mut two) = duo(rt.alloc(), 4)?;
    assert!(rt; sides_follow(&mut one, &mut two, DUO_OF_FOUR));
    let (mut one, mut two) = began_long_ago(rt.alloc(), 65_530)?;
    assert!(rt; each_crosses(&mut one, &mut two));
    let (mut one, mut two) = began_long_ago(rt.alloc(), (1 << 62) - 2)?;
    assert!(rt; sides_follow(&mut one, &mut two, DUO_AT_ITS_END));
    Ok(())
}

const COUNT: u64 = 10_000;

// Puts fragments whose word 0 counts from 0.
fn put_counted<R: Wait>(rt: &R, mut tx: RingTx) -> RingTx
    ensures { result.ring ≡ tx.ring }
{
    let mut next = 0;
    for _ in rt.forever() {
        if next >= COUNT {
            break;
        }
        match tx.try_put(&ping(next)) {
            Ok(()) => next += 1,
            Err(_) => hint::spin_loop(),
        }
    }
    tx
}

// Takes the next fragment, if it is there, and tells it; `None` where it isn't the one due.
fn take_one(rx: &mut RingRx, next: u64) -> Option<u64>
    ensures { rx.new.ring ≡ rx.old.ring }
{
    match rx.try_take() {
        Sight::Data(frag) if frag.words[0] == next && next < COUNT => {
            rx.tell();
            Some(next + 1)
        }
        Sight::Data(_) | Sight::Acknowledgement => None,
        Sight::Empty => Some(next),
    }
}

// Takes as many, and says how many came in order.
fn take_counted<R: Wait>(rt: &R, mut rx: RingRx) -> (RingRx, u64)
    ensures { result.0.ring ≡ rx.ring }
{
    let mut next = 0;
    for _ in rt.forever() {
        if next >= COUNT {
            break;
        }
        let Some(count) = take_one(&mut rx, next) else {
            break;
        };
        next = count;
        hint::spin_loop();
    }
    (rx, next)
}

// A thread for each side. In the end both are in one hand again.
fn pass_counted<R: Threads + Wait + Sync>(rt: &R, tx: RingTx, rx: RingRx) -> u64
    requires { tx.ring ≡ rx.ring }
{
    let (tx, (rx, count)) = join(
        rt,
        move || -> RingTx
            ensures { result.ring ≡ tx.ring }
        { put_counted(rt, tx) },
        move || -> (RingRx, u64)
            ensures { result.0.ring ≡ rx.ring }
        { take_counted(rt, rx) },
    );
    settle(tx, rx);
    count
}

// Puts the next fragment, if one is left to put and there is room, and counts it.
fn put_next(side: &mut SharedSide, sent: u64) -> u64
    ensures { side.new.ring ≡ side.old.ring }
{
    if sent >= COUNT {
        return sent;
    }
    match side.try_put(&ping(sent)) {
        Ok(()) => sent + 1,
        Err(_) => sent,
    }
}

// Takes the next fragment, if it is there, and counts it; `None` where it isn't the one due.
fn take_next(side: &mut SharedSide, next: u64) -> Option<u64>
    ensures { side.new.ring ≡ side.old.ring }
{
    match side.try_take() {
        Sight::Data(frag) if frag.words[0] == next && next < COUNT => Some(next + 1),
        Sight::Data(_) => None,
        Sight::Acknowledgement | Sight::Empty => Some(next),
    }
}

// Puts fragments whose word 0 counts from 0 and takes as many; says how many came in order.
fn exchange_counted<R: Wait>(rt: &R, mut side: SharedSide) -> (SharedSide, u64)
    ensures { result.0.ring ≡ side.ring }
{
    let mut sent = 0;
    let mut next = 0;
    for _ in rt.forever() {
        if sent >= COUNT && next >= COUNT {
            break;
        }
        sent = put_next(&mut side, sent);
        let Some(count) = take_next(&mut side, next) else {
            break;
        };
        next = count;
        let _ = side.tell();
        hint::spin_loop();
    }
    (side, next)
}

fn both_counted<R: Threads + Wait + Sync>(rt: &R, one: SharedSide, two: SharedSide) -> (u64, u64)
    requires { one.ring ≡ two.ring }
{
    let ((one, there), (two, back)) = join(
        rt,
        move || -> (SharedSide, u64)
            ensures { result.0.ring ≡ one.ring }
        { exchange_counted(rt, one) },
        move || -> (SharedSide, u64)
            ensures { result.0.ring ≡ two.ring }
        { exchange_counted(rt, two) },
    );
    settle_duo(one, two);
    (there, back)
}

#[test]
fn ten_thousand_in_order(rt: HostRuntime) -> Result<(), Fail> {
    let (tx, rx) = ring(rt.alloc(), 2)?;
    let passed = pass_counted(&rt, tx, rx);
    let (one, two) = duo(rt.alloc(), 4)?;
    let counts = (passed, both_counted(&rt, one, two));
    assert!(rt; counts == (COUNT, (COUNT, COUNT)));
    Ok(())
}
