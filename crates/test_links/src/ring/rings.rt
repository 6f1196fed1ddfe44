//! Worked examples: rings with one owner that fill and wrap, counts that ride in control words.

use crate::ring::fragments::{LinkCall, answers};
use fl_link::{PutFault, Told};
use fl_ring::{OneDuo, OneRing, WhichSide, count_from, law_duo_conserves, law_ring_conserves};
use std::test::Fail;

// Whether each of these words stands in its place.
fn stand(words: &[u64], wanted: &[(usize, u64)]) -> bool {
    for (i, value) in wanted {
        if words.get(*i) != Some(value) {
            return false;
        }
    }
    true
}

// A step, and words that stand there then.
type RingRow = (LinkCall, &'static [(usize, u64)]);

const RING_OF_TWO: &[RingRow] = &[
    (LinkCall::Put(7, Ok(())), &[]),
    (LinkCall::Put(7, Ok(())), &[(7, 3), (15, 3)]),
    (LinkCall::Put(7, Err(PutFault::Full)), &[]),
    (LinkCall::Peek(7, 3), &[]),
    (LinkCall::Take(7, 3), &[]),
    (LinkCall::Put(7, Err(PutFault::Full)), &[]),
    (LinkCall::Room(false), &[(16, 0)]),
    (LinkCall::Tell(Ok(Told::Written)), &[(16, 1)]),
    (LinkCall::Known(1), &[]),
    (LinkCall::NextEpoch(0), &[]),
    (LinkCall::Put(7, Ok(())), &[(7, 2), (15, 3)]),
];

fn ring_follows(ring: &mut OneRing, rows: &[RingRow]) -> bool {
    for (step, words) in rows {
        if !answers(ring, *step) || !stand(ring.words(), words) {
            return false;
        }
    }
    ring.words().len() == 17
}

// Whose step it is, the step, and words that stand there then.
type DuoRow = (WhichSide, LinkCall, &'static [(usize, u64)]);

const DUO_OF_FOUR: &[DuoRow] = &[
    (WhichSide::One, LinkCall::Put(0, Ok(())), &[]),
    (WhichSide::One, LinkCall::Put(1, Ok(())), &[]),
    (WhichSide::One, LinkCall::Put(2, Ok(())), &[]),
    (WhichSide::One, LinkCall::Put(3, Err(PutFault::Full)), &[]),
    (WhichSide::Two, LinkCall::Peek(0, 3), &[]),
    (WhichSide::Two, LinkCall::Take(0, 3), &[]),
    (WhichSide::Two, LinkCall::Tell(Ok(Told::Nothing)), &[]),
    (WhichSide::One, LinkCall::Put(4, Err(PutFault::Full)), &[]),
    (WhichSide::Two, LinkCall::Take(1, 3), &[]),
    (
        WhichSide::Two,
        LinkCall::Tell(Ok(Told::Written)),
        &[(39, 0x0002_0000_0000_0005)],
    ),
    (WhichSide::One, LinkCall::Known(0), &[]),
    (WhichSide::One, LinkCall::Put(4, Ok(())), &[]),
    (WhichSide::One, LinkCall::TakeAcknowledgement, &[]),
    (WhichSide::One, LinkCall::NextTold(1), &[]),
    (WhichSide::One, LinkCall::NextEpoch(0), &[]),
    (WhichSide::One, LinkCall::Room(true), &[]),
    (
        WhichSide::One,
        LinkCall::Put(5, Ok(())),
        &[(7, 0x0001_0000_0000_0002)],
    ),
    (WhichSide::Two, LinkCall::Take(2, 3), &[]),
    (WhichSide::Two, LinkCall::Take(4, 3), &[]),
    (
        WhichSide::Two,
        LinkCall::Take(5, 0x0001_0000_0000_0002),
        &[],
    ),
    (WhichSide::Two, LinkCall::TakeNothing, &[]),
];

// What is done through a lent side is done to the ring.
fn duo_follows(duo: &mut OneDuo, rows: &[DuoRow]) -> bool {
    for (which, step, words) in rows {
        if !answers(&mut duo.side(*which), *step) || !stand(duo.words(), words) {
            return false;
        }
    }
    duo.words().len() == 64
}

#[test]
fn rings(rt: HostRuntime) -> Result<(), Fail> {
    law_ring_conserves();
    law_duo_conserves();
    let mut ring = OneRing::new(rt.alloc(), 2)?;
    let mut duo = OneDuo::new(rt.alloc(), 4)?;
    assert!(rt; ring_follows(&mut ring, RING_OF_TWO));
    assert!(rt; duo_follows(&mut duo, DUO_OF_FOUR));
    assert!(rt; count_from(65_530, 65_535) == 65_535 && count_from(65_530, 0) == 65_536);
    Ok(())
}
