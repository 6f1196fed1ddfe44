//! Lists and waitsets.

use fl_base::ChanId;
use fl_lists::Lists;
use fl_waitset::{Pick, Place, WaitFault, Waitset};
use std::test::Fail;

// To which list a node goes, or out of all.
const MOVES: &[(usize, Option<Place>)] = &[
    (0, Some(Place::Polled)),
    (1, Some(Place::Polled)),
    (2, Some(Place::Polled)),
    // moved, also to the back of its own list
    (1, Some(Place::Pending)),
    (0, Some(Place::Polled)),
    // pushed behind a node that was moved there, and that one taken out
    (3, Some(Place::Pending)),
    (1, None),
];

// Has a node go by the call for it; and says where it stood.
fn go(lists: &mut Lists, node: usize, to: Option<Place>) -> Option<Place> {
    if node >= lists.size() {
        return None;
    }
    let was = lists.place_of(node);
    match (was, to) {
        (None, None) => {}
        (None, Some(place)) => lists.push_back(node, place),
        (Some(_), Some(place)) => lists.move_to_back(node, place),
        (Some(_), None) => lists.unlink(node),
    }
    was
}

// A list, and what it gives in turn.
const ORDER: &[(Place, Option<usize>)] = &[
    (Place::Idle, None),
    (Place::Polled, Some(2)),
    (Place::Polled, Some(0)),
    (Place::Polled, None),
    (Place::Pending, Some(3)),
    (Place::Pending, None),
];

fn gives_in_order(lists: &mut Lists) -> bool {
    for (place, node) in ORDER {
        if lists.front(*place) != *node || lists.pop_front(*place) != *node {
            return false;
        }
    }
    true
}

#[test]
fn lists_move(rt: HostRuntime) -> Result<(), Fail> {
    let mut lists = Lists::new(rt.alloc(), 4)?;
    for (node, to) in MOVES {
        let _ = go(&mut lists, *node, *to);
    }
    assert!(rt; go(&mut lists, 3, Some(Place::Pending)) == Some(Place::Pending));
    assert!(rt; gives_in_order(&mut lists));
    Ok(())
}

// A call of a waitset, and what it answers.
enum WaitsetCall {
    Register(ChanId, Result<(), WaitFault>),
    RegisterPolled(ChanId, Result<(), WaitFault>),
    Deregister(ChanId, Result<(), WaitFault>),
    Trigger(ChanId, Result<(), WaitFault>),
    PutBack(ChanId, Place, Result<(), WaitFault>),
    NextEvent(Result<Pick, WaitFault>),
}

fn answers(waitset: &mut Waitset, asked: &WaitsetCall) -> bool {
    match asked {
        WaitsetCall::Register(c, answer) => waitset.register(*c) == *answer,
        WaitsetCall::RegisterPolled(c, answer) => waitset.register_polled(*c) == *answer,
        WaitsetCall::Deregister(c, answer) => waitset.deregister(*c) == *answer,
        WaitsetCall::Trigger(c, answer) => waitset.trigger(*c) == *answer,
        WaitsetCall::PutBack(c, place, answer) => waitset.put_back(*c, *place) == *answer,
        WaitsetCall::NextEvent(answer) => waitset.next_event() == *answer,
    }
}

// Two channels, and one that there isn't.

const A: ChanId = ChanId(0);

const B: ChanId = ChanId(1);

const NONE: ChanId = ChanId(2);

const ASKED: &[WaitsetCall] = &[
    WaitsetCall::NextEvent(Err(WaitFault::NoEvent)),
    WaitsetCall::Register(NONE, Err(WaitFault::NoChannel)),
    WaitsetCall::Trigger(A, Ok(())),
    WaitsetCall::PutBack(A, Place::Idle, Err(WaitFault::NotRegistered)),
    WaitsetCall::Register(A, Ok(())),
    WaitsetCall::RegisterPolled(A, Err(WaitFault::Registered)),
    WaitsetCall::RegisterPolled(B, Ok(())),
    WaitsetCall::NextEvent(Ok(Pick::Polled(B))),
    WaitsetCall::Trigger(A, Ok(())),
    WaitsetCall::Trigger(A, Ok(())),
    WaitsetCall::Trigger(B, Ok(())),
    WaitsetCall::NextEvent(Ok(Pick::Pending(A))),
    WaitsetCall::PutBack(B, Place::Pending, Ok(())),
    WaitsetCall::PutBack(A, Place::Pending, Ok(())),
    WaitsetCall::NextEvent(Ok(Pick::Pending(B))),
    WaitsetCall::Deregister(B, Ok(())),
    WaitsetCall::Deregister(B, Err(WaitFault::NotRegistered)),
    WaitsetCall::NextEvent(Ok(Pick::Pending(A))),
];

#[test]
fn waitsets_answer(rt: HostRuntime) -> Result<(), Fail> {
    let mut waitset = Waitset::new(rt.alloc(), 2)?;
    for asked in ASKED {
        assert!(rt; answers(&mut waitset, asked));
    }
    Ok(())
}
