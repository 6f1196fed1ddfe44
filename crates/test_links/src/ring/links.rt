//! Queues that fill, and what tells an acknowledgement from a fragment of a call.

use crate::ring::fragments::{LinkCall, follows};
use fl_base::Frag;
use fl_link::{
    Cursor, PutFault, QueueLink, Told, law_calls_alone, law_filters_join, law_looks_join,
    law_queue_conserves,
};
use std::test::Fail;

// A local queue frees a slot by a take.
const LOCAL: &[LinkCall] = &[
    LinkCall::Put(7, Ok(())),
    LinkCall::Put(8, Ok(())),
    LinkCall::Room(false),
    LinkCall::Put(9, Err(PutFault::Full)),
    LinkCall::Peek(7, 3),
    LinkCall::Take(7, 3),
    LinkCall::NextEpoch(1),
    LinkCall::Put(9, Ok(())),
    LinkCall::Tell(Ok(Told::Nothing)),
    LinkCall::Take(8, 3),
    LinkCall::Take(9, 3),
    LinkCall::TakeNothing,
    LinkCall::NextTold(0),
    LinkCall::Known(0),
];

// An acked queue frees a slot by a tell.
const ACKED: &[LinkCall] = &[
    LinkCall::Put(1, Ok(())),
    LinkCall::Put(2, Ok(())),
    LinkCall::Put(3, Err(PutFault::Full)),
    LinkCall::Take(1, 3),
    LinkCall::Put(9, Err(PutFault::Full)),
    LinkCall::Tell(Ok(Told::Written)),
    LinkCall::NextEpoch(0),
    LinkCall::Put(9, Ok(())),
    LinkCall::Take(2, 3),
    LinkCall::Take(9, 2),
];

// The last word and the control word of a fragment, and whether it only acknowledges: bit 2 alone isn't enough,
// the rest has to be 0 too.
const FORMS: &[(u64, u64, bool)] = &[
    (0, 4, true),
    (1, 4, false),
    (0, 6, false),
    (0, 12, false),
    (0, 0xffff_0000_0000_0005, true),
];

fn are_told(forms: &[(u64, u64, bool)]) -> bool {
    for (word, control, acknowledges) in forms {
        let frag = Frag {
            words: [0, 0, 0, 0, 0, 0, *word],
            control: *control,
        };
        if frag.is_ack_only() != *acknowledges {
            return false;
        }
    }
    true
}

// The index needn't begin at 0: 65,530 is in the third place of a round of four whose epoch is 1.
fn goes_round() -> bool {
    let mut cursor = Cursor::at(4, 65_530);
    let begins = cursor.index() == 65_530 && cursor.size() == 4 && cursor.place() == 2;
    cursor.advance();
    cursor.advance();
    begins && cursor.place() == 0 && cursor.epoch() == 0
}

#[test]
fn queues(rt: HostRuntime) -> Result<(), Fail> {
    law_looks_join::<QueueLink>();
    law_filters_join();
    law_calls_alone();
    law_queue_conserves();
    let mut local = QueueLink::local(rt.alloc(), 2)?;
    let mut acked = QueueLink::acked(rt.alloc(), 2)?;
    assert!(rt; follows(&mut local, LOCAL) && follows(&mut acked, ACKED));
    assert!(rt; are_told(FORMS) && goes_round());
    Ok(())
}
