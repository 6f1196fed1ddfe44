//! Makers for which memory is wanting.

use fl_link::QueueLink;
use fl_lists::Lists;
use fl_ring::{OneDuo, OneRing, duo, ring};
use fl_waitset::Waitset;
use std::alloc::Global;

#[derive(Clone, Copy)]
enum Maker {
    Lists,
    Waitset,
    LocalQueue,
    AckedQueue,
    Ring,
    Duo,
    SharedRing,
    SharedDuo,
}

// A maker, what it is asked for, and the number of the fault with which it refuses that.
const MAKERS: &[(Maker, usize, Option<u8>)] = &[
    (Maker::Lists, 4, None),
    (Maker::Waitset, 4, None),
    (Maker::Waitset, 1_025, Some(54)),
    (Maker::LocalQueue, 3, None),
    (Maker::LocalQueue, 1_025, Some(32)),
    (Maker::AckedQueue, 4, None),
    (Maker::Ring, 4, None),
    (Maker::Ring, 3, Some(32)),
    (Maker::Duo, 4, None),
    (Maker::Duo, 2, Some(32)),
    (Maker::SharedRing, 4, None),
    (Maker::SharedRing, 3, Some(32)),
    (Maker::SharedDuo, 4, None),
    (Maker::SharedDuo, 2, Some(32)),
];

// The number of the fault with which a maker refuses.
fn refusal(alloc: Global, maker: Maker, size: usize) -> Option<u8> {
    match maker {
        Maker::Lists => match Lists::new(alloc, size) {
            Ok(_) => None,
            Err(_) => Some(99),
        },
        Maker::Waitset => match Waitset::new(alloc, size) {
            Ok(_) => None,
            Err(fault) => Some(fault.number()),
        },
        Maker::LocalQueue => match QueueLink::local(alloc, size) {
            Ok(_) => None,
            Err(fault) => Some(fault.number()),
        },
        Maker::AckedQueue => match QueueLink::acked(alloc, size) {
            Ok(_) => None,
            Err(fault) => Some(fault.number()),
        },
        Maker::Ring => match OneRing::new(alloc, size) {
            Ok(_) => None,
            Err(fault) => Some(fault.number()),
        },
        Maker::Duo => match OneDuo::new(alloc, size) {
            Ok(_) => None,
            Err(fault) => Some(fault.number()),
        },
        Maker::SharedRing => match ring(alloc, size) {
            Ok(_) => None,
            Err(fault) => Some(fault.number()),
        },
        Maker::SharedDuo => match duo(alloc, size) {
            Ok(_) => None,
            Err(fault) => Some(fault.number()),
        },
    }
}

// Each makes or refuses by the size that it is asked for, or says that memory is wanting.
#[test]
fn makers_without_memory(rt: HostRuntime) {
    for (maker, size, wanted) in MAKERS {
        let refusal = refusal(rt.alloc(), *maker, *size);
        assert!(rt; refusal == *wanted || refusal == Some(99));
    }
}
