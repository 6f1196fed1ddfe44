//! The kinds of step on a ring's table, and what each tells the side that makes it.

ghost use Rattle.fl_ring.specs.SharedRing.{finds_word, stores_word, stores_control, loads_told, loads_control, loads_word, loads_peeked, loads_taken};
ghost use Rattle.fl_ring.specs.SharedRing.{stores_told, compares, writer_of, reader_of, both_of, nobody};

use crate::shared::board::RingView;
use atomic_table::{Join, Play, Split};

/// The writer loads a payload word of the slot that it puts into next.
pub(crate) struct FindWord;

impl Play<(), RingView> for FindWord {
    ghost then = { finds_word };
}

/// The writer stores a number into a payload word of the slot that it puts into next.
pub(crate) struct StoreWord;

impl Play<(), RingView> for StoreWord {
    ghost then = { stores_word };
}

/// The writer stores a control word, and the fragment is put.
pub(crate) struct StoreControl;

impl Play<(), RingView> for StoreControl {
    ghost then = { stores_control };
}

/// The writer loads the number told.
pub(crate) struct LoadTold;

impl Play<(), RingView> for LoadTold {
    ghost then = { loads_told };
}

/// The reader loads a control word.
pub(crate) struct LoadControl;

impl Play<(), RingView> for LoadControl {
    ghost then = { loads_control };
}

/// The reader loads one of the first six payload words.
pub(crate) struct LoadWord;

impl Play<(), RingView> for LoadWord {
    ghost then = { loads_word };
}

/// The reader loads the seventh payload word, and the fragment is seen.
pub(crate) struct LoadPeeked;

impl Play<(), RingView> for LoadPeeked {
    ghost then = { loads_peeked };
}

/// The reader loads the seventh payload word, and the fragment is taken.
pub(crate) struct LoadTaken;

impl Play<(), RingView> for LoadTaken {
    ghost then = { loads_taken };
}

/// The reader stores the number told.
pub(crate) struct StoreTold;

impl Play<(), RingView> for StoreTold {
    ghost then = { stores_told };
}

/// The seat of both sides is cut in two, and two seats are joined to one.
pub(crate) struct PairSeats;

impl Split<RingView> for PairSeats {
    ghost left = { writer_of };

    ghost right = { reader_of };
}

impl Join<RingView> for PairSeats {
    ghost both = { both_of };

    ghost spent = { nobody };
}

/// A load by the joined seat, which compares what was got with what was sent.
pub(crate) struct Compare;

impl Play<(), RingView> for Compare {
    ghost then = { compares };
}
