//! The kinds of step on the table of a ring of two directions, and what each tells its side.

ghost use Rattle.fl_ring.specs.SharedDuo.{duo_finds_word, duo_stores_word, duo_stores_control, duo_loads_control, duo_loads_word, duo_loads_peeked};
ghost use Rattle.fl_ring.specs.SharedDuo.{duo_loads_taken, duo_compares, side_one_of, side_two_of, duo_both_of, duo_nobody};

use crate::shared::duo_board::DuoView;
use atomic_table::{Join, Play, Split};

/// A side loads a payload word of the slot that it puts into next.
pub(crate) struct DuoFindWord;

impl Play<(), DuoView> for DuoFindWord {
    ghost then = { duo_finds_word };
}

/// A side stores a number into a payload word of the slot that it puts into next.
pub(crate) struct DuoStoreWord;

impl Play<(), DuoView> for DuoStoreWord {
    ghost then = { duo_stores_word };
}

/// A side stores a control word: the fragment is put, and all that the side got is told.
pub(crate) struct DuoStoreControl;

impl Play<(), DuoView> for DuoStoreControl {
    ghost then = { duo_stores_control };
}

/// A side loads a control word of the other direction.
pub(crate) struct DuoLoadControl;

impl Play<(), DuoView> for DuoLoadControl {
    ghost then = { duo_loads_control };
}

/// A side loads one of the first six payload words.
pub(crate) struct DuoLoadWord;

impl Play<(), DuoView> for DuoLoadWord {
    ghost then = { duo_loads_word };
}

/// A side loads the seventh payload word, and the fragment is seen.
pub(crate) struct DuoLoadPeeked;

impl Play<(), DuoView> for DuoLoadPeeked {
    ghost then = { duo_loads_peeked };
}

/// A side loads the seventh payload word, and the fragment is taken.
pub(crate) struct DuoLoadTaken;

impl Play<(), DuoView> for DuoLoadTaken {
    ghost then = { duo_loads_taken };
}

/// The seat of both sides is cut in two, and two seats are joined to one.
pub(crate) struct DuoPairSeats;

impl Split<DuoView> for DuoPairSeats {
    ghost left = { side_one_of };

    ghost right = { side_two_of };
}

impl Join<DuoView> for DuoPairSeats {
    ghost both = { duo_both_of };

    ghost spent = { duo_nobody };
}

/// A load by the joined seat, which compares what each side got with what the other sent.
pub(crate) struct DuoCompare;

impl Play<(), DuoView> for DuoCompare {
    ghost then = { duo_compares };
}
