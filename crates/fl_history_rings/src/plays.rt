//! The kinds of step on the table, and what each tells its core.

ghost use Rattle.fl_history_rings.specs.Rule.{finds_word, stores_word, stores_control, looks, counts};
ghost use Rattle.fl_history_rings.specs.Rule.{loads_word, sees_frag, takes_frag, compares};
ghost use Rattle.fl_history_rings.specs.Rule.{without_first, first_alone, both_of, nobody};

use crate::board::SeatView;
use atomic_table::{Join, Play, Split};

/// The next payload word of the slot that is put into next is loaded.
pub(crate) struct FindWord;

impl Play<(), SeatView> for FindWord {
    ghost then = { finds_word };
}

/// A number is stored into a payload word of that slot.
pub(crate) struct StoreWord;

impl Play<(), SeatView> for StoreWord {
    ghost then = { stores_word };
}

/// The control word is stored: the fragment is put, and all that its side took is acknowledged.
pub(crate) struct StoreControl;

impl Play<(), SeatView> for StoreControl {
    ghost then = { stores_control };
}

/// The control word of the slot that is taken from next is loaded, for a fragment.
pub(crate) struct Look;

impl Play<(), SeatView> for Look {
    ghost then = { looks };
}

/// It is loaded for the count that it tells.
pub(crate) struct Count;

impl Play<(), SeatView> for Count {
    ghost then = { counts };
}

/// One of the first six payload words of the fragment that was found is loaded.
pub(crate) struct LoadWord;

impl Play<(), SeatView> for LoadWord {
    ghost then = { loads_word };
}

/// The seventh is loaded, and the fragment is seen.
pub(crate) struct SeeFrag;

impl Play<(), SeatView> for SeeFrag {
    ghost then = { sees_frag };
}

/// The seventh is loaded, and the fragment is taken.
pub(crate) struct TakeFrag;

impl Play<(), SeatView> for TakeFrag {
    ghost then = { takes_frag };
}

/// The first core's seat is cut off, and two seats are joined to one.
pub(crate) struct PartCores;

impl Split<SeatView> for PartCores {
    ghost left = { without_first };

    ghost right = { first_alone };
}

impl Join<SeatView> for PartCores {
    ghost both = { both_of };

    ghost spent = { nobody };
}

/// A load that compares what the cores of a seat did.
pub(crate) struct Compare;

impl Play<(), SeatView> for Compare {
    ghost then = { compares };
}
