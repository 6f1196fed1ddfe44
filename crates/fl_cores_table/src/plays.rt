//! The kinds of step on a run's table, and what each tells the seat that makes it.

ghost use Rattle.fl_cores_table.specs.Counter.{finishes, stops, looks, stores, hears, without_core, core_alone, both, spent};

use crate::table::CoresView;
use atomic_table::{Join, Play, Split};

/// 1 is added to the counter: a core has finished.
pub(crate) struct CountFinished;

impl Play<(), CoresView> for CountFinished {
    ghost then = { finishes };
}

/// 17 is added to the counter: a core stops, or a thread was refused.
pub(crate) struct CountStopped;

impl Play<(), CoresView> for CountStopped {
    ghost then = { stops };
}

/// The counter is loaded.
pub(crate) struct LoadCounter;

impl Play<(), CoresView> for LoadCounter {
    ghost then = { looks };
}

/// A job's word is stored: its opening was refused.
pub(crate) struct StoreRefusal;

impl Play<(), CoresView> for StoreRefusal {
    ghost then = { stores };
}

/// A job's word is loaded.
pub(crate) struct LoadRefusal;

impl Play<(), CoresView> for LoadRefusal {
    ghost then = { hears };
}

/// A core's seat is cut off one that has told nothing.
pub(crate) struct SplitSeat;

impl Split<CoresView> for SplitSeat {
    ghost left = { without_core };

    ghost right = { core_alone };
}

/// Two seats are put in one.
pub(crate) struct JoinSeats;

impl Join<CoresView> for JoinSeats {
    ghost both = { both };

    ghost spent = { spent };
}
