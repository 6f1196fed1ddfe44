//! The table that the two sides of a ring of two directions share, and what each side knows.

use crate::shared::board::{ReaderView, WriterView};
use atomic_table::{Seat, Shared, Table, TableRule};
use std::alloc::Global;

/// What a side knows: of the way that it writes, and of the way that it reads. No value of it is
/// made.
pub struct SideView {
    pub put: WriterView,
    pub take: ReaderView,
}

/// Whose a seat is.
pub enum SeatHolder {
    /// The side that writes the first slots of the table.
    One,
    /// The side across.
    Two,
    /// Both sides'.
    Both,
    /// Nobody's any more.
    Nobody,
}

/// What a seat knows. No value of it is made.
pub struct DuoView {
    /// How many slots each direction has.
    pub size: u64,
    pub holder: SeatHolder,
    /// What its side knows; side one, where it is both sides' seat.
    pub mine: SideView,
    /// What the other side knows, where it is both sides' seat.
    pub theirs: SideView,
}

/// How a ring of two directions begins: its slots, and how many fragments have passed each way.
#[derive(Drop)]
pub struct DuoStart {
    pub(crate) size: usize,
    pub(crate) start: u64,
}

/// What holds of the table at every moment.
pub struct DuoRule;

impl TableRule<(), DuoView, DuoStart> for DuoRule {
    ghost use Rattle.fl_ring.specs.SharedDuo.{DuoHolds, duo_opening};

    ghost holds = { λ key. DuoHolds key.size key.start };

    ghost first = { λ key. duo_opening key.size key.start };
}

pub(crate) type DuoTable = Table<(), DuoView, DuoStart, DuoRule, Global>;

pub(crate) type DuoShared = Shared<(), DuoView, DuoStart, DuoRule>;

pub(crate) type DuoSeat = Seat<(), DuoView>;
