//! The table that the two sides of a ring share, and what each side knows.

use atomic_table::{Seat, Shared, Table, TableRule};
use fl_base::Frag;
use std::alloc::Global;
use std::collections::LinkedList;

/// What a side that writes a way knows. No value of it is made: its lists are lists of the proofs.
pub struct WriterView {
    /// The fragments that it has put, as they stand in their slots.
    pub sent: LinkedList<Frag>,
    /// The first payload words of the next slot, as far as it knows what stands there.
    pub part: LinkedList<u64>,
    /// How many of its fragments it knows to be told.
    pub known: u64,
    /// How often it has loaded the word that tells.
    pub loads: u64,
}

/// What a side that reads a way knows. No value of it is made.
pub struct ReaderView {
    /// The fragments that it has taken.
    pub got: LinkedList<Frag>,
    /// The payload words of the next fragment that it has loaded.
    pub part: LinkedList<u64>,
    /// The control word that it has loaded last.
    pub last: u64,
    /// The fragment that a peek has seen, until it is taken.
    pub peeked: Option<Frag>,
    /// How often it found that no fragment was there.
    pub misses: u64,
    /// How many fragments it has told.
    pub told: u64,
}

/// What a seat knows: that of the side that writes, of the side that reads, or of both. No value of
/// it is made.
pub struct RingView {
    /// How many slots the ring has.
    pub size: u64,
    /// Whether this seat is the writer's.
    pub writes: bool,
    /// Whether it is the reader's.
    pub reads: bool,
    pub put: WriterView,
    pub take: ReaderView,
}

/// What holds of the table at every moment.
pub struct RingTableRule;

impl TableRule<(), RingView, usize> for RingTableRule {
    ghost use Rattle.fl_ring.specs.SharedRing.{RingRule, opening_view};

    ghost holds = { RingRule };

    ghost first = { opening_view };
}

pub(crate) type RingTable = Table<(), RingView, usize, RingTableRule, Global>;

pub(crate) type RingShared = Shared<(), RingView, usize, RingTableRule>;

pub(crate) type RingSeat = Seat<(), RingView>;
