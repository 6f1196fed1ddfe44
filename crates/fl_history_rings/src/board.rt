//! The table that all rings lie in, and what each core knows.

use atomic_table::{Seat, Shared, Table, TableRule};
use fl_base::Frag;
use std::alloc::Global;
use std::collections::LinkedList;

/// What a core did by a side of a ring.
pub enum Action {
    /// It put this fragment. The control word acknowledges all that the side took.
    Put(Frag),
    /// It looked, and found that a fragment with this control word stands first for it.
    Found(u64),
    /// It looked, and found that none stands there.
    Missed,
    /// It has seen this fragment, which stands first for it, and left it.
    Saw(Frag),
    /// It took this fragment, which stood first for it.
    Took(Frag),
}

/// A step: who did what by which side. No value of it is made.
pub struct Entry {
    pub core: u64,
    pub side: u64,
    pub action: Action,
}

/// A ring: how it is to be made.
#[derive(Clone, Copy)]
pub struct RingEnds {
    /// How many slots it has each way.
    pub slots: usize,
    /// The core of its first side, and that of its second.
    pub first: usize,
    pub second: usize,
}

/// A side of a ring.
#[derive(Drop)]
pub struct SideEnd {
    /// How many slots it puts fragments into.
    pub slots: usize,
    /// The core whose it is.
    pub core: usize,
}

/// What a core knows between two steps of one call.
pub enum Insight {
    /// Nothing.
    Nothing,
    /// The first payload words of the slot that this side puts into next.
    Writing(u64, LinkedList<u64>),
    /// A fragment stands first for this side. These are the payload words of it that the core has loaded, and
    /// its control word.
    Reading(u64, LinkedList<u64>, u64),
}

/// What a core knows. No value of it is made: its lists are lists of the proofs.
pub struct CoreView {
    /// Which core it is.
    pub core: u64,
    /// All sides of the rings of the table.
    pub sides: LinkedList<SideEnd>,
    /// What it did, in order.
    pub steps: LinkedList<Entry>,
    pub knows: Insight,
}

/// What a seat knows: that of the cores whose seat it is. No value of it is made.
pub struct SeatView {
    pub cores: LinkedList<CoreView>,
}

/// How the rings of a table are laid out.
#[derive(Drop)]
pub struct Plan {
    pub cores: usize,
    pub sides: Vec<SideEnd>,
}

/// What holds of the table at every moment.
pub struct RingsRule;

impl TableRule<(), SeatView, Plan> for RingsRule {
    ghost use Rattle.fl_history_rings.specs.Rule.{RingsHold, first_view};

    ghost holds = { λ plan. RingsHold plan.sides.items };

    ghost first = { λ plan. first_view plan.sides.items plan.cores };
}

pub(crate) type RingsTable = Table<(), SeatView, Plan, RingsRule, Global>;

pub(crate) type RingsShared = Shared<(), SeatView, Plan, RingsRule>;

pub(crate) type RingsSeat = Seat<(), SeatView>;

/// The table, and its plan.
#[derive(Drop)]
pub struct RingsBoard {
    pub(crate) table: RingsTable,
    pub(crate) plan: Plan,
}
