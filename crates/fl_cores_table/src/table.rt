//! The table that the cores of a run share, and what each seat knows.

use atomic_table::{Seat, Table, TableRule};
use std::alloc::Global;
use std::collections::LinkedList;

/// Whose seats a table has.
#[derive(Drop)]
pub struct SeatPlan {
    /// How many cores run; core c has the number c.
    pub cores: u64,
    /// For each job that opens a binding, its client's core.
    pub owners: Vec<u64>,
}

/// A job whose opening was refused, and the number of the refusal; 0 where it isn't refused yet.
#[derive(Clone, Copy)]
pub struct OpeningRefusal {
    /// The job's place among those that open bindings, from 0.
    pub job: u64,
    /// The number of the fault for which it was refused.
    pub number: u64,
}

/// What a seat knows: that of one core, of the run itself, or of several joined. No value of it is made.
pub struct CoresView {
    /// How many of the table's seats are in this one: a core has one, and the run has one.
    pub seats: u64,
    /// The cores whose seats are in this one.
    pub cores: LinkedList<u64>,
    /// How many of them have told that they finished.
    pub finished: u64,
    /// How many stops were told.
    pub stopped: u64,
    /// The counter as it was loaded last.
    pub seen: u64,
    /// The refusals that were stored.
    pub stored: LinkedList<OpeningRefusal>,
    /// What was found in the jobs' words.
    pub heard: LinkedList<OpeningRefusal>,
    /// Each job's core, as the plan has it.
    pub owners: LinkedList<u64>,
    /// How many seats the table has: one more than the plan has cores.
    pub whole: u64,
}

/// What holds of the table at every moment.
pub struct CoresRule;

impl TableRule<(), CoresView, SeatPlan> for CoresRule {
    ghost use Rattle.fl_cores_table.specs.Counter.{CounterRule, opening_view};

    ghost holds = { λ plan. CounterRule plan.cores plan.owners.items };

    ghost first = { λ plan. opening_view plan.cores plan.owners.items };
}

pub(crate) type CoresTable = Table<(), CoresView, SeatPlan, CoresRule, Global>;

pub(crate) type CoresSeat = Seat<(), CoresView>;
