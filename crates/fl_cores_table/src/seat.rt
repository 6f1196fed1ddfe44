//! A core's seat on the table of its run.

ghost use Rattle.std.specs.Prelude.{◌≡◌, ◌+◌, ◌<◌, ◌≤◌, [], ◌∷◌, length, IfOk, OnOk, OnErr, vec_len};
ghost use Rattle.fl_cores_table.specs.Counter.{added, opening_view, with_finish, with_stop, with_seen, with_stored};
ghost use Rattle.fl_cores_table.specs.Counter.{with_heard, without_core, core_alone, both, MayTell, Agrees, number_of};
ghost use Rattle.fl_cores_table.specs.Seats.{knowing};

use crate::plays::{
    CountFinished, CountStopped, JoinSeats, LoadCounter, LoadRefusal, SplitSeat, StoreRefusal,
};
use crate::table::{CoresSeat, CoresTable, SeatPlan};
use std::alloc::{AllocError, Global};
use std::marker::Model;
use std::sync::Arc;

/// What a stop adds to the counter: more than all cores together may add by finishing.
pub const STOP: u64 = 17;

/// A core's seat on the table of its run, or the run's own, or several joined. It moves to a thread of its own.
#[derive(Drop)]
pub struct EndSeat {
    table: Arc<CoresTable, Global>,
    seat: CoresSeat,
}

impl Model for EndSeat {
    ghost use Rattle.std.specs.Prelude.{◌≡◌};
    ghost use Rattle.std.specs.Arc.{arc_value};
    ghost use Rattle.fl_cores_table.specs.Seats.{TheCoresSeat, seat_of, IsSeated};

    ghost Value = { TheCoresSeat };

    ghost view = { λ s. seat_of s.seat };

    ghost invariant = { λ s. IsSeated (arc_value s.table).shared.table_id (arc_value s.table).shared.key.cores
        (arc_value s.table).shared.key.owners.items s.seat };
}

impl EndSeat {
    /// The seat of all: of each core of the plan, at most 16, and of the run.
    ///
    /// # Errors
    /// Out of memory for the table (E99), and nothing else.
    pub fn new(alloc: Global, plan: SeatPlan) -> Result<EndSeat, AllocError>
        requires few { plan.cores ≤ 16 }
        requires jobs { vec_len plan.owners ≤ 65536 }
        ensures all { IfOk result (λ s. s.knows ≡ opening_view plan.cores plan.owners.items) }
    {
        let words = vec![in alloc; 0; plan.owners.len() + 1]?;
        let (table, seat) = CoresTable::of_words(alloc, words.as_slice(), &plan)?;
        let table = Arc::new(alloc, table)?;
        Ok(EndSeat { table, seat })
    }

    /// Tells that one more core of this seat has finished.
    pub fn finish(&mut self)
        requires once { self.old.knows.finished < length self.old.knows.cores }
        ensures told { self.new ≡ knowing self.old (with_finish self.old.knows) }
    {
        self.table
            .shared
            .fetch_add::<CountFinished>(&mut self.seat, 0, 1);
    }

    /// Tells that one more core of this seat has stopped, or that a thread was refused.
    pub fn stop(&mut self)
        requires once { self.old.knows.stopped < self.old.knows.seats }
        ensures told { self.new ≡ knowing self.old (with_stop self.old.knows) }
    {
        self.table
            .shared
            .fetch_add::<CountStopped>(&mut self.seat, 0, STOP);
    }

    /// The counter: a core that finished counts 1, a stop 17.
    pub fn load_ended(&mut self) -> u64
        ensures seen { self.new ≡ knowing self.old (with_seen self.old.knows result) }
        ensures rises { self.old.knows.seen ≤ result }
        ensures least { added self.old.knows ≤ result }
        ensures exact { self.old.knows.seats ≡ self.old.knows.whole → result ≡ added self.old.knows }
    {
        self.table.shared.load::<LoadCounter>(&mut self.seat, 0)
    }

    /// Tells the number with which the opening of a job of this seat's core was refused.
    pub fn refuse(&mut self, job: usize, number: u64)
        requires job { job < length self.old.knows.owners }
        requires once { MayTell self.old.knows job }
        ensures told { self.new ≡ knowing self.old (with_stored self.old.knows job number) }
    {
        self.table
            .shared
            .store::<StoreRefusal>(&mut self.seat, job + 1, number);
    }

    /// The number with which the opening of a job was refused; 0 where nothing is told of that.
    pub fn refusal(&mut self, job: usize) -> u64
        requires job { job < length self.old.knows.owners }
        ensures heard { self.new ≡ knowing self.old (with_heard self.old.knows job result) }
        ensures agrees { Agrees job result self.old.knows.heard }
        ensures exact { self.old.knows.seats ≡ self.old.knows.whole → result ≡ number_of job self.old.knows.stored }
    {
        self.table
            .shared
            .load::<LoadRefusal>(&mut self.seat, job + 1)
    }

    /// Cuts off the seat of the first core of this one, which has told nothing yet. It takes no memory.
    ///
    /// # Errors
    /// The table's owners are too many to be counted (E99). Nothing has changed then.
    pub fn split(&mut self) -> Result<EndSeat, AllocError>
        requires core { 0 < length self.old.knows.cores }
        requires silent { (self.old.knows.finished ≡ 0) × (self.old.knows.stopped ≡ 0) × (self.old.knows.stored ≡ []) }
        ensures left { OnOk result (self.new ≡ knowing self.old (without_core self.old.knows)) }
        ensures right { IfOk result (λ s. s ≡ knowing self.old (core_alone self.old.knows)) }
        ensures refused { OnErr result (self.new ≡ self.old) }
    {
        let table = Arc::try_clone(&self.table)?;
        let seat = self.table.shared.split_seat::<SplitSeat>(&mut self.seat);
        Ok(EndSeat { table, seat })
    }

    /// Takes in another seat of the same table, with all that it knows.
    pub fn join(&mut self, other: EndSeat)
        requires table { self.old.table ≡ other.table }
        requires seated { (0 < self.old.knows.seats) × (0 < other.knows.seats) }
        ensures both { self.new ≡ knowing self.old (both self.old.knows other.knows) }
    {
        let EndSeat { table: _, seat } = other;
        self.table
            .shared
            .join_seat::<JoinSeats>(&mut self.seat, seat);
    }
}
