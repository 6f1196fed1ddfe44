//! The seats of cores that ran put in one, and what that finds in the words of jobs.

ghost use Rattle.std.specs.Prelude.{ℕ, ◌≡◌, ◌<◌, map, length, IfOk, OnOk};
ghost use Rattle.fl_cores_table.specs.Counter.{Agrees, number_of};
ghost use Rattle.fl_cores_table.specs.Seats.{knowing};
ghost use Rattle.fl_history_shares.specs.Dealt.{hands_in};
ghost use Rattle.fl_cores_fork.specs.Runs.{seats_left};
ghost use Rattle.fl_cores_fork.specs.CoreThreads.{outcome_of, hands_left};
ghost use Rattle.fl_cores_parts.specs.Heard.{HeardAsTold};
ghost use Rattle.fl_cores_parts.specs.CoreThreads.{AreSeats, all_in, IsRest};

use fl_cores_fork::FinishedCore;
use fl_cores_table::EndSeat;
use fl_history_sides::HistorySides;
use std::alloc::{AllocError, Global};

// The sides of rings and the seat that a core has in the end.
fn parts_of(done: FinishedCore) -> (HistorySides, EndSeat)
    ensures rings { result.0 ≡ done.core_thread.running.value.rings }
    ensures seat { result.1 ≡ done.core_thread.run_seat.seat }
{
    let core_thread = done.core_thread;
    let running = Box::into_inner(core_thread.running);
    let run_seat = core_thread.run_seat;
    (running.rings, run_seat.seat)
}

// Puts the seat of each core in this one; by core the sides that are left.
#[tactic(auto, using(crate::proofs::Together::joins))]
fn take_apart(
    alloc: Global,
    own: &mut EndSeat,
    done: Vec<FinishedCore>,
) -> Result<Vec<HistorySides>, AllocError>
    requires some { 0 < own.old.knows.seats }
    requires seats { AreSeats own.old (seats_left (map outcome_of done.items)) }
    ensures hands { IfOk result (λ hands. hands_in hands.items ≡ hands_left done.items) }
    ensures all_in { OnOk result (own.new ≡ knowing own.old (all_in own.old.knows (seats_left (map outcome_of done.items)))) }
{
    let mut hands = Vec::new(alloc);
    for one in done {
        let (rings, seat) = parts_of(one);
        own.join(seat);
        hands.push(rings)?;
    }
    Ok(hands)
}

// Asks once for each job's word: as all seats are in this one, that is what was told of the job, and what was heard of it is 0 or this.
#[tactic(auto, using(crate::proofs::Together::asks_none))]
fn ask_all(own: &mut EndSeat, jobs: usize)
    requires jobs { length own.old.knows.owners ≡ jobs }
    requires all { own.old.knows.seats ≡ own.old.knows.whole }
    ensures agree { (job : ℕ) → job < jobs → Agrees job (number_of job own.old.knows.stored) own.old.knows.heard }
{
    for job in 0..jobs {
        own.refusal(job);
    }
}

/// Puts the seats of cores that ran in the run's own, and asks by that for the words of all jobs that open a binding:
/// what cores heard of them was told. By core the sides of rings that are left.
#[tactic(auto, using(crate::proofs::Together::rest_some, crate::proofs::Together::rest_each, crate::proofs::Together::rest_jobs))]
pub(crate) fn gather(
    alloc: Global,
    own: EndSeat,
    jobs: usize,
    done: Vec<FinishedCore>,
) -> Result<Vec<HistorySides>, AllocError>
    requires rest { IsRest own jobs (seats_left (map outcome_of done.items)) }
    ensures hands { IfOk result (λ hands. hands_in hands.items ≡ hands_left done.items) }
    ensures heard { OnOk result (HeardAsTold jobs (seats_left (map outcome_of done.items))) }
{
    let mut own = own;
    let hands = take_apart(alloc, &mut own, done)?;
    ask_all(&mut own, jobs);
    Ok(hands)
}
