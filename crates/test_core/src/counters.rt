//! The counter and the words of jobs of a run of two cores, in one thread: what one tells the others find. Whole runs of a core
//! are those of `test_cores`, by `run_cores`.

use fl_cores_table::{EndSeat, SeatPlan};
use std::alloc::{AllocError, Global};
use std::test::Fail;

// What the three seats of such a run find, one after another: how many ended, and what job 0 and job 1 are refused for.
fn find(alloc: Global) -> Result<[u64; 11], AllocError> {
    let owners = vec![in alloc; 1, 0]?;
    let mut run = EndSeat::new(alloc, SeatPlan { cores: 2, owners })?;
    let none = run.load_ended();
    let mut first = run.split()?;
    let mut second = run.split()?;
    first.finish();
    let (one, other) = (run.load_ended(), second.load_ended());
    let (before_0, before_1) = (first.refusal(0), first.refusal(1));
    second.refuse(0, 74);
    let (after_0, after_1) = (first.refusal(0), first.refusal(1));
    second.stop();
    let stopped = first.load_ended();
    run.stop();
    run.join(second);
    run.join(first);
    let (all, joined_0, joined_1) = (run.load_ended(), run.refusal(0), run.refusal(1));
    Ok([
        none, one, other, before_0, before_1, after_0, after_1, stopped, all, joined_0, joined_1,
    ])
}

const FOUND: [u64; 11] = [0, 1, 1, 0, 0, 74, 0, 18, 35, 74, 0];

#[test]
fn two_cores(rt: HostRuntime) -> Result<(), Fail> {
    let found = find(rt.alloc())?;
    for (place, wanted) in FOUND.iter().enumerate() {
        assert!(rt; found.get(place) == Some(wanted));
    }
    Ok(())
}
