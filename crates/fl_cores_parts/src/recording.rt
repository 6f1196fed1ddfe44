//! What the sides of a run noted.

ghost use Rattle.std.specs.Prelude.{◌≡◌, ◌++◌, ◌∷◌, [], true, false, map, None, IfOk, IfSome, OnOk};
ghost use Rattle.std.specs.List.{All, list_all};
ghost use Rattle.fl_cores_shares.specs.Noted.{noted_of};
ghost use Rattle.fl_cores_fork.specs.CoreThreads.{without_records};
ghost use Rattle.fl_cores_parts.specs.Recorded.{noted_by, sides_in, IsWhole, IsRecordOf};

use fl_cores_fork::FinishedCore;
use fl_cores_shares::SideRecord;
use std::alloc::{AllocError, Global};

/// What the cores of a run noted: enough to tell again which events they did, and in which order.
#[derive(Drop)]
pub struct RunRecord {
    /// By core, how many turns were counted.
    pub turns: Vec<u64>,
    /// By core, what its sides noted, in the order of their numbers.
    pub sides: Vec<Vec<SideRecord>>,
}

/// Whether runs note what they do, and what the last one noted.
#[derive(Drop)]
pub struct Recording {
    /// Whether a run is to note what it does.
    pub is_on: bool,
    /// What the last run noted whose cores all ran, also where there was no memory for its report. There is none where
    /// it wasn't to note, or where there was no memory to note all.
    pub record: Option<RunRecord>,
}

fn is_whole(record: &SideRecord) -> bool
    ensures whole { result ≡ record.now.is_whole }
{
    record.is_whole
}

// Whether sides noted all.
fn are_whole(records: &[SideRecord]) -> bool
    ensures whole { result ≡ list_all (λ r. r.is_whole) records.now }
{
    records.iter().all(is_whole)
}

// What the sides of a core noted, moved out of it. Where they hadn't the memory to note all, that is told as no memory
// here.
fn take_records(core: &mut FinishedCore) -> Result<Vec<SideRecord>, AllocError>
    ensures noted { IfOk result (λ v. map noted_of v.items ≡ noted_by core.old) }
    ensures whole { IfOk result (λ v. All (λ r. r.is_whole ≡ true) v.items) }
    ensures same { without_records core.new ≡ without_records core.old }
{
    let Some(records) = core.records.take() else {
        return Err(AllocError);
    };
    if !are_whole(&records) {
        return Err(AllocError);
    }
    Ok(records)
}

impl RunRecord {
    // Adds how many turns a core counted, and what its sides noted, moved out of it.
    fn add(&mut self, core: &mut FinishedCore) -> Result<(), AllocError>
        ensures turns { OnOk result (self.new.turns.items ≡ self.old.turns.items ++ core.old.part.turns ∷ []) }
        ensures sides { OnOk result (sides_in self.new ≡ sides_in self.old ++ noted_by core.old ∷ []) }
        ensures whole { OnOk result (IsWhole self.old → IsWhole self.new) }
        ensures same { without_records core.new ≡ without_records core.old }
    {
        let records = take_records(core)?;
        self.turns.push(core.part.turns)?;
        self.sides.push(records)?;
        Ok(())
    }
}

// What cores that ran noted, moved out of them.
#[tactic(auto, using(crate::proofs::Moved::others_stay))]
fn take_record(alloc: Global, done: &mut [FinishedCore]) -> Result<RunRecord, AllocError>
    ensures record { IfOk result (IsRecordOf done.old) }
    ensures same { map without_records done.new ≡ map without_records done.old }
{
    let mut taken = RunRecord {
        turns: Vec::new(alloc),
        sides: Vec::new(alloc),
    };
    for core in 0..done.len() {
        taken.add(&mut done[core])?;
    }
    Ok(taken)
}

impl Recording {
    /// Nothing is noted yet.
    pub fn new(is_on: bool) -> Recording
        ensures on { result.is_on ≡ is_on }
    {
        Recording {
            is_on,
            record: None,
        }
    }

    /// Puts what the sides of cores that ran noted in place of what an earlier run noted: it is moved out of the cores,
    /// which stay as they were else. Where the recording is off, nothing is put there.
    pub(crate) fn put(&mut self, alloc: Global, done: &mut [FinishedCore])
        ensures on { self.new.is_on ≡ self.old.is_on }
        ensures record { IfSome self.new.record (IsRecordOf done.old) }
        ensures off { self.old.is_on ≡ false → self.new.record ≡ None }
        ensures same { map without_records done.new ≡ map without_records done.old }
    {
        self.record = None;
        if self.is_on {
            self.record = take_record(alloc, done).ok();
        }
    }
}
