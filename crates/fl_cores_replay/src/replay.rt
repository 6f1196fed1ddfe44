//! All cores of a run, once more.

use crate::no_script::RecordFault;
use crate::replayed_core::{Advance, CoreReplay, CoreStep};
use crate::replayed_side::{ReplayedSide, SentFrag};
use fl_base::LinkId;
use fl_cores::{CoreOver, CoresOver, RunRecord, WiredCores};
use std::alloc::{AllocError, Global};

// ---- sides

/// A side of a ring, by its core and its place there.
#[derive(Clone, Copy)]
pub(crate) struct SidePlace {
    core: usize,
    place: usize,
}

/// The sides of all cores, as the record says.
#[derive(Drop)]
pub(crate) struct ReplayedSides {
    /// By side of a ring.
    pub(crate) places: Vec<SidePlace>,
    /// By core.
    pub(crate) sides: Vec<Vec<ReplayedSide>>,
}

// The places of sides that have these owners, among so many cores.
fn places_of(alloc: Global, cores: usize, owners: &[usize]) -> Result<Vec<SidePlace>, AllocError> {
    let mut counts: Vec<usize> = vec![in alloc; 0; cores]?;
    let mut places = Vec::new(alloc);
    for owner in owners {
        let mut place = 0;
        if let Some(count) = counts.get_mut(*owner) {
            place = *count;
            *count = place.wrapping_add(1);
        }
        places.push(SidePlace {
            core: *owner,
            place,
        })?;
    }
    Ok(places)
}

// A side of this number, which answers as its record says.
fn side_at(
    alloc: Global,
    record: &RunRecord,
    at: SidePlace,
    number: usize,
    slots: &[usize],
) -> Result<ReplayedSide, RecordFault> {
    let Some(own) = record.sides.get(at.core) else {
        return Err(RecordFault::OtherFile);
    };
    let Some(noted) = own.get(at.place) else {
        return Err(RecordFault::OtherFile);
    };
    let Some(slots) = slots.get(number / 2) else {
        return Err(RecordFault::OtherFile);
    };
    Ok(ReplayedSide::new(alloc, noted, number, *slots)?)
}

// The sides of a core.
fn sides_of(
    alloc: Global,
    record: &RunRecord,
    places: &[SidePlace],
    core: usize,
    slots: &[usize],
) -> Result<Vec<ReplayedSide>, RecordFault> {
    let mut sides = Vec::new(alloc);
    for (number, at) in places.iter().enumerate() {
        if at.core == core {
            sides.reserve(1)?;
            sides.push_reserved(side_at(alloc, record, *at, number, slots)?);
        }
    }
    Ok(sides)
}

impl ReplayedSides {
    /// Those of all cores of a run that is wired once more, whose rings have so many slots.
    pub(crate) fn new(
        alloc: Global,
        wired: &WiredCores,
        slots: &[usize],
        record: &RunRecord,
    ) -> Result<ReplayedSides, RecordFault> {
        let cores = wired.core_threads.as_slice().len();
        let places = places_of(alloc, cores, &wired.owners)?;
        let mut sides = Vec::new(alloc);
        for core in 0..cores {
            sides.reserve(1)?;
            sides.push_reserved(sides_of(alloc, record, &places, core, slots)?);
        }
        Ok(ReplayedSides { places, sides })
    }
}

// ---- cores

/// How far all cores have come that are run once more.
#[derive(Drop)]
pub(crate) struct Replay {
    cores: Vec<CoreReplay>,
    // by side of a ring
    places: Vec<SidePlace>,
}

// How many events of a core are done before another core's turn comes.
const MANY: u32 = 1_000_000;

// How far a core came while it had its turn.
#[derive(Clone, Copy)]
struct ReplayProgress {
    moved: bool,
    is_done: bool,
}

// Hands over what was put at a side.
fn deliver(cores: &mut [CoreOver<ReplayedSide>], places: &[SidePlace], sent: SentFrag) {
    let Some(at) = places.get(sent.side ^ 1) else {
        return;
    };
    let Some(core) = cores.get_mut(at.core) else {
        return;
    };
    if let Some(side) = core.running.rings.get_mut(at.place) {
        side.receive(sent.frag);
    }
}

// Whether memory was refused to a side of a core.
fn is_core_lost(core: &CoreOver<ReplayedSide>) -> bool {
    for side in core.running.rings.iter() {
        if side.is_lost() {
            return true;
        }
    }
    false
}

fn is_lost(cores: &[CoreOver<ReplayedSide>]) -> bool {
    for core in cores {
        if is_core_lost(core) {
            return true;
        }
    }
    false
}

impl Replay {
    /// All cores at their start, over sides of these places.
    pub(crate) fn new(
        alloc: Global,
        cores: &[CoreOver<ReplayedSide>],
        places: Vec<SidePlace>,
        record: &RunRecord,
    ) -> Result<Replay, RecordFault> {
        let mut all = Vec::new(alloc);
        for (number, core) in cores.iter().enumerate() {
            let Some(turns) = record.turns.get(number) else {
                return Err(RecordFault::OtherFile);
            };
            all.reserve(1)?;
            all.push_reserved(CoreReplay::new(alloc, core.plan.dispatchers, *turns)?);
        }
        Ok(Replay { cores: all, places })
    }

    // The events of a core, until it waits or is done.
    fn go(
        &mut self,
        over: &mut CoresOver<ReplayedSide>,
        core: usize,
    ) -> Result<ReplayProgress, AllocError> {
        let mut moved = false;
        for _ in 0..MANY {
            let is_done = true;
            let Some(replay) = self.cores.get_mut(core) else {
                return Ok(ReplayProgress { moved, is_done });
            };
            let Some(one) = over.cores.get_mut(core) else {
                return Ok(ReplayProgress { moved, is_done });
            };
            match replay.advance(one, &over.joined)? {
                Advance::Waits => {
                    return Ok(ReplayProgress {
                        moved,
                        is_done: false,
                    });
                }
                Advance::Done => return Ok(ReplayProgress { moved, is_done }),
                Advance::Went => {}
            }
            moved = true;
            if let Some(sent) = replay.sent {
                deliver(&mut over.cores, &self.places, sent);
            }
        }
        Ok(ReplayProgress {
            moved,
            is_done: false,
        })
    }

    // The events of each core in turn, as many as may come.
    fn round(&mut self, over: &mut CoresOver<ReplayedSide>) -> Result<ReplayProgress, AllocError> {
        let mut all = ReplayProgress {
            moved: false,
            is_done: true,
        };
        for core in 0..over.cores.as_slice().len() {
            let one = self.go(over, core)?;
            all.moved = all.moved || one.moved;
            all.is_done = all.is_done && one.is_done;
        }
        Ok(all)
    }

    /// Runs all cores to their ends, which all of them have to come to.
    pub(crate) fn run(&mut self, over: &mut CoresOver<ReplayedSide>) -> Result<(), RecordFault> {
        for _ in 0..u64::MAX {
            let all = self.round(over)?;
            if is_lost(&over.cores) {
                return Err(RecordFault::Memory);
            }
            if all.is_done {
                return Ok(());
            }
            if !all.moved {
                return Err(RecordFault::Strays);
            }
        }
        Err(RecordFault::Strays)
    }
}

// ---- what they did

/// All cores of a run, behind it.
#[derive(Clone, Copy)]
pub(crate) struct Replayed<'a> {
    replay: &'a Replay,
    cores: &'a [CoreOver<ReplayedSide>],
}

/// Behind how many of its core's events a side's looks stand that found nothing.
#[derive(Clone, Copy)]
pub(crate) struct MissedBehind {
    pub(crate) core: usize,
    pub(crate) steps: usize,
}

impl<'a> Replayed<'a> {
    pub(crate) fn new(replay: &'a Replay, cores: &'a [CoreOver<ReplayedSide>]) -> Replayed<'a> {
        Replayed { replay, cores }
    }
}

impl Replayed<'_> {
    /// How many cores there are.
    pub(crate) fn count(&self) -> usize {
        self.cores.len()
    }

    /// An event of a core.
    pub(crate) fn step(&self, core: usize, step: usize) -> Option<CoreStep> {
        let core = self.replay.cores.get(core)?;
        match core.steps.get(step) {
            None => None,
            Some(step) => Some(*step),
        }
    }

    /// The neighbour of a core on a link.
    pub(crate) fn neighbour(&self, core: usize, link: LinkId) -> Option<u8> {
        let core = self.cores.get(core)?;
        let neighbour = core.running.core.monitor().circuits().neighbour(link)?;
        Some(neighbour.0)
    }

    /// Where the looks of a side stand that found nothing at this fragment.
    pub(crate) fn missed_behind(&self, side: usize, fragment: usize) -> Option<MissedBehind> {
        let at = *self.replay.places.get(side)?;
        let core = self.cores.get(at.core)?;
        let side = core.running.rings.get(at.place)?;
        Some(MissedBehind {
            core: at.core,
            steps: side.missed_behind(fragment),
        })
    }
}
