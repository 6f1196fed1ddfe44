//! A side of a ring that answers as a record says.

ghost use Rattle.std.specs.Prelude.{◌≡◌, true};
ghost use Rattle.fl_ring.specs.SharedSeats.{front_seen, sight_of};
ghost use Rattle.fl_cores_replay.specs.Sides.{Any};

use fl_base::Frag;
use fl_cores_shares::SideRecord;
use fl_link::{PutFault, PutSide, Sight, TakeSide, Told};
use std::alloc::{AllocError, Global};
use std::collections::VecDeque;

// What an event did at a side.
#[derive(Clone, Copy)]
struct SideEffect {
    // a look found nothing
    missed: bool,
    // a look saw a fragment
    saw: bool,
    // one was taken
    took: bool,
    // one was put, which needed so many free slots
    put: Option<SidePut>,
}

#[derive(Clone, Copy)]
struct SidePut {
    frag: Frag,
    need: usize,
}

const NO_EFFECT: SideEffect = SideEffect {
    missed: false,
    saw: false,
    took: false,
    put: None,
};

/// A fragment that is put: at a side, by its number, where so many slots are to be free.
#[derive(Clone, Copy)]
pub(crate) struct ReplayedPut {
    pub(crate) side: usize,
    pub(crate) need: usize,
}

/// A fragment that was put at a side, by its number, and isn't at the other side yet.
#[derive(Clone, Copy)]
pub(crate) struct SentFrag {
    pub(crate) side: usize,
    pub(crate) frag: Frag,
}

/// A fragment that is seen at a side, by its number, and taken or left.
#[derive(Clone, Copy)]
pub(crate) struct ReplayedSight {
    pub(crate) side: usize,
    pub(crate) is_taken: bool,
}

/// What an event did at all sides of its core.
#[derive(Clone, Copy)]
pub(crate) struct RingEffect {
    pub(crate) sight: Option<ReplayedSight>,
    pub(crate) put: Option<ReplayedPut>,
    pub(crate) sent: Option<SentFrag>,
    /// It did something that was noted when the core ran.
    pub(crate) is_noted: bool,
}

/// An event that did nothing at any side.
pub(crate) const NO_RING_EFFECT: RingEffect = RingEffect {
    sight: None,
    put: None,
    sent: None,
    is_noted: false,
};

/// A side of a ring that answers as a record says.
#[derive(Drop)]
pub(crate) struct ReplayedSide {
    // as noted: how many fragments it is to see, and how many looks find nothing at each and at the next
    seen: usize,
    missed: Vec<u64>,
    // how many it is to put, and how many puts find no room for each
    puts: usize,
    refused: Vec<u64>,
    // its number among all sides
    number: usize,
    // so many that are taken and not told are acknowledged
    half: usize,
    // what the other side put and this one didn't take, and what the last look saw
    inbox: VecDeque<Frag>,
    sighted: Option<Frag>,
    // how often the next look found nothing, and the next put no room
    missing: u64,
    refusing: u64,
    taken: usize,
    told: usize,
    placed: usize,
    // what the event at hand did, and whether the last one's look found nothing
    effect: SideEffect,
    is_missing: bool,
    // behind how many of its core's events the last look stands that found nothing; and that of each fragment
    // that was seen
    missed_behind: usize,
    behind: Vec<usize>,
    // memory was refused
    is_lost: bool,
}

// A fragment that only acknowledges.
const ACKNOWLEDGEMENT: Frag = Frag {
    words: [0; 7],
    control: 4,
};

fn sight_of(frag: Frag) -> Sight
    ensures sight { result ≡ sight_of frag }
{
    if frag.is_ack_only() {
        return Sight::Acknowledgement;
    }
    Sight::Data(frag)
}

// How often a side waited at a fragment.
fn count_at(counts: &[u64], fragment: usize) -> u64 {
    match counts.get(fragment) {
        None => 0,
        Some(count) => *count,
    }
}

impl ReplayedSide {
    /// A side of this number, of a ring with so many slots each way, that has done nothing yet.
    ///
    /// # Errors
    /// Out of memory.
    pub(crate) fn new(
        alloc: Global,
        record: &SideRecord,
        number: usize,
        slots: usize,
    ) -> Result<ReplayedSide, AllocError> {
        let missed = record.missed_counts(alloc)?;
        let refused = record.refused_counts(alloc)?;
        Ok(ReplayedSide {
            seen: record.seen,
            missed,
            puts: record.placed,
            refused,
            number,
            half: slots / 2,
            inbox: VecDeque::new(alloc),
            sighted: None,
            missing: 0,
            refusing: 0,
            taken: 0,
            told: 0,
            placed: 0,
            effect: NO_EFFECT,
            is_missing: false,
            missed_behind: 0,
            behind: Vec::new(alloc),
            is_lost: false,
        })
    }

    /// Whether it can answer a look: what that is to find is there.
    pub(crate) fn is_ready(&self) -> bool {
        if self.sighted.is_some() {
            return true;
        }
        self.taken >= self.seen
            || self.missing < count_at(&self.missed, self.taken)
            || !self.inbox.is_empty()
    }

    /// Whether memory was refused to it.
    pub(crate) fn is_lost(&self) -> bool {
        self.is_lost
    }

    /// Whether all that was noted came again.
    pub(crate) fn is_done(&self) -> bool {
        self.behind.as_slice().len() >= self.seen && self.placed >= self.puts
    }

    /// The next fragment that the other side put is there.
    pub(crate) fn receive(&mut self, frag: Frag) {
        if self.inbox.push_back(frag).is_err() {
            self.is_lost = true;
        }
    }

    /// Adds what the event at hand did here; the next one has done nothing yet.
    pub(crate) fn end_event(&mut self, all: &mut RingEffect) {
        let effect = self.effect;
        self.effect = NO_EFFECT;
        self.is_missing = effect.missed;
        if effect.missed {
            all.is_noted = true;
        }
        if effect.saw || effect.took {
            all.is_noted = true;
            all.sight = Some(ReplayedSight {
                side: self.number,
                is_taken: effect.took,
            });
        }
        if let Some(put) = effect.put {
            let side = self.number;
            all.is_noted = true;
            all.put = Some(ReplayedPut {
                side,
                need: put.need,
            });
            all.sent = Some(SentFrag {
                side,
                frag: put.frag,
            });
        }
    }

    /// The event's look stands behind so many of the core's events, if it found nothing.
    pub(crate) fn mark_missed(&mut self, steps: usize) {
        if self.is_missing {
            self.missed_behind = steps;
        }
    }

    /// Behind how many of the core's events all looks stand that found nothing at this fragment.
    pub(crate) fn missed_behind(&self, fragment: usize) -> usize {
        match self.behind.get(fragment) {
            None => self.missed_behind,
            Some(behind) => *behind,
        }
    }

    // What a look finds that saw nothing before.
    fn look(&mut self) -> Option<Frag> {
        if self.missing < count_at(&self.missed, self.taken) {
            self.missing = self.missing.saturating_add(1);
            self.effect.missed = true;
            return None;
        }
        if self.taken >= self.seen {
            return None;
        }
        let first = self.inbox.front()?;
        let frag = *first;
        if self.behind.push(self.missed_behind).is_err() {
            self.is_lost = true;
        }
        self.missing = 0;
        self.effect.saw = true;
        Some(frag)
    }

    // A put, or an acknowledgement, that needs so many free slots.
    fn place(&mut self, frag: &Frag, need: usize) -> Result<(), PutFault> {
        if self.placed >= self.puts || self.refusing < count_at(&self.refused, self.placed) {
            self.refusing = self.refusing.saturating_add(1);
            return Err(PutFault::Full);
        }
        self.placed = self.placed.wrapping_add(1);
        self.refusing = 0;
        self.told = self.taken;
        self.effect.put = Some(SidePut { frag: *frag, need });
        Ok(())
    }
}

impl PutSide for ReplayedSide {
    ghost puts = { Any };

    ghost has_room = { λ _. true };

    ghost epoch_of = { λ _. 0 };

    ghost told_of = { λ _. 0 };

    ghost known_of = { λ _. 0 };

    fn room(&self) -> bool {
        true
    }

    fn put(&mut self, frag: &Frag) -> Result<(), PutFault> {
        self.place(frag, 2)
    }

    fn next_epoch(&self) -> u64 {
        0
    }

    fn next_told(&self) -> u16 {
        0
    }

    fn known(&self) -> u64 {
        0
    }
}

impl TakeSide for ReplayedSide {
    ghost takes = { Any };

    ghost front = { λ s. front_seen s.sighted };

    fn peek(&mut self) -> Sight {
        if let Some(frag) = self.sighted {
            self.effect.saw = true;
            return sight_of(frag);
        }
        let found = self.look();
        self.sighted = found;
        match found {
            None => Sight::Empty,
            Some(frag) => sight_of(frag),
        }
    }

    fn take(&mut self) -> Sight {
        let found = match self.sighted {
            None => self.look(),
            Some(frag) => Some(frag),
        };
        self.sighted = None;
        match found {
            None => Sight::Empty,
            Some(frag) => {
                let _ = self.inbox.pop_front();
                self.taken = self.taken.wrapping_add(1);
                self.effect.took = true;
                sight_of(frag)
            }
        }
    }

    fn tell(&mut self) -> Result<Told, PutFault> {
        if self.taken.wrapping_sub(self.told) < self.half {
            return Ok(Told::Nothing);
        }
        match self.place(&ACKNOWLEDGEMENT, 1) {
            Ok(()) => Ok(Told::Written),
            Err(_) => Err(PutFault::Full),
        }
    }
}
