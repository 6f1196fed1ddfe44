//! What the looks and puts of a side of a ring came to.

ghost use Rattle.std.specs.Prelude.{◌≡◌, IfOk};
ghost use Rattle.fl_cores_shares.specs.Noted.{noted_of, nothing_noted};

use std::alloc::{AllocError, Global};

// Room for the first notes of looks, and for those of puts: 32 KiB a side, of which what isn't written costs next to
// nothing. It lasts while the threads start, and through short runs; behind that a side may ask for more.
const FIRST_WAITS: usize = 1_024;

/// How often a side waited at a fragment, which is known by how many came before it: so many looks found nothing
/// there, or so many puts found no room for it.
#[derive(Clone, Copy, Debug)]
pub struct FragmentWait {
    pub fragment: usize,
    pub count: u64,
}

/// What a side noted: enough to tell again what each of its looks and puts came to.
#[derive(Debug, Drop)]
pub struct SideRecord {
    /// How many fragments of the other side were seen.
    pub seen: usize,
    /// Where looks found nothing before one of these was seen, in order. Nothing is noted where the first look saw it.
    pub missed: Vec<FragmentWait>,
    /// How many fragments of its own were put.
    pub placed: usize,
    /// Where puts found no room before one of these was put, in order. Nothing is noted where there was room at once.
    pub refused: Vec<FragmentWait>,
    // the same so far, of the fragments that come next
    missing: u64,
    refusing: u64,
    // how many fragments were taken
    taken: usize,
    /// Whether all is noted: memory for it was never refused.
    pub is_whole: bool,
}

// How often a side waited at each of so many fragments, and at the next, which comes last.
fn counts_of(
    alloc: Global,
    fragments: usize,
    waits: &[FragmentWait],
    last: u64,
) -> Result<Vec<u64>, AllocError> {
    let all = fragments.saturating_add(1);
    let mut counts: Vec<u64> = vec![in alloc; 0; all]?;
    for wait in waits {
        if let Some(count) = counts.get_mut(wait.fragment) {
            *count = wait.count;
        }
    }
    if let Some(count) = counts.get_mut(fragments) {
        *count = last;
    }
    Ok(counts)
}

impl SideRecord {
    /// Nothing is noted yet, and there is room for the first notes: a side that begins to note asks for no memory.
    ///
    /// # Errors
    /// Out of memory.
    pub fn with_room(alloc: Global) -> Result<SideRecord, AllocError>
        ensures none { IfOk result (λ r. noted_of r ≡ nothing_noted) }
    {
        Ok(SideRecord {
            seen: 0,
            missed: Vec::with_capacity(alloc, FIRST_WAITS)?,
            placed: 0,
            refused: Vec::with_capacity(alloc, FIRST_WAITS)?,
            missing: 0,
            refusing: 0,
            taken: 0,
            is_whole: true,
        })
    }

    /// How many looks found nothing at each fragment of the other side before it was seen; and, last, how many did
    /// at the next, which wasn't seen.
    ///
    /// # Errors
    /// Out of memory.
    pub fn missed_counts(&self, alloc: Global) -> Result<Vec<u64>, AllocError> {
        counts_of(alloc, self.seen, &self.missed, self.missing)
    }

    /// How many puts found no room for each fragment of its own before it was put; and, last, how many found none for
    /// the next, which wasn't put.
    ///
    /// # Errors
    /// Out of memory.
    pub fn refused_counts(&self, alloc: Global) -> Result<Vec<u64>, AllocError> {
        counts_of(alloc, self.placed, &self.refused, self.refusing)
    }

    // Looks found nothing before one saw the next fragment.
    #[cold]
    #[inline(never)]
    fn note_missed(&mut self) {
        let wait = FragmentWait {
            fragment: self.seen,
            count: self.missing,
        };
        if self.missed.push(wait).is_err() {
            self.is_whole = false;
        }
        self.missing = 0;
    }

    // Puts found no room before the next fragment was put.
    #[cold]
    #[inline(never)]
    fn note_refused(&mut self) {
        let wait = FragmentWait {
            fragment: self.placed,
            count: self.refusing,
        };
        if self.refused.push(wait).is_err() {
            self.is_whole = false;
        }
        self.refusing = 0;
    }

    /// A look at the next fragment, which saw it or found nothing, is noted.
    #[inline(always)]
    pub fn note_look(&mut self, found: bool) {
        if !found {
            self.missing = self.missing.wrapping_add(1);
            return;
        }
        // what was seen before stands there until it is taken
        if self.taken < self.seen {
            return;
        }
        if self.missing > 0 {
            self.note_missed();
        }
        self.seen = self.seen.wrapping_add(1);
    }

    /// So is a take, which took it or found nothing.
    #[inline(always)]
    pub fn note_take(&mut self, found: bool) {
        self.note_look(found);
        if found {
            self.taken = self.taken.wrapping_add(1);
        }
    }

    /// So is a put, or an acknowledgement that there was reason for: whether it found room.
    #[inline(always)]
    pub fn note_put(&mut self, placed: bool) {
        if !placed {
            self.refusing = self.refusing.wrapping_add(1);
            return;
        }
        if self.refusing > 0 {
            self.note_refused();
        }
        self.placed = self.placed.wrapping_add(1);
    }
}
