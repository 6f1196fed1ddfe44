//! What is told of a run of cores while it goes on.

use fl_base::CoreId;
use fl_core_run::Gate;
use std::rt::Clock;
use std::sync::atomic::{AtomicU64, Ordering};

// Core 0 looks at the clock once in so many turns.
const TURNS_A_LOOK: u64 = 16;

/// Tells on standard error about once a second how many turns core 0 took, where a person sees that.
#[derive(Drop)]
pub struct ProgressLine<'r, R> {
    rt: &'r R,
    is_seen: bool,
    turns: AtomicU64,
    // The second in which a line was told last, by the clock.
    told: AtomicU64,
}

// The clock's second; always the same where it can't be read.
fn second<R: Clock>(rt: &R) -> u64 {
    match rt.monotonic() {
        Ok(time) => time.as_secs(),
        Err(_) => 0,
    }
}

impl<'r, R: Clock> ProgressLine<'r, R> {
    /// Of a run that begins now. `is_seen`: whether a person sees standard error.
    pub fn new(rt: &'r R, is_seen: bool) -> ProgressLine<'r, R> {
        ProgressLine {
            rt,
            is_seen,
            turns: AtomicU64::new(0),
            told: AtomicU64::new(second(rt)),
        }
    }
}

impl<R: Clock + Eprint> ProgressLine<'_, R> {
    // Tells a line where the last is a second old.
    fn tell(&self, turns: u64) {
        let now = second(self.rt);
        if now > self.told.load(Ordering::SeqCst) {
            self.told.store(now, Ordering::SeqCst);
            let _told = eprintln!(self.rt;
                "core 0 has taken {turns} turns; Ctrl-C ends the run without a report"
            );
        }
    }
}

impl<R: Clock + Eprint> Gate for ProgressLine<'_, R> {
    fn before_turn(&self, core: CoreId) {
        if self.is_seen && core.0 == 0 {
            let turns = self.turns.load(Ordering::SeqCst);
            self.turns.store(turns.saturating_add(1), Ordering::SeqCst);
            if turns % TURNS_A_LOOK == 0 {
                self.tell(turns);
            }
        }
    }
}
