//! Cores over which calls pass both ways keep step.

use crate::core_thread::CoreThread;
use fl_base::{CoreId, EndId};
use fl_core::CoreJob;
use fl_core_run::Gate;
use std::hint::spin_loop;
use std::sync::atomic::{AtomicU64, Ordering};
use std::thread::yield_now;

// From this count on no core keeps step.
const FREE: u64 = 1 << 63;

// How often a core that waits for others looks before it lets other threads run, and how often it does so. That is some 20 milliseconds
// where the processor is wanted by no other, and longer where it is, so that those that are waited for get one.
const LOOKS: u32 = 8_192;

const WAITS: u32 = 400;

/// How cores keep step. No clause speaks of it.
///
/// Where links are full in a circle no core can go on any more, and what fills them is a core that runs on while its neighbour is held
/// up inside a turn. So where calls may pass both ways over a core, all take each turn together, and wait for one another for a while.
#[derive(Drop)]
pub(crate) struct Pace {
    cores: u64,
    // to how many turns all cores together have come
    come: AtomicU64,
}

// Whether calls may pass over one of these cores, from a link of its to another.
fn pass_on(core_threads: &[CoreThread]) -> bool {
    for core_thread in core_threads {
        if core_thread.plan.links.as_slice().len() > 1 {
            return true;
        }
    }
    false
}

// Whether calls may go both ways: they are made at two ends or more, or answered by a rule.
fn go_both_ways(jobs: &[CoreJob]) -> bool {
    let mut caller: Option<EndId> = None;
    for job in jobs {
        match job {
            CoreJob::Open(_) => (),
            CoreJob::Reply { .. } => return true,
            CoreJob::Call { end, .. } => match caller {
                Some(other) if other != *end => return true,
                _ => caller = Some(*end),
            },
        }
    }
    false
}

impl Pace {
    /// The pace of these cores, with these jobs.
    pub(crate) fn of(core_threads: &[CoreThread], jobs: &[CoreJob]) -> Pace {
        let keeps_step = pass_on(core_threads) && go_both_ways(jobs);
        Pace {
            cores: core_threads.len() as u64,
            come: AtomicU64::new(if keeps_step { 0 } else { FREE }),
        }
    }

    /// From here on no core keeps step.
    pub(crate) fn end(&self) {
        self.come.store(FREE, Ordering::SeqCst);
    }

    // A core comes to its next turn. Gives the count that is reached when each core has come to as many turns. Behind
    // the pace's end it is reached already.
    #[inline(always)]
    fn come(&self) -> u64 {
        if self.come.load(Ordering::SeqCst) >= FREE {
            return 0;
        }
        self.count()
    }

    // It is counted. Out of line, so that a core that keeps no step prepares nothing of it.
    #[inline(never)]
    fn count(&self) -> u64 {
        let come = self.come.fetch_add(1, Ordering::SeqCst).saturating_add(1);
        let all = come.checked_next_multiple_of(self.cores).unwrap_or(0);
        all.min(FREE)
    }

    // Waits until all together have come to so many turns. Behind a wait in vain no core keeps step.
    #[inline(never)]
    fn wait(&self, turns: u64) {
        for _ in 0..WAITS {
            for _ in 0..LOOKS {
                if self.come.load(Ordering::SeqCst) >= turns {
                    return;
                }
                spin_loop();
            }
            yield_now();
        }
        self.end();
    }
}

/// A gate with the pace behind it.
#[derive(Drop)]
pub(crate) struct PacedGate<'a, G> {
    pub(crate) gate: &'a G,
    pub(crate) pace: &'a Pace,
}

impl<G: Gate> Gate for PacedGate<'_, G> {
    #[inline(always)]
    fn before_turn(&self, core: CoreId) {
        let turns = self.pace.come();
        self.gate.before_turn(core);
        if turns > 0 {
            self.pace.wait(turns);
        }
    }
}
