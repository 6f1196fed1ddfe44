//! Pauses between turns that find nothing.

use std::hint::spin_loop;
use std::thread::yield_now;

// The longest pause, in turns that found nothing, for each of which it has so many spins.
const MOST_TURNS: u32 = 8;

const SPINS: u32 = 16;

// From so many such turns on it lets other threads run. A core that does so sooner, on a machine with other work, loses its
// processor for far longer than its neighbour needs: a run of 30 milliseconds then takes seconds.
const PATIENCE: u32 = 64;

/// Pauses after so many turns on end that found nothing, the longer the more these were, and after many lets other threads run.
/// A core that has to wait for another so gives it time, and its processor where there are more cores than processors.
pub(crate) fn rest(idle: u32) {
    if idle == 0 {
        return;
    }
    for _ in 0..SPINS * idle.min(MOST_TURNS) {
        spin_loop();
    }
    if idle >= PATIENCE {
        yield_now();
    }
}
