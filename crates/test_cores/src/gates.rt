//! Gates. A gate whose wait runs out lets all cores go on; then none may ask for a further turn, since the run wouldn't be
//! the one that the gate stands for, and might never end.

use crossbeam_utils::atomic::AtomicCell;
use fl_base::CoreId;
use fl_core_run::Gate;
use std::process::Abort;
use std::thread;

// How often a gate looks again.
const LOOKS: u64 = 2_000_000;

/// A gate that is always open.
pub struct NoGate;

impl Gate for NoGate {
    fn before_turn(&self, _core: CoreId) {}
}

/// Whether a wait ran out.
#[derive(Drop)]
pub struct Waiting<'a, R: Abort> {
    rt: &'a R,
    ran_out: AtomicCell<bool>,
}

impl<'a, R: Abort> Waiting<'a, R> {
    pub fn new(rt: &'a R) -> Waiting<'a, R> {
        Waiting {
            rt,
            ran_out: AtomicCell::new(false),
        }
    }

    pub fn ran_out(&self) -> bool {
        self.ran_out.load()
    }

    // A core asks for a turn. After a wait that ran out that ends the test: it fails.
    fn ask(&self) {
        assert!(self.rt;
            !self.ran_out(),
            "a core asks for a turn after a wait ran out"
        );
    }

    // Waits until a count is so large.
    fn until(&self, count: &AtomicCell<u64>, least: u64) {
        for _ in 0..LOOKS {
            if self.ran_out() || count.load() >= least {
                return;
            }
            thread::yield_now();
        }
        self.ran_out.store(true);
    }
}

/// Cores 0 and 1 wait for one another before their first turns, core 2 for core 0; then the three take turns one after
/// another: 0, 1, 2, 0, and so on. The last of them to finish leaves without asking for a turn, so the wait for it runs out.
/// The others have finished by then too, and leave after the turn for which they wait: a wait that ran out any earlier fails
/// the test.
#[derive(Drop)]
pub struct SideBySide<'a, R: Abort> {
    /// For one another, before their first turns.
    pub wait: Waiting<'a, R>,
    in_turn: Waiting<'a, R>,
    // how many turns of each core were begun, and how many of all have ended
    first: AtomicCell<u64>,
    second: AtomicCell<u64>,
    third: AtomicCell<u64>,
    ended: AtomicCell<u64>,
}

impl<'a, R: Abort> SideBySide<'a, R> {
    pub fn new(rt: &'a R) -> SideBySide<'a, R> {
        SideBySide {
            wait: Waiting::new(rt),
            in_turn: Waiting::new(rt),
            first: AtomicCell::new(0),
            second: AtomicCell::new(0),
            third: AtomicCell::new(0),
            ended: AtomicCell::new(0),
        }
    }

    // Begins a turn of a core, and waits for the turns of all cores before it.
    fn take_turn(&self, place: u64, begun: &AtomicCell<u64>, other: &AtomicCell<u64>) {
        let turns = begun.fetch_add(1);
        if turns > 0 {
            self.ended.fetch_add(1);
        } else {
            self.wait.until(other, 1);
        }
        self.in_turn
            .until(&self.ended, turns.saturating_mul(3).saturating_add(place));
    }
}

impl<'a, R: Abort> Gate for SideBySide<'a, R> {
    fn before_turn(&self, core: CoreId) {
        self.wait.ask();
        self.in_turn.ask();
        match core.0 {
            0 => self.take_turn(0, &self.first, &self.second),
            1 => self.take_turn(1, &self.second, &self.first),
            _ => self.take_turn(2, &self.third, &self.first),
        }
    }
}

/// Core 1 waits before its first turn until core 0 has begun so many.
#[derive(Drop)]
pub struct Held<'a, R: Abort> {
    pub wait: Waiting<'a, R>,
    first: AtomicCell<u64>,
    turns: u64,
}

impl<'a, R: Abort> Held<'a, R> {
    pub fn new(rt: &'a R, turns: u64) -> Held<'a, R> {
        Held {
            wait: Waiting::new(rt),
            first: AtomicCell::new(0),
            turns,
        }
    }
}

impl<'a, R: Abort> Gate for Held<'a, R> {
    fn before_turn(&self, core: CoreId) {
        self.wait.ask();
        match core.0 {
            0 => {
                self.first.fetch_add(1);
            }
            1 => self.wait.until(&self.first, self.turns),
            _ => (),
        }
    }
}
