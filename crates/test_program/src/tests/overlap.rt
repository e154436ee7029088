//! A gate that lets two workers overlap.
use crossbeam_utils::Backoff;
use crossbeam_utils::atomic::AtomicCell;
use pb_command_solver::Progress;
use pb_exploration::Gate;

/// How many turns a hold lasts at most. A turn is one snooze of a `Backoff`.
const LIMIT: u32 = 1_000_000;

/// What one worker has done with instances other than 0.
#[derive(Drop)]
struct Work {
    entered: AtomicCell<bool>,
    took: AtomicCell<bool>,
}

impl Work {
    fn none() -> Work {
        Work {
            entered: AtomicCell::new(false),
            took: AtomicCell::new(false),
        }
    }
}

/// Holds the first worker that tries an instance other than 0 until the other worker has taken such
/// an instance, and a worker that did not get instance 0 until the other has tried such an
/// instance.
#[derive(Drop)]
pub struct Overlap {
    begun: AtomicCell<bool>,
    first: Work,
    second: Work,
    taken: [AtomicCell<u32>; 3],
    expired: AtomicCell<bool>,
}

impl Overlap {
    /// A gate that has seen nothing.
    pub fn new() -> Overlap {
        Overlap {
            begun: AtomicCell::new(false),
            first: Work::none(),
            second: Work::none(),
            taken: [AtomicCell::new(0), AtomicCell::new(0), AtomicCell::new(0)],
            expired: AtomicCell::new(false),
        }
    }

    /// How often a worker got the instance.
    pub fn taken(&self, number: u32) -> u32 {
        match self.taken.get(number as usize) {
            Some(count) => count.load(),
            None => 0,
        }
    }

    /// Whether both workers took an instance other than 0.
    pub fn both_took(&self) -> bool {
        self.first.took.load() && self.second.took.load()
    }

    /// Whether some hold reached its limit.
    pub fn has_expired(&self) -> bool {
        self.expired.load()
    }

    fn own(&self, worker: u32) -> &Work {
        if worker == 0 {
            &self.first
        } else {
            &self.second
        }
    }

    fn other(&self, worker: u32) -> &Work {
        if worker == 0 {
            &self.second
        } else {
            &self.first
        }
    }

    /// Waits until the other worker has got so far.
    fn hold(&self, until: &AtomicCell<bool>) {
        let backoff = Backoff::new();
        for _turn in 0..LIMIT {
            if until.load() {
                return;
            }
            backoff.snooze();
        }
        self.expired.store(true);
    }
}

impl Gate for Overlap {
    fn enter(&self, worker: u32, number: u64) {
        if number == 0 {
            return;
        }
        self.own(worker).entered.store(true);
        if self.begun.compare_exchange(false, true).is_ok() {
            self.hold(&self.other(worker).took);
        }
    }

    fn answered(&self, worker: u32, number: u64, got: bool) {
        if !got {
            if number == 0 {
                self.hold(&self.other(worker).entered);
            }
            return;
        }
        if number != 0 {
            self.own(worker).took.store(true);
        }
        if let Some(count) = self.taken.get(number as usize) {
            count.fetch_add(1);
        }
    }
}

impl Progress for Overlap {}
