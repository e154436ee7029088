//! A gate that lets two workers overlap.

use crossbeam_utils::Backoff;
use crossbeam_utils::atomic::AtomicCell;
use pb_exploration::Gate;

/// How many turns a hold lasts at most. A turn is one snooze of a `Backoff`.
const LIMIT: u32 = 1_000_000;

/// Holds the worker that is the first to come to a vertex until the other worker has lifted one.
#[derive(Drop)]
pub(crate) struct Overlap {
    begun: AtomicCell<bool>,
    first: AtomicCell<bool>,
    second: AtomicCell<bool>,
    ended: AtomicCell<bool>,
}

impl Overlap {
    /// A gate that has seen nothing.
    pub(crate) fn new() -> Overlap {
        Overlap {
            begun: AtomicCell::new(false),
            first: AtomicCell::new(false),
            second: AtomicCell::new(false),
            ended: AtomicCell::new(false),
        }
    }

    /// Whether the hold was ended by the other worker's lift.
    pub(crate) fn was_ended(&self) -> bool {
        self.ended.load()
    }

    /// Whether this worker has lifted a vertex.
    fn lifted(&self, worker: u32) -> &AtomicCell<bool> {
        if worker == 0 {
            &self.first
        } else {
            &self.second
        }
    }

    /// Waits until a vertex is lifted.
    fn hold(&self, until: &AtomicCell<bool>) {
        let backoff = Backoff::new();
        for _turn in 0..LIMIT {
            if until.load() {
                self.ended.store(true);
                return;
            }
            backoff.snooze();
        }
    }
}

impl Gate for Overlap {
    fn enter(&self, worker: u32, _number: u64) {
        if self.begun.compare_exchange(false, true).is_ok() {
            self.hold(self.lifted(1u32.saturating_sub(worker)));
        }
    }

    fn answered(&self, worker: u32, _number: u64, _got: bool) {
        self.lifted(worker).store(true);
    }
}
