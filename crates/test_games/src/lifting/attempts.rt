//! A gate that counts.

use crossbeam_utils::atomic::AtomicCell;
use pb_exploration::Gate;

/// How many attempts it has seen.
#[derive(Drop)]
pub(crate) struct Attempts {
    made: AtomicCell<u32>,
}

impl Attempts {
    /// A gate that has seen nothing.
    pub(crate) fn none() -> Attempts {
        Attempts {
            made: AtomicCell::new(0),
        }
    }

    pub(crate) fn made(&self) -> u32 {
        self.made.load()
    }
}

impl Gate for Attempts {
    fn enter(&self, _worker: u32, _number: u64) {
        self.made.fetch_add(1);
    }

    fn answered(&self, _worker: u32, _number: u64, _got: bool) {}
}
