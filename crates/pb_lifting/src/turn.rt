//! A turn of all workers at one player's table.

use std::sync::atomic::{AtomicBool, Ordering};

/// How far the workers may lift a table before it is the other player's turn, and whether it has
/// to have another.
#[derive(Drop)]
pub(crate) struct Turn {
    pub passes: u64,
    unsettled: AtomicBool,
}

impl Turn {
    /// A turn of so many passes of each worker.
    pub(crate) fn of(passes: u64) -> Turn {
        Turn {
            passes,
            unsettled: AtomicBool::new(false),
        }
    }

    /// Notes that a word may still be raised.
    pub(crate) fn goes_on(&self) {
        self.unsettled.store(true, Ordering::SeqCst);
    }

    /// Whether no worker has noted so.
    pub(crate) fn has_settled(&self) -> bool {
        !self.unsettled.load(Ordering::SeqCst)
    }
}
