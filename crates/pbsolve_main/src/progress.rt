//! How far the work has come, on standard error.

use pb_command_solver::{Phase, Progress};
use pb_exploration::Gate;
use std::sync::atomic::{AtomicBool, AtomicU64, Ordering};

// At each so many instances there is a line.
const STEP: u64 = 262_144;

/// Writes a line at each so many instances that are explored, and one for each part of the work
/// that follows, once progress is asked for. What becomes of these lines changes nothing.
#[derive(Drop)]
pub struct ProgressLines<'a> {
    rt: &'a HostRuntime,
    is_watched: AtomicBool,
    is_exploring: AtomicBool,
    is_solving: AtomicBool,
    explored: AtomicU64,
}

impl<'a> ProgressLines<'a> {
    /// Nothing is asked for so far.
    pub fn new(rt: &'a HostRuntime) -> ProgressLines<'a> {
        ProgressLines {
            rt,
            is_watched: AtomicBool::new(false),
            is_exploring: AtomicBool::new(false),
            is_solving: AtomicBool::new(false),
            explored: AtomicU64::new(0),
        }
    }

    fn show(&self, line: &str) {
        let _ = eprintln!(self.rt; "{line}");
    }
}

impl Gate for ProgressLines<'_> {
    fn enter(&self, _worker: u32, _number: u64) {}

    fn answered(&self, _worker: u32, _number: u64, got: bool) {
        if !got || !self.is_exploring.load(Ordering::SeqCst) {
            return;
        }
        let before = self.explored.fetch_add(1, Ordering::SeqCst);
        let explored = before.saturating_add(1);
        if explored % STEP == 0 {
            let _ = eprintln!(self.rt; "{explored} instances explored");
        }
    }
}

impl Progress for ProgressLines<'_> {
    fn watch(&self) {
        self.is_watched.store(true, Ordering::SeqCst);
    }

    fn begins(&self, phase: Phase) {
        if !self.is_watched.load(Ordering::SeqCst) {
            return;
        }
        self.is_exploring
            .store(phase == Phase::Exploring, Ordering::SeqCst);
        match phase {
            Phase::Exploring => self.explored.store(0, Ordering::SeqCst),
            Phase::Building => self.show("building the game"),
            Phase::Solving => {
                self.is_solving.store(true, Ordering::SeqCst);
                self.show("solving the game");
            }
            // Once for each game: not for parts of one, and not for each solution that is tried.
            Phase::Checking => {
                if self.is_solving.swap(false, Ordering::SeqCst) {
                    self.show("checking the winners");
                }
            }
        }
    }
}
