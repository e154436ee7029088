//! The gate learns whether progress is asked for, and each part of the work.
use super::ROOM;
use crate::budget::Budget;
use crate::shelf::Shelf;
use crossbeam_utils::atomic::AtomicCell;
use pb_command_solver::{Phase, Progress};
use pb_exploration::Gate;
use pb_sorts::In;
use pbsolve::Streams;
use std::test::Fail;

const TEXT: &str = "pbes mu X = Y; nu Y = X; init X;";

// How far a module has come, and whether that is to be shown.
#[derive(Drop)]
struct Watched {
    asked: AtomicCell<bool>,
    parts: AtomicCell<u32>,
}

// The place of a part in the order of all.
fn place_of(phase: Phase) -> u32 {
    match phase {
        Phase::Exploring => 0,
        Phase::Building => 1,
        Phase::Solving => 2,
        Phase::Checking => 3,
    }
}

impl Gate for Watched {
    fn enter(&self, _worker: u32, _number: u64) {}

    fn answered(&self, _worker: u32, _number: u64, _got: bool) {}
}

impl Progress for Watched {
    fn watch(&self) {
        self.asked.store(true);
    }

    fn begins(&self, phase: Phase) {
        let parts = self.parts.load();
        if place_of(phase) == parts {
            self.parts.store(parts.saturating_add(1));
        }
    }
}

const WORDS: [(&[&str], bool); 3] = [
    (&["pbsolve", "solve"], false),
    (&["pbsolve", "solve", "--progress"], true),
    (&["pbsolve", "solve", "--workers", "2", "--progress"], true),
];

#[test]
fn shows_progress_where_it_is_asked_to(rt: HostRuntime) -> Result<(), Fail> {
    for (words, asked) in WORDS {
        let gate = Watched {
            asked: AtomicCell::new(false),
            parts: AtomicCell::new(0),
        };
        let mut streams = Streams {
            input: In::new(TEXT.as_bytes()),
            files: Shelf::of(&[]),
            output: Budget::new(rt.alloc(), ROOM),
            error: Budget::new(rt.alloc(), ROOM),
        };
        let status = pbsolve::run(&rt, rt.alloc(), words, &gate, &mut streams);
        assert!(rt; status == 0);
        assert!(rt; gate.asked.load() == asked && gate.parts.load() == 4);
    }
    Ok(())
}
