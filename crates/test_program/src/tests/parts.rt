//! Evidence from a part of the instances: workers explore all of them only where no part is enough,
//! and what isn't explored decides nothing.
use crate::budget::Budget;
use crate::shelf::Shelf;
use crossbeam_utils::atomic::AtomicCell;
use pb_command_solver::Progress;
use pb_exploration::Gate;
use pb_sorts::In;
use pbsolve::Streams;
use std::test::Fail;

/// More than the program writes of these systems.
const ROOM: usize = 1000;

/// A text, its evidence, and whether all instances are explored.
const CASES: [(&str, &str, bool); 6] = [
    // two clocks of 2,048 ticks, and a fault three ticks from the beginning
    (
        "%range Int 0 2047\npbes nu X(m, n: Int) = val(m != 3) && X((m + 1) mod 2048, n) && X(m, (n + 1) mod 2048); init X(0, 0);",
        "answer false\nX(0,0) false: X(1,0)\nX(1,0) false: X(2,0)\nX(2,0) false: X(3,0)\nX(3,0) false:\n",
        false,
    ),
    // a place that they may come to
    (
        "%range Int 0 2047\npbes mu X(m, n: Int) = val(m == 3) || X((m + 1) mod 2048, n) || X(m, (n + 1) mod 2048); init X(0, 0);",
        "answer true\nX(0,0) true: X(1,0)\nX(1,0) true: X(2,0)\nX(2,0) true: X(3,0)\nX(3,0) true:\n",
        false,
    ),
    // the fault, where the game of all instances would have more than 2^24 vertices
    (
        "%range Int 0 2047\npbes nu X(m, n: Int) = val(m != 3) && X((m + 1) mod 2048, n) && X(m, (n + 1) mod 2048) && (X(m, n) || X(n, m)) && (X(m, n) || X(n, n)) && (X(m, n) || X(m, m)); init X(0, 0);",
        "answer false\nX(0,0) false: X(1,0)\nX(1,0) false: X(2,0)\nX(2,0) false: X(3,0)\nX(3,0) false:\n",
        false,
    ),
    // a fault among 3,003 instances, to which the nearest 1,024 don't come
    (
        "%range Int 0 1500\npbes nu X = forall n: Int . Y(n); nu Y(n: Int) = Z(n); nu Z(n: Int) = val(n != 1500); init X;",
        "answer false\nX false: Y(1500)\nY(1500) false: Z(1500)\nZ(1500) false:\n",
        false,
    ),
    // a fault among 100,001, to which the nearest 65,536 don't come
    (
        "%range Int 0 49999\npbes nu X = forall n: Int . Y(n); nu Y(n: Int) = Z(n); nu Z(n: Int) = val(n != 7); init X;",
        "answer false\nX false: Y(7)\nY(7) false: Z(7)\nZ(7) false:\n",
        true,
    ),
    // a goal among as many
    (
        "%range Int 0 49999\npbes nu X = exists n: Int . Y(n); nu Y(n: Int) = Z(n); nu Z(n: Int) = val(n == 7); init X;",
        "answer true\nX true: Y(7)\nY(7) true: Z(7)\nZ(7) true:\n",
        true,
    ),
];

#[test]
fn a_part_may_be_enough(rt: HostRuntime) -> Result<(), Fail> {
    for (text, evidence, all) in CASES {
        let attempts = Attempts {
            made: AtomicCell::new(false),
        };
        let mut streams = Streams {
            input: In::new(text.as_bytes()),
            files: Shelf::of(&[]),
            output: Budget::new(rt.alloc(), ROOM),
            error: Budget::new(rt.alloc(), ROOM),
        };
        let words = ["pbsolve", "explain"];
        let status = pbsolve::run(&rt, rt.alloc(), &words, &attempts, &mut streams);
        assert!(rt; status == 0, "{text}");
        assert!(rt; streams.output.bytes() == evidence.as_bytes(), "{text}");
        assert!(rt; attempts.made.load() == all, "{text}");
    }
    Ok(())
}

// Sees whether a worker tries to take an instance.
#[derive(Drop)]
struct Attempts {
    made: AtomicCell<bool>,
}

impl Gate for Attempts {
    fn enter(&self, _worker: u32, _number: u64) {
        self.made.store(true);
    }

    fn answered(&self, _worker: u32, _number: u64, _got: bool) {}
}

impl Progress for Attempts {}
