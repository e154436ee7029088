//! Both solvers: the one that is asked for works. That what the program writes is the same with
//! either is tested by `tests/rows/answers.toml`.
use super::ROOM;
use crate::budget::Budget;
use crate::shelf::Shelf;
use crossbeam_utils::atomic::AtomicCell;
use pb_command_solver::Progress;
use pb_exploration::Gate;
use pb_sorts::In;
use pbsolve::Streams;
use std::test::Fail;

const SOLVERS: [&str; 2] = ["zielonka", "lift"];

// Sees whether a worker comes to a number that is no instance's.
#[derive(Drop)]
struct Lifts {
    instances: u64,
    seen: AtomicCell<bool>,
}

impl Gate for Lifts {
    fn enter(&self, _worker: u32, number: u64) {
        if number >= self.instances {
            self.seen.store(true);
        }
    }

    fn answered(&self, _worker: u32, _number: u64, _got: bool) {}
}

impl Progress for Lifts {}

// Two instances have four vertices: only lifting comes to the numbers 2 and 3.
#[test]
fn lifts_where_it_is_asked_to(rt: HostRuntime) -> Result<(), Fail> {
    let text = "pbes mu X = Y; nu Y = X; init X;";
    for solver in SOLVERS {
        let gate = Lifts {
            instances: 2,
            seen: AtomicCell::new(false),
        };
        let words = ["pbsolve", "solve", "--solver", solver];
        let mut streams = Streams {
            input: In::new(text.as_bytes()),
            files: Shelf::of(&[]),
            output: Budget::new(rt.alloc(), ROOM),
            error: Budget::new(rt.alloc(), ROOM),
        };
        let status = pbsolve::run(&rt, rt.alloc(), &words, &gate, &mut streams);
        assert!(rt; status == 0);
        assert!(rt; gate.seen.load() == (solver == "lift"));
    }
    Ok(())
}
