//! One run of the program in memory, for the tests below. What the program writes of an input is
//! tested by `tests/rows/`; here stand readers and writers that fail, workers that are watched, and
//! what is compared with the plain solver.
mod faults;
mod files;
mod overlap;
mod parts;
mod plain;
mod progress;
mod runs;
mod solvers;
mod workers;

use crate::budget::Budget;
use crate::shelf::Shelf;
use pb_exploration::NoGate;
use pb_sorts::{In, Source};
use pbsolve::Streams;
use std::alloc::Global;
use std::thread::Threads;

// More than the program writes to either writer.
const ROOM: usize = 1000;

// How a run ended, and what it wrote.
#[derive(Drop)]
struct Outcome {
    status: u8,
    out: Budget,
    err: Budget,
}

impl Outcome {
    // Whether the run ended with this status, having written exactly these bytes to either writer.
    fn is(&self, status: u8, out: &[u8], err: &[u8]) -> bool {
        self.status == status && self.out.bytes() == out && self.err.bytes() == err
    }
}

// The program on these words and this input, its output cut after `budget` bytes.
fn run_on<T: Threads + Sync, R: Source + Drop>(
    rt: &T,
    alloc: Global,
    words: &[&str],
    input: R,
    budget: usize,
) -> Outcome {
    let output = Budget::new(alloc, budget);
    let error = Budget::new(alloc, ROOM);
    run_over(
        rt,
        alloc,
        words,
        Streams {
            input,
            files: Shelf::of(&[]),
            output,
            error,
        },
    )
}

// The program on these words, over these streams.
fn run_over<T: Threads + Sync, R: Source + Drop>(
    rt: &T,
    alloc: Global,
    words: &[&str],
    mut streams: Streams<R, Shelf<'_>, Budget, Budget>,
) -> Outcome {
    let status = pbsolve::run(rt, alloc, words, &NoGate, &mut streams);
    Outcome {
        status,
        out: streams.output,
        err: streams.error,
    }
}

// A command on these bytes.
fn asked<T: Threads + Sync>(rt: &T, alloc: Global, command: &str, input: &[u8]) -> Outcome {
    let words = ["pbsolve", command];
    run_on(rt, alloc, &words, In::new(input), ROOM)
}
