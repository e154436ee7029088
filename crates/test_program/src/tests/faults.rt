//! Wrong words, readers and writers that fail, and input up to its limit.
use super::runs::RUNS;
use super::{ROOM, run_on, run_over};
use crate::budget::Budget;
use crate::failing::{Broken, Failing};
use crate::shelf::Shelf;
use pb_sorts::In;
use pbsolve::{MAX_INPUT_BYTES, Streams};
use std::alloc::Global;
use std::io;
use std::io::Read;
use std::test::Fail;

const SOLVE: [&str; 2] = ["pbsolve", "solve"];

// A writer that fails once after so many bytes.
fn writer(alloc: Global, budget: usize, is_slow: bool) -> Budget {
    if is_slow {
        Budget::slow(alloc, budget)
    } else {
        Budget::new(alloc, budget)
    }
}

// U01: no words at all. Other words stand in `tests/rows/words.toml`.
const WRONG_WORDS: [&[&str]; 1] = [&[]];

#[test]
fn refuses_words(rt: HostRuntime) -> Result<(), Fail> {
    for words in WRONG_WORDS {
        // The words come first: this reader would fail.
        let outcome = run_on(&rt, rt.alloc(), words, In::new(Broken), ROOM);
        assert!(rt; outcome.is(2, b"", b"U01\n"));
    }
    Ok(())
}

// Whatever was written before is a prefix of the output.
#[test]
fn fails_at_each_byte_written(rt: HostRuntime) -> Result<(), Fail> {
    for run in RUNS {
        assert!(rt; run.output.len() < ROOM);
        for budget in 0..=run.output.len() {
            let whole = budget == run.output.len();
            let status = if whole { 0 } else { 4 };
            let line: &[u8] = if whole { b"" } else { b"E02\n" };
            for is_slow in [false, true] {
                let streams = Streams {
                    input: In::new(run.input),
                    files: Shelf::of(&[]),
                    output: writer(rt.alloc(), budget, is_slow),
                    error: writer(rt.alloc(), ROOM, is_slow),
                };
                let outcome = run_over(&rt, rt.alloc(), run.words, streams);
                let name = run.name;
                assert!(rt;
                    outcome.is(status, &run.output[..budget], line),
                    "{name}: {budget}"
                );
            }
        }
    }
    Ok(())
}

#[test]
fn fails_at_each_byte_read(rt: HostRuntime) -> Result<(), Fail> {
    for run in RUNS {
        assert!(rt; run.input.len() < ROOM);
        for left in 0..=run.input.len() {
            let bytes = run.input;
            let reader = In::new(Failing { bytes, left });
            let outcome = run_on(&rt, rt.alloc(), run.words, reader, ROOM);
            let name = run.name;
            assert!(rt; outcome.is(4, b"", b"E01\n"), "{name}: {left}");
        }
    }
    Ok(())
}

#[test]
fn reads_and_writes_single_bytes(rt: HostRuntime) -> Result<(), Fail> {
    for run in RUNS {
        let bytes = run.input;
        let left = usize::MAX;
        let streams = Streams {
            input: In::new(Failing { bytes, left }),
            files: Shelf::of(&[]),
            output: Budget::slow(rt.alloc(), ROOM),
            error: Budget::slow(rt.alloc(), ROOM),
        };
        let outcome = run_over(&rt, rt.alloc(), run.words, streams);
        let name = run.name;
        assert!(rt; outcome.is(0, run.output, b""), "{name}");
    }
    Ok(())
}

#[test]
fn keeps_its_status_where_no_line_can_be_told(rt: HostRuntime) -> Result<(), Fail> {
    for (input, line) in [
        (
            b"pbes nu X = Z; init X;".as_slice(),
            b"T01 line 1 column 13\n".as_slice(),
        ),
        (b"#".as_slice(), b"P01 line 1 column 1\n".as_slice()),
    ] {
        for budget in 0..line.len() {
            let streams = Streams {
                input: In::new(input),
                files: Shelf::of(&[]),
                output: Budget::new(rt.alloc(), ROOM),
                error: Budget::new(rt.alloc(), budget),
            };
            let outcome = run_over(&rt, rt.alloc(), &SOLVE, streams);
            assert!(rt; outcome.is(1, b"", &line[..budget]));
        }
    }
    Ok(())
}

#[test]
fn takes_input_up_to_the_limit(rt: HostRuntime) -> Result<(), Fail> {
    for (length, line) in [
        (
            MAX_INPUT_BYTES as u64,
            b"P02 line 1 column 67108865\n".as_slice(),
        ),
        (MAX_INPUT_BYTES as u64 + 1, b"U02\n".as_slice()),
    ] {
        let reader = In::new(io::repeat(b'%').take(length));
        let outcome = run_on(&rt, rt.alloc(), &SOLVE, reader, ROOM);
        assert!(rt; outcome.is(1, b"", line));
    }
    Ok(())
}
