//! Files that are named, in memory.
use super::{ROOM, run_over};
use crate::budget::Budget;
use crate::shelf::Shelf;
use pb_sorts::In;
use pbsolve::Streams;
use std::test::Fail;

const GOOD: &[u8] =
    b"model state b: Bool; step a: b -> b := !b; init true; property p = b; property q = !b;";

const WRONG: &[u8] = b"model state b: Bool; step a: b -> b = !b; init true; property p = b;";

const FILES: &[(&str, &[u8])] = &[("good", GOOD), ("wrong", WRONG)];

// Words after `check`, with the status, standard output and standard error.
type Case = (&'static [&'static str], u8, &'static [u8], &'static [u8]);

const CASES: &[Case] = &[
    (&["good"], 0, b"p true\nq false\n", b""),
    (
        &["good", "good"],
        0,
        b"good: p true\ngood: q false\ngood: p true\ngood: q false\n",
        b"",
    ),
    (&["wrong"], 1, b"", b"P02 line 1 column 37\n"),
    (
        &["wrong", "good"],
        1,
        b"good: p true\ngood: q false\n",
        b"wrong: P02 line 1 column 37\n",
    ),
    (&["none"], 4, b"", b"none: E01\n"),
    (
        &["good", "none", "wrong"],
        4,
        b"good: p true\ngood: q false\n",
        b"none: E01\nwrong: P02 line 1 column 37\n",
    ),
    (&["good", "--property", "r"], 2, b"", b"U01\n"),
    (
        &["good", "--property", "r", "wrong"],
        2,
        b"",
        b"good: U01\nwrong: P02 line 1 column 37\n",
    ),
    (
        &["--status", "good", "wrong"],
        1,
        b"good: p true\ngood: q false\n",
        b"wrong: P02 line 1 column 37\n",
    ),
    (&["--status", "good"], 5, b"p true\nq false\n", b""),
];

#[test]
fn answers_files(rt: HostRuntime) -> Result<(), Fail> {
    for (words, status, out, err) in CASES {
        let mut line = vec![in rt.alloc(); "pbsolve", "check"]?;
        line.extend_from_slice(*words)?;
        let streams = Streams {
            input: In::new(b"#".as_slice()),
            files: Shelf::of(FILES),
            output: Budget::new(rt.alloc(), ROOM),
            error: Budget::new(rt.alloc(), ROOM),
        };
        let outcome = run_over(&rt, rt.alloc(), line.as_slice(), streams);
        assert!(rt; outcome.is(*status, out, err));
    }
    Ok(())
}
