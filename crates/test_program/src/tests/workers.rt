//! How many workers explore: so many as the words say, one where they don't. What is written is the
//! same, also where two workers overlap.
use super::ROOM;
use super::overlap::Overlap;
use crate::budget::Budget;
use crate::shelf::Shelf;
use crossbeam_utils::Backoff;
use crossbeam_utils::atomic::AtomicCell;
use pb_command_solver::Progress;
use pb_exploration::Gate;
use pb_sorts::In;
use pbsolve::Streams;
use std::test::Fail;

// Each of three instances calls the two others, so that there is something for a second worker.
const TEXT: &str = "pbes nu X = Y && Z; nu Y = X && Z; nu Z = X && Y; init X;";

// How many turns a hold lasts at most. A turn is one snooze of a `Backoff`.
const LIMIT: u32 = 1_000_000;

// Sees which workers come to an instance. Where two are wanted it holds the first, at an instance
// that isn't the initial one, until the second has come.
#[derive(Drop)]
struct Workers {
    wanted: u32,
    second: AtomicCell<bool>,
    third: AtomicCell<bool>,
}

impl Gate for Workers {
    fn enter(&self, worker: u32, number: u64) {
        match worker {
            0 => (),
            1 => self.second.store(true),
            _ => self.third.store(true),
        }
        if worker != 0 || number == 0 || self.wanted == 1 {
            return;
        }
        let backoff = Backoff::new();
        for _turn in 0..LIMIT {
            if self.second.load() {
                return;
            }
            backoff.snooze();
        }
    }

    fn answered(&self, _worker: u32, _number: u64, _got: bool) {}
}

impl Progress for Workers {}

// The same, with a fault among so many others that no part of them explains it.
const FAR: &str =
    "%range Int 0 49999\npbes nu X = Y && Z && (forall n: Int . V(n)); nu Y = X && Z; nu Z = X && Y; nu V(n: Int) = W(n); nu W(n: Int) = val(n != 7); init X;";

const REPORT: &[u8] = b"answer true\ninstances 3\ncut 0\nvertices 5\n";

const GAME: &[u8] = b"parity 4;\n0 1 0 0 \"false\";\n1 0 0 1 \"true\";\n\
    2 0 1 3,4 \"X\";\n3 0 1 2,4 \"Y\";\n4 0 1 2,3 \"Z\";\n";

const FAULT: &[u8] = b"answer false\nX false: V(7)\nV(7) false: W(7)\nW(7) false:\n";

/// Words, a text, how many workers are wanted, and what is written.
const WORDS: [(&[&str], &str, u32, &[u8]); 5] = [
    (&["pbsolve", "solve"], TEXT, 1, REPORT),
    (&["pbsolve", "solve", "--workers", "1"], TEXT, 1, REPORT),
    (&["pbsolve", "solve", "--workers", "2"], TEXT, 2, REPORT),
    (&["pbsolve", "game", "--workers=+2"], TEXT, 2, GAME),
    (&["pbsolve", "explain", "--workers", "002"], FAR, 2, FAULT),
];

#[test]
fn so_many_workers_explore(rt: HostRuntime) -> Result<(), Fail> {
    for (words, text, wanted, written) in WORDS {
        let gate = Workers {
            wanted,
            second: AtomicCell::new(false),
            third: AtomicCell::new(false),
        };
        let mut streams = Streams {
            input: In::new(text.as_bytes()),
            files: Shelf::of(&[]),
            output: Budget::new(rt.alloc(), ROOM),
            error: Budget::new(rt.alloc(), ROOM),
        };
        let status = pbsolve::run(&rt, rt.alloc(), words, &gate, &mut streams);
        assert!(rt; status == 0 && streams.output.bytes() == written, "{text}");
        assert!(rt; gate.second.load() == (wanted == 2));
        assert!(rt; !gate.third.load());
    }
    Ok(())
}

// Each of three instances calls the two others, so two workers overlap: each takes an instance that
// one of them discovered, and the three are taken once each.
const OTHERS: &str =
    "sort D = struct a | b | c; pbes nu X(d: D) = forall e: D . val(e != d) => X(e); init X(a);";

const OTHERS_GAME: &[u8] = b"parity 4;\n0 1 0 0 \"false\";\n1 0 0 1 \"true\";\n\
    2 0 1 3,4 \"X(a)\";\n3 0 1 2,4 \"X(b)\";\n4 0 1 2,3 \"X(c)\";\n";

#[test]
fn workers_that_overlap_write_the_same(rt: HostRuntime) -> Result<(), Fail> {
    for (command, written) in [("solve", REPORT), ("game", OTHERS_GAME)] {
        let gate = Overlap::new();
        let words = ["pbsolve", command, "--workers", "2"];
        let mut streams = Streams {
            input: In::new(OTHERS.as_bytes()),
            files: Shelf::of(&[]),
            output: Budget::new(rt.alloc(), ROOM),
            error: Budget::new(rt.alloc(), ROOM),
        };
        let status = pbsolve::run(&rt, rt.alloc(), &words, &gate, &mut streams);
        assert!(rt;
            status == 0 && streams.output.bytes() == written,
            "{command}"
        );
        assert!(rt; !gate.has_expired() && gate.both_took());
        assert!(rt; [gate.taken(0), gate.taken(1), gate.taken(2)] == [1u32, 1, 1]);
    }
    Ok(())
}
