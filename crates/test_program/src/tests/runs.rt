//! What the program writes of small inputs, for the tests in which a reader or a writer fails.

/// A run: what it is called where it fails, its words, what it reads, and what it writes.
#[derive(Clone, Copy)]
pub struct Run {
    pub name: &'static str,
    pub words: &'static [&'static str],
    pub input: &'static [u8],
    pub output: &'static [u8],
}

const TEXT: &[u8] = b"pbes mu X = Y; nu Y = X; init X;";

// A lock that two processes grab by an atomic test-and-set.
const LOCK: &[u8] = b"sort Place = struct idle | trying | critical;
model
  state p, q: Place;
  step try1:   p == idle -> p := trying;
       enter1: p == trying && q != critical -> p := critical;
       leave1: p == critical -> p := idle;
       try2:   q == idle -> q := trying;
       enter2: q == trying && p != critical -> q := critical;
       leave2: q == critical -> q := idle;
init idle, idle;
property safe = nu X . !(p == critical && q == critical) && [true] X;
property alive = nu X . <true> true && [true] X;
property enters = nu Z . [true] Z && (p == trying => mu Y . [enter1] true && [!enter1] Y);
";

const VERDICTS: &[u8] = b"safe true\nalive true\nenters false\n";

// A counter whose last step leads outside its range.
const CUT: &[u8] = b"%range Nat 0 3
model state n: Nat; step up: true -> n := n + 1; init 0;
property alive = nu X . <true> true && [true] X;
property top = mu X . n == 3 || <up> X;
";

const TRANSLATED: &[u8] = b"%range Nat 0 3
pbes
mu X(n: Nat) = val(n == 3) || val(true) && X(n + 1);
init X(0);
";

// A process that tries, while the other one goes round.
const LASSO: &[u8] = b"safe true
alive true
enters false
1 Z: p = idle, q = idle
2 Z try1: p := trying
3 Y stays
4 Y try2: q := trying
5 Y enter2: q := critical
  leave2: q := idle, back to line 3, for ever
";

const COUNTED: &[u8] = b"top true
1 X: n = 0
2 X up: n := 1
3 X up: n := 2
4 X up: n := 3
  here the test holds: n = 3
";

/// Runs of each command that reads a text or a model.
pub const RUNS: [Run; 12] = [
    Run {
        name: "solve",
        words: &["pbsolve", "solve"],
        input: TEXT,
        output: b"answer false\ninstances 2\ncut 0\nvertices 4\n",
    },
    Run {
        name: "solution",
        words: &["pbsolve", "solution"],
        input: TEXT,
        output: b"X false\nY false\n",
    },
    Run {
        name: "game",
        words: &["pbsolve", "game"],
        input: TEXT,
        output: b"parity 3;\n0 1 0 0 \"false\";\n1 0 0 1 \"true\";\n2 1 0 3 \"X\";\n3 0 0 2 \"Y\";\n",
    },
    Run {
        name: "certificate",
        words: &["pbsolve", "certificate"],
        input: TEXT,
        output: b"paritysol 3;\n0 1;\n1 0 1;\n2 1;\n3 1;\n",
    },
    Run {
        name: "explain",
        words: &["pbsolve", "explain"],
        input: TEXT,
        output: b"answer false\nX false: Y\nY false: X\n",
    },
    Run {
        name: "check",
        words: &["pbsolve", "check"],
        input: LOCK,
        output: VERDICTS,
    },
    Run {
        name: "check by two workers",
        words: &["pbsolve", "check", "--workers", "2"],
        input: LOCK,
        output: VERDICTS,
    },
    Run {
        name: "check by lifting",
        words: &["pbsolve", "check", "--solver", "lift"],
        input: LOCK,
        output: VERDICTS,
    },
    Run {
        name: "check of a cut model",
        words: &["pbsolve", "check"],
        input: CUT,
        output: b"alive unknown\ncut 1\ntop true\n",
    },
    Run {
        name: "translate",
        words: &["pbsolve", "translate", "--property", "top"],
        input: CUT,
        output: TRANSLATED,
    },
    Run {
        name: "why",
        words: &["pbsolve", "why"],
        input: LOCK,
        output: LASSO,
    },
    Run {
        name: "why of a property by two workers",
        words: &["pbsolve", "why", "--property", "top", "--workers", "2"],
        input: CUT,
        output: COUNTED,
    },
];
