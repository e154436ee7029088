//! The chain against the plain solver, which computes the nested solution as it is defined.
use super::asked;
use pb_base::MAX_INSTANCES;
use std::alloc::Global;
use std::test::Fail;

const TEXTS: [&str; 12] = [
    "pbes nu X = X; init X;",
    "pbes mu X = X; init X;",
    "pbes mu X = Y; nu Y = X; init X;",
    "pbes nu Y = X; mu X = Y; init X;",
    "pbes nu X = (X && Y) || Y; mu Y = Y; init X;",
    "pbes nu A = F && E; mu F = F; mu E = A || E; init E;",
    "%range Int 0 9\npbes mu X(n: Int) = val(n == 0) || X(n - 1); init X(9);",
    "%range Int 0 3\npbes nu X(n: Int) = X(n + 1); init X(0);",
    "sort D = struct a | b | c; pbes nu X(d: D) = forall e: D . val(e != d) => X(e); init X(a);",
    "sort S = struct s0 | s1; pbes nu X(s: S) = Y(s); mu Y(s: S) = (val(s == s0) && X(s1)) || (val(s == s1) && Y(s0)); init X(s0);",
    "sort D = struct a | b; pbes nu X(d: D) = val(exists e: D . e != d) && X(d); init X(a);",
    "%range Int 0 2\npbes nu X = exists m, n: Int . forall k: Int . val(n == 2 && m == 2 && k + n == m); init X;",
];

// The texts of these tests are shorter.
const LONGEST: usize = 10_000;

// The first line of the report, by the plain solver; none where the text is refused, or longer than
// those of these tests.
fn plain_line(alloc: Global, text: &str) -> Option<&'static [u8]> {
    let bytes = text.as_bytes();
    if bytes.len() > LONGEST {
        return None;
    }
    let Ok(spec) = pb_text::parse(alloc, bytes) else {
        return None;
    };
    let Ok(typed) = pb_typing::check(alloc, spec) else {
        return None;
    };
    if typed.layout.count() > MAX_INSTANCES as u64 {
        return None;
    }
    match pb_typing_plain_solver::solve(alloc, &typed) {
        Ok(true) => Some(b"answer true\n"),
        Ok(false) => Some(b"answer false\n"),
        Err(_) => None,
    }
}

#[test]
fn chain_and_plain_solver_agree(rt: HostRuntime) -> Result<(), Fail> {
    for text in TEXTS {
        let outcome = asked(&rt, rt.alloc(), "solve", text.as_bytes());
        assert!(rt; outcome.status == 0, "{text}");
        let line = plain_line(rt.alloc(), text);
        assert!(rt;
            line.is_some_and(|line| outcome.out.bytes().starts_with(line)),
            "{text}"
        );
    }
    Ok(())
}
