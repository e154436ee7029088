//! Small right sides, each with its normal form, written out by hand.

use crate::normal::texts::{initial_shown, shown};
use std::test::Fail;

/// A quantifier in data is one of the formula.
const QUANTIFIER_IN_DATA: &str = "Equation { right: Each { quantifier: Exists, slot: 1, \
    carriers: [Range(Range { low: 0, high: 3 })], body: Test { polarity: Positive, term: \
    Comparison { comparison: Equal, left: Slot(1), right: Slot(0) } } }, loops: [Range(Range { \
    low: 0, high: 3 })] }";

/// The left side of `=>` counts as negated; an argument has its interval.
const IMPLICATION: &str = "Equation { right: Join { junction: Disjunction, first: Test { \
    polarity: Negative, term: Comparison { comparison: Equal, left: Slot(0), right: Number(1) } \
    }, rest: [Call { equation: 0, arguments: [Argument { term: Slot(0), shape: Wholes(Interval { \
    low: 0, high: 3 }) }] }] }, loops: [] }";

const NEGATED_IMPLICATION: &str = "Equation { right: Join { junction: Conjunction, first: Test { \
    polarity: Positive, term: Comparison { comparison: Equal, left: Slot(0), right: Number(1) } \
    }, rest: [Test { polarity: Negative, term: Comparison { comparison: Equal, left: Slot(0), \
    right: Number(2) } }] }, loops: [] }";

const NEGATED_CONJUNCTION: &str = "Equation { right: Join { junction: Disjunction, first: Test { \
    polarity: Negative, term: Comparison { comparison: Equal, left: Slot(0), right: Number(1) } \
    }, rest: [Test { polarity: Negative, term: Constant(true) }] }, loops: [] }";

/// What stands behind the last quantifier of a chain in data is one test.
const TAIL: &str = "Equation { right: Join { junction: Conjunction, first: Each { quantifier: \
    Exists, slot: 1, carriers: [Range(Range { low: 0, high: 3 })], body: Test { polarity: \
    Positive, term: Comparison { comparison: Equal, left: Slot(1), right: Slot(0) } } }, rest: \
    [Test { polarity: Positive, term: Chain { connective: And, first: Comparison { comparison: \
    Less, left: Slot(0), right: Number(2) }, links: [Comparison { comparison: Less, left: \
    Slot(0), right: Number(3) }] } }] }, loops: [Range(Range { low: 0, high: 3 })] }";

const NEGATED_QUANTIFIER: &str = "Equation { right: Each { quantifier: Exists, slot: 1, \
    carriers: [Range(Range { low: 0, high: 3 }), Bool], body: Join { junction: Conjunction, \
    first: Test { polarity: Negative, term: Comparison { comparison: Less, left: Slot(1), right: \
    Slot(0) } }, rest: [Test { polarity: Negative, term: Slot(2) }] } }, loops: [Range(Range { \
    low: 0, high: 3 }), Bool] }";

/// Without a quantifier in it, a chain in data is one test.
const NEGATED_IN_DATA: &str = "Equation { right: Each { quantifier: Exists, slot: 1, carriers: \
    [Range(Range { low: 0, high: 3 }), Bool], body: Test { polarity: Negative, term: Chain { \
    connective: Or, first: Comparison { comparison: Less, left: Slot(1), right: Slot(0) }, \
    links: [Slot(2)] } } }, loops: [Range(Range { low: 0, high: 3 }), Bool] }";

/// Each quantifier has slots of its own, and an inner variable hides an outer one of its name.
const TWO_QUANTIFIERS: &str = "Equation { right: Join { junction: Conjunction, first: Each { \
    quantifier: Exists, slot: 1, carriers: [Range(Range { low: 0, high: 3 })], body: Test { \
    polarity: Positive, term: Comparison { comparison: Equal, left: Slot(1), right: Number(2) } \
    } }, rest: [Each { quantifier: Forall, slot: 2, carriers: [Bool], body: Test { polarity: \
    Positive, term: Slot(2) } }] }, loops: [Range(Range { low: 0, high: 3 }), Bool] }";

const NAMES: &str = "Equation { right: Join { junction: Disjunction, first: Test { polarity: \
    Positive, term: Comparison { comparison: Equal, left: Enumerator(Enumerator { sort: 0, \
    place: 1 }), right: Slot(0) } }, rest: [Test { polarity: Positive, term: Recognised { \
    enumerator: Enumerator { sort: 0, place: 0 }, operand: Slot(0) } }] }, loops: [] }";

#[test]
fn normal_forms(rt: HostRuntime) -> Result<(), Fail> {
    let alloc = rt.alloc();
    let rights = [
        ("val(exists m: Nat . m == n)", QUANTIFIER_IN_DATA),
        ("val(n == 1) => X(n)", IMPLICATION),
        ("!(val(n == 1) => val(n == 2))", NEGATED_IMPLICATION),
        ("!(val(n == 1) && true)", NEGATED_CONJUNCTION),
        ("val((exists m: Nat . m == n) && n < 2 && n < 3)", TAIL),
        (
            "!(forall m: Nat, b: Bool . val(m < n) || val(b))",
            NEGATED_QUANTIFIER,
        ),
        (
            "val(!(forall m: Nat, b: Bool . m < n || b))",
            NEGATED_IN_DATA,
        ),
        (
            "(exists n: Nat . val(n == 2)) && (forall b: Bool . val(b))",
            TWO_QUANTIFIERS,
        ),
    ];
    for (right, expected) in rights {
        let text = format!(in alloc; "%range Nat 0 3\npbes nu X(n: Nat) = {right}; init X(0);")?;
        let found = shown(alloc, text.as_bytes())?;
        assert!(rt; found.as_str() == expected);
    }
    Ok(())
}

#[test]
fn enumerators(rt: HostRuntime) -> Result<(), Fail> {
    let alloc = rt.alloc();
    let text =
        "sort D = struct a?is_a | b; pbes nu X(d: D) = val(b == d) || val(is_a(d)); init X(a);";
    let found = shown(alloc, text.as_bytes())?;
    assert!(rt; found.as_str() == NAMES);
    Ok(())
}

/// An enumerator is its place, and true is 1.
#[test]
fn initial_instances(rt: HostRuntime) -> Result<(), Fail> {
    let alloc = rt.alloc();
    let text = "%range Nat 0 3\nsort D = struct a | b; pbes mu Y = false; nu X(n: Nat, d: D, c: \
        Bool) = val(c); init X(1 + 2, b, true);";
    let found = initial_shown(alloc, text.as_bytes())?;
    assert!(rt; found.as_str() == "Initial { equation: 1, values: [3, 1, 1] }");
    Ok(())
}
