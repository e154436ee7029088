//! Texts at the limits of what is read: 8,192 operators, and nesting 64.

use crate::normal::texts::{operands, shown};
use std::alloc::{AllocError, Global};
use std::test::Fail;

/// The most connectives that a right side may have.
const CONNECTIVES: usize = 8192;

/// A right side that is one chain.
fn chain(alloc: Global, operand: &str, connective: &str) -> Result<String, AllocError> {
    let mut text = String::from_str(alloc, "pbes nu X = ")?;
    text.push_str(operand)?;
    for _ in 0..CONNECTIVES {
        text.push_str(connective)?;
        text.push_str(operand)?;
    }
    text.push_str("; init X;")?;
    Ok(text)
}

/// The same in data: the last operand has a quantifier.
fn data_chain(alloc: Global, connective: &str) -> Result<String, AllocError> {
    let mut text = String::from_str(alloc, "pbes nu X = val(")?;
    for _ in 0..CONNECTIVES {
        text.push_str("true")?;
        text.push_str(connective)?;
    }
    text.push_str("exists b: Bool . b); init X;")?;
    Ok(text)
}

#[test]
fn long_chains(rt: HostRuntime) -> Result<(), Fail> {
    let alloc = rt.alloc();
    for operand in ["X", "val(true)", "val(exists b: Bool . b)"] {
        for connective in [" && ", " || "] {
            let text = chain(alloc, operand, connective)?;
            assert!(rt; operands(alloc, text.as_bytes())? == Some(CONNECTIVES));
        }
    }
    Ok(())
}

#[test]
fn long_chains_in_data(rt: HostRuntime) -> Result<(), Fail> {
    let alloc = rt.alloc();
    for connective in [" && ", " || ", " => "] {
        let text = data_chain(alloc, connective)?;
        assert!(rt; operands(alloc, text.as_bytes())? == Some(CONNECTIVES));
    }
    Ok(())
}

/// So many negations, with the brackets behind them, round a quantifier in data.
fn nested(alloc: Global, negations: usize) -> Result<String, AllocError> {
    let mut text = String::from_str(alloc, "pbes nu X = ")?;
    for _ in 0..negations {
        text.push_str("!(")?;
    }
    text.push_str("val(exists b: Bool . b)")?;
    for _ in 0..negations {
        text.push_str(")")?;
    }
    text.push_str("; init X;")?;
    Ok(text)
}

const ODD: &str = "Equation { right: Each { quantifier: Forall, slot: 0, carriers: [Bool], body: \
    Test { polarity: Negative, term: Slot(0) } }, loops: [Bool] }";

const EVEN: &str = "Equation { right: Each { quantifier: Exists, slot: 0, carriers: [Bool], \
    body: Test { polarity: Positive, term: Slot(0) } }, loops: [Bool] }";

#[test]
fn deep_nesting(rt: HostRuntime) -> Result<(), Fail> {
    let alloc = rt.alloc();
    for (negations, expected) in [(30, EVEN), (31, ODD)] {
        let text = nested(alloc, negations)?;
        let found = shown(alloc, text.as_bytes())?;
        assert!(rt; found.as_str() == expected);
    }
    Ok(())
}
