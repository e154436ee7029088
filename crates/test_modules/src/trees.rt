//! Trees of instances, which are worked out by hand, and a module that is refused.

use pb_bytecode::decode::decode;
use pb_bytecode::encode::encode;
use pb_fixpoint_trees::Token;
use pb_machine::{Machine, Tree, instances_have_trees, run};
use pb_verifier::{Verified, VerifyError, verify};
use std::alloc::{AllocError, Global};
use std::process::Abort;
use std::test::Fail;

/// One equation without sorts or parameters, whose code is POP and END.
const POPS: [u8; 25] =
    *b"PBES\x01\x00\x01\x00\x01X\x00\x00\x02\x00\x00\x00\x00\x00\x00\x00\x02\x00\x05\x00\x00";

/// `X(x) = forall y: y == x || X(y)`, with x and y of a sort of three enumerators.
#[rattlefmt::skip]
const ALL_OTHERS: [u8; 61] = [
    // mark, version
    0x50, 0x42, 0x45, 0x53, 0x01,
    // one sort: a, b, c
    0x01, 0x03, 0x01, 0x61, 0x01, 0x62, 0x01, 0x63,
    // one equation, nu X
    0x01, 0x01, 0x01, 0x58,
    // one parameter and one loop slot, both of the sort
    0x01, 0x01, 0x00, 0x01, 0x01, 0x00,
    // 28 steps, 5 tokens, 12 instructions
    0x1c, 0x00, 0x00, 0x00, 0x05, 0x00, 0x00, 0x00, 0x0c, 0x00,
    // AND, LOOP 1, GET 1, GET 0, NE, NOT, JT 9
    0x1e, 0x1c, 0x01, 0x04, 0x01, 0x04, 0x00, 0x14, 0x15, 0x19, 0x09, 0x00,
    // GET 1, CALL 0, NEXT, CLOSE, END
    0x04, 0x01, 0x24, 0x00, 0x1d, 0x20, 0x00,
    // the initial instance, X(a)
    0x00, 0x00, 0x00, 0x00, 0x00, 0x00, 0x00, 0x00, 0x00,
];

/// Counts down by a test of the parameter's range (version 2).
#[rattlefmt::skip]
const TESTS_A_SLOT: [u8; 73] = [
    // mark, version, no sorts
    0x50, 0x42, 0x45, 0x53, 0x02, 0x00,
    // one equation, mu X
    0x01, 0x00, 0x01, 0x58,
    // one parameter, Range 0 9, and no loop slot
    0x01, 0x02, 0x00, 0x00, 0x00, 0x00, 0x09, 0x00, 0x00, 0x00, 0x00,
    // 10 steps, 4 tokens, 10 instructions
    0x0a, 0x00, 0x00, 0x00, 0x04, 0x00, 0x00, 0x00, 0x0a, 0x00,
    // OR, INL 0 1 9 7
    0x1f, 0x25, 0x00, 0x01, 0x00, 0x00, 0x00, 0x09, 0x00, 0x00, 0x00, 0x07, 0x00,
    // GET 0, INT 1, SUB, CALL 0, JMP 8
    0x04, 0x00, 0x01, 0x01, 0x00, 0x00, 0x00, 0x00, 0x00, 0x00, 0x00, 0x07, 0x24, 0x00, 0x18, 0x08, 0x00,
    // YES, CLOSE, END
    0x21, 0x20, 0x00,
    // the initial instance, X(9)
    0x00, 0x09, 0x00, 0x00, 0x00, 0x00, 0x00, 0x00, 0x00,
];

/// Yes where the parameter, of the range 0 to 3, is less than 1, and No elsewhere.
const LESS_THAN_ONE: &[u8] = b"PBES\x01\x00\x01\x00\x01X\
\x01\x02\x00\x00\x00\x00\x03\x00\x00\x00\x00\
\x08\x00\x00\x00\x02\x00\x00\x00\x08\x00\
\x04\x00\x01\x01\x00\x00\x00\x00\x00\x00\x00\x0f\x1a\x06\x00\
\x21\x18\x07\x00\x22\x00\
\x00\x00\x00\x00\x00\x00\x00\x00\x00";

/// JMP over a POP to YES and END.
const JUMPS_OVER: &[u8] = b"PBES\x01\x00\x01\x00\x01X\x00\x00\
\x40\x42\x0f\x00\xa0\x86\x01\x00\x04\x00\x18\x02\x00\x05\x21\x00\x00";

/// OR, CLOSE and END.
const EMPTY_BRACKET: &[u8] = b"PBES\x01\x00\x01\x00\x01X\x00\x00\
\x40\x42\x0f\x00\xa0\x86\x01\x00\x03\x00\x1f\x20\x00\x00";

/// `mu X(n) = val(n == 0) || X(n - 1)` over the range 0 to 9, whose call stands behind RNG.
const COUNTS_DOWN: &[u8] = b"PBES\x01\x00\x01\x00\x01X\
\x01\x02\x00\x00\x00\x00\x09\x00\x00\x00\x00\
\x11\x00\x00\x00\x05\x00\x00\x00\x11\x00\
\x1f\x04\x00\x01\x00\x00\x00\x00\x00\x00\x00\x00\x13\x1a\x07\x00\x21\x18\x0f\x00\
\x04\x00\x01\x01\x00\x00\x00\x00\x00\x00\x00\x07\
\x1b\x00\x00\x00\x00\x09\x00\x00\x00\x0d\x00\
\x24\x00\x18\x0f\x00\x05\x23\x20\x00\
\x00\x09\x00\x00\x00\x00\x00\x00\x00";

/// `nu X(n, m) = X(n + 1, m - 1)`, both of the range 0 to 1.
const LEAVES_THE_RANGES: &[u8] = b"PBES\x01\x00\x01\x01\x01X\
\x02\x02\x00\x00\x00\x00\x01\x00\x00\x00\x02\x00\x00\x00\x00\x01\x00\x00\x00\x00\
\x10\x00\x00\x00\x04\x00\x00\x00\x10\x00\
\x1f\x04\x00\x01\x01\x00\x00\x00\x00\x00\x00\x00\x06\
\x1b\x00\x00\x00\x00\x01\x00\x00\x00\x0c\x00\
\x04\x01\x01\x01\x00\x00\x00\x00\x00\x00\x00\x07\
\x1b\x00\x00\x00\x00\x01\x00\x00\x00\x0b\x00\
\x24\x00\x18\x0e\x00\x05\x05\x23\x20\x00\
\x00\x00\x00\x00\x00\x00\x00\x00\x00\x01\x00\x00\x00\x00\x00\x00\x00";

const OUTSIDE: &[Token] = &[Token::Or, Token::Cut, Token::Close];

/// Modules by name, and of one of their instances the number and the tree.
const TREES: [(&str, &[u8], u64, &[Token]); 13] = [
    ("less than one", LESS_THAN_ONE, 0, &[Token::Yes]),
    ("less than one", LESS_THAN_ONE, 1, &[Token::No]),
    ("less than one", LESS_THAN_ONE, 2, &[Token::No]),
    ("less than one", LESS_THAN_ONE, 3, &[Token::No]),
    ("jumps over", JUMPS_OVER, 0, &[Token::Yes]),
    (
        "empty bracket",
        EMPTY_BRACKET,
        0,
        &[Token::Or, Token::Close],
    ),
    (
        "counts down",
        COUNTS_DOWN,
        0,
        &[Token::Or, Token::Yes, Token::Close],
    ),
    (
        "counts down",
        COUNTS_DOWN,
        9,
        &[Token::Or, Token::Call(8), Token::Close],
    ),
    ("leaves the ranges", LEAVES_THE_RANGES, 0, OUTSIDE),
    (
        "leaves the ranges",
        LEAVES_THE_RANGES,
        1,
        &[Token::Or, Token::Call(2), Token::Close],
    ),
    ("leaves the ranges", LEAVES_THE_RANGES, 2, OUTSIDE),
    ("leaves the ranges", LEAVES_THE_RANGES, 3, OUTSIDE),
    (
        "all others",
        &ALL_OTHERS,
        1,
        &[Token::And, Token::Call(0), Token::Call(2), Token::Close],
    ),
];

/// The module of these bytes, which is accepted.
fn verified(alloc: Global, bytes: &[u8]) -> Result<Verified, Fail> {
    match verify(alloc, decode(alloc, bytes)?) {
        Ok(verified) => Ok(verified),
        Err((_module, error)) => Ok(Err::<Verified, VerifyError>(error)?),
    }
}

/// The tree of the instance with this number, by a machine of its own.
fn tree_at(
    rt: &impl Abort,
    alloc: Global,
    verified: &Verified,
    number: u64,
) -> Result<Tree, AllocError> {
    assert!(rt; number < verified.layout().count());
    run(alloc, verified, number)
}

#[test]
fn instances_have_their_trees(rt: HostRuntime) -> Result<(), Fail> {
    let alloc = rt.alloc();
    for (name, bytes, number, wanted) in TREES {
        let module = verified(alloc, bytes)?;
        module.runs_safely();
        instances_have_trees(&module);
        let tree = tree_at(&rt, alloc, &module, number)?;
        assert!(rt; tree.tokens() == wanted, "{name} {number}");
    }
    Ok(())
}

// Each byte of a module set to each value: what is still accepted has a tree at every number.
#[test]
fn accepted_modules_run_at_every_number(rt: HostRuntime) -> Result<(), Fail> {
    let alloc = rt.alloc();
    let mut machine = Machine::new(alloc);
    for place in 0..ALL_OTHERS.len() {
        for byte in 0..=u8::MAX {
            let mut bytes = ALL_OTHERS;
            bytes[place] = byte;
            let Ok(module) = decode(alloc, &bytes) else {
                continue;
            };
            let Ok(module) = verify(alloc, module) else {
                continue;
            };
            for number in 0..module.layout().count() {
                machine.run(alloc, &module, number)?;
            }
        }
    }
    Ok(())
}

#[test]
fn a_machine_is_used_again(rt: HostRuntime) -> Result<(), Fail> {
    let alloc = rt.alloc();
    let module = verified(alloc, &TESTS_A_SLOT)?;
    let mut machine = Machine::new(alloc);
    for number in 0..module.layout().count() {
        let tree = machine.run(alloc, &module, number)?;
        let inside = if number == 0 {
            Token::Yes
        } else {
            Token::Call(number - 1)
        };
        assert!(rt; tree.tokens() == [Token::Or, inside, Token::Close].as_slice());
    }
    Ok(())
}

#[test]
fn a_refused_module_is_handed_back(rt: HostRuntime) -> Result<(), Fail> {
    let alloc = rt.alloc();
    match verify(alloc, decode(alloc, &POPS)?) {
        Ok(_verified) => assert!(rt; false),
        Err((back, _error)) => {
            let bytes = encode(alloc, &back)?;
            assert!(rt; bytes.as_slice() == POPS.as_slice());
        }
    }
    Ok(())
}
