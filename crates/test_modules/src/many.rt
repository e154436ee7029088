//! A module that declares too many instances to give each a word, and whose frontier is wide enough
//! that workers explore it in rounds.

use pb_bytecode::decode::decode_counting;
use pb_exploration::{Explored, Limits, NoGate, explore};
use pb_exploration_reached::explore_reached;
use pb_fixpoint_trees::{IndexedRows, ReadRows};
use pb_sorts::Counting;
use pb_verifier::{Verified, VerifyError, verify};
use std::alloc::{AllocError, Global};
use std::test::Fail;
use std::thread::Threads;

/// `nu X(x, z) = forall y: y == x || X(y, min(z + 1, 2))`, with x and y from 0 to 1099 and z from 0
/// to 4095; the initial instance is X(700, 0).
#[rattlefmt::skip]
const TWO_LEVELS: [u8; 107] = [
    // mark, version, no sorts
    0x50, 0x42, 0x45, 0x53, 0x01, 0x00,
    // one equation, nu X
    0x01, 0x01, 0x01, 0x58,
    // two parameters, 0..1099 and 0..4095
    0x02,
    0x02, 0x00, 0x00, 0x00, 0x00, 0x4b, 0x04, 0x00, 0x00,
    0x02, 0x00, 0x00, 0x00, 0x00, 0xff, 0x0f, 0x00, 0x00,
    // one loop slot, 0..1099
    0x01,
    0x02, 0x00, 0x00, 0x00, 0x00, 0x4b, 0x04, 0x00, 0x00,
    // 14304 steps, 1102 tokens, 17 instructions
    0xe0, 0x37, 0x00, 0x00, 0x4e, 0x04, 0x00, 0x00, 0x11, 0x00,
    // AND, LOOP 2, GET 2, GET 0, NE, NOT, JT 14
    0x1e, 0x1c, 0x02, 0x04, 0x02, 0x04, 0x00, 0x14, 0x15, 0x19, 0x0e, 0x00,
    // GET 2, GET 1, INT 1, ADD, INT 2, MIN
    0x04, 0x02, 0x04, 0x01,
    0x01, 0x01, 0x00, 0x00, 0x00, 0x00, 0x00, 0x00, 0x00, 0x06,
    0x01, 0x02, 0x00, 0x00, 0x00, 0x00, 0x00, 0x00, 0x00, 0x0c,
    // CALL 0, NEXT, CLOSE, END
    0x24, 0x00, 0x1d, 0x20, 0x00,
    // the initial instance, X(700, 0)
    0x00, 0xbc, 0x02, 0x00, 0x00, 0x00, 0x00, 0x00, 0x00,
    0x00, 0x00, 0x00, 0x00, 0x00, 0x00, 0x00, 0x00,
];

/// How many instances are reached: the initial one, X(y, 1) for each other y, and X(y, 2).
const REACHED: usize = 2200;

/// The module, verified.
fn two_levels(alloc: Global) -> Result<Verified, Fail> {
    let module = decode_counting(alloc, &TWO_LEVELS, Counting::Reached)?;
    match verify(alloc, module) {
        Ok(verified) => Ok(verified),
        Err((_module, error)) => Ok(Err::<Verified, VerifyError>(error)?),
    }
}

/// Whether rows have the same numbers and tokens.
fn are_same(rows: &IndexedRows, others: &IndexedRows) -> bool {
    if rows.len() != others.len() {
        return false;
    }
    for place in 0..rows.len() {
        let tokens = rows.tokens(place);
        let other = others.tokens(place);
        if rows.number(place) != others.number(place)
            || tokens.kinds() != other.kinds()
            || tokens.calls() != other.calls()
        {
            return false;
        }
    }
    true
}

/// What so many workers find of at most so many instances.
fn found_by<R: Threads + Sync>(
    rt: &R,
    alloc: Global,
    module: &Verified,
    workers: u32,
    instances: usize,
) -> Result<Option<Explored>, AllocError> {
    let limits = Limits {
        workers: workers.clamp(1, 16),
        instances,
    };
    explore(rt, alloc, module, limits, &NoGate)
}

// Workers that explore in rounds find the rows that one finds alone, and end where these are too
// many.
#[test]
fn rounds_of_workers(rt: HostRuntime) -> Result<(), Fail> {
    let alloc = rt.alloc();
    let module = two_levels(alloc)?;
    let Some(alone) = explore_reached(alloc, &module, REACHED, &NoGate)? else {
        panic!(rt; "the instances are too many");
    };
    assert!(rt; alone.len() == REACHED);
    for workers in [1u32, 2, 4] {
        let Some(explored) = found_by(&rt, alloc, &module, workers, REACHED)? else {
            panic!(rt; "the instances are too many");
        };
        assert!(rt; are_same(explored.rows(), &alone), "{workers}");
        assert!(rt; found_by(&rt, alloc, &module, workers, REACHED - 1)?.is_none());
    }
    Ok(())
}
