//! The module that the tests explore.
ghost use Rattle.std.specs.Prelude.{IfOk};
ghost use Rattle.pb_instances.specs.Few.{HasFewInstances};

use pb_bytecode::decode::decode;
use pb_verifier::{Verified, VerifyError, verify};
use std::alloc::{AllocError, Global};
use std::test::Fail;

/// `nu X(x) = forall y: y == x || X(y)`, with x and y of a sort of three enumerators; the initial
/// instance is X(a).
#[rattlefmt::skip]
const ALL_OTHERS: [u8; 61] = [
    // mark, version
    0x50, 0x42, 0x45, 0x53, 0x01,
    // one sort: a, b, c
    0x01, 0x03, 0x01, 0x61, 0x01, 0x62, 0x01, 0x63,
    // one equation, nu X
    0x01, 0x01, 0x01, 0x58,
    // one parameter and one loop slot, both of the sort
    0x01, 0x01, 0x00, 0x01, 0x01, 0x00,
    // 28 steps, 5 tokens, 12 instructions
    0x1c, 0x00, 0x00, 0x00, 0x05, 0x00, 0x00, 0x00, 0x0c, 0x00,
    // AND, LOOP 1, GET 1, GET 0, NE, NOT, JT 9
    0x1e, 0x1c, 0x01, 0x04, 0x01, 0x04, 0x00, 0x14, 0x15, 0x19, 0x09, 0x00,
    // GET 1, CALL 0, NEXT, CLOSE, END
    0x04, 0x01, 0x24, 0x00, 0x1d, 0x20, 0x00,
    // the initial instance, X(a)
    0x00, 0x00, 0x00, 0x00, 0x00, 0x00, 0x00, 0x00, 0x00,
];

/// The module, verified. Its instances are X(a), X(b) and X(c), with the numbers 0, 1 and 2; each
/// calls the two others.
///
/// # Errors
/// Memory was refused, or there are not three instances.
pub fn all_others(alloc: Global) -> Result<Verified, Fail>
    ensures { IfOk result HasFewInstances }
{
    let verified = match verify(alloc, decode(alloc, &ALL_OTHERS)?) {
        Ok(verified) => verified,
        Err((_module, error)) => return Ok(Err::<Verified, VerifyError>(error)?),
    };
    if verified.layout().count() != 3 {
        Err::<(), AllocError>(AllocError)?;
    }
    Ok(verified)
}
