//! Why there is no lifting.

use pb_base::{Fault, OrMemory};
use std::fmt;

/// `K06`: a player has more ranks, top counted, than 2^64 - 1, so that a word is too small.
#[derive(Clone, Copy, Debug, PartialEq, Eq)]
pub struct TooManyRanks;

impl Fault for TooManyRanks {}

impl fmt::Display for TooManyRanks {
    ghost use Rattle.std.specs.Prelude.{Some, codes};

    ghost output = { λ _. Some (codes "K06") };

    fn fmt<W: fmt::Write>(&self, f: &mut fmt::Formatter<W>) -> fmt::Result {
        f.write_str("K06")
    }
}

/// Why there is no lifting: there are too many ranks, or memory was refused.
pub type LiftError = OrMemory<TooManyRanks>;
