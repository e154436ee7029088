//! How many instances a layout may have, by which of them count.
ghost use Rattle.std.specs.Prelude.{◌≡◌, ◌≤◌};
ghost use Rattle.pb_sorts.specs.Counting.{instance_limit};

use pb_base::MAX_INSTANCES;

/// How many instances a layout may have at all. So two counts, and a count with one digit more than
/// an instance's place, are below 2^64.
pub const MAX_NUMBERS: u64 = 4_611_686_018_427_387_904;

/// Which instances count against the limit of T12, L02 and B05: each that is declared, of which
/// there are at most `MAX_INSTANCES`, or those alone that are reached, so that memory bounds them
/// and `MAX_NUMBERS` may be declared.
#[derive(Clone, Copy, Debug, PartialEq, Eq)]
pub enum Counting {
    Declared,
    Reached,
}

impl Counting {
    /// How many instances may be declared.
    pub fn limit(self) -> u64
        ensures limit { result ≡ instance_limit self }
        ensures few { result ≤ MAX_NUMBERS }
    {
        match self {
            Counting::Declared => MAX_INSTANCES as u64,
            Counting::Reached => MAX_NUMBERS,
        }
    }
}
