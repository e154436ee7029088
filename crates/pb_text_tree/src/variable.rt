//! Data variables as they are declared: the parameters of an equation, and what a quantifier binds.

use crate::name::Name;

/// Data variables of one sort, as `n, m: Nat`. There is at least one.
#[derive(Drop)]
pub struct Variables {
    pub names: Vec<Name>,
    pub sort: Name,
}
