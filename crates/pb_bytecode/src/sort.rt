//! Sorts of enumerators.
ghost use Rattle.std.specs.Prelude.{◌≤◌, vec_len};
ghost use Rattle.pb_base.specs.declared.limits.TheConstants.{MAX_ENUMERATORS};

use crate::name::Name;

/// A sort, by its enumerators' names in order. A module has at most `MAX_STRUCTS` sorts with 1 to
/// `MAX_ENUMERATORS` enumerators each.
#[derive(Drop)]
pub struct Sort {
    pub enumerators: Vec<Name>,
    pub ghost few: { vec_len enumerators ≤ MAX_ENUMERATORS },
}
