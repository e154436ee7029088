//! Groups of state variables, each with the variable that it becomes.

ghost use Rattle.std.specs.Prelude.{◌≡◌, ◌≤◌, true};
ghost use Rattle.pb_protocol_packing.specs.declared.limits.TheConstants.{MAX_GROUP_VALUES};
ghost use Rattle.pb_protocol_packing.specs.Packing as packing;
ghost use Rattle.pb_protocol_packer.specs.Members.{are_weighted, members_said};

use crate::member::{Member, Variable};

/// The variable that several become, with these. Its values are the numbers below `capacity`.
#[derive(Drop)]
pub struct Joined {
    pub variable: Variable,
    pub members: Vec<Member>,
    pub capacity: u32,
    ghost weighted: { are_weighted members.items ≡ true },
    ghost few: { capacity ≤ MAX_GROUP_VALUES },
    ghost counted: { capacity ≡ packing.capacity (members_said members.items) },
}

/// A variable that stays as it is, or several with the variable that they become.
#[derive(Drop)]
pub enum Group {
    Alone(Variable),
    Joined(Joined),
}
