//! Modules: an equation system whose right sides are code.
ghost use Rattle.std.specs.Prelude.{◌≡◌, true};
ghost use Rattle.pb_bytecode.specs.Limits.{fits};
ghost use Rattle.pb_bytecode.specs.Views.{contents_of};

use crate::equation::Equation;
use crate::initial::Initial;
use crate::sort::Sort;
use pb_bytecode_program::Version;

/// A system of parameterised Boolean equations in compiled form. Its fields are within the limits
/// of the format, so that it has a spelling; whether its code is accepted is a verifier's matter.
#[derive(Drop)]
pub struct Module {
    pub version: Version,
    pub sorts: Vec<Sort>,
    /// The equations, 1 to `MAX_EQUATIONS`, the earlier ones dominating.
    pub equations: Vec<Equation>,
    pub initial: Initial,
    pub ghost within_limits: { fits (contents_of version sorts.items equations.items initial)
        ≡ true },
}
