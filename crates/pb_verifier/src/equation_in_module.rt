//! What is verified at a time: an equation, with all that its code may name.

ghost use Rattle.std.proofs.Props.{props};
ghost use Rattle.pb_verifier_flow.proofs.OrderedRanges.{ordered_range-prop};
ghost use Rattle.pb_verifier.specs.Programs.{program_with};
ghost use Rattle.pb_verifier_structure.specs.Structure.{IsProgramWithinLimits};

use crate::visit::Names;
use pb_bytecode::Equation;

/// An equation of a module, whose code is within the limits of modules.
#[derive(Clone, Copy)]
pub(crate) struct EquationInModule<'a> {
    pub names: Names<'a>,
    pub equation: &'a Equation,
    pub ghost within_limits: { IsProgramWithinLimits
        (program_with names equation.now) } by { Prim.hlevel (ordered_range-prop, props) },
}
