//! What holds of a protocol that keeps the rules, as the laws of unfolding want it. The functions
//! do nothing: each law stands on its function's contract.
#![tactic(auto)]

mod named_steps;
mod solved;
mod spelling;
mod wider;

ghost use Rattle.pb_protocol_laws.specs.Laws.{CallsArePositive, EnumeratorsAreApart};
ghost use Rattle.pb_protocol_laws.specs.Laws.{PlainProtocolsArePlain, StateVariablesAreApart};
ghost use Rattle.pb_protocol_laws.specs.Fixpoints.{FixpointsAreExtreme, ProtocolPropertiesArePositive};

pub use named_steps::{flat_steps_are_instances, models_go_by_names, worked_instance};
pub use solved::{flat_models_are_solved, moves_are_the_protocols, packed_models_are_solved};
pub use spelling::{
    flat_formulas_are_writable, flat_models_are_writable, packed_formulas_are_writable,
    packed_groups_have_few_values, packed_models_are_writable, plain_formulas_are_writable,
    plain_models_are_writable, settled_protocols_are_writable,
};
pub use wider::verdicts_stay_in_wider_ranges;

/// No two enumerators have one name.
pub fn enumerators_are_apart()
    ensures { EnumeratorsAreApart }
{}

/// No two state variables have one name.
pub fn state_variables_are_apart()
    ensures { StateVariablesAreApart }
{}

/// What is called in its properties stands under an even number of negations, and so it does where
/// they are unfolded.
pub fn calls_are_positive()
    ensures { CallsArePositive }
{}

/// The model that a plain protocol is means what the protocol means: what that law wants of the
/// model.
pub fn plain_protocols_are_plain()
    ensures { PlainProtocolsArePlain }
{}

/// In a positive formula, `mu X . f` and `nu X . f` have the least and the greatest set of the
/// protocol's states that `f` gives back where it is the set of `X` (Knaster and Tarski); and where
/// the protocol keeps the rules, its properties are positive.
pub fn fixpoints_are_extreme()
    ensures extreme { FixpointsAreExtreme }
    ensures positive { ProtocolPropertiesArePositive }
{}
