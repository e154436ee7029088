//! A packed model has the symmetries of the model: its states are the model's, by packing a state
//! and unpacking it. No code is here: each function's contract is a law.
#![tactic(auto)]

ghost use Rattle.pb_protocol_symmetry_packed.specs.Laws.{PackedModelsAreIsomorphic};
ghost use Rattle.pb_protocol_symmetry_packed.specs.Laws.{PackedFormulasAreEquivalent};
ghost use Rattle.pb_protocol_symmetry_packed.specs.Laws.{PackedModelsAreSymmetric};
ghost use Rattle.pb_protocol_symmetry_packed.specs.Laws.{PackedPropertiesAreSymmetric};

/// Packing a state of the model and unpacking one of the packed model are inverse to one another,
/// and steps are the same.
pub fn packed_models_are_isomorphic()
    ensures { PackedModelsAreIsomorphic }
{}

/// A packed state satisfies the packed formula exactly where the state satisfies the formula.
pub fn packed_formulas_are_equivalent()
    ensures { PackedFormulasAreEquivalent }
{}

/// A symmetry of a model and a formula is, through the states that are packed, one of the packed
/// model and formula, and so of a property of a model that can be packed.
pub fn packed_models_are_symmetric()
    ensures models { PackedModelsAreSymmetric }
    ensures properties { PackedPropertiesAreSymmetric }
{}
