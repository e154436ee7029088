//! Symmetries of the modules of a symmetric protocol's properties, by numbers: which elements may
//! be permuted where a property is decided, and the truth of its module by representatives (Ip and
//! Dill 1996). That it is the property's are laws, each the contract of a function.
#![tactic(auto)]

mod permutable;
mod truth;

ghost use Rattle.pb_property_symmetry.specs.Laws.{ModulesMoveWithStates, PackedNumbersMoveAlike};
ghost use Rattle.pb_property_symmetry.specs.Laws.{PackedStatesKeepTheirNumbers};
ghost use Rattle.pb_property_symmetry.specs.Properties.{ModulesOfPropertiesAreClosed};
ghost use Rattle.pb_property_symmetry.specs.Properties.{ModulesOfPropertiesAreSymmetric};
ghost use Rattle.pb_property_symmetry.specs.Truth.{TruthsByExchangesAreAnswers};

use pb_assembler_scheme::{compiled_equations_decide, made_programs_are_the_schemes};
use pb_module_symmetry::{compiled_modules_are_closed, modules_of_models_are_symmetric};
use pb_protocol_representatives::neighbours_are_symmetries;
use pb_protocol_symmetry::{tested_formulas_have_kinds, tested_protocols_are_symmetric};
use pb_protocol_symmetry_packed::{packed_models_are_isomorphic, packed_models_are_symmetric};
use pb_protocol_symmetry_solved::solved_equations_are_symmetric;
use pb_protocol_unfolding::properties_name_no_whole;
pub use permutable::{Permutable, permutable_elements};
pub use truth::truth_by_exchanges;

/// A packed state has the number of the state.
pub fn packed_states_keep_their_numbers()
    ensures { PackedStatesKeepTheirNumbers }
{}

/// A map of a model's states moves the same numbers through packed states.
pub fn packed_numbers_move_alike()
    ensures { PackedNumbersMoveAlike }
{
    packed_models_are_isomorphic();
    packed_states_keep_their_numbers();
}

/// A symmetry of a model's states moves the numbers of the instances of a formula's module.
pub fn modules_move_with_states()
    ensures { ModulesMoveWithStates }
{
    modules_of_models_are_symmetric();
    made_programs_are_the_schemes();
    compiled_equations_decide();
}

/// The trees of the module of a protocol's property call its instances alone.
pub fn modules_of_properties_are_closed()
    ensures { ModulesOfPropertiesAreClosed }
{
    compiled_modules_are_closed();
    made_programs_are_the_schemes();
    compiled_equations_decide();
}

/// To exchange two elements of a scalar set is a symmetry of the module of a property that is the
/// same where they are.
pub fn modules_of_properties_are_symmetric()
    ensures { ModulesOfPropertiesAreSymmetric }
{
    modules_move_with_states();
    packed_numbers_move_alike();
    packed_models_are_symmetric();
    properties_name_no_whole();
    solved_equations_are_symmetric();
    tested_protocols_are_symmetric();
    tested_formulas_have_kinds();
}

/// The truth of the module of a property by exchanges of elements that may be permuted is its
/// answer.
pub fn truths_by_exchanges_are_answers()
    ensures { TruthsByExchangesAreAnswers }
{
    modules_of_properties_are_closed();
    modules_of_properties_are_symmetric();
    neighbours_are_symmetries();
}
