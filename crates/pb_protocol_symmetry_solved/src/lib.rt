//! The equations that are solved in a symmetric protocol's place, those of its flat model and those
//! of the packed one, have its symmetries. No code is here: the contract is a law.
#![tactic(auto)]

ghost use Rattle.pb_protocol_symmetry_solved.specs.Laws.{FlatModelsAreSymmetric};
ghost use Rattle.pb_protocol_symmetry_solved.specs.Laws.{FlatEquationsAreSymmetric};
ghost use Rattle.pb_protocol_symmetry_solved.specs.Laws.{PackedEquationsAreSymmetric};
ghost use Rattle.pb_protocol_symmetry_solved.specs.Laws.{TestedEquationsAreSymmetric};

use pb_model_symmetry::translations_are_symmetric;
use pb_protocol_packing::packed_models_have_the_answer;
use pb_protocol_symmetry::{tested_formulas_have_kinds, tested_protocols_are_symmetric};
use pb_protocol_symmetry_folded::folded_models_are_symmetric;
use pb_protocol_symmetry_packed::packed_models_are_symmetric;
use pb_protocol_symmetry_unfolded::unfolded_models_are_symmetric;
use pb_protocol_unfolding::{flat_models_do_the_same, properties_name_no_whole};

/// Each permutation of a sort's elements is a symmetry of the flat model of a symmetric protocol,
/// and of the equations to which it is translated, and of those of the packed model. A protocol and
/// a formula that pass the test are symmetric.
pub fn solved_equations_are_symmetric()
    ensures flat { FlatModelsAreSymmetric }
    ensures equations { FlatEquationsAreSymmetric }
    ensures packed { PackedEquationsAreSymmetric }
    ensures tested { TestedEquationsAreSymmetric }
{
    unfolded_models_are_symmetric();
    folded_models_are_symmetric();
    packed_models_are_symmetric();
    flat_models_do_the_same();
    properties_name_no_whole();
    packed_models_have_the_answer();
    translations_are_symmetric();
    tested_formulas_have_kinds();
    tested_protocols_are_symmetric();
}
