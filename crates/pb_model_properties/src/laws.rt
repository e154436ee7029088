//! What the laws of the crates below say of the model that is solved in a protocol's place, at one
//! call. The function does nothing: the law stands on its contract.

ghost use Rattle.pb_model_properties.specs.Laws.{ModelsStandForProtocols};

use pb_model_places::{numbered_steps_stand_apart, read_protocols_stand_apart};
use pb_model_spelling::{
    read_models_are_writable, read_models_have_properties, translations_can_be_said,
};
use pb_model_typing::names_are_apart;
use pb_protocol_laws::{
    enumerators_are_apart, flat_formulas_are_writable, flat_models_are_solved,
    flat_models_are_writable, packed_formulas_are_writable, packed_groups_have_few_values,
    packed_models_are_solved, packed_models_are_writable, plain_protocols_are_plain,
    settled_protocols_are_writable,
};

/// A plain protocol's own model, the one that another is unfolded to, and the packed one of either
/// mean what the protocol means, and have words.
pub(crate) fn models_stand_for_protocols()
    ensures { ModelsStandForProtocols }
{
    read_models_are_writable();
    read_models_have_properties();
    settled_protocols_are_writable();
    read_protocols_stand_apart();
    enumerators_are_apart();
    flat_models_are_solved();
    plain_protocols_are_plain();
    names_are_apart();
    flat_models_are_writable();
    flat_formulas_are_writable();
    numbered_steps_stand_apart();
    packed_models_are_solved();
    packed_models_are_writable();
    packed_formulas_are_writable();
    packed_groups_have_few_values();
    translations_can_be_said();
}
