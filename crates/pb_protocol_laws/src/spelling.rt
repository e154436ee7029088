//! What a protocol becomes has words: the flat model that is unfolded from it, the model of its
//! packed variables, and the formulas of both. So each text that these are translated to can be
//! said. Definitions and laws alone.

ghost use Rattle.pb_protocol_laws.specs.SpellingLaws.{FlatModelsAreWritable};
ghost use Rattle.pb_protocol_laws.specs.SpellingLaws.{FlatFormulasAreWritable};
ghost use Rattle.pb_protocol_laws.specs.SpellingLaws.{PlainModelsAreWritable};
ghost use Rattle.pb_protocol_laws.specs.SpellingLaws.{PlainFormulasAreWritable};
ghost use Rattle.pb_protocol_laws.specs.SpellingLaws.{PackedModelsAreWritable};
ghost use Rattle.pb_protocol_laws.specs.SpellingLaws.{PackedFormulasAreWritable};
ghost use Rattle.pb_protocol_laws.specs.SpellingLaws.{GroupsHaveFewValues};
ghost use Rattle.pb_protocol_laws.specs.SpellingLaws.{SettledProtocolsAreWritable};

/// The flat model of a protocol that has words has words: elements are named by words, and numbers
/// that are computed stay within the largest that a text may write.
pub fn flat_models_are_writable()
    ensures { FlatModelsAreWritable }
{}

/// So has each formula of the flat model.
pub fn flat_formulas_are_writable()
    ensures { FlatFormulasAreWritable }
{}

/// A model has words where the protocol that it is written as has.
pub fn plain_models_are_writable()
    ensures { PlainModelsAreWritable }
{}

/// So has each of its formulas.
pub fn plain_formulas_are_writable()
    ensures { PlainFormulasAreWritable }
{}

/// The protocol of a model's text has words where the text has: its constants are definitions of
/// numbers of 32 bits, and ranges are within them.
pub fn settled_protocols_are_writable()
    ensures { SettledProtocolsAreWritable }
{}

/// Each group of a model has few values, where packing tells no fault of their sizes.
pub fn packed_groups_have_few_values()
    ensures { GroupsHaveFewValues }
{}

/// The packed model of a model that has words has words, where each group has so few values that
/// its range has bounds of 32 bits.
pub fn packed_models_are_writable()
    ensures { PackedModelsAreWritable }
{}

/// So has what a formula says there.
pub fn packed_formulas_are_writable()
    ensures { PackedFormulasAreWritable }
{}
