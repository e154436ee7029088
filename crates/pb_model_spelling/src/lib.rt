//! The text to which a property of a model is translated can be said, where the model has words,
//! and the text of a model that was read has words: laws, for crates above to call where they need
//! them. Definitions and laws alone.
#![tactic(auto)]

ghost use Rattle.pb_model_spelling.specs.Laws.{TranslationsCanBeSaid, ReadModelsAreWritable};
ghost use Rattle.pb_model_spelling.specs.Laws.{ReadModelsHaveProperties, PrimedNamesAreWords};

/// A tree that says what a formula of a model is translated to can be said within some levels and
/// operators, where model and formula have words: so its printed words are read back, but for the
/// limits.
pub fn translations_can_be_said()
    ensures { TranslationsCanBeSaid }
{}

/// The text of a model that was read has words: each name is one of the grammar, each number within
/// its limit, and no list of variables is empty that can't be.
pub fn read_models_are_writable()
    ensures { ReadModelsAreWritable }
{}

/// The text of a model that was read has a property.
pub fn read_models_have_properties()
    ensures { ReadModelsHaveProperties }
{}

/// A name with a prime and any bytes of names behind it is a name of the grammar, as those of
/// elements and of written-out steps are.
pub fn primed_names_are_words()
    ensures { PrimedNamesAreWords }
{}
