//! From a protocol to the flat model that is translated, with a variable for each element of an
//! array, a step for each tuple of values of its own variables, unless it stays whole, and no
//! quantifier: definitions, in `specs/`, and laws.
#![tactic(auto)]

ghost use Rattle.std.specs.Prelude.{◌≡◌, true, codes};
ghost use Rattle.pb_model_meaning.specs.Satisfaction.{satisfies};
ghost use Rattle.pb_protocol_meaning.specs.Examples as protocol;
ghost use Rattle.pb_protocol_unfolding.specs.Hygiene.{HidesNothing};
ghost use Rattle.pb_protocol_unfolding.specs.Examples as example;
ghost use Rattle.pb_protocol_unfolding.specs.TermLaws.{WrittenValuesAreKept, TermsPutInHaveTheValue};
ghost use Rattle.pb_protocol_unfolding.specs.TermLaws.{DefinitionsArePutIn, ElementsAreRead};
ghost use Rattle.pb_protocol_unfolding.specs.TermLaws.{ElementsAreAssigned};
ghost use Rattle.pb_protocol_unfolding.specs.ModelLaws.{StepsAreUnfolded, FormulasAreUnfolded};
ghost use Rattle.pb_protocol_unfolding.specs.ModelLaws.{PropertiesNameNoWhole};
ghost use Rattle.pb_protocol_unfolding.specs.ModelLaws.{QuantifiedFormulasAreCopies, ModelsAreUnfolded};
ghost use Rattle.pb_protocol_unfolding.specs.ModelLaws.{FlatModelsSatisfyTheSame, FlatModelsGoTheSame};
ghost use Rattle.pb_protocol_unfolding.specs.ModelLaws.{FlatNamesAreApart, FlatTranslationsHaveTheAnswer};
ghost use Rattle.pb_protocol_unfolding.specs.Positive.{UnfoldedCallsArePositive, PositiveCallsAreKept};
ghost use Rattle.pb_protocol_unfolding.specs.Plain.{PlainModelsKeepTheirMeaning};

// ---- terms

/// What is written for the values of a sort has these values.
pub fn written_values_are_kept()
    ensures { WrittenValuesAreKept }
{}

/// A term with terms put in for names has the value that it has where the names stand for their
/// values, a quantifier that is written out has the quantifier's value, and counting is the sum of
/// what is counted.
pub fn terms_put_in_have_the_value()
    ensures { TermsPutInHaveTheValue }
{}

/// A definition has the value of its term where its parameters have the arguments' values.
pub fn definitions_are_put_in()
    ensures { DefinitionsArePutIn }
{}

/// An element that is read has the value that stands at its index in the state.
pub fn elements_are_read()
    ensures { ElementsAreRead }
{}

/// After all assignments, each for all values of its variables, an element has the value of the
/// last term that is assigned to it, else the value before.
pub fn elements_are_assigned()
    ensures { ElementsAreAssigned }
{}

// ---- models

/// No property names the steps by values that stay whole.
pub fn properties_name_no_whole()
    ensures { PropertiesNameNoWhole }
{}

/// The steps of the unfolded model lead where those of the protocol do.
pub fn steps_are_unfolded()
    ensures { StepsAreUnfolded }
{}

/// A formula of the unfolded model is satisfied where that of the protocol is; and one with a
/// quantifier where all, or some, of its copies are.
pub fn formulas_are_unfolded()
    ensures formulas { FormulasAreUnfolded }
    ensures copies { QuantifiedFormulasAreCopies }
{}

/// The unfolded model begins where the protocol does, has the same states, and satisfies what the
/// protocol does.
pub fn models_are_unfolded()
    ensures { ModelsAreUnfolded }
{}

/// The flat model satisfies what the protocol does; it begins where the protocol does, has the same
/// states, and its steps lead where those of the protocol do. Its names are apart, and the text to
/// which it is translated has the answer.
pub fn flat_models_do_the_same()
    ensures satisfaction { FlatModelsSatisfyTheSame }
    ensures steps { FlatModelsGoTheSame }
    ensures names { FlatNamesAreApart }
    ensures translation { FlatTranslationsHaveTheAnswer }
{}

/// Where what a formula's right sides call stands under an even number of negations, so it does in
/// what the formula is unfolded to, and in the flat model.
pub fn positive_calls_are_kept()
    ensures unfolded { UnfoldedCallsArePositive }
    ensures flat { PositiveCallsAreKept }
{}

/// A flat model means what it means as a protocol.
pub fn plain_models_keep_their_meaning()
    ensures { PlainModelsKeepTheirMeaning }
{}

// ---- examples

/// Two caches of one line: a definition whose quantifier has its argument's name, two assignments
/// to one element at once, an element by a variable, names, steps by value under a quantifier; and
/// what the flat model satisfies. A round of votes: how they are counted, and a step that assigns
/// all elements, and one of them again.
pub fn worked_examples()
    ensures hides_nothing { HidesNothing protocol.caches }
    ensures definition { example.flat_step example.read_c1 ≡ example.flat_read }
    ensures at_once { example.flat_step example.grant_c1_c1 ≡ example.flat_grant }
    ensures count { example.votes_put_in ≡ example.flat_votes }
    ensures for_all { example.reset_put_in ≡ example.flat_reset }
    ensures by_variable { example.flat_term protocol.owners_line ≡ example.flat_owners_line }
    ensures names { example.element_name ≡ codes "x'20'm1'true" }
    ensures by_value { example.flat_formula protocol.reads_share ≡ example.flat_reads_share }
    ensures reads_share { satisfies example.flat_caches
        (example.flat_formula protocol.reads_share) ≡ true }
    ensures one_writer { satisfies example.flat_caches
        (example.flat_formula protocol.one_writer) ≡ true }
{}
