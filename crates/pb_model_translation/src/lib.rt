//! From a model and a formula of the modal mu-calculus to the text of a Boolean equation system,
//! and the theorem that its answer is the model's: definitions, in `specs/`, and laws.
#![tactic(auto)]

ghost use Rattle.std.specs.Prelude.{◌≡◌, ℕ, true, false, [], ◌∷◌, codes};
ghost use Rattle.pb_text_meaning.specs.Meaning.{answer};
ghost use Rattle.pb_text_meaning.specs.Syntax as text;
ghost use Rattle.pb_model_meaning.specs.Examples as model_example;
ghost use Rattle.pb_model_translation.specs.Translation.{behind};
ghost use Rattle.pb_model_translation.specs.Names.{names_of, new_name, translation};
ghost use Rattle.pb_model_translation.specs.Apart.{HasNamesApart};
ghost use Rattle.pb_model_translation.specs.Short.{NamesAreShort};
ghost use Rattle.pb_model_translation.specs.Nested.{NestedEquationsSolveNestedFixpoints};
ghost use Rattle.pb_model_translation.specs.Laws.{AnyNamesHaveTheAnswer, TranslationsHaveTheAnswer};
ghost use Rattle.pb_model_translation.specs.Laws.{PlacedTextsAreTranslations};
ghost use Rattle.pb_model_translation.specs.Positive.{PositiveCallsSuffice};
ghost use Rattle.pb_model_translation.specs.Positive.{TranslationsArePositive};
ghost use Rattle.pb_model_translation.specs.Examples as example;

/// The equations of a formula, in front of any others, give the variable of each fixpoint the set
/// of the fixpoint, and make the right side of each formula say which states satisfy it (Mader
/// 1997; Groote and Willemse 2005). Formulas needn't be positive.
pub fn nested_equations_solve_nested_fixpoints()
    ensures { NestedEquationsSolveNestedFixpoints }
{}

/// The answer of the translation is true exactly where the model satisfies the formula; and so it
/// is with any names for its equations that are apart.
pub fn translations_have_the_answer()
    ensures answer { TranslationsHaveTheAnswer }
    ensures any_names { AnyNamesHaveTheAnswer }
{}

/// Where what a right side calls stands under an even number of negations, the translation is
/// positive, as a text has to be, and so is the formula.
pub fn translations_are_positive()
    ensures translation { TranslationsArePositive }
    ensures formula { PositiveCallsSuffice }
{}

/// No equation has a name of more than 64 bytes, which no text may have, where no variable has, and
/// there are no more equations than a text may have.
pub fn names_are_short()
    ensures { NamesAreShort }
{}

/// The text with places says what the translation says.
pub fn placed_texts_are_translations()
    ensures { PlacedTextsAreTranslations }
{}

/// The text of a lock's mutual exclusion as it was written by hand, the answers of its properties
/// as they are computed from their texts, a guard that is cut into its conjuncts, and the names of
/// equations.
pub fn worked_examples()
    ensures names_apart { HasNamesApart model_example.lock }
    ensures text { translation model_example.lock model_example.mutual_exclusion
        ≡ example.mutual_exclusion_text }
    ensures mutual_exclusion { answer (translation model_example.lock
        model_example.mutual_exclusion) ≡ true }
    ensures no_deadlock { answer (translation model_example.lock model_example.no_deadlock)
        ≡ true }
    ensures can_always_enter { answer (translation model_example.lock
        model_example.can_always_enter) ≡ true }
    ensures always_enters { answer (translation model_example.lock model_example.always_enters)
        ≡ false }
    ensures guard_of_box { behind text.Formula.Implies false example.neither_and
        (example.lock_at model_example.p model_example.q)
        ≡ example.lock_behind text.Formula.Implies }
    ensures guard_of_diamond { behind text.Formula.And false example.neither_and
        (example.lock_at model_example.p model_example.q) ≡ example.lock_behind text.Formula.And }
    ensures negated_guard { behind text.Formula.Implies true example.neither_and
        (example.lock_at model_example.p model_example.q)
        ≡ example.where_true (text.Term.Not example.neither_and)
        (example.lock_at model_example.p model_example.q) }
    ensures operand_name { names_of example.one_name_twice 1 ≡ codes "X'1" }
    ensures second_name { names_of example.one_name_twice 2 ≡ codes "X'2" }
    ensures long_name { new_name (example.long_name ∷ []) example.long_name ≡ codes "X'1" }
{}
