//! What a specification means: the abstract syntax of the whole language, the carriers of its
//! sorts, the value of a term, the truth of a formula and the answer, all in `specs/`, with laws
//! about them. In code there are the named functions alone.
#![tactic(auto)]

mod function;

ghost use Rattle.std.specs.Prelude.{◌≡◌, true, false, List, [], ◌∷◌, map, pos, negsuc, codes};
ghost use Rattle.pb_fixpoint.specs.Solution.{Environment};
ghost use Rattle.pb_fixpoint.specs.Fixpoint.{IsSolved};
ghost use Rattle.pb_text_meaning.specs.Syntax.{Equation, Spec, Term};
ghost use Rattle.pb_text_meaning.specs.Sorts.{carrier_of};
ghost use Rattle.pb_text_meaning.specs.Value.{Assignment, value};
ghost use Rattle.pb_text_meaning.specs.Fits.{Fits, IsBounded};
ghost use Rattle.pb_text_meaning.specs.Formula.{Instance};
ghost use Rattle.pb_text_meaning.specs.Meaning.{answer, equation_of};
ghost use Rattle.pb_text_meaning.specs.Positive.{ArePositive};
ghost use Rattle.pb_text_meaning.specs.Examples as example;

pub use function::NamedFunction;

/// In a text whose right sides are positive, the set that an equation gets is a fixpoint of its
/// operator, the least for `mu` and the greatest for `nu` (Groote and Willemse 2005).
pub fn sets_of_texts_are_extreme_fixpoints()
    ensures { (spec : Spec) (X : Equation) (E : List Equation) (t : Environment Instance)
        → ArePositive (X ∷ E) → IsSolved (equation_of spec X) (map (equation_of spec) E) t }
{}

/// The answers of small systems without data, as the definitions compute them.
pub fn worked_examples_without_data()
    ensures greatest_alone { answer example.greatest_alone ≡ true }
    ensures least_alone { answer example.least_alone ≡ false }
    ensures least_dominates { answer example.least_dominates ≡ false }
    ensures greatest_dominates { answer example.greatest_dominates ≡ true }
    ensures later_least_is_empty { answer example.later_least_is_empty ≡ false }
    ensures double_negation { answer example.double_negation ≡ false }
    ensures premise_twice { answer example.premise_twice ≡ true }
{}

/// The answers of small systems over data, as the definitions compute them.
pub fn worked_examples_over_data()
    ensures counting_down { answer example.counting_down ≡ true }
    ensures counting_out { answer example.counting_out ≡ false }
    ensures all_others { answer example.all_others ≡ true }
    ensures two_states { answer example.two_states ≡ true }
    ensures rounding_down { answer example.rounding_down ≡ true }
    ensures alias_of_alias { carrier_of example.alias_of_alias (codes "A")
        ≡ negsuc 0 ∷ pos 0 ∷ pos 1 ∷ [] }
{}

/// The value of a term that fits is within 2^62: such terms and formulas can be evaluated in 64
/// bits.
pub fn what_fits_is_bounded()
    ensures { (spec : Spec) (a : Assignment) (x : Term) → Fits spec a x
        → IsBounded (value spec a x) }
{}
