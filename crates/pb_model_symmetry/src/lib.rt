//! Symmetries of a model: maps of states that keep what a formula reads of a state, and carry the
//! successors of a state to those of its image. The translation to equations has them too. No code
//! is here: each function's contract is a law.
#![tactic(auto)]

ghost use Rattle.pb_model_symmetry.specs.Laws.{SatisfactionIsInvariant, TranslationsAreSymmetric};

/// A state satisfies a formula exactly where its image does.
pub fn satisfaction_is_invariant()
    ensures { SatisfactionIsInvariant }
{}

/// A symmetry of a model and a formula is one of the equations to which they are translated.
pub fn translations_are_symmetric()
    ensures { TranslationsAreSymmetric }
{}
