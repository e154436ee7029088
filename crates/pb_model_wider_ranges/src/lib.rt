//! What a verdict says of a model with wider ranges of its state variables. A successor outside the
//! ranges satisfies `true` and no other formula, so `false` may only mean that the ranges are too
//! narrow; `true` stays true in wider ones. Definitions, in `specs/`, and laws.
#![tactic(auto)]

ghost use Rattle.std.specs.Prelude.{◌≡◌, true, false};
ghost use Rattle.pb_model_meaning.specs.Syntax.{Formula};
ghost use Rattle.pb_model_meaning.specs.Satisfaction.{satisfies};
ghost use Rattle.pb_model_meaning.specs.Examples as model;
ghost use Rattle.pb_model_wider_ranges.specs.Examples as example;
ghost use Rattle.pb_model_wider_ranges.specs.Laws.{SameWithoutCuts, TrueStaysTrueInWiderRanges};
ghost use Rattle.pb_model_wider_ranges.specs.Ranges.{WiderRangesMakeWider};

/// A property that is true stays true where the ranges of the state variables are widened, if
/// nothing stands under a negation in it but tests and modalities over `true` and `false`.
pub fn true_stays_true_in_wider_ranges()
    ensures { TrueStaysTrueInWiderRanges }
{}

/// Where no step leaves the ranges from a state that is reached, a positive property's verdict is
/// the same in wider ranges, be it true or false.
pub fn same_without_cuts()
    ensures { SameWithoutCuts }
{}

/// A model is wider than one that has all but the ranges in common with it, where these give its
/// state variables more values, and variables of quantifiers and of steps the values that they had.
pub fn wider_ranges_make_wider()
    ensures { WiderRangesMakeWider }
{}

/// What is false in narrow ranges may be true in wider ones; so what is true needn't stay true
/// where a modality over a test stands under a negation.
pub fn worked_examples()
    ensures narrow { satisfies model.leaving example.reaches_one ≡ false }
    ensures wide { satisfies example.wider example.reaches_one ≡ true }
    ensures narrow_negation { satisfies model.leaving (Formula.Not example.reaches_one) ≡ true }
    ensures wide_negation { satisfies example.wider (Formula.Not example.reaches_one) ≡ false }
{}
