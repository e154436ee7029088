//! What a property's text says of other ranges: where no instance that it reaches is outside the
//! ranges, the model satisfies the property or its negation. Definitions, in `specs/`, and laws.
#![tactic(auto)]

ghost use Rattle.std.specs.Prelude.{◌≡◌, true, false};
ghost use Rattle.pb_model_meaning.specs.Examples.{leaving};
ghost use Rattle.pb_model_meaning.specs.Satisfaction.{satisfies};
ghost use Rattle.pb_model_translation.specs.Names.{translation};
ghost use Rattle.pb_model_range_laws.specs.Calls.{StaysInRanges};
ghost use Rattle.pb_model_range_laws.specs.Examples.{leaves_one, stays_one};
ghost use Rattle.pb_model_range_laws.specs.Laws.{NegationsDecideWithoutCuts};
ghost use Rattle.pb_model_range_laws.specs.Negation.{IsNegation};

/// Where no reached instance of a property's text calls one outside the ranges, the model satisfies
/// the property or its negation.
pub fn negations_decide_without_cuts()
    ensures { NegationsDecideWithoutCuts }
{}

/// The step of a counter leaves its range, and no call of a property's text does: so the property
/// is false, and its negation true.
pub fn worked_examples()
    ensures no_cut { StaysInRanges (translation leaving stays_one) }
    ensures negation { IsNegation stays_one leaves_one }
    ensures holds { satisfies leaving stays_one ≡ false }
    ensures fails { satisfies leaving leaves_one ≡ true }
{}
