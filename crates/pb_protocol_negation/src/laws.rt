//! What the negation says of a property: laws, for crates above to call where they need them.

ghost use Rattle.std.specs.Prelude.{◌≡◌, true, false};
ghost use Rattle.pb_protocol_meaning.specs.Examples as protocol;
ghost use Rattle.pb_protocol_negation.specs.Examples as example;
ghost use Rattle.pb_protocol_negation.specs.Negation.{negation};
ghost use Rattle.pb_protocol_negation.specs.Verdict.{fails, holds};
ghost use Rattle.pb_protocol_negation.specs.Laws.{FormulasErase, NegatedPropertiesTell, NegationsErase};
ghost use Rattle.pb_protocol_negation.specs.Laws.{NegationsArePositive, NeverBoth, OneWithoutCuts};
ghost use Rattle.pb_protocol_negation.specs.Laws.{SatisfactionIsKept};
ghost use Rattle.pb_protocol_negation.specs.WiderRanges.{FailsInWiderRanges};

use pb_model_wider_ranges::true_stays_true_in_wider_ranges;
use pb_protocol_unfolding::plain_models_keep_their_meaning;

/// No protocol satisfies both a property and its negation.
pub fn never_both()
    ensures { NeverBoth }
{}

/// Where no step leaves the ranges from a state that is reached, a protocol satisfies a property or
/// its negation.
pub fn one_without_cuts()
    ensures { OneWithoutCuts }
{}

/// Where a property of a plain protocol fails, it holds in no wider ranges of the state variables.
pub fn fails_in_wider_ranges()
    ensures { FailsInWiderRanges }
{
    plain_models_keep_their_meaning();
    true_stays_true_in_wider_ranges();
}

/// What is called in a property stands under an even number of negations in its negation too.
pub fn negations_are_positive()
    ensures { NegationsArePositive }
{}

/// A negated protocol says the protocol with the negations of its properties. What a protocol
/// satisfies doesn't depend on its properties, so a property of the negated one is true exactly
/// where that of the protocol fails.
pub fn negations_erase()
    ensures protocols { NegationsErase }
    ensures formulas { FormulasErase }
    ensures satisfaction { SatisfactionIsKept }
    ensures properties { NegatedPropertiesTell }
{}

/// Of two caches no two write at once, and one reads; where a counter's step leaves its range, the
/// range decides whether it stays zero.
pub fn worked_examples()
    ensures negation { negation protocol.one_writer ≡ example.two_writers }
    ensures holds { holds protocol.caches protocol.one_writer ≡ true }
    ensures fails { fails protocol.caches example.no_read ≡ true }
    ensures neither_holds { holds protocol.counter example.stays_zero ≡ false }
    ensures nor_fails { fails protocol.counter example.stays_zero ≡ false }
{}
