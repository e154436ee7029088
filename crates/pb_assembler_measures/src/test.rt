//! Tests of a normal form: data terms, negated where the polarity is negative.

ghost use Rattle.std.specs.Prelude.{◌≡◌, option_map};
ghost use Rattle.pb_normal.specs.View.{formula_view};
ghost use Rattle.pb_assembler_scheme.specs.Scheme.{test_of};
ghost use Rattle.pb_assembler_measures.specs.MeasureTerms.{capped_load, term_load};
ghost use Rattle.pb_assembler_measures.specs.Tests.{tested_term};

use crate::measure_load::Load;
use crate::measure_term::{measure_one, measure_term};
use pb_normal::Formula;
use pb_typing::Polarity;
use pb_typing_tree::Term;

/// A test: a data term, negated where the polarity is negative.
#[derive(Clone, Copy)]
pub struct Test<'t> {
    pub polarity: Polarity,
    pub term: &'t Term,
}

/// The test that a formula is, if it is one.
pub fn as_test<'t>(formula: &Formula<'t>) -> Option<Test<'t>>
    ensures { option_map tested_term result ≡ test_of (formula_view formula.now) }
{
    match formula {
        Formula::Test { polarity, term } => Some(Test {
            polarity: *polarity,
            term,
        }),
        Formula::Join { first, rest, .. } => {
            if rest.is_empty() {
                as_test(first)
            } else {
                None
            }
        }
        Formula::Each { carriers, body, .. } => {
            if carriers.is_empty() {
                as_test(body)
            } else {
                None
            }
        }
        Formula::Call { .. } => None,
    }
}

/// How much the code of a test's value takes.
pub(crate) fn measure_tested(test: Test<'_>) -> Load
    ensures { result ≡ capped_load (term_load (tested_term test.entry)) }
{
    match test.polarity {
        Polarity::Positive => measure_term(test.term),
        Polarity::Negative => measure_one(test.term),
    }
}
