//! The laws.

ghost use Rattle.pb_protocol_range_laws.specs.Laws.{NoCutMeansOne, VerdictsAreFinalWithoutCuts};

use pb_model_range_laws::negations_decide_without_cuts;
use pb_protocol_laws::verdicts_stay_in_wider_ranges;
use pb_protocol_negation::never_both;
use pb_protocol_packing::{packed_models_have_the_answer, packed_models_satisfy_the_same};
use pb_protocol_unfolding::{flat_models_do_the_same, plain_models_keep_their_meaning};

/// Where no reached instance of a property's text calls one outside the ranges, the protocol
/// satisfies the property or its negation.
pub fn no_cut_means_one()
    ensures { NoCutMeansOne }
{
    negations_decide_without_cuts();
    plain_models_keep_their_meaning();
    flat_models_do_the_same();
    packed_models_have_the_answer();
    packed_models_satisfy_the_same();
}

/// There the answer, true or false, is the one in all wider ranges of elements and variables, and
/// that of the negation the opposite.
pub fn verdicts_are_final_without_cuts()
    ensures { VerdictsAreFinalWithoutCuts }
{
    no_cut_means_one();
    never_both();
    verdicts_stay_in_wider_ranges();
}
