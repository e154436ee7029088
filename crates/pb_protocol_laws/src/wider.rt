//! What a verdict says of a protocol with wider ranges of its elements and variables: definitions,
//! in `specs/`, and laws.

ghost use Rattle.pb_protocol_laws.specs.WiderProtocols.{FailsInAllWiderRanges, HoldsInWiderRanges};

use pb_protocol_negation::{negations_are_positive, never_both};

/// A property that a protocol satisfies it satisfies where other ranges give its elements and
/// variables more values, and indices, steps and quantifiers those that they had; and one whose
/// negation it satisfies fails there.
pub fn verdicts_stay_in_wider_ranges()
    ensures holds { HoldsInWiderRanges }
    ensures fails { FailsInAllWiderRanges }
{
    never_both();
    negations_are_positive();
}
