//! Laws of the definitions by which terms are unfolded. The functions do nothing.

ghost use Rattle.pb_protocol_unfolder_terms.specs.Held.{ElementsMayBeOfTheirArray, IntervalsHold};
ghost use Rattle.pb_protocol_unfolder_terms.specs.Held.{VariablesHold};

/// The interval of a flat term, by which an index is seen to stay inside its sort, has the term's
/// value where the intervals of its names have theirs. So they have where a name that may be of a
/// state variable stands for a value of that one's sort. The name of an element may be of its
/// array, where no state variable without indices has it.
pub fn intervals_hold()
    ensures terms { IntervalsHold }
    ensures variables { VariablesHold }
    ensures elements { ElementsMayBeOfTheirArray }
{}
