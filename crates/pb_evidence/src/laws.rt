//! What evidence obeys, as the contract of a function that does nothing when it runs.

ghost use Rattle.pb_evidence.specs.Assumed.{AssumedIsShown};

/// Evidence that was found while some trees were unknown, each of them taken for the leaf that
/// hasn't the truth value shown, is evidence whichever trees they are.
pub fn assumed_is_shown()
    ensures { AssumedIsShown }
{}
