//! Laws about the readings of models, for crates above to call where they need them. Each function
//! does nothing.

ghost use Rattle.pb_model_text.specs.Parsing.{AtMostOneModelReading};

/// The text of a model has at most one reading: two readings of the same bytes, each within limits
/// of its own, are one tree with the same places. So the grammar is unambiguous.
pub fn readings_are_unique()
    ensures { AtMostOneModelReading }
{}
