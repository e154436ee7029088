//! What holds of the steps of a protocol that no values make possible, as a law.

ghost use Rattle.pb_protocol_unfolder.specs.Laws.{ImpossibleStepsLeadNowhere};

/// A step that with none of its values may be taken leads nowhere from any state of the protocol.
pub fn impossible_steps_lead_nowhere()
    ensures { ImpossibleStepsLeadNowhere }
{}
