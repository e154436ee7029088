//! The names of steps stand at places of their own, so that a place tells the step: in a protocol
//! that was read, in a model that keeps its places, and in one whose steps are numbered: laws, for
//! crates above to call where they need them.
#![tactic(auto)]

ghost use Rattle.pb_model_places.specs.Apart.{ReadProtocolsStandApart, KeptPlacesStandApart};
ghost use Rattle.pb_model_places.specs.Apart.{ReadPlacesHaveColumns, NumberedStepsStandApart};
ghost use Rattle.pb_model_places.specs.Apart.{PlacesTellSteps};

/// In a protocol that was read no two steps have their names at one place, and none has it where a
/// property's formula goes on; all these stand at columns from 1 on. A model that keeps these
/// places stands apart too.
pub fn read_protocols_stand_apart()
    ensures read { ReadProtocolsStandApart }
    ensures kept { KeptPlacesStandApart }
    ensures columns { ReadPlacesHaveColumns }
{}

/// A model whose steps have their names at column 0, each on a line of its own, stands apart where
/// its formulas have the places of a protocol that was read.
pub fn numbered_steps_stand_apart()
    ensures { NumberedStepsStandApart }
{}

/// In a model that stands apart the place of a call in a property's text tells the step.
pub fn places_tell_steps()
    ensures { PlacesTellSteps }
{}
