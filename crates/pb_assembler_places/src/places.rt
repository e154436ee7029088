//! What the counts of operands, brackets and loops say of the places of the code.

ghost use Rattle.pb_text_meaning.specs.Syntax.{Spec};
ghost use Rattle.pb_typing_rules.specs.WellTyped.{IsWellTyped};
ghost use Rattle.pb_assembler_places.specs.Reached.{BracketsAreCounted, HoldWhatIsCounted};
ghost use Rattle.pb_assembler_places.specs.Reached.{LoopsAreCounted, OperandsAreCounted};

/// The operands and brackets that are counted on the right side are the most that any place of the
/// scheme's code is reached with, as if every test could go both ways, and the loops the most that
/// stand around any place.
pub fn places_hold_what_is_counted()
    ensures operands { OperandsAreCounted }
    ensures brackets { BracketsAreCounted }
    ensures loops { LoopsAreCounted }
    // So it is for each program that is made of an equation of a well-typed specification.
    ensures well_typed { (spec : Spec) → IsWellTyped spec → HoldWhatIsCounted spec }
{}
