//! What folding keeps of terms and models, as laws.

ghost use Rattle.pb_protocol_folding.specs.Laws.{FoldingKeepsInitialStates, FoldingKeepsSteps};
ghost use Rattle.pb_protocol_folding.specs.Laws.{FoldingKeepsFormulas, FoldingKeepsPositiveCalls};
ghost use Rattle.pb_protocol_folding.specs.Laws.{FoldingKeepsValues};

/// A folded term has the same truth, and where its value counts the same value.
pub fn folding_keeps_values()
    ensures { FoldingKeepsValues }
{}

/// A folded model begins where the model does, its steps lead where those of the model do, and it
/// satisfies what the model does.
pub fn folding_keeps_models()
    ensures begins { FoldingKeepsInitialStates }
    ensures steps { FoldingKeepsSteps }
    ensures formulas { FoldingKeepsFormulas }
{}

/// What a folded formula calls stands under an even number of negations where it did.
pub fn folding_keeps_positive_calls()
    ensures { FoldingKeepsPositiveCalls }
{}
