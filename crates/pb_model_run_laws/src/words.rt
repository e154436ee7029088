//! What the words of formulas stand for: the formulas whose laws over runs `pb_model_run_laws` and
//! `pb_model_runs` have, in whatever model a protocol is written out as; and no operand of a word
//! speaks of the variable of its fixpoint, as those laws ask. Definitions and laws alone.

ghost use Rattle.pb_model_run_laws.specs.Patterns.{AlwaysIsItsPattern, PossiblyIsItsPattern};
ghost use Rattle.pb_model_run_laws.specs.Patterns.{InevitablyIsItsPattern, NoDeadlockIsItsPattern};
ghost use Rattle.pb_model_run_laws.specs.Patterns.{UntilIsItsPattern, LeadsToIsItsPattern};
ghost use Rattle.pb_model_run_laws.specs.Patterns.{FairIsItsPattern};
ghost use Rattle.pb_model_run_laws.specs.FreeOperands.{OperandsAreFreeOfWords};

/// Each word stands for the formula of its pattern, over all steps or those that stand with it.
pub fn words_are_patterns()
    ensures always { AlwaysIsItsPattern }
    ensures possibly { PossiblyIsItsPattern }
    ensures inevitably { InevitablyIsItsPattern }
    ensures no_deadlock { NoDeadlockIsItsPattern }
    ensures until { UntilIsItsPattern }
    ensures leads_to { LeadsToIsItsPattern }
    ensures fair { FairIsItsPattern }
{}

/// No word is free in what is read as an operand of one.
pub fn operands_are_free_of_words()
    ensures { OperandsAreFreeOfWords }
{}
