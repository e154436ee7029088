//! What a model means: the abstract syntax of models and of the modal mu-calculus, the transition
//! system of guarded steps, the states that satisfy a formula and whether the model does, all in
//! `specs/`, with laws about them.
#![tactic(auto)]

ghost use Rattle.std.specs.Prelude.{◌≡◌, true, false, List, [], ◌∷◌, pos};
ghost use Rattle.pb_model_meaning.specs.Syntax.{StepSet, Formula};
ghost use Rattle.pb_model_meaning.specs.Steps.{initial_state, successors};
ghost use Rattle.pb_model_meaning.specs.Satisfaction.{satisfies};
ghost use Rattle.pb_model_meaning.specs.Laws.{FixpointsAreExtreme};
ghost use Rattle.pb_model_meaning.specs.Examples as example;

/// A lock of two processes, as the definitions compute it: it keeps them apart, some step can
/// always be taken, and process 1 can always get in; but process 2 can keep it out for ever.
pub fn worked_examples_of_a_lock()
    ensures mutual_exclusion { satisfies example.lock example.mutual_exclusion ≡ true }
    ensures no_deadlock { satisfies example.lock example.no_deadlock ≡ true }
    ensures can_always_enter { satisfies example.lock example.can_always_enter ≡ true }
    ensures always_enters { satisfies example.lock example.always_enters ≡ false }
{}

/// Where single steps lead: all assignments read the old state, a step is taken for each value of
/// its own variables at which its guard is true, and what leaves the ranges satisfies `true` alone.
pub fn worked_examples_of_steps()
    ensures at_once { successors example.swapping StepSet.All (initial_state example.swapping)
        ≡ (pos 2 ∷ pos 1 ∷ []) ∷ [] }
    ensures each_value { successors example.setting StepSet.All (initial_state example.setting)
        ≡ (pos 1 ∷ []) ∷ (pos 2 ∷ []) ∷ (pos 3 ∷ []) ∷ [] }
    ensures outside_is_true { satisfies example.leaving example.some_step ≡ true }
    ensures outside_is_no_more { satisfies example.leaving
        (Formula.Diamond StepSet.All (Formula.Not (Formula.Truth false))) ≡ false }
{}

/// What a fixpoint ranges over: the states, each value in its variable's carrier. Over all tuples
/// of numbers, a counter that leaves its range would have a run without end.
pub fn worked_examples_of_fixpoints()
    ensures carriers_alone { satisfies example.leaving example.runs_for_ever ≡ false }
{}

/// In a positive formula, `mu X . f` and `nu X . f` have the least and the greatest set of states
/// that `f` gives back where it is the set of `X` (Knaster and Tarski).
pub fn fixpoints_are_extreme()
    ensures { FixpointsAreExtreme }
{}
