//! Runs of a model, what formulas say of them, and how the calls of a property's text show them:
//! definitions, in `specs/`, and laws.
#![tactic(auto)]

ghost use Rattle.std.specs.Prelude.{◌≡◌, [], ◌∷◌};
ghost use Rattle.pb_model_meaning.specs.Examples as model_example;
ghost use Rattle.pb_model_runs.specs.Runs.{IsRunOf, LassosGoRound, StepsLeadToSuccessors};
ghost use Rattle.pb_model_runs.specs.Laws.{CallsAreMoves, EveryStepIsCalled, LinesAreRuns};
ghost use Rattle.pb_model_runs.specs.Laws.{NoCallMeansNoStep, TellsJustTheStep};
ghost use Rattle.pb_model_runs.specs.Always.{FalseHasRun, RunsRefute, TrueHoldsOnRuns};
ghost use Rattle.pb_model_runs.specs.Possibly.{RunsMakeTrue, TrueHasRun};
ghost use Rattle.pb_model_runs.specs.Inevitably.{FalseIsPutOff, LassosRefute, TrueIsBounded};
ghost use Rattle.pb_model_runs.specs.Safety.{LinesRefute};
ghost use Rattle.pb_model_runs.specs.Examples as example;

/// Where a step leads, by the definition of runs, are its successors by that of the meaning; and a
/// lasso is a run however often it goes round.
pub fn runs_go_to_successors()
    ensures successors { StepsLeadToSuccessors }
    ensures lassos { LassosGoRound }
{}

/// A call that an instance of a property's text makes is a move of the model, by the step whose
/// name stands at the call's place and by the values of its own variables that the call is made
/// for; or the formula goes on in the same state.
pub fn calls_are_moves()
    ensures calls { CallsAreMoves }
    ensures exactly { TellsJustTheStep }
{}

/// In the text of every step, what a state calls are all its successors; so it makes no call
/// exactly where no step can be taken.
pub fn every_step_is_called()
    ensures calls { EveryStepIsCalled }
    ensures no_call { NoCallMeansNoStep }
{}

/// Lines, each of which names the next by a call that it makes, are a run of the model; and those
/// of a violated safety property refute it by themselves.
pub fn lines_are_runs()
    ensures runs { LinesAreRuns }
    ensures refuted { LinesRefute }
{}

/// `nu X . f && [A] X` is false just where a run by the steps of A leads to a state in which f is
/// false, or leaves the ranges.
pub fn always_is_on_runs()
    ensures by_a_run { FalseHasRun }
    ensures on_runs { TrueHoldsOnRuns }
    ensures refuted { RunsRefute }
{}

/// `mu X . f || <A> X` is true just where a run by the steps of A, within the ranges, leads to a
/// state in which f is true.
pub fn possibly_is_by_a_run()
    ensures by_a_run { TrueHasRun }
    ensures on_runs { RunsMakeTrue }
{}

/// `mu Y . f || <true> true && [A] Y` is true just where there is a bound on how long runs by the
/// steps of A can put f off; so it is false where such a run can go round for ever.
pub fn inevitably_is_a_bound()
    ensures put_off { FalseIsPutOff }
    ensures bounded { TrueIsBounded }
    ensures refuted { LassosRefute }
{}

/// A run of the lock; and the calls of a counter up to 2, where its step can lead out of the range,
/// and where it can't be taken.
pub fn worked_examples()
    ensures run { IsRunOf model_example.lock example.waiting }
    ensures calls { example.calls_of_counter 1 ≡ example.added 1 2 ∷ example.added 2 3 ∷ [] }
    ensures no_calls { example.calls_of_counter 2 ≡ [] }
{}
