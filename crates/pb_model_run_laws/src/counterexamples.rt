//! What shows that a pattern that asks for something at last is false, and that nothing else does:
//! a lasso, a run to where no step can be taken, or one that can leave the ranges. Definitions and
//! laws alone.

ghost use Rattle.pb_model_meaning.specs.Examples as model_example;
ghost use Rattle.pb_model_run_laws.specs.Counterexamples.{FalseNeverAnswered, FalseNeverComes};
ghost use Rattle.pb_model_run_laws.specs.Counterexamples.{FalseNeverFollowed, FalseNeverMet};
ghost use Rattle.pb_model_run_laws.specs.Counterexamples.{FalseNeverTaken, IsAvoidedForEver};
ghost use Rattle.pb_model_run_laws.specs.Counterexamples.{LongRunsComeBack, NeverAnsweredRefutes};
ghost use Rattle.pb_model_run_laws.specs.Counterexamples.{NeverComesRefutes, NeverFollowedRefutes};
ghost use Rattle.pb_model_run_laws.specs.Counterexamples.{NeverMetRefutes, NeverTakenRefutes};
ghost use Rattle.pb_model_run_laws.specs.GivenUp.{FalseIsGivenUp, GivenUpRefutes, TrueNeverEnds};
ghost use Rattle.pb_model_run_laws.specs.Examples as example;

/// A run within the ranges that is as long as there are states comes to one of them twice.
pub fn long_runs_come_back()
    ensures { LongRunsComeBack }
{}

/// `mu Y . f || (<true> true && [A] Y)` is false just where a run by the steps of A, without f,
/// goes round for ever, comes to where no step can be taken, or can leave the ranges.
pub fn inevitably_has_counterexamples()
    ensures shown { FalseNeverComes }
    ensures refuted { NeverComesRefutes }
{}

/// `mu Y . <true> true && [A] Y` is false just where a run by the steps of A does so.
pub fn at_last_has_counterexamples()
    ensures shown { FalseNeverTaken }
    ensures refuted { NeverTakenRefutes }
{}

/// p until q, `mu Y . q || (p && <true> true && [A] Y)`, is false just where such a run, without q
/// and with p till then, does so, or comes to where p is false too.
pub fn until_has_counterexamples()
    ensures shown { FalseNeverMet }
    ensures refuted { NeverMetRefutes }
{}

/// After each p, q at last, `nu X . [A] X && (p => mu Y . q || (<true> true && [B] Y))`, is false
/// just where a run by the steps of A leads to a state with p from which such a run by those of B,
/// without q, goes on, or leaves the ranges.
pub fn response_has_counterexamples()
    ensures shown { FalseNeverAnswered }
    ensures refuted { NeverAnsweredRefutes }
{}

/// `nu X . [A] X && [C] (mu Y . <true> true && [B] Y)` is false just where a run by the steps of A
/// leads to before a step of C behind which such a run by those of B goes on, or leaves the ranges.
pub fn step_response_has_counterexamples()
    ensures shown { FalseNeverFollowed }
    ensures refuted { NeverFollowedRefutes }
{}

/// `nu X . mu Y . <true> true && [A] X && [B] Y` is false just where a run by the steps of A and of
/// B goes round by those of B, comes to where no step can be taken, or can leave the ranges; so
/// where it is true, no such run ends.
pub fn infinitely_often_has_counterexamples()
    ensures endless { TrueNeverEnds }
    ensures shown { FalseIsGivenUp }
    ensures refuted { GivenUpRefutes }
{}

/// Process 2 of the lock goes round for ever while process 1 tries to get in.
pub fn worked_examples()
    ensures overtaken { IsAvoidedForEver model_example.lock example.others example.kept_out }
{}
