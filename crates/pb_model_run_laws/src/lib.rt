//! What the patterns of properties say of a model's runs: laws, whose words are definitions in
//! `specs/`.
#![tactic(auto)]

mod counterexamples;
mod words;

ghost use Rattle.pb_model_run_laws.specs.Free.{NotFreeIsWithout};
ghost use Rattle.pb_model_run_laws.specs.Until.{FalseUntilKeepsWaiting, TrueUntilIsBounded};
ghost use Rattle.pb_model_run_laws.specs.Until.{LassosRefuteUntil, InevitablyIsUntil};
ghost use Rattle.pb_model_run_laws.specs.WeakUntil.{FalseWeakUntilHasRun, TrueWeakUntilIsUnbroken};
ghost use Rattle.pb_model_run_laws.specs.Precedence.{FalsePrecedenceHasRun, TruePrecedenceHasNone};
ghost use Rattle.pb_model_run_laws.specs.Never.{FalseNeverHasRun, TrueNeverHasNone};
ghost use Rattle.pb_model_run_laws.specs.Deadlock.{FalseHasDeadlock, TrueHasNoDeadlock};
ghost use Rattle.pb_model_run_laws.specs.Everywhere.{EverywhereIsAlways, FalseIsOutOfReach};
ghost use Rattle.pb_model_run_laws.specs.Everywhere.{TrueIsWithinReach};
ghost use Rattle.pb_model_run_laws.specs.Response.{FalseIsUnanswered, TrueIsAnswered};
ghost use Rattle.pb_model_run_laws.specs.AtLast.{FalseAtLastIsAvoided, TrueAtLastIsBounded};
ghost use Rattle.pb_model_run_laws.specs.InfiniteRuns.{AlwaysOnInfiniteRuns, InevitablyOnInfiniteRuns};
ghost use Rattle.pb_model_run_laws.specs.InfiniteRuns.{UntilOnInfiniteRuns};
ghost use Rattle.pb_model_run_laws.specs.StepResponse.{FalseIsUnfollowed, TrueIsFollowed};
ghost use Rattle.pb_model_run_laws.specs.InfinitelyOften.{TrueIsInfinitelyOften, TakenInfinitelyOften};
ghost use Rattle.pb_model_run_laws.specs.Persistence.{TrueIsPersistent};
ghost use Rattle.pb_model_run_laws.specs.Reactivity.{TrueIsReactive};
ghost use Rattle.pb_model_run_laws.specs.EndlessLassos.{LassosAreInfiniteRuns};
ghost use Rattle.pb_model_run_laws.specs.EndlessLassos.{LassosRefuteInfinitelyOften};
ghost use Rattle.pb_model_run_laws.specs.WeakFairness.{TrueIsFairlyAtLast};

pub use counterexamples::{
    at_last_has_counterexamples, inevitably_has_counterexamples,
    infinitely_often_has_counterexamples, long_runs_come_back, response_has_counterexamples,
    step_response_has_counterexamples, until_has_counterexamples, worked_examples,
};
pub use words::{operands_are_free_of_words, words_are_patterns};

/// A formula's truth doesn't hang on the set of a variable that isn't free in it.
pub fn truth_hangs_on_free_variables()
    ensures without { NotFreeIsWithout }
{}

/// p until q, `mu Y . q || (p && <true> true && [A] Y)`, is true just where there is a bound on how
/// long runs by the steps of A, with p in each state before, can put q off; so it is false where
/// such a run can go round for ever. That f is inevitable is `true` until f.
pub fn until_is_a_bound()
    ensures kept_waiting { FalseUntilKeepsWaiting }
    ensures bounded { TrueUntilIsBounded }
    ensures refuted { LassosRefuteUntil }
    ensures inevitably { InevitablyIsUntil }
{}

/// p unless q, `nu Y . q || (p && [A] Y)`, is false just where a run by the steps of A, with p and
/// without q till then, leads to a state with neither, or leaves the ranges.
pub fn weak_until_is_on_runs()
    ensures by_a_run { FalseWeakUntilHasRun }
    ensures unbroken { TrueWeakUntilIsUnbroken }
{}

/// q not before p, `nu Y . p || (!q && [A] Y)`, is false just where a run by the steps of A,
/// without p, leads to a state with q, or leaves the ranges.
pub fn precedence_is_on_runs()
    ensures by_a_run { FalsePrecedenceHasRun }
    ensures none { TruePrecedenceHasNone }
{}

/// `nu X . [B] false && [A] X` is false just where a run by the steps of A leads to where a step of
/// B can be taken, or leaves the ranges.
pub fn never_is_on_runs()
    ensures by_a_run { FalseNeverHasRun }
    ensures none { TrueNeverHasNone }
{}

/// `nu X . <true> true && [A] X` is false just where a run by the steps of A leads to where no step
/// can be taken, or leaves the ranges.
pub fn no_deadlock_is_on_runs()
    ensures by_a_run { FalseHasDeadlock }
    ensures none { TrueHasNoDeadlock }
{}

/// `nu X . [A] X && f` says what `nu X . f && [A] X` says; and with `mu Y . p || <B> Y` for f it is
/// false just where a run by the steps of A leads to a state from which none by those of B leads to
/// p, or leaves the ranges.
pub fn everywhere_is_always()
    ensures same { EverywhereIsAlways }
    ensures out_of_reach { FalseIsOutOfReach }
    ensures within_reach { TrueIsWithinReach }
{}

/// After each p, q at last, `nu X . [A] X && (p => mu Y . q || (<true> true && [B] Y))`, is false
/// just where a run by the steps of A leads to a state with p from which those of B can put q off
/// for any number of steps, or leaves the ranges.
pub fn response_is_on_runs()
    ensures unanswered { FalseIsUnanswered }
    ensures answered { TrueIsAnswered }
{}

/// `mu Y . <true> true && [A] Y` is true just where there is a bound on how long the steps of A can
/// be taken alone.
pub fn at_last_is_a_bound()
    ensures avoided { FalseAtLastIsAvoided }
    ensures bounded { TrueAtLastIsBounded }
{}

/// `nu X . [A] X && [C] (mu Y . <true> true && [B] Y)` is false just where a run by the steps of A
/// leads to before a step of C behind which those of B can be taken alone for any number of steps,
/// or leaves the ranges.
pub fn step_response_is_on_runs()
    ensures unfollowed { FalseIsUnfollowed }
    ensures followed { TrueIsFollowed }
{}

/// On each infinite run by the steps of A: where `nu X . f && [A] X` is true, f in all states;
/// where f is inevitable, f within as many steps as there are states; and so q where p until q is
/// true, and p till then.
pub fn infinite_runs_obey()
    ensures always { AlwaysOnInfiniteRuns }
    ensures inevitably { InevitablyOnInfiniteRuns }
    ensures until { UntilOnInfiniteRuns }
{}

/// Where `nu X . mu Y . <true> true && [A] X && [B] Y` is true, an infinite run by the steps of A
/// and of B takes those of A infinitely often.
pub fn infinitely_often_on_infinite_runs()
    ensures again { TrueIsInfinitelyOften }
    ensures others { TakenInfinitelyOften }
{}

/// Where `mu X . nu Y . (p && [A] Y) || (<true> true && [A] X)` is true, p isn't false infinitely
/// often on any infinite run by the steps of A.
pub fn persistence_on_infinite_runs()
    ensures stays { TrueIsPersistent }
{}

/// Where `nu X . mu Y . nu Z . [A] X && [B] Y && [C] Z` is true, an infinite run by the steps of A,
/// of B and of C that takes those of B infinitely often takes those of A infinitely often.
pub fn reactivity_on_infinite_runs()
    ensures reacts { TrueIsReactive }
{}

/// A lasso is an infinite run that stays in its loop, so one of the steps of A and B without those
/// of A in its loop shows that `nu X . mu Y . <true> true && [A] X && [B] Y` is false.
pub fn lassos_never_end()
    ensures runs { LassosAreInfiniteRuns }
    ensures refuted { LassosRefuteInfinitelyOften }
{}

/// Where the formula "p at last, on paths that are weakly fair to each process" is true, no
/// infinite run that is weakly fair to each is without p for ever.
pub fn weak_fairness_on_infinite_runs()
    ensures comes { TrueIsFairlyAtLast }
{}
