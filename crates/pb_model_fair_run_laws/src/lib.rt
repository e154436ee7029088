//! Counterexamples of patterns over whole runs: p for ever at last, p at last on fair paths, and a
//! infinitely often where b is so. Each is false exactly by a lasso, by a run that ends, or by one
//! that can leave the ranges. Definitions and laws alone.
#![tactic(auto)]

ghost use Rattle.pb_model_meaning.specs.Examples as model_example;
ghost use Rattle.pb_model_meaning.specs.Satisfaction.{no_sets};
ghost use Rattle.pb_model_run_laws.specs.Examples as run_example;
ghost use Rattle.pb_model_fair_run_laws.specs.Examples as example;
ghost use Rattle.pb_model_fair_run_laws.specs.Unsettled.{FalseNeverSettles, NeverSettlesRefutes};
ghost use Rattle.pb_model_fair_run_laws.specs.PutOffFairly.{FalseNeverComesFairly};
ghost use Rattle.pb_model_fair_run_laws.specs.PutOffFairly.{IsPutOffFairly, NeverComesFairlyRefutes};
ghost use Rattle.pb_model_fair_run_laws.specs.FairRuns.{FairLassosGoOnFairly};
ghost use Rattle.pb_model_fair_run_laws.specs.Unreactive.{FalseNeverReacts, NeverReactsRefutes};

/// p stays for ever at last, `mu X . nu Y . (p && [A] Y) || (<true> true && [A] X)`, is false just
/// where a run by the steps of A goes round for ever through a state in which p is false, comes to
/// where p is false and no step can be taken, or can leave the ranges.
pub fn persistence_has_counterexamples()
    ensures counterexample { FalseNeverSettles }
    ensures refuted { NeverSettlesRefutes }
{
    pb_model_run_laws::long_runs_come_back();
    pb_model_run_laws::truth_hangs_on_free_variables();
}

/// p at last, on paths that are weakly fair to each process, is false just where a run without p
/// goes round for ever, and each process takes a step of the loop or is unable to somewhere in it,
/// so that the run is weakly fair to each; or it comes to where no step can be taken, or can leave
/// the ranges.
pub fn weak_fairness_has_counterexamples()
    ensures counterexample { FalseNeverComesFairly }
    ensures refuted { NeverComesFairlyRefutes }
    ensures endless { FairLassosGoOnFairly }
{
    pb_model_run_laws::long_runs_come_back();
    pb_model_run_laws::truth_hangs_on_free_variables();
}

/// `nu X . mu Y . nu Z . [A] X && [B] Y && [C] Z` is false just where a run by the steps of the
/// three sets goes round by those of B and of C, with one of B in the loop, or can leave the
/// ranges.
pub fn reactivity_has_counterexamples()
    ensures counterexample { FalseNeverReacts }
    ensures refuted { NeverReactsRefutes }
{
    pb_model_run_laws::long_runs_come_back();
}

/// Process 2 of the lock goes round for ever while process 1 tries to get in, and that is weakly
/// fair: where process 2 is in, process 1 is unable to take a step.
pub fn worked_examples()
    ensures overtaken { IsPutOffFairly model_example.lock no_sets example.processes example.is_in
        run_example.kept_out }
{}
