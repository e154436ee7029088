//! Proof graphs: evidence for the truth value of instances, which anyone can check without a game
//! (Cranen, Luttik and Willemse 2013), and how a certificate of the game gives one (Wesselink and
//! Willemse 2018). Each law is the contract of a function that does nothing when it runs.

ghost use Rattle.pb_evidence.specs.ProofGraphs.{ProofGraphsProve};
ghost use Rattle.pb_evidence.specs.AssumedGraphs.{AssumedGraphsProve, AssumedChoicesHold};
ghost use Rattle.pb_evidence.specs.Examples.{ProvedSelfReference, OneOfTwo};
ghost use Rattle.pb_evidence.specs.Priorities.{PrioritiesSupport};
ghost use Rattle.pb_evidence.specs.Strategies.{StrategiesChoose, StrategiesProve};
ghost use Rattle.pb_evidence.specs.Supports.{SupportsSuffice};

/// Each instance of a proof graph for a truth value has that value in the system's nested solution.
pub fn proof_graphs_prove()
    ensures { ProofGraphsProve }
{}

/// The calls that a choice through a tree names are enough for its truth value.
pub fn supports_suffice()
    ensures { SupportsSuffice }
{}

/// Where each instance of a proof graph has its own tree or the leaf that hasn't the graph's truth
/// value, it has its own, as the leaf is in no proof graph: what was found while some trees were
/// unknown holds whichever they are. The same goes for the choices that the instances rest on.
pub fn assumed_graphs_prove()
    ensures graphs { AssumedGraphsProve }
    ensures choices { AssumedChoicesHold }
{}

/// The strategies of a certificate give proof graphs.
pub fn strategies_prove()
    ensures { StrategiesProve }
{}

/// The strategies of a certificate are choices: each instance of a graph that they give rests on
/// what one choice through its tree names.
pub fn strategies_choose()
    ensures { StrategiesChoose }
{}

/// The cycles of a proof graph in the words of games: around each the greatest priority has the
/// winner's parity.
pub fn priorities_support()
    ensures { PrioritiesSupport }
{}

/// An instance that rests on itself is evidence of truth for `nu` alone, and of falsity for `mu`
/// alone. A disjunction is true by one operand and never by two, and false by all.
pub fn worked_examples()
    ensures self_reference { ProvedSelfReference }
    ensures one_of_two { OneOfTwo }
{}
