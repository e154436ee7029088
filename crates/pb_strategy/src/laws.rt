//! What a certificate of the game of trees means: its winners are the truth values of the nested
//! fixpoint solution. It ties the games and certificates of `pb_game`, which know nothing of
//! equations, to the solution of `pb_fixpoint` over the trees of `pb_fixpoint_trees`. Each law is
//! the contract of a function that does nothing when it runs.

ghost use Rattle.pb_strategy.specs.Examples.{AlternatingInstances, EachOther, GreatestFirst};
ghost use Rattle.pb_strategy.specs.Examples.{GreatestOfItself, LeastFirst, LeastOfItself};
ghost use Rattle.pb_strategy.specs.Examples.{NestedBracket, TrueOperand, WrongWinner};
ghost use Rattle.pb_strategy.specs.Meaning.{WinnersAreSolved};

/// In the game of a system's reached instances, each certificate gives Even exactly the
/// vertices of the instances that are true in the system's nested solution (Groote and Willemse
/// 2005). The rows of reached instances need only be closed under calls.
pub fn winners_are_solved()
    ensures { WinnersAreSolved }
{}

/// Small systems by hand: the game of each, a certificate of it, and the values of its instances.
pub fn worked_examples()
    ensures greatest_of_itself { GreatestOfItself }
    ensures least_of_itself { LeastOfItself }
    ensures wrong_winner { WrongWinner }
    ensures least_first { LeastFirst }
    ensures greatest_first { GreatestFirst }
    ensures each_other { EachOther }
    ensures alternating_instances { AlternatingInstances }
    ensures nested_bracket { NestedBracket }
    ensures true_operand { TrueOperand }
{}
