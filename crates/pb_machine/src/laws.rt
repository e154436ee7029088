//! The laws of instances' trees, each the contract of a function that does nothing.
ghost use Rattle.pb_machine.specs.Laws.{AnswerIsUnique, CallsAreInstances, CallsAreListed};
ghost use Rattle.pb_machine.specs.Laws.{CallsAreSuccessors, TokensAreMeant, TreesAreOfInstances};
ghost use Rattle.pb_machine.specs.Laws.{TreesAreUnique};

/// The tokens that a run gives are those of its instance's tree, and its calls are the instance's
/// successors.
pub fn runs_give_trees()
    ensures instances { TreesAreOfInstances }
    ensures calls { CallsAreInstances }
    ensures tokens { TokensAreMeant }
    ensures successors { CallsAreSuccessors }
{}

/// A module means one tree for each instance, and so it has one answer. That there are such trees
/// is the law `instances_have_trees` of verified modules.
pub fn meaning_is_unique()
    ensures trees { TreesAreUnique }
    ensures answer { AnswerIsUnique }
{
    pb_fixpoint_trees::tokens_determine_tree();
}

/// The calls of a tree are the numbers in the list of its calls.
pub fn calls_are_listed()
    ensures { CallsAreListed }
{}
