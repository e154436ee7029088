//! The and/or trees that the instances of an equation system evaluate to, and what a system of such
//! trees means: tokens, trees, their truth, the equations as the solution of `pb_fixpoint` reads
//! them, and the parity game of the trees with its players. Little else than definitions and laws,
//! so that modules, machines and games can speak of trees without knowing one another. The
//! definitions stand in `specs/`; each law is the contract of a function that does nothing when it
//! runs.
#![tactic(auto)]

mod cuts;
mod entry;
pub mod index;
mod junction;
mod kind;
mod listed;
mod player;
pub mod read_rows;
pub mod reordering;
pub mod room;
pub mod rows;
mod token_lists;
mod tree_tokens;

ghost use Rattle.pb_fixpoint_trees.specs.Laws.{EquationsAreSolved, GameIsTotal, RowsHaveVertices};
ghost use Rattle.pb_fixpoint_trees.specs.Laws.{KindsAndCallsDetermine};
ghost use Rattle.pb_fixpoint_trees.specs.Laws.{TokensAreOneTree, TruthIsMonotone};
ghost use Rattle.pb_fixpoint_trees.specs.Examples.{EmptyBrackets, LeastWithinGreatest, NestedBrackets};
ghost use Rattle.pb_fixpoint_trees.specs.Examples.{SelfReference};

pub use index::{IndexedRows, Place};
pub use junction::Junction;
pub use kind::Kind;
pub use player::Player;
pub use read_rows::ReadRows;
pub use reordering::Reordering;
pub use room::push;
pub use rows::Rows;
pub use tree_tokens::TreeTokens;

/// A token of a tree. The tree of an instance, with all data evaluated, is a list of these: a leaf,
/// or an opening token, the tokens of the operands in order, and `Close`.
#[derive(Clone, Copy, PartialEq, Eq)]
pub enum Token {
    /// Opens a conjunction.
    And,
    /// Opens a disjunction.
    Or,
    /// Closes the bracket that was opened last.
    Close,
    /// A leaf that is true.
    Yes,
    /// A leaf that is false.
    No,
    /// A call with an argument outside the carrier of its parameter, a leaf that counts as false.
    Cut,
    /// A call of the instance with this number.
    Call(u64),
}

/// A list of tokens is at most one tree, and no tree's tokens begin another's.
pub fn tokens_determine_tree()
    ensures { TokensAreOneTree }
{}

/// Tokens are determined by what kinds they are of and the numbers that they call.
pub fn kinds_and_calls_determine_tokens()
    ensures { KindsAndCallsDetermine }
{}

/// A tree that is true under an environment is true under each larger one.
pub fn truth_is_monotone()
    ensures { TruthIsMonotone }
{}

/// The set that an equation of trees gets in the solution is a fixpoint of its operator, the least
/// for `mu` and the greatest for `nu`.
pub fn equations_are_solved()
    ensures { EquationsAreSolved }
{}

/// The game of rows that are closed under calls is a parity game: each vertex has successors, which
/// rise and are vertices. Each row has its vertex in it.
pub fn games_of_rows_are_total()
    ensures total { GameIsTotal }
    ensures rows { RowsHaveVertices }
{}

/// Trees and systems small enough to be computed by hand.
pub fn worked_examples()
    ensures empty_brackets { EmptyBrackets }
    ensures nested_brackets { NestedBrackets }
    ensures self_reference { SelfReference }
    ensures least_within_greatest { LeastWithinGreatest }
{}
