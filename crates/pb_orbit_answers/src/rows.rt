//! The truth of an instance in the solution of rows.
ghost use Rattle.std.specs.Prelude.{◌≡◌, ℕ, IfOk, map};
ghost use Rattle.pb_base.specs.OrMemory.{OnRefused};
ghost use Rattle.pb_fixpoint_trees.specs.Tree.{Tree};
ghost use Rattle.pb_fixpoint_trees.specs.Equations.{solved};
ghost use Rattle.pb_fixpoint_trees.specs.Reached.{AreRowsOf};
ghost use Rattle.pb_bytecode.specs.Meaning.{signature_of};
ghost use Rattle.pb_game_of_trees.specs.TreeGame.{AreRowsFrom, HasTooManyVertices, RowsHaveTrees};

use pb_fixpoint_trees::IndexedRows;
use pb_game_of_trees::{BuildError, Crew, Signatures, Solved, TreeGame};
use pb_sorts::Counting;
use pb_strategy::certify;
use pb_verifier::Verified;
use std::thread::Threads;

/// The truth of an instance in the solution of rows of a module's equations, with whichever trees
/// the rows have.
///
/// # Errors
/// `TooManyVertices` where the rows' game would have more vertices than `vertex_limit` has, by
/// which instances count; else `Memory`.
pub(crate) fn solve_rows<R: Threads + Sync>(
    crew: &Crew<'_, R>,
    verified: &Verified,
    rows: IndexedRows,
    initial: u64,
    counting: Counting,
) -> Result<bool, BuildError>
    requires { RowsHaveTrees (map signature_of verified.now.equations) rows initial }
    ensures truth { IfOk result (λ truth. (trees : ℕ → Tree)
        → AreRowsFrom (map signature_of verified.now.equations) trees rows initial
        → truth ≡ solved (map signature_of verified.now.equations) trees initial) }
    ensures too_many { OnRefused result ((trees : ℕ → Tree)
        → AreRowsOf (map signature_of verified.now.equations) trees rows
        → HasTooManyVertices counting (map signature_of verified.now.equations) trees rows) }
{
    let signatures = Signatures::of_module(crew.alloc, verified)?;
    match TreeGame::build(crew, &signatures, &rows, initial, counting) {
        Ok(built) => {
            drop(rows);
            let solution = pb_zielonka::solve(crew.rt, crew.alloc, &built.game)?;
            match certify(crew.rt, crew.workers, &built.game, solution) {
                Ok(certified) => Ok(Solved::new(built, certified).truth()),
                Err(_) => unreachable!(),
            }
        }
        Err(error) => Err(error),
    }
}
