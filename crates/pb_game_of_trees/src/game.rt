//! From the reached instances of a module to their game.
ghost use Rattle.std.specs.Prelude.{ℕ, IfOk, map};
ghost use Rattle.pb_base.specs.OrMemory.{OnRefused};
ghost use Rattle.pb_fixpoint_trees.specs.Tree.{Tree};
ghost use Rattle.pb_fixpoint_trees.specs.Reached.{AreRowsOf};
ghost use Rattle.pb_bytecode.specs.Meaning.{signature_of, initial_of};
ghost use Rattle.pb_game_of_trees.specs.TreeGame.{RowsHaveTrees, IsGameOf};
ghost use Rattle.pb_game_of_trees.specs.TreeGame.{KeepsVertexLimit, HasTooManyVertices};
ghost use Rattle.pb_game_of_trees.specs.Drafted.{IsModuleDraft, KeepsDraftLimit};
ghost use Rattle.pb_game_of_trees.specs.Explored.{ModuleHasTrees, AreModuleRows, IsModuleGame};
ghost use Rattle.pb_game_of_trees.specs.Explored.{IsModuleTooLarge};

use crate::crew::Crew;
use crate::signatures::Signatures;
use crate::{BuildError, DraftedGame, TreeGame};
use pb_fixpoint_trees::IndexedRows;
use pb_sorts::Counting;
use pb_verifier::Verified;
use std::thread::Threads;

/// The game of rows of a module's equations, with whichever trees the rows have: the instances'
/// own, or others that are assumed.
///
/// # Errors
/// `TooManyVertices` where the game would have more vertices than `vertex_limit` has, by which
/// instances count; else `Memory`.
pub fn build_rows<R: Threads + Sync>(
    crew: &Crew<'_, R>,
    verified: &Verified,
    rows: &IndexedRows,
    counting: Counting,
) -> Result<TreeGame, BuildError>
    requires { RowsHaveTrees (map signature_of verified.now.equations) rows.now
        (initial_of verified.now) }
    ensures game { IfOk result (IsGameOf (map signature_of verified.now.equations) rows.now
        (initial_of verified.now)) }
    ensures few { IfOk result (KeepsVertexLimit counting) }
    ensures too_many { OnRefused result ((trees : ℕ → Tree)
        → AreRowsOf (map signature_of verified.now.equations) trees rows.now
        → HasTooManyVertices counting (map signature_of verified.now.equations) trees rows.now) }
{
    let signatures = Signatures::of_module(crew.alloc, verified)?;
    TreeGame::build(crew, &signatures, rows, verified.initial(), counting)
}

/// The game of the reached instances of a module.
///
/// # Errors
/// `TooManyVertices` where the game would have more vertices than `vertex_limit` has, by which
/// instances count; else `Memory`.
pub fn build<R: Threads + Sync>(
    crew: &Crew<'_, R>,
    verified: &Verified,
    rows: &IndexedRows,
    counting: Counting,
) -> Result<TreeGame, BuildError>
    requires trees { ModuleHasTrees verified.now }
    requires rows { AreModuleRows verified.now rows.now }
    ensures game { IfOk result (IsModuleGame verified.now rows.now) }
    ensures few { IfOk result (KeepsVertexLimit counting) }
    ensures too_many { OnRefused result (IsModuleTooLarge counting verified.now rows.now) }
{
    build_rows(crew, verified, rows, counting)
}

/// The vertices of the game of a module's reached instances: that game, before it is finished
/// without the rows.
///
/// # Errors
/// As with `build`.
pub fn draft_module<R: Threads + Sync>(
    crew: &Crew<'_, R>,
    verified: &Verified,
    rows: &IndexedRows,
    counting: Counting,
) -> Result<DraftedGame, BuildError>
    requires trees { ModuleHasTrees verified.now }
    requires rows { AreModuleRows verified.now rows.now }
    ensures draft { IfOk result (IsModuleDraft verified.now rows.now) }
    ensures few { IfOk result (KeepsDraftLimit counting) }
    ensures too_many { OnRefused result (IsModuleTooLarge counting verified.now rows.now) }
{
    let signatures = Signatures::of_module(crew.alloc, verified)?;
    DraftedGame::of_rows(crew, &signatures, rows, verified.initial(), counting)
}
