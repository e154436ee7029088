//! A game whose vertices are known, before it gets its predecessors. What it was made of isn't
//! needed any more then, and may go first.
ghost use Rattle.std.specs.Prelude.{◌≡◌, ◌≤◌, ◌<◌, All, length, vec_len};
ghost use Rattle.pb_game.specs.declared.limits.TheConstants.{MAX_GAME_VERTICES};

use crate::crew::Crew;
use crate::draft::Draft;
use crate::finished::game_of;
use crate::levels::{Levels, count_instances};
use crate::limit::vertex_limit;
use crate::numbering::number_vertices;
use crate::places::{Laid, laid_rows};
use crate::row_parts::draft_of;
use crate::row_range::RowRange;
use crate::signatures::Signatures;
use crate::{BuildError, TreeGame};
use pb_fixpoint_trees::{IndexedRows, ReadRows};
use pb_game::Game;
use pb_sorts::Counting;
use std::alloc::{AllocError, Global};
use std::thread::Threads;

/// The vertices of the game of a system's reached instances, with those of the instances, from
/// which the game is made without the rows.
#[derive(Drop)]
pub struct DraftedGame {
    pub(crate) draft: Draft,
    /// The vertex of each row.
    pub(crate) vertices: Vec<u32>,
    /// The vertex of the initial instance.
    pub(crate) start: u32,
    pub ghost few: { vec_len vertices ≤ MAX_GAME_VERTICES },
    pub ghost inside: { start < length draft.owners.items },
    pub ghost rows_inside: { All (λ v. v < length draft.owners.items) vertices.items },
}

impl DraftedGame {
    ghost use Rattle.std.specs.Prelude.{ℕ, IfOk, List};
    ghost use Rattle.pb_fixpoint_trees.specs.Tree.{Tree};
    ghost use Rattle.pb_fixpoint_trees.specs.Equations.{Signature as plain_signature};
    ghost use Rattle.pb_fixpoint_trees.specs.Rows.{Row};
    ghost use Rattle.pb_game.specs.Games.{vertex_count};
    ghost use Rattle.pb_game_of_trees.specs.Drafted.{IsDraftedGame, IsDraftOf, KeepsDraftLimit};
    ghost use Rattle.pb_game_of_trees.specs.Drafted.{drafted_count};
    ghost use Rattle.pb_game_of_trees.specs.Equations.{equations_of};
    ghost use Rattle.pb_game_of_trees.specs.TreeGame.{RowsHaveTrees, IsTreeGame};
    ghost use Rattle.pb_game_of_trees.specs.TreeGame.{IsRefusedExactly};

    /// The vertices of the game of the reached instances of these equations, where `initial` is one
    /// of them. How many there are is found before they are made: with the vertex of each row, or
    /// without, where there is no memory for these.
    ///
    /// # Errors
    /// As with `TreeGame::build`.
    pub fn of_rows<R: Threads + Sync>(
        crew: &Crew<'_, R>,
        signatures: &Signatures,
        rows: &IndexedRows,
        initial: u64,
        counting: Counting,
    ) -> Result<DraftedGame, BuildError>
        requires { RowsHaveTrees (equations_of signatures.now.items.items) rows.now initial }
        ensures draft { IfOk result
            (IsDraftOf (equations_of signatures.now.items.items) rows.now initial) }
        ensures few { IfOk result (KeepsDraftLimit counting) }
        ensures too_many { IsRefusedExactly counting result
            (equations_of signatures.now.items.items) rows.now }
    {
        let alloc = crew.alloc;
        let Laid { size, vertices } = laid_rows(alloc, rows, vertex_limit(counting))?;
        let numbers = count_instances(signatures) as usize;
        let numbering = number_vertices(alloc, rows, &vertices, numbers)?;
        let levels = Levels::new(alloc, signatures)?;
        let all = RowRange {
            levels: &levels,
            numbering: &numbering,
            rows,
            vertices: &vertices,
            from: 0,
            to: rows.len(),
            next: size.vertices as u32,
        };
        let draft = draft_of(crew, all, size)?;
        let start = numbering.vertex(initial);
        drop(numbering);
        Ok(DraftedGame {
            draft,
            vertices,
            start,
        })
    }

    /// The game with these vertices.
    ///
    /// # Errors
    /// Memory was refused.
    pub fn finish(self, alloc: Global) -> Result<TreeGame, AllocError>
        requires { (signatures : List plain_signature) × (trees : ℕ → Tree) × (reached : List Row)
            × (initial : ℕ) × IsDraftedGame signatures trees reached initial self }
        ensures game { IfOk result (λ built. (signatures : List plain_signature)
            (trees : ℕ → Tree) (reached : List Row) (initial : ℕ)
            → IsDraftedGame signatures trees reached initial self
            → IsTreeGame signatures trees reached initial built) }
        ensures count { IfOk result (λ built. vertex_count built.game ≡ drafted_count self) }
    {
        let DraftedGame {
            draft,
            vertices,
            start,
            ..
        } = self;
        let game = game_of(alloc, draft.into_parts())?;
        Ok(TreeGame {
            game,
            vertices,
            start,
        })
    }

    /// How many reached instances there are.
    pub fn instances(&self) -> u32
        ensures { result ≡ length self.now.vertices.items }
    {
        self.vertices.len() as u32
    }
}
