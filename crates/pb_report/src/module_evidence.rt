//! Evidence for the truth of a module's initial instance.

ghost use Rattle.std.specs.Prelude.{ℕ, List, IfOk};
ghost use Rattle.pb_fixpoint_trees.specs.Tree.{Tree};
ghost use Rattle.pb_fixpoint_trees.specs.Equations.{Signature};
ghost use Rattle.pb_fixpoint_trees.specs.Reached.{rows_of};
ghost use Rattle.pb_bytecode.specs.Contents.{Contents};
ghost use Rattle.pb_game_of_trees.specs.TreeGame.{AreRowsFrom, IsTreeGame};
ghost use Rattle.pb_game_of_trees.specs.Explored.{ModuleHasTrees, AreModuleRows, IsModuleGame};
ghost use Rattle.pb_report.specs.ModuleEvidence.{Explains, IsExplanation};

use crate::cuts::cuts_of;
use crate::instance_marks::InstanceMarks;
use pb_evidence::{Evidence, explain};
use pb_fixpoint_trees::IndexedRows;
use pb_game_of_trees::Solved;
use std::alloc::{AllocError, Global};

/// Evidence for the truth value of an instance, and of each of its instances in turn whether its
/// value rests on a cut call, a call with an argument outside the carrier of its parameter.
#[derive(Drop)]
pub struct Explanation {
    pub evidence: Evidence,
    pub cuts: Vec<bool>,
}

/// Why the initial instance of a system has its truth value, as a proof graph (Cranen, Luttik and
/// Willemse 2013), from the solved game of rows of the system, with whichever trees the rows have.
///
/// The work is linear in the number of the game's vertices, and of the edges from those that the
/// winner's plays come to; where the value is false also in the tokens of the trees shown, each
/// call being looked up among those that its instance rests on.
pub fn evidence_of_rows(
    alloc: Global,
    solved: &Solved,
    rows: &IndexedRows,
) -> Result<Explanation, AllocError>
    requires { (signatures : List Signature) × (trees : ℕ → Tree) × (initial : ℕ)
        × AreRowsFrom signatures trees rows.now initial
        × IsTreeGame signatures trees (rows_of trees rows.now) initial solved.now.built }
    ensures { IfOk result (λ x. (signatures : List Signature) (trees : ℕ → Tree) (initial : ℕ)
        → AreRowsFrom signatures trees rows.now initial
        → IsTreeGame signatures trees (rows_of trees rows.now) initial solved.now.built
        → Explains signatures trees initial x) }
{
    let built = &solved.built;
    let InstanceMarks { marks, numbers } = InstanceMarks::new(
        alloc,
        built.len(),
        &built.vertices,
        rows,
    )?;
    let checked = solved.checked();
    let evidence = explain(alloc, &checked, &marks, &numbers, built.start)?;
    let cuts = cuts_of(alloc, &evidence, rows)?;
    Ok(Explanation { evidence, cuts })
}

/// The same of a module's initial instance, from the solved game of its reached instances.
pub fn evidence_of(
    alloc: Global,
    solved: &Solved,
    rows: &IndexedRows,
) -> Result<Explanation, AllocError>
    requires { (m : Contents) × ModuleHasTrees m × AreModuleRows m rows.now
        × IsModuleGame m rows.now solved.now.built }
    ensures { IfOk result (λ x. (m : Contents) → AreModuleRows m rows.now
        → IsModuleGame m rows.now solved.now.built → IsExplanation m x) }
{
    evidence_of_rows(alloc, solved, rows)
}
