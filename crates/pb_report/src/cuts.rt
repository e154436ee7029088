//! Which instances of evidence rest on a cut call.

ghost use Rattle.std.specs.Prelude.{◌≡◌, ◌<◌, ℕ, Contains, List, IfOk, length, slice_index};
ghost use Rattle.pb_game.specs.Adjacency.{row};
ghost use Rattle.pb_fixpoint_trees.specs.Tree.{Tree};
ghost use Rattle.pb_fixpoint_trees.specs.Tokens.{tree_tokens};
ghost use Rattle.pb_fixpoint_trees.specs.Equations.{Signature};
ghost use Rattle.pb_fixpoint_trees.specs.Reached as reached;
ghost use Rattle.pb_game_of_trees.specs.TreeGame.{AreRowsFrom};
ghost use Rattle.pb_evidence.specs.Evidence.{Shows};
ghost use Rattle.pb_report.specs.Rising.{IsRising};
ghost use Rattle.pb_report.specs.Cuts as spec;

use crate::tree_truth::{Named, uncut_truth};
use pb_evidence::Evidence;
use pb_fixpoint_trees::{IndexedRows, ReadRows, TreeTokens};
use std::alloc::{AllocError, Global};

/// The numbers of rows, in their order.
fn numbers_of(alloc: Global, rows: &IndexedRows) -> Result<Vec<u64>, AllocError>
    ensures { IfOk result (λ numbers. numbers.items ≡ reached.numbers_of rows.now) }
{
    let mut numbers = Vec::with_capacity(alloc, rows.len())?;
    for k in 0..rows.len() {
        numbers.push(rows.number(k))?;
    }
    Ok(numbers)
}

/// Where a number stands among numbers that rise.
fn place_of(numbers: &[u64], number: u64) -> usize
    requires rising { IsRising numbers.now }
    requires listed { Contains numbers.now number }
    ensures within { result < length numbers.now }
    ensures there { slice_index numbers.now result ≡ number }
{
    match numbers.binary_search(&number) {
        Ok(place) => place,
        Err(_) => unreachable!(),
    }
}

/// Whether the instance at this place of the evidence, which has a tree of these tokens, rests on a
/// cut call.
fn is_cut(
    alloc: Global,
    evidence: &Evidence,
    place: usize,
    tokens: TreeTokens<'_>,
) -> Result<bool, AllocError>
    requires { place < length evidence.now.instances.items }
    ensures { IfOk result (λ cut. (tree : Tree) → tokens.entry ≡ tree_tokens tree
        → cut ≡ spec.rests_on_cut evidence.now.truth
        (row evidence.now.places.items evidence.now.dependencies.items place) tree) }
{
    let named = Named::new(alloc, evidence.truth, evidence.dependencies(place))?;
    Ok(uncut_truth(alloc, tokens, &named)? != evidence.truth)
}

/// Of each instance of evidence in turn, whether it rests on a cut call. True values never do.
pub(crate) fn cuts_of(
    alloc: Global,
    evidence: &Evidence,
    rows: &IndexedRows,
) -> Result<Vec<bool>, AllocError>
    requires { (signatures : List Signature) × (trees : ℕ → Tree) × (initial : ℕ)
        × AreRowsFrom signatures trees rows.now initial
        × Shows signatures trees initial evidence.now }
    ensures { IfOk result (λ cuts. (signatures : List Signature) (trees : ℕ → Tree) (initial : ℕ)
        → AreRowsFrom signatures trees rows.now initial
        → Shows signatures trees initial evidence.now
        → cuts.items ≡ spec.cuts_of trees evidence.now) }
{
    if evidence.truth {
        let none = vec![in alloc; false; evidence.instances.len()]?;
        return Ok(none);
    }
    let numbers = numbers_of(alloc, rows)?;
    let mut cuts = Vec::with_capacity(alloc, evidence.instances.len())?;
    for place in 0..evidence.instances.len() {
        let tokens = rows.tokens(place_of(&numbers, evidence.instances[place]));
        cuts.push(is_cut(alloc, evidence, place, tokens)?)?;
    }
    Ok(cuts)
}
