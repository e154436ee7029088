//! Rows for a game of the nearest instances.
ghost use Rattle.std.specs.Prelude.{◌≡◌, All, Contains, IfOk, OnOk, length};
ghost use Rattle.pb_bytecode.specs.Contents.{Contents};
ghost use Rattle.pb_exploration_reached.specs.Nearby.{IsNearby, found_in, nearby_rows};
ghost use Rattle.pb_exploration_reached.specs.Rows.{AreExploredRows};
ghost use Rattle.pb_evidence_nearby.specs.Around.{AddsAround, AreAssumedRows, IsAround};

use pb_exploration_reached::Nearby;
use pb_fixpoint_trees::{IndexedRows, ReadRows, Rows, Token};
use std::alloc::{AllocError, Global};

/// The rows by rising number, from whose game this truth value may be shown of the initial
/// instance: each explored instance has its tree, and each of the frontier, in place of its tree,
/// the leaf with the other value. Where there is no frontier, the rows are those of all reached
/// instances.
///
/// # Errors
/// Memory was refused.
pub fn rows_around(alloc: Global, nearby: &Nearby, truth: bool) -> Result<IndexedRows, AllocError>
    requires { (m : Contents) × IsNearby m nearby.now }
    ensures each { IfOk result (All (IsAround nearby.now truth)) }
    ensures assumed { IfOk result (λ rows. (m : Contents) → IsNearby m nearby.now
        → AreAssumedRows m truth rows) }
    ensures whole { IfOk result (λ rows. (m : Contents) → IsNearby m nearby.now
        → length (nearby_rows nearby.now) ≡ length (found_in nearby.now)
        → AreExploredRows m rows) }
{
    let mut numbers = Vec::from_slice(alloc, nearby.numbers())?;
    numbers.sort_unstable();
    let mut rows = Rows::new(alloc);
    for &number in &numbers {
        push_row(nearby, &mut rows, number, truth)?;
    }
    Ok(IndexedRows::of_rows(rows))
}

/// Adds the row of an instance, or that of its leaf.
fn push_row(nearby: &Nearby, rows: &mut Rows, number: u64, truth: bool) -> Result<(), AllocError>
    requires nearby { (m : Contents) × IsNearby m nearby.now }
    requires found { Contains (found_in nearby.now) number }
    ensures { OnOk result (AddsAround nearby.now truth number rows.old rows.new) }
{
    let Some(place) = nearby.place(number) else {
        unreachable!()
    };
    let explored = nearby.rows();
    if place < explored.len() {
        rows.push_row(number, &explored.tokens(place))?;
    } else if truth {
        rows.push(number, &[Token::No])?;
    } else {
        rows.push(number, &[Token::Yes])?;
    }
    Ok(())
}
