//! What is known of the places to come.

ghost use Rattle.std.specs.Prelude.{◌≡◌, ◌+◌, OnErr, OnOk, Some, None, is_some};
ghost use Rattle.std.specs.Prelude.{slice_set};
ghost use Rattle.pb_bytecode_program.specs.Accepted.{state_at};
ghost use Rattle.pb_bytecode_program.specs.Transfer.{AbstractState as Known};
ghost use Rattle.pb_verifier_flow.specs.Edges.{edges_of};
ghost use Rattle.pb_verifier.specs.Pass.{merge_edges as merged_edges, merge_state as merged_state};

use pb_verifier_flow::Edges;
use pb_verifier_states::{AbstractState, AcceptanceRule};

/// Joins a state into what is known at a place of the code (V15), if the two can be joined (V11).
pub(crate) fn merge(
    table: &mut Vec<Option<AbstractState>>,
    to: usize,
    state: AbstractState,
) -> Result<(), AcceptanceRule>
    ensures ok { OnOk result (merged_state table.old.items to state ≡ Some table.new.items) }
    ensures err { OnErr result (merged_state table.old.items to state ≡ None) }
{
    if to >= table.len() {
        return Err(AcceptanceRule::PastTheEnd);
    }
    match &mut table[to] {
        None => {
            table[to] = Some(state);
            Ok(())
        }
        Some(known) => {
            if known.widen(&state) {
                Ok(())
            } else {
                Err(AcceptanceRule::WaysDiffer)
            }
        }
    }
}

/// Joins a state into what is known at the next place.
pub(crate) fn merge_next(
    table: &mut Vec<Option<AbstractState>>,
    place: usize,
    state: AbstractState,
) -> Result<(), AcceptanceRule>
    ensures ok { OnOk result (merged_state table.old.items (place + 1) state
        ≡ Some table.new.items) }
    ensures err { OnErr result (merged_state table.old.items (place + 1) state ≡ None) }
{
    if place < table.len() {
        merge(table, place + 1, state)
    } else {
        Err(AcceptanceRule::PastTheEnd)
    }
}

/// What is known at a place, taken out of the table.
pub(crate) fn take_state(
    table: &mut Vec<Option<AbstractState>>,
    place: usize,
) -> Option<AbstractState>
    ensures state { result ≡ state_at table.old.items place }
    ensures taken { table.new.items ≡ slice_set table.old.items place None }
{
    if place >= table.len() {
        return None;
    }
    table[place].take()
}

/// Whether anything is known of a place.
pub(crate) fn is_reached(table: &[Option<AbstractState>], place: usize) -> bool
    ensures { result ≡ is_some (state_at table.now place) }
{
    place < table.len() && table[place].is_some()
}

/// Moves what is known at a place to another one, where it joins.
pub(crate) fn hand_on(
    table: &mut Vec<Option<AbstractState>>,
    from: usize,
    to: usize,
) -> Result<(), AcceptanceRule>
    ensures ok { OnOk result ((state : Known) → state_at table.old.items from ≡ Some state
        → merged_state (slice_set table.old.items from None) to state ≡ Some table.new.items) }
    ensures err { OnErr result ((state : Known) → state_at table.old.items from ≡ Some state
        → merged_state (slice_set table.old.items from None) to state ≡ None) }
{
    if from < table.len() && to < table.len() && table[to].is_none() {
        table.swap(from, to);
        return Ok(());
    }
    match take_state(table, from) {
        Some(state) => merge(table, to, state),
        None => Ok(()),
    }
}

/// Joins what flows from a place: first into the next place, then into the target.
pub(crate) fn merge_edges(
    table: &mut Vec<Option<AbstractState>>,
    place: usize,
    edges: Edges,
) -> Result<(), AcceptanceRule>
    ensures ok { OnOk result (merged_edges table.old.items (edges_of place edges.next edges.jump)
        ≡ Some table.new.items) }
    ensures err { OnErr result (merged_edges table.old.items (edges_of place edges.next edges.jump)
        ≡ None) }
{
    let Edges { next, jump } = edges;
    if let Some(state) = next {
        merge_next(table, place, state)?;
    }
    if let Some((to, state)) = jump {
        merge(table, to, state)?;
    }
    Ok(())
}
