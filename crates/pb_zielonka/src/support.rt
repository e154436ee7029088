//! What stays won by a level's player when the opponent has won a part of the level.
//!
//! A kept vertex stands on what its player moves to, or on all that the opponent can move to. Where
//! a part of that is conceded, or no longer kept, the vertex is dropped, and with it what stands on
//! it. What is left then is closed, and keeps its winner, its choices and its counts.

ghost use Rattle.std.specs.Prelude.{◌≡◌, ◌≢◌, ℕ, ◌+◌, ◌<◌, ◌≤◌, length, slice_index, IfOk, OnOk};
ghost use Rattle.std.specs.Prelude.{Contains, IsTrue};
ghost use Rattle.pb_game.specs.Games.{vertex_count, owner_of, priority_of};
ghost use Rattle.pb_game.specs.Solutions.{choice_of, count_of};
ghost use Rattle.pb_zielonka.specs.Regions.{IsIn, ListsRegion, IsSelection};
ghost use Rattle.pb_zielonka.specs.Regions.{region_count};
ghost use Rattle.pb_zielonka.specs.Kept.{AreWonOn, IsSiftedOn, IsClearedOn, IsClosedOn, Sifts};
ghost use Rattle.pb_zielonka.specs.Kept.{IsTargetOn, IsHeightOn, HasChoices};

use crate::scopes::{MAX_HEIGHT, Standing};
use std::alloc::AllocError;

/// The count of `v` at the priority below the greatest; 0 where there is none.
fn count_below(standing: &Standing<'_>, v: u32) -> u64
    requires { v < vertex_count standing.now.game.now }
    ensures { (below : ℕ) → below + 1 ≡ standing.now.top
        → result ≡ count_of standing.now.game.now standing.now.solution.now v below }
{
    if standing.top == 0 {
        return 0;
    }
    standing.solution.count(standing.game, v, standing.top - 1)
}

/// Whether `v` is kept, its choice, if it is the player's, stays in the region, and its count is no
/// greater than is kept.
fn stands(standing: &Standing<'_>, kept: &[bool], v: u32) -> bool
    requires vertex { v < vertex_count standing.now.game.now }
    requires size { length kept.now ≡ vertex_count standing.now.game.now }
    requires choice { IsIn kept.now v → owner_of standing.now.game.now v ≡ standing.now.player
        → choice_of standing.now.solution.now v < vertex_count standing.now.game.now }
    ensures kept { IsTrue result → IsIn kept.now v }
    ensures stays { IsTrue result → owner_of standing.now.game.now v ≡ standing.now.player
        → IsIn standing.now.region.now (choice_of standing.now.solution.now v) }
    ensures small { IsTrue result → (below : ℕ) → below + 1 ≡ standing.now.top
        → count_of standing.now.game.now standing.now.solution.now v below ≤ MAX_HEIGHT }
{
    if !kept[v as usize] {
        return false;
    }
    if standing.game.owner(v) == standing.player {
        let choice = standing.solution.choice(v);
        if !standing.region[choice as usize] {
            return false;
        }
    }
    count_below(standing, v) <= MAX_HEIGHT
}

/// Takes the marks of the vertices that don't stand, and of those of the greatest priority. Lists
/// what isn't kept then, but for the greatest priority.
fn drop_fallen(
    standing: &Standing<'_>,
    kept: &mut [bool],
    dropped: &mut Vec<u32>,
) -> Result<(), AllocError>
    requires listed { ListsRegion standing.now.region.now standing.now.list.now }
    requires choices { HasChoices standing.now kept.old }
    ensures { OnOk result (Sifts standing.now kept.old kept.new dropped.new.items) }
{
    dropped.clear();
    for &v in standing.list {
        if standing.game.priority(v) == standing.top {
            kept[v as usize] = false;
        } else if !stands(standing, kept, v) {
            kept[v as usize] = false;
            dropped.push(v)?;
        }
    }
    Ok(())
}

/// Whether the kept vertex `v` of the region stands on its successor `u`.
fn stands_on(standing: &Standing<'_>, v: u32, u: u32) -> bool
    requires { v < vertex_count standing.now.game.now }
    ensures free { ¬ IsTrue result → owner_of standing.now.game.now v ≡ standing.now.player }
    ensures apart { ¬ IsTrue result → choice_of standing.now.solution.now v ≢ u }
{
    standing.game.owner(v) != standing.player || standing.solution.choice(v) == u
}

/// Drops what stands on `u`.
fn drop_predecessors(
    standing: &Standing<'_>,
    kept: &mut [bool],
    dropped: &mut Vec<u32>,
    u: u32,
) -> Result<(), AllocError>
    requires vertex { u < vertex_count standing.now.game.now }
    requires sifted { IsSiftedOn standing.now kept.old dropped.old.items }
    ensures sifted { OnOk result (Sifts standing.now kept.old kept.new dropped.new.items) }
    ensures cleared { OnOk result (IsClearedOn standing.now kept.new u) }
    ensures longer { OnOk result (length dropped.old.items ≤ length dropped.new.items) }
    ensures before { OnOk result ((k : ℕ) → k < length dropped.old.items
        → slice_index dropped.new.items k ≡ slice_index dropped.old.items k) }
    ensures spent { OnOk result (region_count kept.new + length dropped.new.items
        ≤ region_count kept.old + length dropped.old.items) }
{
    for &v in standing.game.predecessors(u) {
        if standing.region[v as usize] && kept[v as usize] && stands_on(standing, v, u) {
            kept[v as usize] = false;
            dropped.push(v)?;
        }
    }
    Ok(())
}

/// Drops what stands on what is dropped.
fn drop_dependents(
    standing: &Standing<'_>,
    kept: &mut [bool],
    dropped: &mut Vec<u32>,
) -> Result<(), AllocError>
    requires sifted { IsSiftedOn standing.now kept.old dropped.old.items }
    ensures sifted { OnOk result (Sifts standing.now kept.old kept.new dropped.new.items) }
    ensures cleared { OnOk result ((u : ℕ) → Contains dropped.new.items u
        → IsClearedOn standing.now kept.new u) }
{
    let mut k = 0;
    while k < dropped.len() {
        let u = dropped[k];
        drop_predecessors(standing, kept, dropped, u)?;
        k += 1;
    }
    Ok(())
}

/// Lists what is kept, and the vertices of the greatest priority.
fn list_target(
    standing: &Standing<'_>,
    kept: &[bool],
    target: &mut Vec<u32>,
) -> Result<(), AllocError>
    requires { length kept.now ≡ vertex_count standing.now.game.now }
    ensures { OnOk result
        (IsSelection (λ v. IsTargetOn standing.now kept.now v) target.new.items
        standing.now.list.now) }
{
    target.clear();
    for &v in standing.list {
        if kept[v as usize] || standing.game.priority(v) == standing.top {
            target.push(v)?;
        }
    }
    Ok(())
}

/// The greatest count of what is kept, at the priority below the greatest.
fn height_of(standing: &Standing<'_>, kept: &[bool]) -> u64
    requires size { length kept.now ≡ vertex_count standing.now.game.now }
    requires small { (v : ℕ) → Contains standing.now.list.now v → IsIn kept.now v
        → IsHeightOn standing.now v MAX_HEIGHT }
    ensures greatest { (v : ℕ) → Contains standing.now.list.now v → IsIn kept.now v
        → IsHeightOn standing.now v result }
    ensures small { result ≤ MAX_HEIGHT }
{
    let mut height = 0;
    for &v in standing.list {
        if kept[v as usize] {
            height = height.max(count_below(standing, v).min(MAX_HEIGHT));
        }
    }
    height
}

/// Drops what no longer stands of the kept vertices of the region, which is listed. Lists what is
/// left of them with the vertices of the greatest priority, and returns the greatest count.
pub(crate) fn keep(
    standing: &Standing<'_>,
    kept: &mut [bool],
    target: &mut Vec<u32>,
) -> Result<u64, AllocError>
    requires listed { ListsRegion standing.now.region.now standing.now.list.now }
    requires size { length kept.old ≡ vertex_count standing.now.game.now }
    requires won { AreWonOn standing.now.game.now standing.now.region.now kept.old
        standing.now.solution.now standing.now.player standing.now.top }
    ensures closed { IfOk result
        (λ height. IsClosedOn standing.now kept.old kept.new height) }
    ensures target { OnOk result
        (IsSelection (λ v. IsTargetOn standing.now kept.new v) target.new.items
        standing.now.list.now) }
{
    drop_fallen(standing, kept, target)?;
    drop_dependents(standing, kept, target)?;
    list_target(standing, kept, target)?;
    Ok(height_of(standing, kept))
}
