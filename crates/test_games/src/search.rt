//! The searches whose solutions the checker decides on: what each of them solves, and that a wrong
//! choice is refused.
use crate::games::{Builder, game_of};
use crate::generated::generated;
use pb_game::Player::{Even, Odd};
use pb_game::{CertificateRule, Flaw, Game, Player, Solution};
use pb_search::{Search, search};
use pb_strategy::check;
use std::alloc::Global;
use std::test::Fail;
use std::thread::Threads;

/// What became of a search.
#[derive(Clone, Copy, Debug, PartialEq, Eq)]
enum Outcome {
    Certified,
    Refused,
    OverBudget,
}

fn outcome_of(
    rt: &(impl Threads + Sync),
    alloc: Global,
    game: &Game,
    method: Search,
) -> Result<Outcome, Fail> {
    match search(rt, alloc, game, method)? {
        Some(solution) => match flaw_of(game, &solution) {
            None => Ok(Outcome::Certified),
            Some(_) => Ok(Outcome::Refused),
        },
        None => Ok(Outcome::OverBudget),
    }
}

fn flaw_of(game: &Game, solution: &Solution) -> Option<Flaw> {
    match check(game, solution) {
        Ok(_) => None,
        Err(flaw) => Some(flaw),
    }
}

/// Cycles in layers, each of which can be left for the next one: the recursion needs a turn a layer.
fn layers(alloc: Global, count: u32) -> Result<Game, Fail> {
    let mut builder = Builder::with_sinks(alloc)?;
    for layer in 0..count {
        let first = layer.saturating_mul(2);
        builder.push(Even, 2, &[first.saturating_add(3)])?;
        let stay = first.saturating_add(3);
        builder.push(Even, 1, &[first, stay])?;
    }
    builder.game(alloc)
}

/// A ladder with two vertices a rung, of neighbouring priorities: the recursion is exponential on
/// it, and the components of each level are single vertices soon.
fn ladder(alloc: Global, rungs: u32) -> Result<Game, Fail> {
    let mut builder = Builder::new(alloc)?;
    for rung in 0..rungs {
        let (player, priority) = (Player::of_priority(rung), rungs.saturating_sub(rung));
        let first = rung.saturating_mul(2);
        let beside = first.saturating_add(1);
        let down = first
            .saturating_add(2)
            .min(rungs.saturating_mul(2).saturating_sub(2));
        let up = first.saturating_sub(2);
        builder.push(
            player,
            priority.saturating_add(1),
            &[beside.min(down), beside.max(down)],
        )?;
        builder.push(player.opponent(), priority, &[up, beside])?;
    }
    builder.game(alloc)
}

/// Three vertices a level, on which the recursion by components is exponential as well.
fn three_a_level(alloc: Global, levels: u32) -> Result<Game, Fail> {
    let mut builder = Builder::new(alloc)?;
    for level in 0..levels {
        let player = Player::of_priority(level);
        let first = level.saturating_mul(3);
        let (second, third) = (first.saturating_add(1), first.saturating_add(2));
        let next = first.saturating_add(3);
        let before = first.saturating_sub(2);
        let priority = level.saturating_add(3);
        if level == 0 {
            builder.push(player, priority, &[third])?;
        } else {
            builder.push(player, priority, &[before, third])?;
        }
        if level.saturating_add(1) == levels {
            builder.push(player, 2 + level % 2, &[first])?;
        } else {
            builder.push(player, 2 + level % 2, &[first, next])?;
        }
        builder.push(player.opponent(), priority.saturating_add(2), &[second])?;
    }
    builder.game(alloc)
}

/// Vertices of which each leads to all of 64 cycles of one vertex, or to all but the first: they
/// are attracted in one round, which is large.
fn wide_round(alloc: Global, vertices: u32) -> Result<Game, Fail> {
    let mut builder = Builder::new(alloc)?;
    let mut all = Vec::new(alloc);
    let mut but_first = Vec::new(alloc);
    for v in 0..64 {
        builder.push(Odd, 1, &[v])?;
        all.push(v)?;
        if v != 0 {
            but_first.push(v)?;
        }
    }
    for v in 0..vertices {
        let successors = if v % 2 == 0 { &all } else { &but_first };
        builder.push(Even, 0, successors)?;
    }
    builder.game(alloc)
}

#[test]
fn generated_games_are_solved_by_each_search(rt: HostRuntime) -> Result<(), Fail> {
    for seed in 0..40 {
        let game = generated(rt.alloc(), seed)?;
        for (name, method) in [
            ("recursion", Search::Recursion),
            ("components", Search::Components),
            ("promotion", Search::Promotion),
        ] {
            let found = outcome_of(&rt, rt.alloc(), &game, method)?;
            assert!(rt; found == Outcome::Certified, "game {seed}, {name}");
        }
    }
    Ok(())
}

#[test]
fn the_recursion_keeps_its_fronts(rt: HostRuntime) -> Result<(), Fail> {
    let game = layers(rt.alloc(), 1_000)?;
    let found = outcome_of(&rt, rt.alloc(), &game, Search::Recursion)?;
    assert!(rt; found == Outcome::Certified);
    Ok(())
}

#[test]
fn threads_look_ahead_in_a_large_round(rt: HostRuntime) -> Result<(), Fail> {
    let game = wide_round(rt.alloc(), 4_400)?;
    for (name, method) in [
        ("recursion", Search::Recursion),
        ("components", Search::Components),
    ] {
        let found = outcome_of(&rt, rt.alloc(), &game, method)?;
        assert!(rt; found == Outcome::Certified, "{name}");
    }
    Ok(())
}

#[test]
fn ladders_go_to_components(rt: HostRuntime) -> Result<(), Fail> {
    let game = ladder(rt.alloc(), 32)?;
    let first = outcome_of(&rt, rt.alloc(), &game, Search::Recursion)?;
    assert!(rt; first == Outcome::OverBudget);
    let second = outcome_of(&rt, rt.alloc(), &game, Search::Components)?;
    assert!(rt; second == Outcome::Certified);
    Ok(())
}

#[test]
fn what_components_leave_goes_to_promotion(rt: HostRuntime) -> Result<(), Fail> {
    let game = three_a_level(rt.alloc(), 20)?;
    let second = outcome_of(&rt, rt.alloc(), &game, Search::Components)?;
    assert!(rt; second == Outcome::OverBudget);
    let third = outcome_of(&rt, rt.alloc(), &game, Search::Promotion)?;
    assert!(rt; third == Outcome::Certified);
    Ok(())
}

#[test]
fn a_wrong_choice_is_refused(rt: HostRuntime) -> Result<(), Fail> {
    let game = game_of(rt.alloc(), &[(Even, 0, &[0, 1]), (Odd, 1, &[2])])?;
    let found = search(&rt, rt.alloc(), &game, Search::Recursion)?;
    let mut solution = found.ok_or("over its budget")?;
    assert!(rt; flaw_of(&game, &solution) == None);
    assert!(rt; solution.choice.len() > 2);
    solution.choice[2] = 0;
    let flaw = Flaw {
        vertex: 2,
        rule: CertificateRule::LeavesRegion,
    };
    assert!(rt; flaw_of(&game, &solution) == Some(flaw));
    Ok(())
}
