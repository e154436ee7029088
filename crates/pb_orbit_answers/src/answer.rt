//! A module's answer by representatives.
ghost use Rattle.std.specs.Prelude.{◌≡◌, IfOk};
ghost use Rattle.pb_base.specs.OrMemory.{OnRefused};
ghost use Rattle.pb_sorts.specs.Layout.{count_of};
ghost use Rattle.pb_bytecode.specs.Meaning.{parameters};
ghost use Rattle.pb_orbit_answers.specs.Answers.{HasManyOrbits, IsAnswerBySymmetry};

use crate::rows::solve_rows;
use pb_exploration_orbits::{
    Explored, Representatives, explore_represented, represented_answers_agree,
};
use pb_exploration_words::Gate;
use pb_game_of_trees::{BuildError, Crew, TooManyVertices, vertex_limit};
use pb_machine::instances_have_trees;
use pb_sorts::Counting;
use pb_verifier::Verified;
use std::thread::Threads;

/// The truth of a module's initial instance, where symmetries carry each instance to those that may
/// be called for it: that of a representative in the solution of the representatives' trees. `S` is
/// what the symmetries are given by. The gate sees each instance that is taken.
///
/// # Errors
/// `TooManyVertices` where the representatives' game would have more vertices than `vertex_limit`
/// has, by which instances count, which may be known as soon as so many are reached; else `Memory`.
pub fn answer_represented<S, R: Threads + Sync, P: Representatives, G: Gate>(
    crew: &Crew<'_, R>,
    verified: &Verified,
    representatives: &P,
    counting: Counting,
    gate: &G,
) -> Result<bool, BuildError>
    requires { P.count representatives.now ≡ count_of (parameters verified.now) }
    ensures truth { IfOk result
        (IsAnswerBySymmetry S verified.now (P.may_replace representatives.now)) }
    ensures too_many { OnRefused result
        (HasManyOrbits counting verified.now (P.may_replace representatives.now)) }
{
    instances_have_trees(verified);
    represented_answers_agree::<S>();
    let most = vertex_limit(counting);
    let found = explore_represented(crew.alloc, verified, representatives, most, gate)?;
    let Some(explored) = found else {
        return Err(BuildError::Refused(TooManyVertices));
    };
    let Explored { start, rows } = explored;
    solve_rows(crew, verified, rows, start, counting)
}
