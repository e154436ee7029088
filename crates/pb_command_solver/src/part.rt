//! Parts of a module's instances, those nearest to the initial one, whose game tells whether this
//! is true. Evidence names few instances, and holds whatever trees the others have; so parts are
//! tried first, each larger than the one before, and everything is explored only where none of
//! them is enough.
ghost use Rattle.std.specs.Prelude.{IfOk, IfSome};
ghost use Rattle.pb_bytecode.specs.Contents.{Contents};
ghost use Rattle.pb_report.specs.ModuleEvidence.{IsExplanation};
ghost use Rattle.pb_exploration_reached.specs.Nearby.{IsNearby};
ghost use Rattle.pb_game_of_trees.specs.TreeGame.{KeepsVertexLimit};
ghost use Rattle.pb_command_solver.specs.Parts.{IsOfRounds, IsPart, IsSolvedPart};

use crate::built_module::{crew_of, solve_game};
use crate::context::Context;
use crate::options::SolveOptions;
use crate::progress::Progress;
use pb_evidence_nearby::{Nearby, rows_around};
use pb_fixpoint::Sign;
use pb_fixpoint_trees::IndexedRows;
use pb_game_of_trees::{BuildError, Solved, build_rows};
use pb_machine::instances_have_trees;
use pb_report::{Explanation, evidence_of_rows};
use pb_sorts::Counting;
use pb_verifier::Verified;
use std::alloc::{AllocError, Global};
use std::thread::Threads;

/// A round ends when about so many instances are found in all. What the rounds cost is lost where
/// none of them is enough: one thread explores 2^16 instances, and solves games of twice 2^10,
/// twice 2^12, twice 2^14 and once 2^16. That is less than a run over 2^17 takes, and a tenth of
/// one over a million. Rounds up to 2^18 would show deeper faults, and cost those runs a third.
const ROUNDS: [usize; 4] = [1 << 10, 1 << 12, 1 << 14, LAST_ROUND];

/// In the last round one game is tried, of the value that a part of the instances more often shows
/// (`shows_truth`), since a second one would cost as much as all before.
const LAST_ROUND: usize = 1 << 16;

/// Rows of a part of the instances, from whose game a truth value may be shown.
#[derive(Drop)]
pub(crate) struct Part {
    pub rows: IndexedRows,
    pub truth: bool,
    /// Whether these are all reached instances, so that either value is shown.
    pub is_whole: bool,
}

/// A part of the instances with its solved game, from which the initial one has the part's truth
/// value whichever trees the others have, or where there are no others.
#[derive(Drop)]
pub(crate) struct SolvedPart {
    pub part: Part,
    pub solved: Solved,
}

/// What the rounds come to.
#[derive(Drop)]
pub(crate) enum Rounds {
    /// A part is enough.
    Enough(SolvedPart),
    /// None is, up to these instances.
    TooFew(Nearby),
}

/// The instances nearby, from which this truth value may be shown.
fn part_of(alloc: Global, nearby: &Nearby, truth: bool) -> Result<Part, AllocError>
    requires { (m : Contents) × IsNearby m nearby.now }
    ensures { IfOk result (λ part. (m : Contents) → IsNearby m nearby.now → IsPart m part) }
{
    let rows = rows_around(alloc, nearby, truth)?;
    let is_whole = nearby.is_whole();
    Ok(Part {
        rows,
        truth,
        is_whole,
    })
}

/// The part with its solved game, where that is enough.
fn solve_part<R: Threads + Sync, G: Progress + Sync>(
    context: &Context<'_, R, G>,
    verified: &Verified,
    counting: Counting,
    options: SolveOptions,
    part: Part,
) -> Result<Option<SolvedPart>, AllocError>
    requires { IsPart verified.now part }
    ensures enough { IfOk result (λ found. IfSome found (IsSolvedPart verified.now)) }
    ensures few { IfOk result
        (λ found. IfSome found (λ s. KeepsVertexLimit counting s.solved.built)) }
{
    instances_have_trees(verified);
    let crew = crew_of(context, options.workers);
    let built = match build_rows(&crew, verified, &part.rows, counting) {
        Ok(built) => built,
        Err(BuildError::Refused(_)) => return Ok(None),
        Err(BuildError::Memory) => return Err(AllocError),
    };
    let solved = solve_game(context, built, options)?;
    if solved.truth() != part.truth && !part.is_whole {
        return Ok(None);
    }
    Ok(Some(SolvedPart { part, solved }))
}

/// Whether a part of the instances more often shows that the initial one is true. A least fixpoint
/// is true by one run to what is sought, and false by all runs; a greatest one is false by one run
/// to what fails, and true by all.
fn shows_truth(verified: &Verified) -> bool {
    let layout = verified.layout();
    let instance = layout.instance(verified.initial());
    let equation = &verified.module().equations[instance.equation as usize];
    equation.sign == Sign::Mu
}

/// The first part that is enough, or else what was explored. The instances nearest to the initial
/// one are explored breadth first on the calling thread, so that what is found is the same whatever
/// the workers do. A round whose last instance calls too many is left out.
pub(crate) fn first_part<R: Threads + Sync, G: Progress + Sync>(
    context: &Context<'_, R, G>,
    verified: &Verified,
    counting: Counting,
    options: SolveOptions,
) -> Result<Rounds, AllocError>
    ensures { IfOk result (IsOfRounds counting verified.now) }
{
    let shows_truth = shows_truth(verified);
    let mut nearby = Nearby::new(context.alloc, verified)?;
    for &most in &ROUNDS {
        nearby.grow(verified, most)?;
        if nearby.len() / 2 > most {
            continue;
        }
        for truth in [false, true] {
            if most == LAST_ROUND && truth != shows_truth {
                continue;
            }
            let part = part_of(context.alloc, &nearby, truth)?;
            if let Some(found) = solve_part(context, verified, counting, options, part)? {
                return Ok(Rounds::Enough(found));
            }
        }
    }
    Ok(Rounds::TooFew(nearby))
}

impl SolvedPart {
    /// Why the initial instance has its truth value.
    pub(crate) fn explanation(
        &self,
        alloc: Global,
        verified: &Verified,
    ) -> Result<Explanation, AllocError>
        requires { IsSolvedPart verified.now self.now }
        ensures { IfOk result (IsExplanation verified.now) }
    {
        pb_evidence::assumed_is_shown();
        evidence_of_rows(alloc, &self.solved, &self.part.rows)
    }
}
