//! One worker alone.
ghost use Rattle.std.specs.Prelude.{◌≡◌, IfOk};
ghost use Rattle.pb_sorts.specs.Layout.{count_of};
ghost use Rattle.pb_bytecode.specs.Meaning.{parameters};
ghost use Rattle.pb_instances.specs.Explored.{IsClosedEnd};
ghost use Rattle.pb_instances.specs.Few.{HasFewInstances};
ghost use Rattle.pb_instances.specs.Seats.{words_of_statuses};

use crate::steps::close;
use pb_exploration::{Crew, Hints, Limit, NoGate, Site, Worker, work};
use pb_fixpoint_trees::Rows;
use pb_instances::{Statuses, Table};
use pb_verifier::Verified;
use std::alloc::{AllocError, Global};
use std::marker::{Brand, PhantomData};

/// What one worker does alone, the hints having a brand.
fn work_branded<B: Limit>(
    alloc: Global,
    verified: &Verified,
) -> Result<(Result<Rows, AllocError>, Statuses), AllocError>
    requires limit { B.limit ≡ count_of (parameters verified.now) }
    requires few { HasFewInstances verified.now }
    ensures { IfOk result (λ done. IsClosedEnd verified.now (words_of_statuses done.1)) }
{
    let (table, mut seats) = Table::start(alloc, verified, 1)?;
    let mut hints = Hints::<B>::start(alloc, verified.initial(), 1)?;
    let Some(seat) = seats.pop() else {
        return Err(AllocError);
    };
    let Some(hints) = hints.pop() else {
        return Err(AllocError);
    };
    let mut worker = Worker { seat, hints };
    let site = Site {
        verified,
        table: &table,
        crew: &Crew::of(1),
        marker: PhantomData,
    };
    let rows = work(alloc, &site, &mut worker, &NoGate);
    Ok((rows, close(verified, table, Vec::new(alloc))))
}

/// What one worker does alone: its rows, or that it was refused memory, and the statuses at its
/// end.
///
/// # Errors
/// Memory was refused before its work began.
pub fn work_alone(
    alloc: Global,
    verified: &Verified,
) -> Result<(Result<Rows, AllocError>, Statuses), AllocError>
    requires { HasFewInstances verified.now }
    ensures { IfOk result (λ done. IsClosedEnd verified.now (words_of_statuses done.1)) }
{
    work_branded::<Brand>(alloc, verified)
}
