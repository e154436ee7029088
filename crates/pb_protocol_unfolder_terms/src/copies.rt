//! Assignments, each for all values of the variables before it.
//!
//! They are written out once for all elements: what an element gets is then the last of a flat list
//! of copies that is to it.

ghost use Rattle.std.specs.Prelude.{◌≡◌, ◌≤◌, List, [], ◌∷◌, ◌++◌, length, map, flat_map};
ghost use Rattle.std.specs.Prelude.{IfOk, OnOk, MatchResult};
ghost use Rattle.pb_base.specs.OrMemory.{IfFault};
ghost use Rattle.pb_base.specs.declared.limits.TheConstants.{MAX_OPERATORS};
ghost use Rattle.pb_text_meaning.specs.Syntax.{Spec};
ghost use Rattle.pb_protocol_tree.specs.declared.step.Assignment as declared_assignment;
ghost use Rattle.pb_protocol_tree.specs.Form.{assignment_form, copies_said};
ghost use Rattle.pb_protocol_unfolder_terms.specs.AssignmentCopies.{AreCopiesOf, AreSpreadsOf};
ghost use Rattle.pb_protocol_unfolder_terms.specs.AssignmentCopies.{IsSpreadOf};
ghost use Rattle.pb_protocol_unfolder_terms.specs.AssignmentCopies.{copies_behind, copy_behind};
ghost use Rattle.pb_protocol_unfolder_terms.specs.AssignmentCopies.{groups_of, tuples_behind};
ghost use Rattle.pb_protocol_unfolder_terms.specs.TermFaults.{IsFaultAt, IsFaultInCopying};
ghost use Rattle.pb_protocol_unfolder_terms.specs.TermFaults.{copies_place};
ghost use Rattle.pb_protocol_unfolder_terms.specs.View.{spec_of};

use crate::fault::{UnfoldError, UnfoldRule};
use crate::level::refused;
use crate::sorts::{Sorts, Variable};
use crate::variables::variables_of;
use crate::written::{Written, written_tuples};
use pb_base::MAX_OPERATORS;
use pb_protocol_tree::Assignment;
use pb_text_tree::{Place, Variables};
use std::alloc::{AllocError, Global};

/// An assignment with the variables before it, and each tuple of their values. Without variables
/// there is one tuple.
#[derive(Drop)]
pub struct Spread<'a> {
    pub assignment: &'a Assignment,
    pub variables: Vec<Variable<'a>>,
    pub tuples: Vec<Vec<Written<'a>>>,
}

/// An assignment where its variables have these values.
#[derive(Clone, Copy)]
pub struct AssignmentCopy<'a> {
    pub assignment: &'a Assignment,
    pub variables: &'a [Variable<'a>],
    pub values: &'a [Written<'a>],
}

/// The variables before an assignment.
fn copied_groups(assignment: &Assignment) -> &[Variables]
    ensures { result.now ≡ groups_of assignment.now.copies }
{
    match &assignment.copies {
        Some(copies) => &copies.variables,
        None => &[],
    }
}

/// Where an assignment is written out: at `forall`, else at what is assigned.
fn place_of_copies(assignment: &Assignment) -> Place
    ensures { result ≡ copies_place (assignment_form assignment.now)
        (copies_said assignment.now.copies) }
{
    match &assignment.copies {
        Some(copies) => copies.place,
        None => assignment.variable.place,
    }
}

/// An assignment for all values of its variables.
fn spread_one<'a>(
    alloc: Global,
    sorts: Sorts<'a>,
    assignment: &'a Assignment,
) -> Result<Spread<'a>, UnfoldError>
    ensures { MatchResult result (IsSpreadOf (spec_of sorts.entry) assignment.now)
        (λ error. IfFault error (IsFaultAt (IsFaultInCopying (spec_of sorts.entry)
        (assignment_form assignment.now ∷ [])))) }
{
    let variables = variables_of(alloc, copied_groups(assignment))?;
    let place = place_of_copies(assignment);
    let tuples = written_tuples(alloc, sorts, &variables, place)?;
    Ok(Spread {
        assignment,
        variables,
        tuples,
    })
}

/// Assignments, each for all values of its variables.
///
/// # Errors
/// There are more than 8,192 (`UnfoldRule::Values`, at the `forall` that passes the limit, or where
/// none stands at what is assigned), or memory was refused.
pub fn spread_assignments<'a>(
    alloc: Global,
    sorts: Sorts<'a>,
    assignments: &'a [Assignment],
) -> Result<Vec<Spread<'a>>, UnfoldError>
    ensures { MatchResult result
        (λ v. AreSpreadsOf (spec_of sorts.entry) assignments.now v.items
        × (length (flat_map tuples_behind v.items) ≤ MAX_OPERATORS))
        (λ error. IfFault error (IsFaultAt (IsFaultInCopying (spec_of sorts.entry)
        (map assignment_form assignments.now)))) }
{
    let mut spreads = Vec::new(alloc);
    let mut count = 0;
    for assignment in assignments {
        let spread = spread_one(alloc, sorts, assignment)?;
        count += spread.tuples.len();
        if count > MAX_OPERATORS {
            drop(spread);
            return Err(refused(UnfoldRule::Values, place_of_copies(assignment)));
        }
        spreads.push(spread)?;
    }
    Ok(spreads)
}

/// Adds the copies of an assignment, in order.
fn push_copies<'s>(
    copies: &mut Vec<AssignmentCopy<'s>>,
    spread: &'s Spread<'_>,
) -> Result<(), AllocError>
    ensures { OnOk result (map copy_behind copies.new.items
        ≡ map copy_behind copies.old.items ++ copies_behind spread.now) }
{
    for values in &spread.tuples {
        copies.push(AssignmentCopy {
            assignment: spread.assignment,
            variables: &spread.variables,
            values,
        })?;
    }
    Ok(())
}

/// All copies of assignments, in order.
///
/// # Errors
/// Memory was refused.
pub fn all_copies<'s>(
    alloc: Global,
    spreads: &'s [Spread<'_>],
) -> Result<Vec<AssignmentCopy<'s>>, AllocError>
    ensures copies { IfOk result
        (λ v. map copy_behind v.items ≡ flat_map copies_behind spreads.now) }
    ensures all { (spec : Spec) (assignments : List declared_assignment.Assignment)
        → AreSpreadsOf spec assignments spreads.now
        → IfOk result (λ v. AreCopiesOf spec assignments v.items) }
{
    let mut copies = Vec::new(alloc);
    for spread in spreads {
        push_copies(&mut copies, spread)?;
    }
    Ok(copies)
}
