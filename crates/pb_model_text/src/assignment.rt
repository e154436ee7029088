//! Reads assignments: of one element each, alone or for all values of variables before it.

ghost use Rattle.std.specs.Prelude.{◌≡◌, map};
ghost use Rattle.pb_text_lexer.specs.Steps as spec;
ghost use Rattle.pb_text_terms.specs.Readers.{ReadsSome};
ghost use Rattle.pb_text.specs.Parsing.{depth_limit};
ghost use Rattle.pb_protocol_tree.specs.Form.{assignment_form, copies_form};
ghost use Rattle.pb_model_text.specs.ModelReading as reading;

use pb_base::{MAX_DEPTH, both};
use pb_protocol_tree::{Assignment, Copies};
use pb_text_lexer::fault::{ReadingError, ReadingRule};
use pb_text_lexer::input::Input;
use pb_text_lexer::kind::{Kind, same_kind};
use pb_text_terms::term::{instance, term};
use pb_text_terms::variable::variables;
use pb_text_tree::Argument;
use std::alloc::Global;

/// A state variable, with its index where it is an array, `:=` and the term whose value it gets.
#[inline(never)]
#[tactic(auto, unfolding(crate::specs::ModelReading::assigned_alone))]
fn assigned_alone(input: &mut Input<'_>, alloc: Global) -> Result<Assignment, ReadingError>
    ensures { ReadsSome assignment_form (reading.assigned_alone depth_limit)
        input.old result input.new }
{
    let assigned = instance(input, alloc, MAX_DEPTH as u32)?;
    input.expect(Kind::Assign)?;
    let place = input.place();
    let term = term(input, alloc, MAX_DEPTH as u32)?;
    Ok(Assignment {
        copies: None,
        variable: assigned.name,
        index: assigned.arguments,
        value: Argument { place, term },
    })
}

/// `forall`, variables and a period.
#[inline(never)]
#[tactic(auto, unfolding(crate::specs::ModelReading::copies))]
fn copies(input: &mut Input<'_>, alloc: Global) -> Result<Copies, ReadingError>
    requires { spec.kind input.old ≡ Kind.Forall }
    ensures { ReadsSome copies_form reading.copies input.old result input.new }
{
    let place = input.take().place;
    let variables = variables(input, alloc)?;
    let (variables, _) = both(variables, input.expect(Kind::Period))?;
    Ok(Copies { place, variables })
}

/// `forall` with its variables, and the assignment that is made for all their values.
#[inline(never)]
#[tactic(auto, unfolding(crate::specs::ModelReading::assignment_by))]
fn assigned_for_all(input: &mut Input<'_>, alloc: Global) -> Result<Assignment, ReadingError>
    requires { spec.kind input.old ≡ Kind.Forall }
    ensures { ReadsSome assignment_form (reading.assignment_by depth_limit Kind.Forall)
        input.old result input.new }
{
    let copies = copies(input, alloc)?;
    let (copies, assigned) = both(copies, assigned_alone(input, alloc))?;
    Ok(Assignment {
        copies: Some(copies),
        ..assigned
    })
}

/// An assignment, alone or for all values of variables.
#[tactic(auto, unfolding(crate::specs::ModelReading::assignment, crate::specs::ModelReading::assignment_by))]
fn assignment(input: &mut Input<'_>, alloc: Global) -> Result<Assignment, ReadingError>
    ensures { ReadsSome assignment_form (reading.assignment depth_limit)
        input.old result input.new }
{
    match input.kind() {
        Kind::Name => assigned_alone(input, alloc),
        Kind::Forall => assigned_for_all(input, alloc),
        _ => Err(ReadingError::Refused(input.refuse(ReadingRule::Unexpected))),
    }
}

/// Assignments with commas between them.
fn assignments(input: &mut Input<'_>, alloc: Global) -> Result<Vec<Assignment>, ReadingError>
    ensures { ReadsSome (λ v. map assignment_form v.items) (reading.assignments depth_limit)
        input.old result input.new }
{
    let mut assignments = Vec::with_capacity(alloc, 1)?;
    'assignments: loop {
        let assignment = assignment(input, alloc)?;
        assignments.push(assignment)?;
        if !same_kind(input.kind(), Kind::Comma) {
            return Ok(assignments);
        }
        input.take();
    }
}

/// Assignments and `;`.
#[inline(never)]
#[tactic(auto, unfolding(crate::specs::ModelReading::some_assigned))]
pub fn some_assigned(input: &mut Input<'_>, alloc: Global) -> Result<Vec<Assignment>, ReadingError>
    ensures { ReadsSome (λ v. map assignment_form v.items)
        (reading.some_assigned depth_limit) input.old result input.new }
{
    let assignments = assignments(input, alloc)?;
    input.expect(Kind::Semicolon)?;
    Ok(assignments)
}
