//! Reads steps: their names, variables, guards and what they assign.

ghost use Rattle.std.specs.Prelude.{◌≡◌, map};
ghost use Rattle.pb_text_lexer.specs.Steps as spec;
ghost use Rattle.pb_text_lexer.specs.Steps.{Gives};
ghost use Rattle.pb_text_terms.specs.Readers.{ReadsSome};
ghost use Rattle.pb_text.specs.Parsing.{depth_limit};
ghost use Rattle.pb_protocol_tree.specs.Form.{assignment_form, step_form};
ghost use Rattle.pb_model_text.specs.ModelReading as reading;

use crate::assignment::some_assigned;
use pb_base::{MAX_DEPTH, both};
use pb_protocol_tree::{Assignment, Step};
use pb_text::system::parameters;
use pb_text_lexer::fault::{ReadingError, ReadingRule};
use pb_text_lexer::input::Input;
use pb_text_lexer::kind::{Kind, same_kind};
use pb_text_terms::term::term;
use pb_text_terms::variable::name;
use std::alloc::Global;

/// `skip` and `;`: no assignments.
#[inline(never)]
#[tactic(auto, unfolding(crate::specs::ModelReading::assigned_by))]
fn none_assigned(input: &mut Input<'_>, alloc: Global) -> Result<Vec<Assignment>, ReadingError>
    requires { spec.kind input.old ≡ Kind.Skip }
    ensures { ReadsSome (λ v. map assignment_form v.items)
        (reading.assigned_by depth_limit Kind.Skip) input.old result input.new }
{
    input.take();
    input.expect(Kind::Semicolon)?;
    Ok(Vec::new(alloc))
}

/// `skip`, or assignments, and `;`.
#[tactic(auto, unfolding(crate::specs::ModelReading::assigned, crate::specs::ModelReading::assigned_by))]
fn assigned(input: &mut Input<'_>, alloc: Global) -> Result<Vec<Assignment>, ReadingError>
    ensures { ReadsSome (λ v. map assignment_form v.items) (reading.assigned depth_limit)
        input.old result input.new }
{
    match input.kind() {
        Kind::Skip => none_assigned(input, alloc),
        Kind::Name | Kind::Forall => some_assigned(input, alloc),
        _ => Err(ReadingError::Refused(input.refuse(ReadingRule::Unexpected))),
    }
}

/// A name with its variables, `:`, a guard, `->`, what is assigned and `;`.
#[tactic(auto, unfolding(crate::specs::ModelReading::step_parts))]
fn step_parts(input: &mut Input<'_>, alloc: Global) -> Result<Step, ReadingError>
    ensures { ReadsSome step_form (reading.step_parts depth_limit) input.old result input.new }
{
    let name = name(input, alloc)?;
    let variables = parameters(input, alloc)?;
    input.expect(Kind::Colon)?;
    let guard = term(input, alloc, MAX_DEPTH as u32)?;
    let (guard, _) = both(guard, input.expect(Kind::Arrow))?;
    let (guard, assignments) = both(guard, assigned(input, alloc))?;
    Ok(Step {
        name,
        variables,
        guard,
        assignments,
    })
}

/// A step, with all the operators that one may have.
#[tactic(auto, unfolding(crate::specs::ModelReading::step))]
fn step(input: &mut Input<'_>, alloc: Global) -> Result<Step, ReadingError>
    ensures { ReadsSome step_form (reading.step depth_limit) input.old result input.new }
{
    let allowed = input.operators();
    let step = step_parts(input, alloc)?;
    input.allow(allowed);
    Ok(step)
}

/// One step or more.
pub fn steps(input: &mut Input<'_>, alloc: Global) -> Result<Vec<Step>, ReadingError>
    ensures { Gives (λ v. map step_form v.items)
        (reading.steps depth_limit input.old) result input.new }
{
    let mut steps = Vec::new(alloc);
    'steps: loop {
        let step = step(input, alloc)?;
        steps.push(step)?;
        if !same_kind(input.kind(), Kind::Name) {
            return Ok(steps);
        }
    }
}
