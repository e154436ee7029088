//! Reads the step of a name in a set of steps, for all values of its own variables or for some.

ghost use Rattle.std.specs.Prelude.{◌≡◌, IfOk, map};
ghost use Rattle.pb_text_terms.specs.Readers.{ReadsSome};
ghost use Rattle.pb_text_tree.specs.Form.{argument_forms, instance_form, term_form};
ghost use Rattle.pb_protocol_tree.specs.Form.{step_set_form, step_value_form};
ghost use Rattle.pb_model_text.specs.Grammar as grammar;
ghost use Rattle.pb_model_text.specs.Reading as reading;

use pb_protocol_tree::{StepSet, StepValue};
use pb_text_lexer::fault::ReadingError;
use pb_text_lexer::input::Input;
use pb_text_terms::term::instance;
use pb_text_tree::{Argument, Instance, Term};
use std::alloc::{AllocError, Global};

/// Whether a term is `_`, for which any value may stand.
fn is_any(term: &Term) -> bool
    ensures { result ≡ grammar.is_any (term_form term.now) }
{
    match term {
        Term::Name(name) => name.text.as_bytes() == b"_".as_slice(),
        // A chain of no links is its first operand.
        Term::Chain { first, links, .. } => links.is_empty() && is_any(first),
        Term::Arithmetic { first, links } => links.is_empty() && is_any(first),
        _ => false,
    }
}

/// What stands for one of a step's own variables.
fn step_value(argument: Argument) -> StepValue
    ensures { step_value_form result
        ≡ grammar.given_value argument.place (term_form argument.term) }
{
    if is_any(&argument.term) {
        let place = argument.place;
        drop(argument);
        StepValue::Any { place }
    } else {
        StepValue::Value(argument)
    }
}

/// What stands for a step's own variables.
fn step_values(alloc: Global, arguments: Vec<Argument>) -> Result<Vec<StepValue>, AllocError>
    ensures { IfOk result (λ v. map step_value_form v.items
        ≡ grammar.values_of (argument_forms arguments.items)) }
{
    let mut values = Vec::with_capacity(alloc, arguments.len())?;
    'arguments: for argument in arguments {
        values.push(step_value(argument))?;
    }
    Ok(values)
}

/// The set of a name with what stands in brackets behind it, if anything does.
fn set_of(alloc: Global, instance: Instance) -> Result<StepSet, AllocError>
    ensures { IfOk result (λ a. step_set_form a ≡ grammar.set_of (instance_form instance)) }
{
    let Instance { name, arguments } = instance;
    if arguments.is_empty() {
        return Ok(StepSet::Step(name));
    }
    let values = step_values(alloc, arguments)?;
    Ok(StepSet::Instances { step: name, values })
}

/// The step of a name, for all values of its own variables or for those in brackets, in which so
/// many levels may open.
#[inline(never)]
#[tactic(auto, unfolding(crate::specs::Reading::instances))]
pub fn step_instances(
    input: &mut Input<'_>,
    alloc: Global,
    depth: u32,
) -> Result<StepSet, ReadingError>
    ensures { ReadsSome step_set_form (reading.instances depth) input.old result input.new }
{
    let instance = instance(input, alloc, depth)?;
    Ok(set_of(alloc, instance)?)
}
