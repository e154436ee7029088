//! Reads definitions: names for terms, between the state and the steps.

ghost use Rattle.std.specs.Prelude.{◌≡◌, map};
ghost use Rattle.pb_text_lexer.specs.Steps as spec;
ghost use Rattle.pb_text_lexer.specs.Steps.{Gives};
ghost use Rattle.pb_text_terms.specs.Readers.{ReadsSome};
ghost use Rattle.pb_text.specs.Parsing.{depth_limit};
ghost use Rattle.pb_protocol_tree.specs.Form.{definition_form};
ghost use Rattle.pb_model_text.specs.ModelReading as reading;

use pb_base::{MAX_DEPTH, both};
use pb_protocol_tree::Definition;
use pb_text::system::parameters;
use pb_text_lexer::fault::{ReadingError, ReadingRule};
use pb_text_lexer::input::Input;
use pb_text_lexer::kind::{Kind, same_kind};
use pb_text_terms::term::term;
use pb_text_terms::variable::name;
use std::alloc::Global;

/// A name with its parameters, `=`, a term and `;`.
#[tactic(auto, unfolding(crate::specs::ModelReading::definition_parts))]
fn definition_parts(input: &mut Input<'_>, alloc: Global) -> Result<Definition, ReadingError>
    ensures { ReadsSome definition_form (reading.definition_parts depth_limit)
        input.old result input.new }
{
    let name = name(input, alloc)?;
    let parameters = parameters(input, alloc)?;
    input.expect(Kind::Is)?;
    let term = term(input, alloc, MAX_DEPTH as u32)?;
    let (term, _) = both(term, input.expect(Kind::Semicolon))?;
    Ok(Definition {
        name,
        parameters,
        term,
    })
}

/// A definition, with all the operators that one may have.
#[tactic(auto, unfolding(crate::specs::ModelReading::definition))]
fn definition(input: &mut Input<'_>, alloc: Global) -> Result<Definition, ReadingError>
    ensures { ReadsSome definition_form (reading.definition depth_limit)
        input.old result input.new }
{
    let allowed = input.operators();
    let definition = definition_parts(input, alloc)?;
    input.allow(allowed);
    Ok(definition)
}

/// One definition or more.
fn definition_list(input: &mut Input<'_>, alloc: Global) -> Result<Vec<Definition>, ReadingError>
    ensures { Gives (λ v. map definition_form v.items)
        (reading.definition_list depth_limit input.old) result input.new }
{
    let mut definitions = Vec::new(alloc);
    'definitions: loop {
        let definition = definition(input, alloc)?;
        definitions.push(definition)?;
        if !same_kind(input.kind(), Kind::Name) {
            return Ok(definitions);
        }
    }
}

/// `define`, definitions and `step`.
#[inline(never)]
#[tactic(auto, unfolding(crate::specs::ModelReading::defined_by))]
fn some_defined(input: &mut Input<'_>, alloc: Global) -> Result<Vec<Definition>, ReadingError>
    requires { spec.kind input.old ≡ Kind.Define }
    ensures { Gives (λ v. map definition_form v.items)
        (reading.defined_by depth_limit Kind.Define input.old) result input.new }
{
    input.take();
    let definitions = definition_list(input, alloc)?;
    input.expect(Kind::Step)?;
    Ok(definitions)
}

/// `define` with definitions, if there are any, and `step`.
#[tactic(auto, unfolding(crate::specs::ModelReading::definitions, crate::specs::ModelReading::defined_by))]
pub fn definitions(input: &mut Input<'_>, alloc: Global) -> Result<Vec<Definition>, ReadingError>
    ensures { Gives (λ v. map definition_form v.items)
        (reading.definitions depth_limit input.old) result input.new }
{
    match input.kind() {
        Kind::Step => {
            input.take();
            Ok(Vec::new(alloc))
        }
        Kind::Define => some_defined(input, alloc),
        _ => Err(ReadingError::Refused(input.refuse(ReadingRule::Unexpected))),
    }
}
