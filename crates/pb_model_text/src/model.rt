//! Reads the initial state, properties and whole models, with their constants and sorts.

ghost use Rattle.std.specs.Prelude.{◌≡◌, ◌++◌, map, flat_map, [], IfOk};
ghost use Rattle.pb_text_lexer.specs.Steps.{Gives};
ghost use Rattle.pb_text_terms.specs.Readers.{ReadsSome};
ghost use Rattle.pb_text.specs.Parsing.{depth_limit};
ghost use Rattle.pb_model_tree.specs.Form.{initial_form};
ghost use Rattle.pb_protocol_tree.specs.Form.{bounds_form, model_text_form, property_form};
ghost use Rattle.pb_text_tree.specs.Form.{sort_declaration_form};
ghost use Rattle.pb_model_text.specs.Links.{bounds_said, declared_sort_form};
ghost use Rattle.pb_model_text.specs.Models.{bounds_in, declaration_in, listed_bounds};
ghost use Rattle.pb_model_text.specs.ModelReading as reading;

use crate::constant::constants;
use crate::definition::definitions;
use crate::formula::formula;
use crate::scope::Scope;
use crate::sort::{DeclaredSort, sorts};
use crate::state::state_variables;
use crate::step::steps;
use pb_base::{MAX_DEPTH, both};
use pb_model_tree::InitialState;
use pb_protocol_tree::{Bounds, ModelText, Property, Protocol};
use pb_text_lexer::fault::{ReadingError, ReadingRule};
use pb_text_lexer::input::Input;
use pb_text_lexer::kind::{Kind, same_kind};
use pb_text_terms::term::argument_list;
use pb_text_terms::variable::name;
use pb_text_tree::SortDeclaration;
use std::alloc::{AllocError, Global};

/// `init`, the values of the state variables and `;`.
#[tactic(auto, unfolding(crate::specs::ModelReading::initial_parts))]
fn initial_parts(input: &mut Input<'_>, alloc: Global) -> Result<InitialState, ReadingError>
    ensures { Gives initial_form (reading.initial_parts depth_limit input.old) result input.new }
{
    let place = input.expect(Kind::Init)?.place;
    let values = argument_list(input, alloc, MAX_DEPTH as u32)?;
    input.expect(Kind::Semicolon)?;
    Ok(InitialState { place, values })
}

/// The initial state, with all the operators that it may have.
#[tactic(auto, unfolding(crate::specs::ModelReading::initial))]
fn initial(input: &mut Input<'_>, alloc: Global) -> Result<InitialState, ReadingError>
    ensures { Gives initial_form (reading.initial depth_limit input.old) result input.new }
{
    let allowed = input.operators();
    let initial = initial_parts(input, alloc)?;
    input.allow(allowed);
    Ok(initial)
}

/// `property`, a name, `=`, a formula and `;`.
#[tactic(auto, unfolding(crate::specs::ModelReading::property_parts))]
fn property_parts(input: &mut Input<'_>, alloc: Global) -> Result<Property, ReadingError>
    ensures { ReadsSome property_form (reading.property_parts depth_limit)
        input.old result input.new }
{
    input.expect(Kind::Property)?;
    let name = name(input, alloc)?;
    input.expect(Kind::Is)?;
    let scope = Scope {
        names: &[],
        depth: MAX_DEPTH as u32,
    };
    let formula = formula(input, alloc, scope)?;
    let (formula, _) = both(formula, input.expect(Kind::Semicolon))?;
    Ok(Property { name, formula })
}

/// A property, with all the operators that one may have.
#[tactic(auto, unfolding(crate::specs::ModelReading::property))]
fn property(input: &mut Input<'_>, alloc: Global) -> Result<Property, ReadingError>
    ensures { ReadsSome property_form (reading.property depth_limit) input.old result input.new }
{
    let allowed = input.operators();
    let property = property_parts(input, alloc)?;
    input.allow(allowed);
    Ok(property)
}

/// One property or more.
fn properties(input: &mut Input<'_>, alloc: Global) -> Result<Vec<Property>, ReadingError>
    ensures { Gives (λ v. map property_form v.items)
        (reading.properties depth_limit input.old) result input.new }
{
    let mut properties = Vec::new(alloc);
    'properties: loop {
        let property = property(input, alloc)?;
        properties.push(property)?;
        if !same_kind(input.kind(), Kind::Property) {
            return Ok(properties);
        }
    }
}

/// Sorts and the bounds of those that have some, each in order.
#[derive(Drop)]
struct SortsApart {
    declarations: Vec<SortDeclaration>,
    bounds: Vec<Bounds>,
}

/// The bounds of a sort behind others, if it has some.
fn push_bounds(bounds: &mut Vec<Bounds>, found: Option<Bounds>) -> Result<(), AllocError>
    ensures { IfOk result (λ u. map bounds_form bounds.new.items
        ≡ map bounds_form bounds.old.items ++ listed_bounds (bounds_said found)) }
{
    if let Some(found) = found {
        bounds.push(found)?;
    }
    Ok(())
}

/// Declared sorts, apart from their bounds.
fn apart(alloc: Global, sorts: Vec<DeclaredSort>) -> Result<SortsApart, AllocError>
    ensures declarations { IfOk result (λ s. map sort_declaration_form s.declarations.items
        ≡ map declaration_in (map declared_sort_form sorts.items)) }
    ensures bounds { IfOk result (λ s. map bounds_form s.bounds.items
        ≡ flat_map bounds_in (map declared_sort_form sorts.items)) }
{
    let mut declarations = Vec::new(alloc);
    let mut bounds = Vec::new(alloc);
    'sorts: for sort in sorts {
        let DeclaredSort {
            declaration,
            bounds: found,
        } = sort;
        declarations.push(declaration)?;
        push_bounds(&mut bounds, found)?;
    }
    Ok(SortsApart {
        declarations,
        bounds,
    })
}

/// Constants, sorts, `model`, the state, definitions, steps, the initial state and properties,
/// without ranges.
#[tactic(auto, unfolding(crate::specs::ModelReading::model))]
fn model(input: &mut Input<'_>, alloc: Global) -> Result<ModelText, ReadingError>
    ensures { Gives model_text_form (reading.model [] depth_limit input.old) result input.new }
{
    let constants = constants(input, alloc)?;
    let sorts = sorts(input, alloc)?;
    let sorts = apart(alloc, sorts)?;
    input.expect(Kind::Model)?;
    input.expect(Kind::State)?;
    let state = state_variables(input, alloc)?;
    input.expect(Kind::Semicolon)?;
    let definitions = definitions(input, alloc)?;
    let steps = steps(input, alloc)?;
    let initial = initial(input, alloc)?;
    let properties = properties(input, alloc)?;
    Ok(ModelText {
        constants,
        bounds: sorts.bounds,
        protocol: Protocol {
            sorts: sorts.declarations,
            ranges: Vec::new(alloc),
            state,
            definitions,
            steps,
            initial,
            properties,
        },
    })
}

/// The model that all tokens are, without ranges.
#[tactic(auto, unfolding(crate::specs::ModelReading::whole_model))]
pub fn whole(input: &mut Input<'_>, alloc: Global) -> Result<ModelText, ReadingError>
    ensures { Gives model_text_form (reading.whole_model [] depth_limit input.old)
        result input.new }
{
    let model = model(input, alloc)?;
    if same_kind(input.kind(), Kind::End) {
        Ok(model)
    } else {
        drop(model);
        Err(ReadingError::Refused(input.refuse(ReadingRule::Unexpected)))
    }
}
