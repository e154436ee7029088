//! A model over the variables of its groups.

ghost use Rattle.std.specs.Prelude.{◌≡◌, map, [], IfOk, OnOk, ◌++◌};
ghost use Rattle.pb_text_tree.specs.Form.{variables_form};
ghost use Rattle.pb_model_tree.specs.Form.{model_form};
ghost use Rattle.pb_text_meaning.specs.Erase.{erased_variables};
ghost use Rattle.pb_protocol_packer.specs.View.{terms_of, variables_in};
ghost use Rattle.pb_model_meaning.specs.Erase.{model_of};
ghost use Rattle.pb_model_meaning.specs.Steps.{assigned_term};
ghost use Rattle.pb_protocol_packing.specs.Packing as packing;
ghost use Rattle.pb_protocol_packer.specs.Groups.{groups_in};
ghost use Rattle.pb_protocol_packer.specs.Properties.{property_names, property_shapes, names_of_steps};
ghost use Rattle.pb_protocol_packer.specs.Given.{given_in};
ghost use Rattle.pb_protocol_packer.specs.Scopes.{table_of};
ghost use Rattle.pb_protocol_packer.specs.Steps.{assignments_said};
ghost use Rattle.pb_protocol_packer.specs.Initial.{assigned_names, names_by, variable_name};
ghost use Rattle.pb_protocol_packer.specs.InitialPlaces as places;

use crate::beginning::beginnings;
use crate::builder::Builder;
use crate::declared::{ranges, sorts, variables};
use crate::given::Given;
use crate::group::Group;
use crate::initial::initial_terms;
use crate::properties::{packed_properties, packed_steps};
use crate::said::said;
use crate::scope::{Hiding, Packing};
use crate::table::known_variables;
use pb_model_tree::{InitialState, Model};
use pb_text_tree::{Argument, Name, Variables};
use std::alloc::{AllocError, Global};

fn push_names<'a>(names: &mut Vec<&'a Name>, group: &'a Variables) -> Result<(), AllocError>
    ensures { OnOk result (names_by names.new.items ≡ names_by names.old.items
        ++ map variable_name (erased_variables (variables_form group.now))) }
{
    for name in &group.names {
        names.push(name)?;
    }
    Ok(())
}

/// The names of variables, in order.
fn variable_names(alloc: Global, groups: &[Variables]) -> Result<Vec<&Name>, AllocError>
    ensures { IfOk result
        (λ v. names_by v.items ≡ map variable_name (variables_in groups.now)) }
{
    let mut names = Vec::new(alloc);
    for group in groups {
        push_names(&mut names, group)?;
    }
    Ok(names)
}

/// What the variables of these names begin with.
fn initial_given<'a>(
    packing: &Packing<'_>,
    names: &[&'a Name],
    values: &[Argument],
) -> Result<Vec<Given<'a>>, AllocError>
    ensures { IfOk result (λ v. given_in v.items ≡ assignments_said
        (table_of packing.now.table.now) (assigned_names (names_by names.now)
        (terms_of values.now))) }
{
    let mut given = Vec::new(packing.alloc);
    for index in 0..names.len() {
        let Some(value) = values.get(index) else {
            return Ok(given);
        };
        let term = said(packing, &Hiding::Outermost, &value.term)?;
        given.push(Given {
            name: names[index],
            term,
        })?;
    }
    Ok(given)
}

/// The initial state over the variables of groups.
fn packed_initial(
    alloc: Global,
    model: &Model,
    groups: &[Group],
) -> Result<InitialState, AllocError>
    ensures terms { IfOk result (λ i. terms_of i.values.items ≡ packing.initial_terms
        (assigned_term (assignments_said [] (assigned_names
        (map variable_name (variables_in model.now.state.items))
        (terms_of model.now.initial.values.items)))) (groups_in groups.now)) }
    ensures places { IfOk result (λ i. map places.argument_place i.values.items
        ≡ places.initial_places (groups_in groups.now) (model_form model.now)) }
{
    let none = Packing { alloc, table: &[] };
    let names = variable_names(alloc, &model.state)?;
    let given = initial_given(&none, &names, &model.initial.values)?;
    let place = model.initial.place;
    let builder = Builder { alloc, place };
    let beginnings = beginnings(alloc, &names, &model.initial.values)?;
    let values = initial_terms(builder, &given, &beginnings, groups)?;
    Ok(InitialState { place, values })
}

/// The model over the variables of its groups. The names of steps and properties, and formulas but
/// for their data, stay as they are, places included. The initial value of a group stands at that
/// of its first variable whose value is written outside its range, so that T11 is told there.
///
/// # Errors
/// Memory was refused.
pub fn packed_by(alloc: Global, model: &Model, groups: &[Group]) -> Result<Model, AllocError>
    ensures meaning { IfOk result
        (λ m. model_of m ≡ packing.packed_by (groups_in groups.now) (model_of model.now)) }
    ensures steps { IfOk result
        (λ m. names_of_steps m.steps.items ≡ names_of_steps model.now.steps.items) }
    ensures initial { IfOk result
        (λ m. places.value_places (model_form m).initial.values
        ≡ places.initial_places (groups_in groups.now) (model_form model.now)) }
    ensures names { IfOk result
        (λ m. property_names m.properties.items ≡ property_names model.now.properties.items) }
    ensures shapes { IfOk result
        (λ m. property_shapes m.properties.items ≡ property_shapes model.now.properties.items) }
{
    let table = known_variables(alloc, groups)?;
    let packing = Packing {
        alloc,
        table: &table,
    };
    let steps = packed_steps(&packing, groups, &model.steps)?;
    let properties = packed_properties(&packing, &model.properties)?;
    let initial = packed_initial(alloc, model, groups)?;
    let sorts = sorts(alloc, groups, &model.sorts)?;
    let ranges = ranges(alloc, groups, &model.ranges)?;
    let state = variables(alloc, groups)?;
    Ok(Model {
        sorts,
        ranges,
        state,
        steps,
        initial,
        properties,
    })
}
