//! The names of the steps that properties name by values.

ghost use Rattle.std.specs.Prelude.{◌≡◌, ◌++◌, map, IfOk, OnOk};
ghost use Rattle.pb_protocol_tree.specs.Form.{formula_form, property_form, step_set_form};
ghost use Rattle.pb_protocol_meaning.specs.Erase.{erased_formula, erased_property, erased_steps};
ghost use Rattle.pb_protocol_meaning.specs.Erase.{protocol_of};
ghost use Rattle.pb_protocol_unfolding.specs.Whole.{valued_by, valued_in, valued_in_set};
ghost use Rattle.pb_protocol_whole_steps.specs.View.{name_in, valued_in_links, valued_in_set_links};

use pb_protocol_tree::{Formula, Link, Property, Protocol, StepSet, StepSetLink};
use pb_text_tree::Name;
use std::alloc::{AllocError, Global};

#[cycle(valued_sets)]
fn push_set_links<'a>(names: &mut Vec<&'a Name>, links: &'a [StepSetLink]) -> Result<(), AllocError>
    ensures { OnOk result (map name_in names.new.items
        ≡ map name_in names.old.items ++ valued_in_set_links links.now) }
{
    for link in links {
        push_set(names, &link.operand)?;
    }
    Ok(())
}

/// Adds the names of the steps that a set names by values.
#[cycle(valued_sets)]
fn push_set<'a>(names: &mut Vec<&'a Name>, set: &'a StepSet) -> Result<(), AllocError>
    ensures { OnOk result (map name_in names.new.items
        ≡ map name_in names.old.items ++ valued_in_set (erased_steps (step_set_form set.now))) }
{
    match set {
        StepSet::All { .. } | StepSet::Step(_) => Ok(()),
        StepSet::Instances { step, .. } => {
            names.push(step)?;
            Ok(())
        }
        StepSet::Complement { operand, .. } => push_set(names, operand),
        StepSet::Union { first, links } => {
            push_set(names, first)?;
            push_set_links(names, links)
        }
    }
}

#[cycle(valued_formulas)]
fn push_links<'a>(names: &mut Vec<&'a Name>, links: &'a [Link]) -> Result<(), AllocError>
    ensures { OnOk result (map name_in names.new.items
        ≡ map name_in names.old.items ++ valued_in_links links.now) }
{
    for link in links {
        push_formula(names, &link.operand)?;
    }
    Ok(())
}

/// Adds the names of the steps that a formula names by values.
#[cycle(valued_formulas)]
fn push_formula<'a>(names: &mut Vec<&'a Name>, formula: &'a Formula) -> Result<(), AllocError>
    ensures { OnOk result (map name_in names.new.items
        ≡ map name_in names.old.items ++ valued_in (erased_formula (formula_form formula.now))) }
{
    match formula {
        Formula::Constant { .. } | Formula::Data { .. } | Formula::Variable(_) => Ok(()),
        Formula::Negation { operand, .. } => push_formula(names, operand),
        Formula::Chain { first, links, .. } => {
            push_formula(names, first)?;
            push_links(names, links)
        }
        Formula::Modal { steps, operand, .. } => {
            push_set(names, steps)?;
            push_formula(names, operand)
        }
        Formula::Fixpoint { body, .. } => push_formula(names, body),
        Formula::Quantified { body, .. } => push_formula(names, body),
    }
}

fn push_properties<'a>(
    names: &mut Vec<&'a Name>,
    properties: &'a [Property],
) -> Result<(), AllocError>
    ensures { OnOk result (map name_in names.new.items ≡ map name_in names.old.items
        ++ valued_by (map erased_property (map property_form properties.now))) }
{
    for property in properties {
        push_formula(names, &property.formula)?;
    }
    Ok(())
}

/// The names of the steps that the properties of a protocol name by values.
///
/// # Errors
/// Memory was refused.
pub fn valued_names(alloc: Global, protocol: &Protocol) -> Result<Vec<&Name>, AllocError>
    ensures { IfOk result
        (λ v. map name_in v.items ≡ valued_by (protocol_of protocol.now).properties) }
{
    let mut names = Vec::new(alloc);
    push_properties(&mut names, &protocol.properties)?;
    Ok(names)
}
