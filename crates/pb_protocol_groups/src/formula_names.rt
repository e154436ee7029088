//! The names in formulas: those in data, and those of fixpoints.

ghost use Rattle.std.specs.Prelude.{◌≡◌, ◌++◌, flat_map, OnOk};
ghost use Rattle.pb_protocol_packing.specs.Groups as packing;
ghost use Rattle.pb_protocol_packer.specs.Initial.{names_by};
ghost use Rattle.pb_protocol_packer.specs.Formulas.{formula_of, operands_of};

use crate::term_names::push_term;
use pb_model_tree::{Formula, Link};
use pb_text_tree::Name;
use std::alloc::AllocError;

/// Adds the names in a formula's data and those of its fixpoints.
#[cycle(formulas)]
pub(crate) fn push_formula<'a>(
    names: &mut Vec<&'a Name>,
    formula: &'a Formula,
) -> Result<(), AllocError>
    ensures { OnOk result (names_by names.new.items
        ≡ names_by names.old.items ++ packing.formula_names (formula_of formula.now)) }
{
    match formula {
        Formula::Constant { .. } | Formula::Variable(_) => Ok(()),
        Formula::Data { term, .. } => push_term(names, term),
        Formula::Negation { operand, .. } => push_formula(names, operand),
        Formula::Chain { first, links, .. } => {
            push_formula(names, first)?;
            push_operands(names, links)
        }
        Formula::Modal { operand, .. } => push_formula(names, operand),
        Formula::Fixpoint { variable, body, .. } => {
            names.push(variable)?;
            push_formula(names, body)
        }
    }
}

#[cycle(formulas)]
fn push_operands<'a>(names: &mut Vec<&'a Name>, links: &'a [Link]) -> Result<(), AllocError>
    ensures { OnOk result (names_by names.new.items
        ≡ names_by names.old.items ++ flat_map packing.formula_names (operands_of links.now)) }
{
    for link in links {
        push_formula(names, &link.operand)?;
    }
    Ok(())
}
