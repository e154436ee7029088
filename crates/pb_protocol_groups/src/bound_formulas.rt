//! The names of quantifiers' variables in the data of formulas.

ghost use Rattle.std.specs.Prelude.{◌≡◌, ◌++◌, OnOk};
ghost use Rattle.pb_model_tree.specs.Form.{formula_form};
ghost use Rattle.pb_protocol_typing.specs.View.{names_in};
ghost use Rattle.pb_protocol_groups.specs.Bound.{formula_bound_names};
ghost use Rattle.pb_protocol_groups.specs.BoundLinks.{operands_bound_names};

use crate::bound_terms::push_term;
use pb_model_tree::{Formula, Link};
use pb_text_tree::Name;
use std::alloc::AllocError;

/// Adds the names of the variables of a formula's quantifiers.
#[cycle(formulas)]
pub(crate) fn push_formula<'a>(
    names: &mut Vec<&'a Name>,
    formula: &'a Formula,
) -> Result<(), AllocError>
    ensures { OnOk result (names_in names.new.items
        ≡ names_in names.old.items ++ formula_bound_names (formula_form formula.now)) }
{
    match formula {
        Formula::Constant { .. } | Formula::Variable(_) => Ok(()),
        Formula::Data { term, .. } => push_term(names, term),
        Formula::Negation { operand, .. } => push_formula(names, operand),
        Formula::Chain { first, links, .. } => {
            push_formula(names, first)?;
            push_operands(names, links)
        }
        Formula::Modal { operand, .. } => push_formula(names, operand),
        Formula::Fixpoint { body, .. } => push_formula(names, body),
    }
}

#[cycle(formulas)]
fn push_operands<'a>(names: &mut Vec<&'a Name>, links: &'a [Link]) -> Result<(), AllocError>
    ensures { OnOk result (names_in names.new.items
        ≡ names_in names.old.items ++ operands_bound_names links.now) }
{
    for link in links {
        push_formula(names, &link.operand)?;
    }
    Ok(())
}
