//! Formulas that are put together.

ghost use Rattle.std.specs.Prelude.{◌≡◌, IfOk};
ghost use Rattle.pb_text_tree.specs.Form.{formula_form, link_forms, variable_forms};
ghost use Rattle.pb_model_translation.specs.Placed.{joined_forms, over_form};
ghost use Rattle.pb_model_translation.specs.Placed as placed;
ghost use Rattle.pb_model_modalities.specs.Modal.{has_none};

use pb_model_tree::Modality;
use pb_text_tree::{Connective, Formula, Link, Place, Quantifier, Variables, copy_variables};
use std::alloc::{AllocError, Global};

/// The connective between what a modality says of each step.
fn joining(modality: Modality) -> Connective
    ensures { result ≡ placed.joining modality }
{
    match modality {
        Modality::Box => Connective::And,
        Modality::Diamond => Connective::Or,
    }
}

/// The conjunction of all operands for a box, and their disjunction for a diamond.
pub(crate) fn join(
    alloc: Global,
    modality: Modality,
    place: Place,
    mut links: Vec<Link>,
) -> Result<Formula, AllocError>
    ensures { IfOk result
        (λ f. formula_form f ≡ joined_forms modality place (link_forms links.items)) }
{
    if links.is_empty() {
        let value = modality == Modality::Box;
        return Ok(Formula::Constant { place, value });
    }
    let first = links.remove(0);
    let first = Box::new(alloc, first.operand)?;
    Ok(Formula::Chain {
        connective: joining(modality),
        first,
        links,
    })
}

/// Whether no variable is declared.
fn declares_none(groups: &[Variables]) -> bool
    ensures { result ≡ has_none (variable_forms groups.now) }
{
    for group in groups {
        if !group.names.is_empty() {
            return false;
        }
    }
    true
}

/// A formula under a quantifier, where there are variables.
pub(crate) fn quantified(
    alloc: Global,
    quantifier: Quantifier,
    place: Place,
    variables: &[Variables],
    body: Formula,
) -> Result<Formula, AllocError>
    ensures { IfOk result (λ f. formula_form f
        ≡ over_form quantifier place (variable_forms variables.now) (formula_form body)) }
{
    if declares_none(variables) {
        return Ok(body);
    }
    let variables = copy_variables(alloc, variables)?;
    let body = Box::new(alloc, body)?;
    Ok(Formula::Quantified {
        place,
        quantifier,
        variables,
        body,
    })
}
