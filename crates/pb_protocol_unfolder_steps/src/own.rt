//! What the own variables of a step stand for.

ghost use Rattle.std.specs.Prelude.{◌≡◌, true, [], IfOk};
ghost use Rattle.pb_text_tree.specs.Form.{variable_forms};
ghost use Rattle.pb_text_meaning.specs.Erase.{erased_variables};
ghost use Rattle.pb_protocol_unfolding.specs.Unfolding.{own_left, own_terms};
ghost use Rattle.pb_protocol_unfolder_terms.specs.Values.{tuple_of};
ghost use Rattle.pb_protocol_unfolder_steps.specs.Elements.{own_variables};

use crate::instance::Instance;
use pb_protocol_unfolder_terms::Written;
use pb_protocol_whole_steps::own_names;
use pb_text_tree::{Variables, copy_variables};
use std::alloc::{AllocError, Global};

/// The same values.
///
/// # Errors
/// Memory was refused.
pub fn copy_values<'a>(
    alloc: Global,
    values: &[Written<'a>],
) -> Result<Vec<Written<'a>>, AllocError>
    ensures { IfOk result (λ v. v.items ≡ values.now) }
{
    let mut copies = Vec::new(alloc);
    for value in values {
        copies.push(*value)?;
    }
    Ok(copies)
}

/// Variables as what they stand for: each for itself.
fn themselves(alloc: Global, groups: &[Variables]) -> Result<Vec<Written<'_>>, AllocError>
    ensures { IfOk result (λ v. tuple_of v
        ≡ own_terms true (erased_variables (variable_forms groups.now)) []) }
{
    let names = own_names(alloc, groups)?;
    let mut terms = Vec::new(alloc);
    for name in &names {
        terms.push(Written::Enumerator(*name))?;
    }
    Ok(terms)
}

/// What the own variables of a step stand for.
pub(crate) fn own_values<'a>(
    alloc: Global,
    instance: &Instance<'a>,
) -> Result<Vec<Written<'a>>, AllocError>
    ensures { IfOk result (λ v. tuple_of v ≡ own_terms instance.now.whole
        (own_variables instance.now.step.now) (tuple_of instance.now.own)) }
{
    if instance.whole {
        return themselves(alloc, &instance.step.variables);
    }
    copy_values(alloc, &instance.own)
}

/// The own variables that a step keeps.
pub(crate) fn own_left(alloc: Global, instance: &Instance<'_>) -> Result<Vec<Variables>, AllocError>
    ensures { IfOk result (λ v. erased_variables (variable_forms v.items)
        ≡ own_left instance.now.whole (own_variables instance.now.step.now)) }
{
    if instance.whole {
        return copy_variables(alloc, &instance.step.variables);
    }
    Ok(Vec::new(alloc))
}
