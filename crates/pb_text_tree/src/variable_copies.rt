//! Copies names and data variables, places included.

ghost use Rattle.std.specs.Prelude.{◌≡◌, map, IfOk};
ghost use Rattle.pb_text_tree.specs.Form.{named, variable_forms, variables_form};

use crate::{Name, Variables};
use std::alloc::{AllocError, Global};

/// A name that is equal, its place included.
///
/// # Errors
/// Memory was refused.
pub fn copy_name(alloc: Global, name: &Name) -> Result<Name, AllocError>
    ensures { IfOk result (λ n. named n ≡ named name.now) }
{
    let text = name.text.as_str().to_owned(alloc)?;
    Ok(Name {
        place: name.place,
        text,
    })
}

/// Names that are equal, in order.
fn copy_names(alloc: Global, names: &[Name]) -> Result<Vec<Name>, AllocError>
    ensures { IfOk result (λ v. map named v.items ≡ map named names.now) }
{
    let mut copies = Vec::new(alloc);
    for name in names {
        copies.push(copy_name(alloc, name)?)?;
    }
    Ok(copies)
}

/// Variables of one sort that are equal.
fn copy_group(alloc: Global, group: &Variables) -> Result<Variables, AllocError>
    ensures { IfOk result (λ g. variables_form g ≡ variables_form group.now) }
{
    let names = copy_names(alloc, &group.names)?;
    let sort = copy_name(alloc, &group.sort)?;
    Ok(Variables { names, sort })
}

/// Variables that are equal, each with its sort, in order.
///
/// # Errors
/// Memory was refused.
pub fn copy_variables(alloc: Global, groups: &[Variables]) -> Result<Vec<Variables>, AllocError>
    ensures { IfOk result (λ v. variable_forms v.items ≡ variable_forms groups.now) }
{
    let mut copies = Vec::new(alloc);
    for group in groups {
        copies.push(copy_group(alloc, group)?)?;
    }
    Ok(copies)
}
