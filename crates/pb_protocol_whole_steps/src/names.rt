//! The names of a step's own variables: which are apart, and from which others.

ghost use Rattle.std.specs.Prelude.{◌≡◌, ◌++◌, map, IfOk, OnOk};
ghost use Rattle.pb_text_tree.specs.Form.{variable_forms};
ghost use Rattle.pb_text_meaning.specs.Erase.{erased_variables};
ghost use Rattle.pb_protocol_folding.specs.Names.{names_of};
ghost use Rattle.pb_protocol_unfolding.specs.Whole as whole;
ghost use Rattle.pb_protocol_whole_steps.specs.View.{name_bytes, name_in, names_in};

use pb_text_tree::{Name, Variables};
use std::alloc::{AllocError, Global};

/// Whether a name is one of these.
pub(crate) fn is_among(names: &[&Name], name: &str) -> bool
    ensures { result ≡ whole.is_among (map name_in names.now) name.now }
{
    for other in names {
        if name == other.text.as_str() {
            return true;
        }
    }
    false
}

/// Whether a name is one of others.
fn is_other(names: &[Name], name: &str) -> bool
    ensures { result ≡ whole.is_among (map name_bytes names.now) name.now }
{
    for other in names {
        if name == other.text.as_str() {
            return true;
        }
    }
    false
}

/// Whether names are apart, and none of them is one of the others.
pub(crate) fn are_fresh(others: &[Name], names: &[&Name]) -> bool
    ensures { result ≡ whole.are_fresh (map name_bytes others.now) (map name_in names.now) }
{
    for place in 0..names.len() {
        let text = names[place].text.as_str();
        if is_other(others, text) {
            return false;
        }
        if is_among(&names[place + 1..], text) {
            return false;
        }
    }
    true
}

fn push_group<'a>(names: &mut Vec<&'a Name>, group: &'a Variables) -> Result<(), AllocError>
    ensures { OnOk result (map name_in names.new.items
        ≡ map name_in names.old.items ++ names_in group.now) }
{
    for name in &group.names {
        names.push(name)?;
    }
    Ok(())
}

/// The names of a step's own variables, in order.
///
/// # Errors
/// Memory was refused.
pub fn own_names(alloc: Global, groups: &[Variables]) -> Result<Vec<&Name>, AllocError>
    ensures { IfOk result (λ v. map name_in v.items
        ≡ names_of (erased_variables (variable_forms groups.now))) }
{
    let mut names = Vec::new(alloc);
    for group in groups {
        push_group(&mut names, group)?;
    }
    Ok(names)
}
