//! The variables in scope at a term.

ghost use Rattle.std.specs.Prelude.{◌≡◌};
ghost use Rattle.std.specs.List.{list_any};
ghost use Rattle.std.specs.Option.{option_map};
ghost use Rattle.pb_text_tree.specs.Form.{variable_forms};
ghost use Rattle.pb_text_meaning.specs.Erase.{erased_variables};
ghost use Rattle.pb_protocol_symmetry.specs.Kinds.{sort_in};
ghost use Rattle.pb_protocol_scalar_sets.specs.Scopes.{is_called, last_sort};
ghost use Rattle.pb_protocol_scalar_sets.specs.View.{scope_of, text_of};

use pb_text_tree::{Name, Variables};

/// The lists of variables around, the innermost outside.
#[derive(Clone, Copy)]
pub(crate) enum Around<'a> {
    Outermost,
    Variables(&'a [Variables], &'a Around<'a>),
}

/// Whether one of these names is spelled so.
fn is_among(names: &[Name], name: &str) -> bool
    ensures { result ≡ list_any (is_called name.now) names.now }
{
    for other in names {
        if other.text.as_str() == name {
            return true;
        }
    }
    false
}

/// The sort of the last variable of this name, if there is one, else this sort.
fn last_sort<'a>(outer: Option<&'a Name>, groups: &'a [Variables], name: &str) -> Option<&'a Name>
    ensures { option_map text_of result ≡ last_sort (option_map text_of outer.entry)
        (erased_variables (variable_forms groups.now)) name.now }
{
    let mut found = outer;
    for group in groups {
        if is_among(&group.names, name) {
            found = Some(&group.sort);
        }
    }
    found
}

/// The sort of the innermost variable of this name, if there is one.
pub(crate) fn sort_in<'a>(around: &'a Around<'a>, name: &str) -> Option<&'a Name>
    ensures { option_map text_of result ≡ sort_in (scope_of around.now) name.now }
{
    match around {
        Around::Outermost => None,
        Around::Variables(groups, outer) => last_sort(sort_in(outer, name), groups, name),
    }
}
