//! What stands around a term or a formula: lists of variables, and fixpoints.

ghost use Rattle.std.specs.Prelude.{◌≡◌, map, string_bytes};
ghost use Rattle.std.specs.Option.{option_map};
ghost use Rattle.pb_text_tree.specs.Form.{named, variable_forms};
ghost use Rattle.pb_typing_declarations.specs.Faults.{is_among};
ghost use Rattle.pb_protocol_typing.specs.Names.{name_texts};
ghost use Rattle.pb_protocol_typing.specs.Scopes.{is_fixpoint, sort_around, sort_in};
ghost use Rattle.pb_protocol_typing.specs.View.{binders, text_of};

use pb_text_tree::{Name, Variables};

/// The lists of variables and the fixpoints around, the innermost outside.
#[derive(Clone, Copy)]
pub(crate) enum Around<'a> {
    Outermost,
    Variables(&'a [Variables], &'a Around<'a>),
    Fixpoint(&'a str, &'a Around<'a>),
}

/// Whether one of these names is spelled so.
pub(crate) fn is_among(names: &[Name], name: &str) -> bool
    ensures { result ≡ is_among (name_texts names.now) name.now }
{
    for other in names {
        if other.text.as_str() == name {
            return true;
        }
    }
    false
}

/// The sort of a variable of a list, if one has this name.
pub(crate) fn sort_in<'a>(groups: &'a [Variables], name: &str) -> Option<&'a Name>
    ensures { option_map text_of result ≡ sort_in (variable_forms groups.now) name.now }
{
    for group in groups {
        if is_among(&group.names, name) {
            return Some(&group.sort);
        }
    }
    None
}

/// The sort of the innermost variable of this name, if there is one.
pub(crate) fn sort_around<'a>(around: &'a Around<'a>, name: &str) -> Option<&'a Name>
    ensures { option_map text_of result ≡ sort_around (binders around.now) name.now }
{
    match around {
        Around::Outermost => None,
        Around::Variables(groups, outer) => match sort_in(groups, name) {
            Some(sort) => Some(sort),
            None => sort_around(outer, name),
        },
        Around::Fixpoint(_, outer) => sort_around(outer, name),
    }
}

/// Whether a fixpoint around has this name.
pub(crate) fn is_fixpoint(around: &Around<'_>, name: &str) -> bool
    ensures { result ≡ is_fixpoint (binders around.now) name.now }
{
    match around {
        Around::Outermost => false,
        Around::Variables(_, outer) => is_fixpoint(outer, name),
        Around::Fixpoint(fixpoint, outer) => {
            if *fixpoint == name {
                return true;
            }
            is_fixpoint(outer, name)
        }
    }
}
