//! The places of enumerators in their sorts.

ghost use Rattle.std.specs.Prelude.{◌≡◌};
ghost use Rattle.pb_text_tree.specs.Form.{enumerator_form};
ghost use Rattle.pb_text_meaning.specs.Erase.{erased_enumerator};
ghost use Rattle.pb_text_meaning.specs.Sorts as sorts;
ghost use Rattle.pb_protocol_folding.specs.Enumerators.{enumerators_of, passes};
ghost use Rattle.pb_protocol_folding.specs.View.{spec_of};

use pb_text_tree::{Enumerator, Sort, SortDeclaration};

/// An enumerator's name, or that of its recogniser.
#[derive(Clone, Copy)]
pub(crate) enum Sought<'a> {
    Named(&'a str),
    Recognised(&'a str),
}

/// Whether an enumerator is the one that is sought.
fn is_sought(sought: Sought<'_>, enumerator: &Enumerator) -> bool
    ensures { result ≡ passes sought.entry (erased_enumerator (enumerator_form enumerator.now)) }
{
    match sought {
        Sought::Named(name) => enumerator.name.text.as_str() == name,
        Sought::Recognised(function) => match &enumerator.recogniser {
            Some(recogniser) => recogniser.text.as_str() == function,
            None => false,
        },
    }
}

/// The place of the first enumerator that is sought.
fn place_among(sought: Sought<'_>, enumerators: &[Enumerator]) -> Option<usize>
    ensures { result
        ≡ sorts.place_from 0 (passes sought.entry) (enumerators_of enumerators.now) }
{
    for (place, enumerator) in enumerators.iter().enumerate() {
        if is_sought(sought, enumerator) {
            return Some(place);
        }
    }
    None
}

/// The place of the first enumerator that is sought in its sort, over all sorts.
pub(crate) fn place_in(sought: Sought<'_>, declarations: &[SortDeclaration]) -> Option<usize>
    ensures { result ≡ sorts.place_in (passes sought.entry) (spec_of declarations.now).sorts }
{
    for declaration in declarations {
        if let Sort::Struct(enumerators) = &declaration.sort {
            if let Some(place) = place_among(sought, enumerators) {
                return Some(place);
            }
        }
    }
    None
}
