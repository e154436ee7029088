//! Whether a name is an enumerator's.

ghost use Rattle.std.specs.Prelude.{◌≡◌, ℕ, is_some, map};
ghost use Rattle.pb_text_meaning.specs.Sorts.{place_from, place_in};
ghost use Rattle.pb_protocol_unfolder_terms.specs.Values.{enumerators_said, is_named};
ghost use Rattle.pb_protocol_unfolder_terms.specs.View.{declarations};

use pb_text_tree::{Enumerator, Sort, SortDeclaration};

/// Whether one of these enumerators has the name.
fn is_among(enumerators: &[Enumerator], name: &str) -> bool
    ensures { (n : ℕ) → result
        ≡ is_some (place_from n (is_named name.now) (enumerators_said enumerators.now)) }
{
    for enumerator in enumerators {
        if enumerator.name.text.as_str() == name {
            return true;
        }
    }
    false
}

/// Whether an enumerator of one of these sorts has the name.
pub(crate) fn is_enumerator(sorts: &[SortDeclaration], name: &str) -> bool
    ensures { result ≡ is_some (place_in (is_named name.now) (declarations sorts.now)) }
{
    for declaration in sorts {
        if let Sort::Struct(enumerators) = &declaration.sort {
            if is_among(enumerators, name) {
                return true;
            }
        }
    }
    false
}
