//! Kinds of values, of which permutations move one.

ghost use Rattle.std.specs.Prelude.{◌≡◌};
ghost use Rattle.pb_text_meaning.specs.Erase.{of_comparison};
ghost use Rattle.pb_protocol_symmetry.specs.Permutation.{Plain, kind_of};
ghost use Rattle.pb_protocol_symmetry.specs.ProtocolTest.{is_kind};
ghost use Rattle.pb_protocol_symmetry.specs.Test.{both_kinds, is_plain, operator_kind, when};
ghost use Rattle.pb_protocol_scalar_sets.specs.Joined.{both_plain};
ghost use Rattle.pb_protocol_scalar_sets.specs.View.{kind_said, known_kind};

use pb_text_tree::Comparison;

/// What kind of values a term has. What has none may not be named.
#[derive(Clone, Copy)]
pub(crate) enum Kind {
    /// Elements of the sort, which are permuted.
    Element,
    /// Any other values, which stay.
    Plain,
}

/// The kind of the values of a sort.
pub(crate) fn kind_of(sort: &str, name: &str) -> Kind
    ensures { kind_said result ≡ kind_of sort.now name.now }
{
    if name == sort {
        Kind::Element
    } else {
        Kind::Plain
    }
}

/// Values that stay, where the test holds.
pub(crate) fn plain_if(test: bool) -> Option<Kind>
    ensures { known_kind result ≡ when test Plain }
{
    if test { Some(Kind::Plain) } else { None }
}

pub(crate) fn is_plain(kind: Option<Kind>) -> bool
    ensures { result ≡ is_plain (known_kind kind) }
{
    match kind {
        Some(Kind::Plain) => true,
        Some(Kind::Element) | None => false,
    }
}

/// Whether something has this kind.
pub(crate) fn is_kind(wanted: Kind, kind: Option<Kind>) -> bool
    ensures { result ≡ is_kind (kind_said wanted) (known_kind kind) }
{
    match (wanted, kind) {
        (Kind::Element, Some(Kind::Element)) | (Kind::Plain, Some(Kind::Plain)) => true,
        _ => false,
    }
}

/// The kind of what is computed from two values that stay.
pub(crate) fn both_plain(left: Option<Kind>, right: Option<Kind>) -> Option<Kind>
    ensures { known_kind result ≡ both_plain (known_kind left) (known_kind right) }
{
    plain_if(is_plain(left) && is_plain(right))
}

/// The kind that two values have.
pub(crate) fn both_kinds(left: Option<Kind>, right: Option<Kind>) -> Option<Kind>
    ensures { known_kind result ≡ both_kinds (known_kind left) (known_kind right) }
{
    match left {
        Some(kind) if is_kind(kind, right) => left,
        _ => None,
    }
}

/// The kind of a comparison of two values: elements are only the same or not.
pub(crate) fn compared_kind(
    comparison: Comparison,
    left: Option<Kind>,
    right: Option<Kind>,
) -> Option<Kind>
    ensures { known_kind result ≡ operator_kind (of_comparison comparison) (known_kind left)
        (known_kind right) }
{
    match (left, right) {
        (Some(Kind::Plain), Some(Kind::Plain)) => Some(Kind::Plain),
        (Some(Kind::Element), Some(Kind::Element)) => match comparison {
            Comparison::Equal | Comparison::NotEqual => Some(Kind::Plain),
            _ => None,
        },
        _ => None,
    }
}
