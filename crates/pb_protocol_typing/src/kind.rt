//! Kinds of values.

ghost use Rattle.std.specs.Prelude.{◌≡◌};
ghost use Rattle.pb_typing_declarations.specs.Entries.{carrier_shape};
ghost use Rattle.pb_typing_declarations.specs.View.{spec_of};
ghost use Rattle.pb_protocol_typing.specs.Kinds.{agree, are_compared, are_whole, may_be_truth};
ghost use Rattle.pb_protocol_typing.specs.Kinds.{may_be_whole, shape_kind, sort_kind};

use pb_sorts::Carrier;
use pb_text_tree::Comparison;
use pb_typing_declarations::Declarations;

/// What kind of values a term has.
#[derive(Clone, Copy)]
pub(crate) enum Kind {
    /// None is known, and a rule fails elsewhere.
    Unknown,
    Truth,
    /// Enumerators of the struct with this number among the structs in declared order.
    Struct(u8),
    Whole,
}

/// The kind of a carrier's values.
pub(crate) fn carrier_kind(carrier: Option<Carrier>) -> Kind
    ensures { result ≡ shape_kind (carrier_shape carrier) }
{
    match carrier {
        None => Kind::Unknown,
        Some(Carrier::Bool) => Kind::Truth,
        Some(Carrier::Enum(enumeration)) => Kind::Struct(enumeration.sort),
        Some(Carrier::Range(_)) => Kind::Whole,
    }
}

/// The kind of a sort's values.
pub(crate) fn sort_kind(declarations: &Declarations<'_>, sort: &str) -> Kind
    ensures { result ≡ sort_kind (spec_of declarations.now) sort.now }
{
    carrier_kind(declarations.carrier(sort))
}

pub(crate) fn may_be_truth(kind: Kind) -> bool
    ensures { result ≡ may_be_truth kind }
{
    matches!(kind, Kind::Unknown | Kind::Truth)
}

pub(crate) fn may_be_whole(kind: Kind) -> bool
    ensures { result ≡ may_be_whole kind }
{
    matches!(kind, Kind::Unknown | Kind::Whole)
}

/// Whether two values may be of one kind.
pub(crate) fn agree(left: Kind, right: Kind) -> bool
    ensures { result ≡ agree left right }
{
    match (left, right) {
        (Kind::Unknown, _) | (_, Kind::Unknown) => true,
        (Kind::Truth, Kind::Truth) | (Kind::Whole, Kind::Whole) => true,
        (Kind::Struct(one), Kind::Struct(other)) => one == other,
        _ => false,
    }
}

pub(crate) fn are_whole(left: Kind, right: Kind) -> bool
    ensures { result ≡ are_whole left right }
{
    may_be_whole(left) && may_be_whole(right)
}

/// Whether two values may be compared.
pub(crate) fn are_compared(comparison: Comparison, left: Kind, right: Kind) -> bool
    ensures { result ≡ are_compared comparison left right }
{
    match comparison {
        Comparison::Equal | Comparison::NotEqual => agree(left, right),
        _ => are_whole(left, right),
    }
}
