//! What stands at the end of a chain of aliases, and one step of a chain.

ghost use Rattle.std.specs.Prelude.{◌≡◌, codes};
ghost use Rattle.pb_text_meaning.specs.Syntax.{Name, same_name};
ghost use Rattle.pb_typing_declarations.specs.Shapes as ends;
ghost use Rattle.pb_typing_declarations.specs.Shapes.{end_by, is_built_in, built_in_integers};
ghost use Rattle.pb_typing_declarations.specs.Entries.{end_shown, end_behind, range_in};
ghost use Rattle.pb_typing_declarations.specs.Entries.{definition_in};

use crate::definition::Definition;
use crate::sorts::Integers;
use pb_sorts::{Carrier, Range};
use std::collections::HashMap;

/// What stands at the end of a chain of aliases.
#[derive(Clone, Copy)]
pub(crate) enum End {
    /// A sort that has values.
    Carrier(Carrier),
    /// An integer sort without a range.
    Unranged(Integers),
    /// A name that is no sort's.
    Undeclared,
    /// The chain goes round.
    Endless,
}

impl End {
    ghost use Rattle.pb_typing_declarations.specs.Shapes.{end_shape};
    ghost use Rattle.pb_typing_declarations.specs.Entries.{carrier_shape};
    ghost use Rattle.pb_typing_declarations.specs.Declarations.{is_endless, is_integer};
    ghost use Rattle.pb_typing_declarations.specs.Declarations.{may_begin_at};

    /// The carrier, if the sort has values.
    pub fn carrier(self) -> Option<Carrier>
        ensures { carrier_shape result ≡ end_shape (end_shown self) }
    {
        match self {
            End::Carrier(carrier) => Some(carrier),
            End::Unranged(_) | End::Undeclared | End::Endless => None,
        }
    }

    /// Whether the chain goes round.
    pub fn is_endless(&self) -> bool
        ensures { result ≡ is_endless (end_shown self.now) }
    {
        matches!(self, End::Endless)
    }

    /// Whether it is an integer sort without a range.
    pub fn is_integer(&self) -> bool
        ensures { result ≡ is_integer (end_shown self.now) }
    {
        matches!(self, End::Unranged(_))
    }

    /// Whether a range of the sort may begin at `low` (T05): `Pos` begins at 1 and `Nat` at 0.
    pub fn may_begin_at(&self, low: i32) -> bool
        ensures { result ≡ may_begin_at low (end_shown self.now) }
    {
        match self {
            End::Unranged(Integers::Pos) => 1 <= low,
            End::Unranged(Integers::Nat) => 0 <= low,
            _ => true,
        }
    }
}

/// One step of a chain: its end, or the target of an alias.
#[derive(Clone, Copy)]
pub(crate) enum Step<'a> {
    Ends(End),
    GoesOn(&'a str),
}

/// Looks at one sort of a chain. A sort with a range ends it.
pub(crate) fn chain_step<'a>(
    definitions: &HashMap<&'a str, Definition<'a>>,
    ranges: &HashMap<&'a str, Range>,
    sort: &str,
) -> Step<'a>
    ensures { (next : Name → ends.End) → end_behind result next
        ≡ end_by (range_in ranges.now sort.now) (same_name sort.now (codes "Bool"))
        (definition_in definitions.now sort.now) (built_in_integers sort.now) next }
{
    if let Some(range) = ranges.get(sort) {
        return Step::Ends(End::Carrier(Carrier::Range(*range)));
    }
    if sort == "Bool" {
        return Step::Ends(End::Carrier(Carrier::Bool));
    }
    match definitions.get(sort) {
        None => Step::Ends(built_in_integers(sort)),
        Some(Definition::Struct(enumeration)) => {
            Step::Ends(End::Carrier(Carrier::Enum(*enumeration)))
        }
        Some(Definition::Alias(target)) => Step::GoesOn(target),
    }
}

/// A built-in integer sort, or none.
fn built_in_integers(sort: &str) -> End
    ensures { end_shown result ≡ built_in_integers sort.now }
{
    match sort {
        "Pos" => End::Unranged(Integers::Pos),
        "Nat" => End::Unranged(Integers::Nat),
        "Int" => End::Unranged(Integers::Int),
        _ => End::Undeclared,
    }
}

/// Whether a sort of this name is there in each text.
pub(crate) fn is_built_in(sort: &str) -> bool
    ensures { result ≡ is_built_in sort.now }
{
    matches!(sort, "Bool" | "Pos" | "Nat" | "Int")
}
