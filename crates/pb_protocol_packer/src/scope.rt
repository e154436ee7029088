//! What names stand for in a term: digits of the packed variables, or themselves.

ghost use Rattle.std.specs.Prelude.{◌≡◌};
ghost use Rattle.std.specs.Option.{option_map};
ghost use Rattle.std.specs.List.{list_any};
ghost use Rattle.pb_protocol_packing.specs.Apart.{is_among};
ghost use Rattle.pb_protocol_packing.specs.Said.{digit_for};
ghost use Rattle.pb_protocol_packer.specs.View.{texts_of, variables_in};
ghost use Rattle.pb_protocol_packer.specs.Scopes.{digit_by, is_hidden, is_named, scope_in, table_of};

use crate::member::Member;
use pb_text_tree::{Name, Term, Variables};
use std::alloc::Global;

/// The number of a variable's value, as a term.
#[derive(Drop)]
pub(crate) struct Digit<'a> {
    pub member: &'a Member,
    pub term: Term,
}

/// A name with the digit that stands for it; none where it stands for itself.
#[derive(Drop)]
pub(crate) struct Known<'a> {
    pub name: &'a Name,
    pub digit: Option<Digit<'a>>,
}

/// The names of a model with what they stand for, the innermost first, and an allocator.
#[derive(Clone, Copy)]
pub(crate) struct Packing<'a> {
    pub alloc: Global,
    pub table: &'a [Known<'a>],
}

/// Variables of quantifiers and steps around a term, which stand for themselves.
#[derive(Clone, Copy)]
pub(crate) enum Hiding<'a> {
    Outermost,
    Inner(&'a [Variables], &'a Hiding<'a>),
}

/// Whether one of these is the name.
fn is_among(names: &[Name], name: &str) -> bool
    ensures { result ≡ is_among (texts_of names.now) name.now }
{
    for other in names {
        if other.text.as_str() == name {
            return true;
        }
    }
    false
}

/// Whether one of these variables has the name.
fn declares(groups: &[Variables], name: &str) -> bool
    ensures { result ≡ list_any (is_named name.now) (variables_in groups.now) }
{
    for group in groups {
        if is_among(&group.names, name) {
            return true;
        }
    }
    false
}

/// Whether a variable around has the name.
fn is_hidden(hiding: &Hiding<'_>, name: &str) -> bool
    ensures { result ≡ is_hidden hiding.now name.now }
{
    match hiding {
        Hiding::Outermost => false,
        Hiding::Inner(groups, outer) => {
            if declares(groups, name) {
                return true;
            }
            is_hidden(outer, name)
        }
    }
}

/// The digit of a name in a table.
fn digit_in_table<'a>(table: &'a [Known<'a>], name: &str) -> Option<&'a Digit<'a>>
    ensures { option_map digit_by result ≡ digit_for (table_of table.now) name.now }
{
    for known in table {
        if known.name.text.as_str() == name {
            return known.digit.as_ref();
        }
    }
    None
}

/// The digit that stands for a name.
pub(crate) fn digit_for<'a>(
    packing: &Packing<'a>,
    hiding: &Hiding<'_>,
    name: &str,
) -> Option<&'a Digit<'a>>
    ensures { option_map digit_by result
        ≡ digit_for (scope_in packing.now hiding.now) name.now }
{
    if is_hidden(hiding, name) {
        return None;
    }
    digit_in_table(packing.table, name)
}
