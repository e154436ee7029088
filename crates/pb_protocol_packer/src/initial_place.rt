//! Where the initial term of a group stands: T11 is told there, which is to be at the value that is
//! outside its range.

ghost use Rattle.std.specs.Prelude.{◌≡◌};
ghost use Rattle.pb_protocol_packer.specs.Beginnings.{begun_in};
ghost use Rattle.pb_protocol_packer.specs.Groups.{group_of};
ghost use Rattle.pb_protocol_packer.specs.InitialPlaces as places;
ghost use Rattle.pb_protocol_packer.specs.Members.{kind_said, member_of, members_said};
ghost use Rattle.pb_protocol_packer.specs.View.{term_of};

use crate::beginning::{Beginning, beginning_of};
use crate::group::Group;
use crate::member::{Kind, Member};
use crate::seen::written_number;
use pb_text_tree::{Place, Term};

/// What is looked for among the values of a group: one that is written outside its range, one that
/// isn't written, or any.
#[derive(Clone, Copy)]
pub(crate) enum Sought {
    Outside,
    Computed,
    Any,
}

/// Whether a number that is written is none of the variable's.
fn lies_outside(member: &Member, number: Option<i128>) -> bool
    ensures { result
        ≡ places.lies_outside (member_of member.now) (kind_said member.now.kind) number }
{
    match &member.kind {
        Kind::Boolean | Kind::Enumeration(_) => false,
        Kind::Whole => match number {
            Some(number) => {
                let low = i128::from(member.low);
                !(low <= number && number < low + i128::from(member.size))
            }
            None => false,
        },
    }
}

/// Whether a value is a number that isn't written.
fn is_computed(member: &Member, number: Option<i128>) -> bool
    ensures { result ≡ places.is_computed (kind_said member.now.kind) number }
{
    match &member.kind {
        Kind::Boolean | Kind::Enumeration(_) => false,
        Kind::Whole => number.is_none(),
    }
}

fn is_sought(sought: Sought, member: &Member, term: &Term) -> bool
    ensures { result ≡ places.is_sought sought (member_of member.now) (term_of term.now) }
{
    match sought {
        Sought::Outside => lies_outside(member, written_number(term)),
        Sought::Computed => is_computed(member, written_number(term)),
        Sought::Any => true,
    }
}

/// The place of the first value that is looked for.
fn place_sought(sought: Sought, beginnings: &[Beginning<'_>], members: &[Member]) -> Option<Place>
    ensures { result
        ≡ places.place_sought sought (begun_in beginnings.now) (members_said members.now) }
{
    for member in members {
        if let Some(begun) = beginning_of(beginnings, &member.variable.name.text) {
            if is_sought(sought, member, &begun.value.term) {
                return Some(begun.value.place);
            }
        }
    }
    None
}

/// The place of the value at which the term of several variables stands.
fn joined_place(beginnings: &[Beginning<'_>], init: Place, members: &[Member]) -> Place
    ensures { result ≡ places.joined_place (begun_in beginnings.now) init
        (members_said members.now) }
{
    if let Some(place) = place_sought(Sought::Outside, beginnings, members) {
        return place;
    }
    if let Some(place) = place_sought(Sought::Computed, beginnings, members) {
        return place;
    }
    place_sought(Sought::Any, beginnings, members).unwrap_or(init)
}

/// The place of the initial term of a group.
pub(crate) fn group_place(beginnings: &[Beginning<'_>], init: Place, group: &Group) -> Place
    ensures { result ≡ places.group_place (begun_in beginnings.now) init (group_of group.now) }
{
    match group {
        Group::Alone(variable) => match beginning_of(beginnings, &variable.name.text) {
            Some(begun) => begun.value.place,
            None => init,
        },
        Group::Joined(joined) => joined_place(beginnings, init, &joined.members),
    }
}
