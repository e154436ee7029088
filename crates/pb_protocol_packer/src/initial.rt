//! The initial values of the variables of groups.

ghost use Rattle.std.specs.Prelude.{◌≡◌, [], IfOk, map};
ghost use Rattle.pb_model_meaning.specs.Steps.{assigned_term};
ghost use Rattle.pb_protocol_packing.specs.Packing as packing;
ghost use Rattle.pb_protocol_packer.specs.View.{term_of, terms_of};
ghost use Rattle.pb_protocol_packer.specs.Groups.{group_of, groups_in};
ghost use Rattle.pb_protocol_packer.specs.Given.{given_in};
ghost use Rattle.pb_protocol_packer.specs.Beginnings.{begun_in};
ghost use Rattle.pb_protocol_packer.specs.InitialPlaces as places;

use crate::beginning::Beginning;
use crate::builder::Builder;
use crate::given::{Given, given_for};
use crate::group::Group;
use crate::group_number::joined_term;
use crate::initial_place::group_place;
use pb_text_tree::{Argument, Term, copy_term};
use std::alloc::AllocError;

/// The term with which the variable of a group begins.
fn initial_term(builder: Builder, given: &[Given<'_>], group: &Group) -> Result<Term, AllocError>
    ensures { IfOk result (λ t. term_of t
        ≡ packing.initial_term (assigned_term (given_in given.now)) (group_of group.now)) }
{
    match group {
        Group::Alone(variable) => match given_for(given, &variable.name.text) {
            Some(term) => copy_term(builder.alloc, term),
            None => builder.name(&variable.name),
        },
        Group::Joined(joined) => {
            let none = builder.number(0);
            joined_term(builder, given, none, joined)
        }
    }
}

/// The terms with which the variables of groups begin, in order, each at the place of a value.
pub(crate) fn initial_terms(
    builder: Builder,
    given: &[Given<'_>],
    beginnings: &[Beginning<'_>],
    groups: &[Group],
) -> Result<Vec<Argument>, AllocError>
    ensures terms { IfOk result (λ v. terms_of v.items
        ≡ packing.initial_terms (assigned_term (given_in given.now)) (groups_in groups.now)) }
    ensures places { IfOk result (λ v. map places.argument_place v.items
        ≡ map (places.group_place (begun_in beginnings.now) builder.place)
        (groups_in groups.now)) }
{
    let mut values = Vec::with_capacity(builder.alloc, groups.len())?;
    for group in groups {
        let term = initial_term(builder, given, group)?;
        let place = group_place(beginnings, builder.place, group);
        values.push(Argument { place, term })?;
    }
    Ok(values)
}
