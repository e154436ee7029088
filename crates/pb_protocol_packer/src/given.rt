//! What a step gives to variables, and what they begin with.

ghost use Rattle.std.specs.Prelude.{◌≡◌, ◌++◌, IfOk, OnOk};
ghost use Rattle.std.specs.Option.{option_map};
ghost use Rattle.pb_model_meaning.specs.Steps.{assigned_term};
ghost use Rattle.pb_protocol_packing.specs.Numbers as numbers;
ghost use Rattle.pb_protocol_packing.specs.Packing as packing;
ghost use Rattle.pb_protocol_packer.specs.View.{term_of};
ghost use Rattle.pb_protocol_packer.specs.Members.{kind_said, member_of, members_said};
ghost use Rattle.pb_protocol_packer.specs.Given.{given_in, new_in, term_by, terms_in};

use crate::builder::Builder;
use crate::member::Member;
use crate::to_number::{is_surely_within, test_of, to_number};
use pb_text_tree::{Name, Term, copy_term};
use std::alloc::AllocError;

/// A variable with the term that it gets.
#[derive(Drop)]
pub(crate) struct Given<'a> {
    pub name: &'a Name,
    pub term: Term,
}

/// The term that a variable gets, if it gets one.
pub(crate) fn given_for<'a>(given: &'a [Given<'_>], name: &str) -> Option<&'a Term>
    ensures { option_map term_by result ≡ assigned_term (given_in given.now) name.now }
{
    for assigned in given {
        if assigned.name.text.as_str() == name {
            return Some(&assigned.term);
        }
    }
    None
}

/// The number of a value that a variable gets, of which the term stays.
pub(crate) fn number_by(builder: Builder, member: &Member, term: &Term) -> Result<Term, AllocError>
    ensures { IfOk result (λ t. term_of t ≡ numbers.to_number
        (kind_said member.now.kind) member.now.low (term_of term.now)) }
{
    let copy = copy_term(builder.alloc, term)?;
    to_number(builder, member, copy)
}

/// Adds the test whether what a variable gets is one of its values, where that isn't seen.
fn push_test(
    tests: &mut Vec<Term>,
    builder: Builder,
    given: &[Given<'_>],
    member: &Member,
) -> Result<(), AllocError>
    ensures { OnOk result (terms_in tests.new.items ≡ terms_in tests.old.items
        ++ packing.tests_of (new_in given.now (member_of member.now)) (member_of member.now)) }
{
    if let Some(term) = given_for(given, &member.variable.name.text) {
        if !is_surely_within(member, term) {
            tests.push(test_of(builder, member, term)?)?;
        }
    }
    Ok(())
}

/// The tests whether what is given to variables is of their values.
pub(crate) fn all_tests(
    builder: Builder,
    given: &[Given<'_>],
    members: &[Member],
) -> Result<Vec<Term>, AllocError>
    ensures { IfOk result (λ v. terms_in v.items
        ≡ packing.all_tests (assigned_term (given_in given.now)) (members_said members.now)) }
{
    let mut tests = Vec::new(builder.alloc);
    for member in members {
        push_test(&mut tests, builder, given, member)?;
    }
    Ok(tests)
}
