//! The number of a group of variables after what is given to them.

ghost use Rattle.std.specs.Prelude.{◌≡◌, ◌*◌, ℕ, List, IfOk};
ghost use Rattle.pb_model_meaning.specs.Steps.{assigned_term};
ghost use Rattle.pb_protocol_packing.specs.Numbers as numbers;
ghost use Rattle.pb_protocol_packing.specs.Packing as packing;
ghost use Rattle.pb_text_meaning.specs.Syntax as syntax;
ghost use Rattle.pb_protocol_packer.specs.View.{term_of};
ghost use Rattle.pb_protocol_packer.specs.Members.{kind_said, member_of, members_said};
ghost use Rattle.pb_protocol_packer.specs.Given.{given_in, new_in, terms_in};

use crate::builder::Builder;
use crate::given::{Given, all_tests, given_for, number_by};
use crate::group::Joined;
use crate::member::Member;
use crate::radix::{between, plus, scaled, times};
use pb_base::both;
use pb_text_tree::{Term, copy_term};
use std::alloc::AllocError;

/// What becomes of the number of a group: the number, what it is below, and what variables get.
#[derive(Clone, Copy)]
struct Change<'a> {
    builder: Builder,
    given: &'a [Given<'a>],
    old: &'a Term,
    limit: u32,
}

/// A sum, without the digits behind it that count less than `end` and stay.
#[derive(Drop)]
struct Sum {
    term: Term,
    end: u32,
}

/// The digits of the number that count less than `end`, and `weight` at least, where they are.
fn kept(change: &Change<'_>, end: u32, weight: u32) -> Result<Term, AllocError>
    ensures { IfOk result (λ t. term_of t
        ≡ packing.kept change.now.limit end weight (term_of change.now.old.now)) }
{
    let builder = change.builder;
    if end == weight {
        return Ok(builder.number(0));
    }
    let old = copy_term(builder.alloc, change.old)?;
    let digits = between(builder, change.limit, end, weight, old)?;
    times(builder, digits, weight)
}

/// What a variable adds that gets a term.
fn digit_of(builder: Builder, member: &Member, term: &Term) -> Result<Term, AllocError>
    ensures { IfOk result (λ t. term_of t ≡ numbers.scaled member.now.size
        (numbers.to_number (kind_said member.now.kind) member.now.low (term_of term.now))
        member.now.weight) }
{
    let number = number_by(builder, member, term)?;
    scaled(builder, member.size, number, member.weight)
}

/// A sum with the digits that stay in front of a variable, and the variable's own, where it gets a
/// term.
fn with_member(change: &Change<'_>, sum: Sum, member: &Member, end: u32) -> Result<Sum, AllocError>
    requires { end ≡ member.now.size * member.now.weight }
    ensures { IfOk result (λ s. (others : ℕ → List syntax.Term) →
        numbers.plus_all (term_of s.term) (others s.end)
        ≡ numbers.plus_all (term_of sum.term) (packing.addends_by
        (new_in change.now.given.now (member_of member.now)) change.now.limit
        (term_of change.now.old.now) sum.end (member_of member.now) member.now.weight others)) }
{
    let Some(new) = given_for(change.given, &member.variable.name.text) else {
        return Ok(sum);
    };
    let builder = change.builder;
    let stays = kept(change, sum.end, end);
    let (term, stays) = both(sum.term, stays)?;
    let term = plus(builder, term, stays)?;
    let (term, digit) = both(term, digit_of(builder, member, new))?;
    let term = plus(builder, term, digit)?;
    Ok(Sum {
        term,
        end: member.weight,
    })
}

/// The number that the variables make afterwards, where it was that of a term.
fn number_of(
    builder: Builder,
    given: &[Given<'_>],
    old: &Term,
    joined: &Joined,
) -> Result<Term, AllocError>
    ensures { IfOk result (λ t. term_of t ≡ packing.number_of
        (assigned_term (given_in given.now)) (term_of old.now)
        (members_said joined.now.members.items)) }
{
    let limit = joined.capacity;
    let change = Change {
        builder,
        given,
        old,
        limit,
    };
    let mut sum = Sum {
        term: builder.number(0),
        end: limit,
    };
    let mut end = limit;
    for member in &joined.members {
        sum = with_member(&change, sum, member, end)?;
        end = member.weight;
    }
    let Sum { term, end } = sum;
    let (term, stays) = both(term, kept(&change, end, 1))?;
    plus(builder, term, stays)
}

/// A term where all tests hold, and a number else.
fn where_all(
    builder: Builder,
    mut tests: Vec<Term>,
    mut term: Term,
    outside: u64,
) -> Result<Term, AllocError>
    ensures { IfOk result (λ t. term_of t ≡ packing.where_all (terms_in tests.items)
        (term_of term) (syntax.Term.Number outside)) }
{
    while let Some(test) = tests.pop() {
        term = builder.either(test, term, builder.number(outside))?;
    }
    Ok(term)
}

/// The number of a group afterwards, and one outside its range where a variable leaves its values.
pub(crate) fn joined_term(
    builder: Builder,
    given: &[Given<'_>],
    term: Term,
    joined: &Joined,
) -> Result<Term, AllocError>
    ensures { IfOk result (λ t. term_of t ≡ packing.joined_term
        (assigned_term (given_in given.now)) (term_of term)
        (members_said joined.now.members.items)) }
{
    let number = number_of(builder, given, &term, joined);
    drop(term);
    let (number, tests) = both(number?, all_tests(builder, given, &joined.members))?;
    where_all(builder, tests, number, u64::from(joined.capacity))
}
