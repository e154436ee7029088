//! Functions of folded arguments.

ghost use Rattle.std.specs.Prelude.{◌≡◌, ◌≢◌, ◌<◌, IfOk, HoldsAt, length, string_bytes};
ghost use Rattle.pb_text_meaning.specs.Functions.{named_function};
ghost use Rattle.pb_text_meaning.specs.Value as meaning;
ghost use Rattle.pb_text_meaning.specs.Syntax as syntax;
ghost use Rattle.pb_text_meaning.specs.Sorts.{is_recogniser};
ghost use Rattle.pb_text_meaning.specs.Sorts as placed;
ghost use Rattle.pb_protocol_folding.specs.Applied.{applied_term, chosen_term, one, two};
ghost use Rattle.pb_protocol_folding.specs.Folding.{folded_application, function_of_three, recogniser_of};
ghost use Rattle.pb_protocol_folding.specs.Folding as folded_terms;
ghost use Rattle.pb_protocol_folding.specs.View.{spec_of, term_of, terms_of};

use crate::enumerator::{Sought, place_in};
use crate::operation::Folding;
use crate::truth::truth_value;
use crate::value::{number_term, written_value};
use pb_text_meaning::NamedFunction;
use pb_text_tree::{Argument, Name, SortDeclaration, Term};
use std::alloc::AllocError;

/// What a function of one or two folded arguments becomes.
#[derive(Clone, Copy)]
pub(crate) enum Applied {
    /// The function with its arguments.
    Whole,
    /// A number.
    Number(i64),
    /// A truth value.
    Truth(bool),
}

/// What a named function gives of one argument.
fn value_of_one(function: NamedFunction, value: i32) -> i64
    ensures { result ≡ meaning.named_of_one function value }
{
    let value = i64::from(value);
    match function {
        NamedFunction::Succ => value + 1,
        NamedFunction::Pred => value - 1,
        NamedFunction::Abs => value.abs(),
        NamedFunction::Pos2Nat | NamedFunction::Pos2Int | NamedFunction::Nat2Int => value,
        NamedFunction::If | NamedFunction::Max | NamedFunction::Min => 0,
    }
}

/// What a named function gives of two arguments.
fn value_of_two(function: NamedFunction, left: i32, right: i32) -> i64
    ensures { result ≡ meaning.named_of_two function left right }
{
    match function {
        NamedFunction::Max => i64::from(left.max(right)),
        NamedFunction::Min => i64::from(left.min(right)),
        _ => 0,
    }
}

/// A recogniser of a value.
fn recognised(sorts: &[SortDeclaration], function: &str, value: i32) -> Applied
    ensures { (x : _) → applied_term result function.now x
        ≡ recogniser_of (placed.place_in (λ e. is_recogniser function.now e.recogniser)
        (spec_of sorts.now).sorts) value (syntax.Term.Apply function.now x) }
{
    match place_in(Sought::Recognised(function), sorts) {
        Some(place) => Applied::Truth(i128::from(value) == place as i128),
        None => Applied::Whole,
    }
}

/// What becomes of a function of one argument.
fn of_one(sorts: &[SortDeclaration], function: &str, x: &Term) -> Applied
    ensures { applied_term result function.now (one (term_of x.now))
        ≡ folded_application (spec_of sorts.now) function.now (one (term_of x.now)) }
{
    match written_value(sorts, x) {
        Some(value) => match NamedFunction::named(function) {
            Some(named) => Applied::Number(value_of_one(named, value)),
            None => recognised(sorts, function, value),
        },
        None => Applied::Whole,
    }
}

/// What becomes of a function of two arguments.
fn of_two(sorts: &[SortDeclaration], function: &str, x: &Term, y: &Term) -> Applied
    ensures { applied_term result function.now (two (term_of x.now) (term_of y.now))
        ≡ folded_application (spec_of sorts.now) function.now
        (two (term_of x.now) (term_of y.now)) }
{
    let Some(named) = NamedFunction::named(function) else {
        return Applied::Whole;
    };
    match (written_value(sorts, x), written_value(sorts, y)) {
        (Some(left), Some(right)) => Applied::Number(value_of_two(named, left, right)),
        _ => Applied::Whole,
    }
}

/// Whether a function of three arguments gives the second or the third, as `if` does by a written
/// truth value.
fn chosen(function: &str, condition: &Term) -> Option<bool>
    ensures { (y z whole : _) → chosen_term result y z whole
        ≡ function_of_three (named_function function.now)
        (folded_terms.truth_value (term_of condition.now)) y z whole }
{
    match NamedFunction::named(function) {
        Some(NamedFunction::If) => truth_value(condition),
        _ => None,
    }
}

/// The term of an argument.
fn taken(arguments: Vec<Argument>, place: usize) -> Term
    requires { place < length arguments.items }
    ensures { HoldsAt (λ a. term_of result ≡ term_of a.term) arguments.items place }
{
    let mut arguments = arguments;
    let argument = arguments.swap_remove(place);
    drop(arguments);
    argument.term
}

/// A function of three folded arguments.
fn choice_term(function: Name, arguments: Vec<Argument>) -> Term
    requires { length arguments.items ≡ 3 }
    ensures { (spec : _) → term_of result ≡ folded_application spec (string_bytes function.text)
        (terms_of arguments.items) }
{
    match chosen(function.text.as_str(), &arguments[0].term) {
        Some(true) => {
            drop(function);
            taken(arguments, 1)
        }
        Some(false) => {
            drop(function);
            taken(arguments, 2)
        }
        None => Term::Application {
            function,
            arguments,
        },
    }
}

/// What becomes of a function of folded arguments that aren't three.
fn outcome(sorts: &[SortDeclaration], function: &str, arguments: &[Argument]) -> Applied
    requires { length arguments.now ≢ 3 }
    ensures { applied_term result function.now (terms_of arguments.now)
        ≡ folded_application (spec_of sorts.now) function.now (terms_of arguments.now) }
{
    match arguments {
        [x] => of_one(sorts, function, &x.term),
        [x, y] => of_two(sorts, function, &x.term, &y.term),
        _ => Applied::Whole,
    }
}

/// A function of folded arguments: of `if` with three, the first where its truth alone counts.
///
/// # Errors
/// Memory was refused.
pub fn application_term(
    folding: &Folding<'_>,
    function: Name,
    arguments: Vec<Argument>,
) -> Result<Term, AllocError>
    ensures { IfOk result (λ t. term_of t ≡ folded_application
        (spec_of folding.now.sorts.now) (string_bytes function.text)
        (terms_of arguments.items)) }
{
    if arguments.len() == 3 {
        return Ok(choice_term(function, arguments));
    }
    let place = function.place;
    match outcome(folding.sorts, function.text.as_str(), &arguments) {
        Applied::Whole => Ok(Term::Application {
            function,
            arguments,
        }),
        Applied::Number(value) => {
            drop(function);
            drop(arguments);
            number_term(folding.alloc, place, value)
        }
        Applied::Truth(value) => {
            drop(function);
            drop(arguments);
            Ok(Term::Constant { place, value })
        }
    }
}
