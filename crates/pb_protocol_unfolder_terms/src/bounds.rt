//! Between which numbers an unfolded term stays, by which an index is seen to stay inside its sort.

ghost use Rattle.std.specs.Prelude.{◌≡◌, ◌↔◌, IsTrue, map};
ghost use Rattle.pb_protocol_folding.specs.View.{spec_of, term_of, terms_of};
ghost use Rattle.pb_base_values.specs.Operation.{Negation};
ghost use Rattle.pb_text_meaning.specs.Erase.{of_arithmetic};
ghost use Rattle.pb_text_meaning.specs.Functions.{named_function};
ghost use Rattle.pb_text_meaning.specs.Syntax as syntax;
ghost use Rattle.pb_protocol_unfolder_terms.specs.Bounds as spec;
ghost use Rattle.pb_protocol_unfolder_terms.specs.Bounds.{IsSeenWithin};
ghost use Rattle.pb_protocol_unfolder_terms.specs.Contexts.{interval_in, intervals_in, spec_in};
ghost use Rattle.pb_protocol_unfolder_terms.specs.Contexts.{state_variable_of};
ghost use Rattle.pb_protocol_unfolder_terms.specs.Puts.{calculated_term};

use crate::context::{Context, StateVariable};
use crate::written::bounds_of_sort;
use pb_base_values::Interval;
use pb_protocol_folding::written_value;
use pb_text_meaning::NamedFunction;
use pb_text_tree::{Argument, Arithmetic, ArithmeticLink, SortDeclaration, Term};

/// The bounds of a term that is written as a value.
fn bounds_of_written(sorts: &[SortDeclaration], term: &Term) -> Option<Interval>
    ensures { result ≡ spec.written_interval (spec_of sorts.now) (term_of term.now) }
{
    match written_value(sorts, term) {
        Some(value) => Some(Interval::singleton(i64::from(value))),
        None => None,
    }
}

/// Whether a name may be that of an array's element.
fn may_be_element(array: &str, name: &str) -> bool
    ensures { result ≡ spec.may_be_element array.now name.now }
{
    let array = array.as_bytes();
    let name = name.as_bytes();
    if !name.starts_with(array) {
        return false;
    }
    match name.get(array.len()) {
        Some(byte) => *byte == 39,
        None => false,
    }
}

/// Whether a name is a state variable's that has no indices.
fn is_plain_name_of(variable: &StateVariable<'_>, name: &str) -> bool
    ensures { result ≡ spec.is_plain_name_of (state_variable_of variable.now) name.now }
{
    variable.indices.is_empty() && variable.name.text.as_str() == name
}

/// Whether a name is that of a state variable without indices.
fn is_plain_name(variables: &[StateVariable<'_>], name: &str) -> bool
    ensures { result ≡ spec.is_plain_name (map state_variable_of variables.now) name.now }
{
    for variable in variables {
        if is_plain_name_of(variable, name) {
            return true;
        }
    }
    false
}

/// Whether a name is a state variable's, or may be that of one of its elements, which it isn't
/// where a state variable without indices has it.
fn may_be_of(of_plain: bool, variable: &StateVariable<'_>, name: &str) -> bool
    ensures { result ≡ spec.may_be_of of_plain (state_variable_of variable.now) name.now }
{
    let own = variable.name.text.as_str();
    if variable.indices.is_empty() {
        return own == name;
    }
    !of_plain && may_be_element(own, name)
}

/// The bounds of what is one of two, or the one that there is.
fn of_either(left: Option<Interval>, right: Option<Interval>) -> Option<Interval>
    ensures { result ≡ spec.either left right }
{
    match (left, right) {
        (Some(left), Some(right)) => Some(left.hull(right)),
        (Some(left), None) => Some(left),
        (None, right) => right,
    }
}

/// The bounds of a name: those of the state variable without indices that has it, or else those of
/// each array of whose elements one may have it.
fn bounds_of_variable(context: &Context<'_>, name: &str) -> Option<Interval>
    ensures { result ≡ spec.variable_interval (spec_in context.now)
        (map state_variable_of context.now.variables.items) name.now }
{
    let of_plain = is_plain_name(&context.variables, name);
    let mut bounds = None;
    for place in (0..context.variables.len()).rev() {
        let variable = &context.variables[place];
        if may_be_of(of_plain, variable, name) {
            bounds = of_either(bounds_of_sort(context.sorts(), variable.sort), bounds);
        }
    }
    bounds
}

/// The bounds of `-` of a term.
fn of_negative(operand: Option<Interval>) -> Option<Interval>
    ensures { result ≡ spec.of_one Negation operand }
{
    operand?.negation(Interval::literals())
}

/// The bounds of a term that is one of two.
fn of_choice(left: Option<Interval>, right: Option<Interval>) -> Option<Interval>
    ensures { result ≡ spec.of_choice left right }
{
    match (left, right) {
        (Some(left), Some(right)) => Some(left.hull(right)),
        _ => None,
    }
}

/// The bounds of an operator of two terms.
fn of_operator(
    operator: Arithmetic,
    left: Option<Interval>,
    right: Option<Interval>,
) -> Option<Interval>
    ensures { result ≡ spec.operator_interval (of_arithmetic operator) left right }
{
    let (left, right) = (left?, right?);
    let limits = Interval::literals();
    match operator {
        Arithmetic::Plus => left.sum(right, limits),
        Arithmetic::Minus => left.difference(right, limits),
        Arithmetic::Times => left.product(right, limits),
        Arithmetic::Div if right.low() >= 1 => left.quotient(right, limits),
        Arithmetic::Mod if right.low() >= 1 => left.remainder(right, limits),
        Arithmetic::Div | Arithmetic::Mod => None,
    }
}

/// The bounds of the argument at a place, if there is one.
#[cycle(bounds)]
fn bounds_at(context: &Context<'_>, arguments: &[Argument], place: usize) -> Option<Interval>
    ensures { result ≡ spec.at (intervals_in context.now (terms_of arguments.now)) place }
{
    let argument = arguments.get(place)?;
    bounds_of(context, &argument.term)
}

/// The bounds of a function of data.
#[cycle(bounds)]
fn bounds_of_function(
    context: &Context<'_>,
    function: &str,
    arguments: &[Argument],
) -> Option<Interval>
    ensures { result ≡ spec.function_interval (named_function function.now)
        (intervals_in context.now (terms_of arguments.now)) }
{
    let limits = Interval::literals();
    match NamedFunction::named(function) {
        Some(NamedFunction::If) => {
            let left = bounds_at(context, arguments, 1);
            of_choice(left, bounds_at(context, arguments, 2))
        }
        Some(NamedFunction::Succ) => bounds_at(context, arguments, 0)?.successor(limits),
        Some(NamedFunction::Pred) => bounds_at(context, arguments, 0)?.predecessor(limits),
        Some(NamedFunction::Abs) => bounds_at(context, arguments, 0)?.absolute_value(limits),
        Some(NamedFunction::Max) => {
            let first = bounds_at(context, arguments, 0)?;
            first.maximum(bounds_at(context, arguments, 1)?, limits)
        }
        Some(NamedFunction::Min) => {
            let first = bounds_at(context, arguments, 0)?;
            first.minimum(bounds_at(context, arguments, 1)?, limits)
        }
        Some(NamedFunction::Pos2Nat | NamedFunction::Pos2Int | NamedFunction::Nat2Int) => {
            bounds_at(context, arguments, 0)
        }
        None => Some(Interval::new(0, 1)),
    }
}

/// The bounds of arithmetic, by those of the first operand.
#[cycle(bounds)]
fn bounds_of_links(
    context: &Context<'_>,
    first: Option<Interval>,
    links: &[ArithmeticLink],
) -> Option<Interval>
    ensures { (x : syntax.Term) → first ≡ interval_in context.now x
        → result ≡ interval_in context.now (calculated_term x links.now) }
{
    let mut bounds = first;
    for link in links {
        let operand = bounds_of(context, &link.operand);
        bounds = of_operator(link.operator, bounds, operand);
    }
    bounds
}

/// The bounds of an unfolded term, as far as its form tells.
#[cycle(bounds)]
fn bounds_of(context: &Context<'_>, term: &Term) -> Option<Interval>
    ensures { result ≡ interval_in context.now (term_of term.now) }
{
    match term {
        Term::Constant { .. } | Term::Number { .. } => {
            bounds_of_written(context.declarations, term)
        }
        Term::Name(name) => match bounds_of_written(context.declarations, term) {
            Some(bounds) => Some(bounds),
            None => bounds_of_variable(context, name.text.as_str()),
        },
        Term::Negative { operand, .. } => of_negative(bounds_of(context, operand)),
        Term::Chain { first, links, .. } => {
            if links.is_empty() {
                return bounds_of(context, first);
            }
            Some(Interval::new(0, 1))
        }
        Term::Arithmetic { first, links } => {
            let first = bounds_of(context, first);
            bounds_of_links(context, first, links)
        }
        Term::Application {
            function,
            arguments,
        } => bounds_of_function(context, function.text.as_str(), arguments),
        Term::Not { .. } | Term::Comparison { .. } | Term::Quantified { .. } => {
            Some(Interval::new(0, 1))
        }
    }
}

/// Whether an unfolded index is seen to stay among the values of a sort.
pub(crate) fn is_within(context: &Context<'_>, index: &Term, sort: &str) -> bool
    ensures { IsTrue result ↔ IsSeenWithin (interval_in context.now (term_of index.now))
        (spec.sort_interval (spec_in context.now) sort.now) }
{
    match (
        bounds_of(context, index),
        bounds_of_sort(context.sorts(), sort),
    ) {
        (Some(bounds), Some(range)) => bounds.is_within(range),
        (None, Some(_)) => false,
        (_, None) => true,
    }
}
