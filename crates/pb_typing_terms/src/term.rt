//! The check of data terms in which no quantifier may stand: the typed term, or which rule fails.

ghost use Rattle.std.specs.Prelude.{◌≡◌, [], false, length, pos, MatchResult};
ghost use Rattle.pb_text_tree.specs.Form.{TermForm, argument_forms, arithmetic_links, calculated};
ghost use Rattle.pb_text_tree.specs.Form.{chained, named, term_form, term_links};
ghost use Rattle.pb_base_values.specs.Interval.{is_included, literals, singleton};
ghost use Rattle.pb_typing_rules.specs.Shapes.{literal_shape};
ghost use Rattle.pb_typing_declarations.specs.Faults.{IsAmong, unless};
ghost use Rattle.pb_typing_tree.specs.Tree as tree;
ghost use Rattle.pb_typing_tree.specs.View.{link_views, shape_view, term_views};
ghost use Rattle.pb_typing_terms.specs.Chains.{arithmetic_faults, calculated_shape, link_faults};
ghost use Rattle.pb_typing_terms.specs.Chains.{operand_shape, own_faults};
ghost use Rattle.pb_typing_terms.specs.Terms.{ChecksTerm};
ghost use Rattle.pb_typing_nodes.specs.Contexts.{scope_in, slots_in, text_in};
ghost use Rattle.pb_typing_nodes.specs.Elaborated.{Elaborates, Resolves};
ghost use Rattle.pb_typing_nodes.specs.Functions.{IsChoice, IsOfOne, IsOfTwo};
ghost use Rattle.pb_typing_terms.specs.Slots.{arithmetic_terms, link_terms, over_slots};

use pb_text_tree::{Argument, ArithmeticLink, Connective, Name, Place, TermLink};
use pb_typing_declarations::{TypeError, TypingFault, TypingRule, require};
use pb_typing_nodes::apply::{apply_one, apply_two, choose, compared, negated, operated};
use pb_typing_nodes::context::Context;
use pb_typing_nodes::function::{Extreme, Function, FunctionOfOne, find_function};
use pb_typing_nodes::name::check_name;
use pb_typing_nodes::operands::{accepted, paired};
use pb_typing_nodes::operation::{UnaryOperation, fault};
use pb_typing_nodes::operator::compute;
use pb_typing_nodes::shape::{is_truth, literal_interval};
use pb_typing_tree::{Argument as TypedTerm, Link, Shape, Term};

/// A literal, within 2^62 (T10).
fn literal(number: u64, place: Place) -> Result<TypedTerm, TypingFault>
    ensures { Resolves (unless (is_included (singleton (pos number)) literals)
        TypingRule.LargeInterval place) (literal_shape number) (tree.Number number) result }
{
    match literal_interval(number) {
        Some(interval) => Ok(TypedTerm {
            term: Term::Number(number),
            shape: Shape::Wholes(interval),
        }),
        None => Err(fault(TypingRule::LargeInterval, place)),
    }
}

/// The typed term of a data term where no quantifier may stand.
///
/// # Errors
/// A rule of names, kinds or intervals fails (T01, T04, T07 to T10), a quantifier stands in it
/// (T13), or memory was refused.
#[cycle(terms)]
pub fn check_term(
    context: &Context<'_, '_, '_>,
    term: &pb_text_tree::Term,
) -> Result<TypedTerm, TypeError>
    ensures { ChecksTerm context.now (term_form term.now) result }
{
    match term {
        pb_text_tree::Term::Constant { value, .. } => Ok(TypedTerm {
            term: Term::Constant(*value),
            shape: Shape::Truths,
        }),
        pb_text_tree::Term::Number { place, value } => Ok(literal(*value, *place)?),
        pb_text_tree::Term::Name(name) => Ok(check_name(context, name)?),
        pb_text_tree::Term::Not { place, operand } => {
            let operand = check_term(context, operand)?;
            negated(context.alloc, operand, *place)
        }
        pb_text_tree::Term::Negative { place, operand } => {
            let operand = check_term(context, operand)?;
            operated(context.alloc, UnaryOperation::Negation, operand, *place)
        }
        pb_text_tree::Term::Chain {
            connective,
            first,
            links,
        } => check_chain(context, *connective, first, links),
        pb_text_tree::Term::Comparison {
            place,
            comparison,
            left,
            right,
        } => {
            let first = check_term(context, left)?;
            let second = check_term(context, right);
            let (left, right) = paired(first, second)?;
            compared(context.alloc, *comparison, left, right, *place)
        }
        pb_text_tree::Term::Arithmetic { first, links } => check_arithmetic(context, first, links),
        pb_text_tree::Term::Application {
            function,
            arguments,
        } => check_application(context, function, arguments),
        pb_text_tree::Term::Quantified { place, .. } => {
            Err(TypeError::Refused(fault(TypingRule::QuantifierInData, *place)))
        }
    }
}

/// Checks operands of one connective.
#[cycle(terms)]
fn check_chain(
    context: &Context<'_, '_, '_>,
    connective: Connective,
    first: &pb_text_tree::Term,
    links: &[TermLink],
) -> Result<TypedTerm, TypeError>
    ensures { ChecksTerm context.now (chained (TermForm.connected connective)
        (term_form first.now) (term_links links.now)) result }
{
    let head = check_term(context, first)?;
    if links.is_empty() {
        return Ok(head);
    }
    let operands = check_links(context, head.shape, links);
    let (first, links) = paired(head.term, operands)?;
    Ok(TypedTerm {
        term: Term::Chain {
            connective,
            first: Box::new(context.alloc, first)?,
            links,
        },
        shape: Shape::Truths,
    })
}

/// Checks the operands of a connective behind the first, which has this shape.
#[cycle(terms)]
fn check_links(
    context: &Context<'_, '_, '_>,
    first: Shape,
    links: &[TermLink],
) -> Result<Vec<Term>, TypeError>
    ensures { MatchResult result
        (λ xs. (link_faults (text_in context.now) false (scope_in context.now) (shape_view first)
        links.now ≡ [])
        × (term_views xs.items ≡ link_terms (text_in context.now) (slots_in context.now)
        links.now))
        (IsAmong (link_faults (text_in context.now) false (scope_in context.now)
        (shape_view first) links.now)) }
{
    let mut left = first;
    let mut operands = Vec::with_capacity(context.alloc, links.len())?;
    for (index, link) in links.iter().enumerate() {
        let operand = check_link(context, left, link, index + 1 < links.len())?;
        left = operand.shape;
        operands.push(operand.term)?;
    }
    Ok(operands)
}

/// Checks an operand behind one of this shape, both Booleans (T04); `more` says whether others
/// follow.
#[cycle(terms)]
fn check_link(
    context: &Context<'_, '_, '_>,
    left: Shape,
    link: &TermLink,
    more: bool,
) -> Result<TypedTerm, TypeError>
    ensures { Elaborates
        (own_faults (text_in context.now) false (scope_in context.now) (shape_view left) link.now
        more)
        (operand_shape (text_in context.now) (scope_in context.now) link.now)
        (over_slots (text_in context.now) (slots_in context.now) link.now.operand) result }
{
    require(is_truth(&left), TypingRule::WrongKind, link.place)?;
    let operand = check_term(context, &link.operand)?;
    let is_accepted = is_truth(&operand.shape);
    let operand = accepted(
        operand,
        more || is_accepted,
        TypingRule::WrongKind,
        link.place,
    )?;
    Ok(operand)
}

/// Checks operands of arithmetic.
#[cycle(terms)]
fn check_arithmetic(
    context: &Context<'_, '_, '_>,
    first: &pb_text_tree::Term,
    links: &[ArithmeticLink],
) -> Result<TypedTerm, TypeError>
    ensures { ChecksTerm context.now (calculated (term_form first.now)
        (arithmetic_links links.now)) result }
{
    let head = check_term(context, first)?;
    let operands = check_operands(context, head.shape, links);
    let (first, (links, shape)) = paired(head.term, operands)?;
    Ok(TypedTerm {
        term: Term::Arithmetic {
            first: Box::new(context.alloc, first)?,
            links,
        },
        shape,
    })
}

/// Checks the operands of arithmetic behind the first, which has this shape, and finds the shape of
/// the whole.
#[cycle(terms)]
fn check_operands(
    context: &Context<'_, '_, '_>,
    first: Shape,
    links: &[ArithmeticLink],
) -> Result<(Vec<Link>, Shape), TypeError>
    ensures { MatchResult result
        (λ found. (arithmetic_faults (text_in context.now) (scope_in context.now)
        (shape_view first) links.now ≡ [])
        × (link_views found.0.items ≡ arithmetic_terms (text_in context.now) (slots_in context.now)
        links.now)
        × (shape_view found.1 ≡ calculated_shape (text_in context.now) (scope_in context.now)
        (shape_view first) links.now))
        (IsAmong (arithmetic_faults (text_in context.now) (scope_in context.now)
        (shape_view first) links.now)) }
{
    let mut shape = first;
    let mut operands = Vec::with_capacity(context.alloc, links.len())?;
    for link in links {
        let right = check_term(context, &link.operand)?;
        let whole = compute(link.operator, shape, right.shape, link.place);
        let (operand, whole) = paired(right.term, whole)?;
        shape = whole;
        let operator = link.operator;
        operands.push(Link { operator, operand })?;
    }
    Ok((operands, shape))
}

/// Checks a function or a recogniser with its arguments: first its name and their number (T08).
#[cycle(terms)]
fn check_application(
    context: &Context<'_, '_, '_>,
    name: &Name,
    arguments: &[Argument],
) -> Result<TypedTerm, TypeError>
    ensures { ChecksTerm context.now (TermForm.application (named name.now)
        (argument_forms arguments.now)) result }
{
    let function = find_function(context.declarations, name)?;
    let is_count = arguments.len() == function.arity();
    require(is_count, TypingRule::WrongCount, name.place)?;
    match function {
        Function::OfOne(function) => check_one(context, function, name, arguments),
        Function::OfTwo(extreme) => check_two(context, extreme, name, arguments),
        Function::Choice => check_choice(context, name, arguments),
    }
}

/// Checks a function of one argument.
#[cycle(terms)]
fn check_one(
    context: &Context<'_, '_, '_>,
    function: FunctionOfOne,
    name: &Name,
    arguments: &[Argument],
) -> Result<TypedTerm, TypeError>
    requires function { IsOfOne (text_in context.now) (named name.now).text function }
    requires count { length arguments.now ≡ 1 }
    ensures { ChecksTerm context.now (TermForm.application (named name.now)
        (argument_forms arguments.now)) result }
{
    let x = check_term(context, &arguments[0].term)?;
    apply_one(context.alloc, function, x, name.place)
}

/// Checks a function of two arguments.
#[cycle(terms)]
fn check_two(
    context: &Context<'_, '_, '_>,
    extreme: Extreme,
    name: &Name,
    arguments: &[Argument],
) -> Result<TypedTerm, TypeError>
    requires function { IsOfTwo (text_in context.now) (named name.now).text extreme }
    requires count { length arguments.now ≡ 2 }
    ensures { ChecksTerm context.now (TermForm.application (named name.now)
        (argument_forms arguments.now)) result }
{
    let first = check_term(context, &arguments[0].term)?;
    let second = check_term(context, &arguments[1].term);
    let (x, y) = paired(first, second)?;
    apply_two(context.alloc, extreme, x, y, name.place)
}

/// Checks a choice between two values.
#[cycle(terms)]
fn check_choice(
    context: &Context<'_, '_, '_>,
    name: &Name,
    arguments: &[Argument],
) -> Result<TypedTerm, TypeError>
    requires function { IsChoice (text_in context.now) (named name.now).text }
    requires count { length arguments.now ≡ 3 }
    ensures { ChecksTerm context.now (TermForm.application (named name.now)
        (argument_forms arguments.now)) result }
{
    let condition = check_term(context, &arguments[0].term)?;
    let first = check_term(context, &arguments[1].term);
    let (condition, x) = paired(condition, first)?;
    let second = check_term(context, &arguments[2].term);
    let ((condition, x), y) = paired((condition, x), second)?;
    choose(context.alloc, condition, x, y, name.place)
}
