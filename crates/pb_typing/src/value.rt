//! The check of data below `val`, where quantifiers may stand, though below connectives alone:
//! above a quantifier the connectives and quantifiers of data become those of a formula.

ghost use Rattle.std.specs.Prelude.{◌≡◌, ◌++◌, ℕ, [], length, true, false, MatchResult, OnOk};
ghost use Rattle.std.specs.Prelude.{IfOk};
ghost use Rattle.pb_text_tree.specs.Form.{TermForm, chained, term_form, term_links};
ghost use Rattle.pb_text_meaning.specs.Erase.{erased_term};
ghost use Rattle.pb_typing_rules.specs.Faults.{term_faults};
ghost use Rattle.pb_typing_rules.specs.Shapes.{may_be_truth};
ghost use Rattle.pb_typing_rules.specs.Term.{shape};
ghost use Rattle.pb_typing_declarations.specs.Entries.{shapes_of};
ghost use Rattle.pb_typing_declarations.specs.Faults.{IsAmong, unless};
ghost use Rattle.pb_typing_declarations.specs.Shapes as model;
ghost use Rattle.pb_typing_tree.specs.Expansion.{has_quantifier};
ghost use Rattle.pb_typing_tree.specs.View.{shape_view};
ghost use Rattle.pb_typing_terms.specs.Chains.{link_faults, operand_shape, own_faults};
ghost use Rattle.pb_typing.specs.Contexts.{AddsLoops, ChecksTruth, ChecksValue};
ghost use Rattle.pb_typing_nodes.specs.Contexts.{scope_in};
ghost use Rattle.pb_typing_nodes.specs.Contexts.{slots_in, text_in};
ghost use Rattle.pb_typing.specs.Elaborated.{ChecksTruthIn, ElaboratesValue};
ghost use Rattle.pb_typing_nodes.specs.Scopes.{inner_slots, inner_view};
ghost use Rattle.pb_typing.specs.Tree.{chain_of, operand_terms, as_value};
ghost use Rattle.pb_typing.specs.Value as values;
ghost use Rattle.pb_typing.specs.Value.{term_values};
ghost use Rattle.pb_typing.specs.ValueLinks.{operand, value_loops};
ghost use Rattle.pb_typing.specs.ValueView.{value_shape, value_view, value_views};
ghost use Rattle.pb_typing_tree.specs.Expansion.{expanded_term};

use crate::joined::{Value, joined_values};
use pb_sorts::Carrier;
use pb_text_tree::{Connective, Place, Term, TermLink};
use pb_typing_declarations::{TypeError, TypingRule, require};
use pb_typing_nodes::apply::negated;
use pb_typing_nodes::context::Context;
use pb_typing_nodes::operands::{accepted, paired};
use pb_typing_nodes::scope::{Scope, Variable};
use pb_typing_nodes::shape::is_truth;
use pb_typing_nodes::variables::{bind_variables, quantified};
use pb_typing_terms::term::check_term;
use pb_typing_tree::{Formula, Shape};
use std::alloc::Global;
use std::collections::HashMap;

/// Checks a data term that must be a Boolean (T04), and reads it as a formula. The carriers are
/// those of the slots so far, to which it adds those of its quantifiers.
#[cycle(values)]
pub(crate) fn check_truth<'t>(
    context: &Context<'_, '_, 't>,
    carriers: &mut Vec<Carrier>,
    term: &'t Term,
    place: Place,
) -> Result<Formula, TypeError>
    ensures checked { ChecksTruth context.now (length carriers.old.items) (term_form term.now)
        place result }
    ensures carriers { OnOk result (AddsLoops context.now carriers.old.items carriers.new.items
        (as_value term.now)) }
{
    let found = check_value(context, carriers, term)?;
    let test = is_truth(&found.shape());
    let value = accepted(found, test, TypingRule::WrongKind, place)?;
    Ok(value.into_formula())
}

/// Checks a data term where quantifiers may stand.
#[cycle(values)]
fn check_value<'t>(
    context: &Context<'_, '_, 't>,
    carriers: &mut Vec<Carrier>,
    term: &'t Term,
) -> Result<Value, TypeError>
    ensures checked { ChecksValue context.now (length carriers.old.items) (term_form term.now)
        result }
    ensures carriers { OnOk result (AddsLoops context.now carriers.old.items carriers.new.items
        (as_value term.now)) }
{
    match term {
        Term::Not { place, operand } => {
            let operand = check_value(context, carriers, operand)?;
            negated_value(context.alloc, operand, *place)
        }
        Term::Chain {
            connective,
            first,
            links,
        } => check_chain(context, carriers, *connective, first, links),
        Term::Arithmetic { first, links } => {
            if links.is_empty() {
                check_value(context, carriers, first)
            } else {
                check_data(context, term)
            }
        }
        Term::Quantified {
            place,
            quantifier,
            variables,
            body,
        } => {
            let bound = bind_variables(context, carriers, variables)?;
            let body = check_body(&*context, carriers, &bound.table, body, *place)?;
            let formula = quantified(context.alloc, *quantifier, bound, body)?;
            Ok(Value::Formula(formula))
        }
        Term::Constant { .. } => check_data(context, term),
        Term::Number { .. } => check_data(context, term),
        Term::Name(_) => check_data(context, term),
        Term::Negative { .. } => check_data(context, term),
        Term::Comparison { .. } => check_data(context, term),
        Term::Application { .. } => check_data(context, term),
    }
}

/// Checks data below which no quantifier may stand.
fn check_data(context: &Context<'_, '_, '_>, term: &Term) -> Result<Value, TypeError>
    ensures checked { (n : ℕ) → ElaboratesValue
        (term_faults (text_in context.now) false (scope_in context.now) (term_form term.now))
        (shape (text_in context.now) (scope_in context.now) (erased_term (term_form term.now)))
        (values.term_value (text_in context.now) (slots_in context.now) (scope_in context.now) n
        (erased_term (term_form term.now))) result }
    ensures plain { IfOk result (λ _. has_quantifier (erased_term (term_form term.now)) ≡ false) }
{
    let data = check_term(context, term)?;
    Ok(Value::Data(data))
}

/// A negation.
fn negated_value(alloc: Global, operand: Value, place: Place) -> Result<Value, TypeError>
    ensures { ElaboratesValue
        (unless (may_be_truth (value_shape operand)) TypingRule.WrongKind place) model.Truths
        (values.negated (value_view operand)) result }
{
    match operand {
        Value::Data(data) => {
            let data = negated(alloc, data, place)?;
            Ok(Value::Data(data))
        }
        Value::Formula(formula) => {
            let formula = Box::new(alloc, formula)?;
            Ok(Value::Formula(Formula::Negation(formula)))
        }
    }
}

/// Checks a quantifier's body, whose variables stand in a table.
#[cycle(values)]
fn check_body<'a, 't>(
    outer: &'a Context<'a, '_, 't>,
    carriers: &mut Vec<Carrier>,
    table: &'a HashMap<&'t str, Variable>,
    body: &'t Term,
    place: Place,
) -> Result<Formula, TypeError>
    ensures checked { ChecksTruthIn (text_in outer.now)
        (inner_view table.now (scope_in outer.now)) (inner_slots table.now (slots_in outer.now))
        (length carriers.old.items) (term_form body.now) place result }
    ensures carriers { OnOk result (AddsLoops outer.now carriers.old.items carriers.new.items
        (as_value body.now)) }
{
    let scope = Scope::Inner(table, outer.scope);
    let context = Context {
        alloc: outer.alloc,
        declarations: outer.declarations,
        layout: outer.layout,
        scope: &scope,
    };
    check_truth(&context, carriers, body, place)
}

/// Checks operands of one connective.
#[cycle(values)]
fn check_chain<'t>(
    context: &Context<'_, '_, 't>,
    carriers: &mut Vec<Carrier>,
    connective: Connective,
    first: &'t Term,
    links: &'t [TermLink],
) -> Result<Value, TypeError>
    ensures checked { ChecksValue context.now (length carriers.old.items)
        (chained (TermForm.connected connective) (term_form first.now) (term_links links.now))
        result }
    ensures carriers { OnOk result (AddsLoops context.now carriers.old.items carriers.new.items
        (expanded_term (chain_of connective first.now links.now))) }
{
    let head = check_value(context, carriers, first)?;
    if links.is_empty() {
        return Ok(head);
    }
    let operands = check_links(context, carriers, head.shape(), links);
    let (left, rest) = paired(head, operands)?;
    let value = joined_values(context.alloc, connective, left, rest)?;
    Ok(value)
}

/// Checks the operands of a connective behind the first, which has this shape.
#[cycle(values)]
fn check_links<'t>(
    context: &Context<'_, '_, 't>,
    carriers: &mut Vec<Carrier>,
    first: Shape,
    links: &'t [TermLink],
) -> Result<Vec<Value>, TypeError>
    ensures checked { MatchResult result
        (λ vs. (link_faults (text_in context.now) true (scope_in context.now) (shape_view first)
        links.now ≡ [])
        × (value_views vs.items ≡ term_values (text_in context.now) (slots_in context.now)
        (scope_in context.now) (length carriers.old.items) (operand_terms links.now)))
        (IsAmong (link_faults (text_in context.now) true (scope_in context.now)
        (shape_view first) links.now)) }
    ensures carriers { OnOk result (shapes_of carriers.new.items
        ≡ shapes_of carriers.old.items ++ value_loops (text_in context.now) links.now) }
{
    let mut left = first;
    let mut operands = Vec::with_capacity(context.alloc, links.len())?;
    for (index, link) in links.iter().enumerate() {
        let operand = check_link(context, carriers, left, link, index + 1 < links.len())?;
        left = operand.shape();
        operands.push(operand)?;
    }
    Ok(operands)
}

/// Checks an operand behind one of this shape; `more` says whether others follow.
#[cycle(values)]
fn check_link<'t>(
    context: &Context<'_, '_, 't>,
    carriers: &mut Vec<Carrier>,
    left: Shape,
    link: &'t TermLink,
    more: bool,
) -> Result<Value, TypeError>
    ensures checked { ElaboratesValue
        (own_faults (text_in context.now) true (scope_in context.now) (shape_view left) link.now
        more)
        (operand_shape (text_in context.now) (scope_in context.now) link.now)
        (values.term_value (text_in context.now) (slots_in context.now) (scope_in context.now)
        (length carriers.old.items) (erased_term (term_form link.now.operand))) result }
    ensures carriers { OnOk result (AddsLoops context.now carriers.old.items carriers.new.items
        (operand link.now)) }
{
    require(is_truth(&left), TypingRule::WrongKind, link.place)?;
    let operand = check_value(context, carriers, &link.operand)?;
    let is_accepted = is_truth(&operand.shape());
    let operand = accepted(
        operand,
        more || is_accepted,
        TypingRule::WrongKind,
        link.place,
    )?;
    Ok(operand)
}
