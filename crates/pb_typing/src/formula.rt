//! The check of formulas: the typed tree, or which rule fails.

ghost use Rattle.std.specs.Prelude.{◌≡◌, ◌++◌, ◌∷◌, [], length, MatchResult, IfOk, OnOk, ℕ};
ghost use Rattle.pb_text_tree.specs.Form.{FormulaForm, formula_form, instance_form};
ghost use Rattle.pb_typing_declarations.specs.Entries.{shapes_of};
ghost use Rattle.pb_typing_declarations.specs.Faults.{IsAmong};
ghost use Rattle.pb_typing_tree.specs.Calls.{call_places, calls_in, places_of};
ghost use Rattle.pb_typing_tree.specs.View.{formula_views};
ghost use Rattle.pb_typing.specs.Contexts.{AddsLoops, ChecksFormula};
ghost use Rattle.pb_typing_nodes.specs.Contexts.{scope_in, slots_in, text_in};
ghost use Rattle.pb_typing.specs.Elaborated.{ChecksFormulaIn};
ghost use Rattle.pb_typing.specs.FormulaLinks.{elaborated_links, formula_link_faults, links_calls};
ghost use Rattle.pb_typing.specs.FormulaLinks.{links_loops};
ghost use Rattle.pb_typing_nodes.specs.Scopes.{inner_slots, inner_view};
ghost use Rattle.pb_typing.specs.Tree.{formula_of};
ghost use Rattle.pb_typing.specs.Typed.{IsLayout};
ghost use Rattle.pb_typing.specs.View.{is_positive};

use crate::instance::check_instance;
use crate::polarity::{Polarity, operand_polarity};
use crate::value::check_truth;
use pb_sorts::Carrier;
use pb_text_tree::{Connective, Instance, Link};
use pb_typing_declarations::TypeError;
use pb_typing_nodes::context::Context;
use pb_typing_nodes::operands::paired;
use pb_typing_nodes::scope::{Scope, Variable};
use pb_typing_nodes::variables::{bind_variables, quantified};
use pb_typing_tree::{Formula, Term};
use std::collections::HashMap;

/// Checks a formula of a polarity. The carriers are those of the slots so far, to which it adds
/// those of its quantifiers.
#[cycle(formulas)]
pub(crate) fn check_formula<'t>(
    context: &Context<'_, '_, 't>,
    carriers: &mut Vec<Carrier>,
    polarity: Polarity,
    formula: &'t pb_text_tree::Formula,
) -> Result<Formula, TypeError>
    requires { IsLayout (text_in context.now) context.now.layout.now }
    ensures checked { ChecksFormula context.now (is_positive polarity)
        (length carriers.old.items) (formula_form formula.now) result }
    ensures carriers { OnOk result (AddsLoops context.now carriers.old.items carriers.new.items
        (formula_of formula.now)) }
    ensures places { IfOk result (λ f. call_places f ≡ calls_in (formula_form formula.now)) }
{
    match formula {
        pb_text_tree::Formula::Constant { value, .. } => Ok(Formula::Test(Term::Constant(*value))),
        pb_text_tree::Formula::Value { place, term } => {
            check_truth(context, carriers, term, *place)
        }
        pb_text_tree::Formula::Instance(instance) => check_call(context, polarity, instance),
        pb_text_tree::Formula::Negation { operand, .. } => {
            let operand = check_formula(context, carriers, polarity.opposite(), operand)?;
            let boxed = Box::new(context.alloc, operand)?;
            Ok(Formula::Negation(boxed))
        }
        pb_text_tree::Formula::Chain {
            connective,
            first,
            links,
        } => {
            let of_first = operand_polarity(*connective, polarity, links.len());
            let head = check_formula(context, carriers, of_first, first)?;
            let operands = check_links(context, carriers, polarity, *connective, links);
            let (left, links) = paired(head, operands)?;
            let first = Box::new(context.alloc, left)?;
            Ok(Formula::Chain {
                connective: *connective,
                first,
                links,
            })
        }
        pb_text_tree::Formula::Quantified {
            quantifier,
            variables,
            body,
            ..
        } => {
            let bound = bind_variables(context, carriers, variables)?;
            let body = check_body(&*context, carriers, &bound.table, polarity, body)?;
            let formula = quantified(context.alloc, *quantifier, bound, body)?;
            Ok(formula)
        }
    }
}

/// Checks a call, which takes no slot.
fn check_call(
    context: &Context<'_, '_, '_>,
    polarity: Polarity,
    instance: &Instance,
) -> Result<Formula, TypeError>
    requires { IsLayout (text_in context.now) context.now.layout.now }
    ensures checked { (n : ℕ) → ChecksFormula context.now (is_positive polarity) n
        (FormulaForm.instance (instance_form instance.now)) result }
    ensures places { IfOk result (λ f. call_places f ≡ instance.now.name.place ∷ []) }
{
    let call = check_instance(context, polarity, instance)?;
    Ok(Formula::Call {
        place: instance.name.place,
        equation: call.equation,
        arguments: call.arguments,
    })
}

/// Checks the operands of a connective behind the first.
#[cycle(formulas)]
fn check_links<'t>(
    context: &Context<'_, '_, 't>,
    carriers: &mut Vec<Carrier>,
    polarity: Polarity,
    connective: Connective,
    links: &'t [Link],
) -> Result<Vec<Formula>, TypeError>
    requires { IsLayout (text_in context.now) context.now.layout.now }
    ensures checked { MatchResult result
        (λ fs. (formula_link_faults (text_in context.now) (scope_in context.now) connective
        (is_positive polarity) links.now ≡ [])
        × (formula_views fs.items ≡ elaborated_links (text_in context.now) (slots_in context.now)
        (scope_in context.now) (length carriers.old.items) links.now))
        (IsAmong (formula_link_faults (text_in context.now) (scope_in context.now) connective
        (is_positive polarity) links.now)) }
    ensures carriers { OnOk result (shapes_of carriers.new.items
        ≡ shapes_of carriers.old.items ++ links_loops (text_in context.now) links.now) }
    ensures places { IfOk result (λ fs. places_of fs.items ≡ links_calls links.now) }
{
    let mut operands = Vec::with_capacity(context.alloc, links.len())?;
    for (index, link) in links.iter().enumerate() {
        let of_link = operand_polarity(connective, polarity, links.len() - index - 1);
        let operand = check_formula(context, carriers, of_link, &link.operand)?;
        operands.push(operand)?;
    }
    Ok(operands)
}

/// Checks a quantifier's body, whose variables stand in a table.
#[cycle(formulas)]
fn check_body<'a, 't>(
    outer: &'a Context<'a, '_, 't>,
    carriers: &mut Vec<Carrier>,
    table: &'a HashMap<&'t str, Variable>,
    polarity: Polarity,
    body: &'t pb_text_tree::Formula,
) -> Result<Formula, TypeError>
    requires { IsLayout (text_in outer.now) outer.now.layout.now }
    ensures checked { ChecksFormulaIn (text_in outer.now)
        (inner_view table.now (scope_in outer.now)) (inner_slots table.now (slots_in outer.now))
        (is_positive polarity) (length carriers.old.items) (formula_form body.now) result }
    ensures carriers { OnOk result (AddsLoops outer.now carriers.old.items carriers.new.items
        (formula_of body.now)) }
    ensures places { IfOk result (λ f. call_places f ≡ calls_in (formula_form body.now)) }
{
    let scope = Scope::Inner(table, outer.scope);
    let context = Context {
        alloc: outer.alloc,
        declarations: outer.declarations,
        layout: outer.layout,
        scope: &scope,
    };
    check_formula(&context, carriers, polarity, body)
}
