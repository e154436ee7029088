//! Formulas without quantifiers: each quantifier is the chain of its copies.

ghost use Rattle.std.specs.Prelude.{◌≡◌, ◌+◌, ◌<◌, [], map, flat_map, IfOk, OnOk};
ghost use Rattle.std.specs.Prelude.{box_value, sum_by};
ghost use Rattle.pb_base.specs.OrMemory.{IfRefused};
ghost use Rattle.pb_text_tree.specs.Form.{term_form};
ghost use Rattle.pb_protocol_tree.specs.Form.{FormulaForm, formula_form};
ghost use Rattle.pb_protocol_folding.specs.Places.{AreAmong, places_of};
ghost use Rattle.pb_protocol_folding.specs.View.{formula_of};
ghost use Rattle.pb_protocol_unfolder_terms.specs.View.{variable_of};
ghost use Rattle.pb_protocol_unfolder_terms.specs.Values.{tuple_of};
ghost use Rattle.pb_protocol_unfolder_steps.specs.Unfolder.{form_in, scope_within};
ghost use Rattle.pb_protocol_unfolder.specs.Copies.{copy_of, copy_operators, data_formula};
ghost use Rattle.pb_protocol_unfolder.specs.Copies.{left_operand, link_operators, tuples_in};
ghost use Rattle.pb_protocol_unfolder.specs.Faults.{IsFaultOfFormula};
ghost use Rattle.pb_protocol_unfolder.specs.Left.{left_formula, left_operators};
ghost use Rattle.pb_protocol_unfolder.specs.Links.{linked_formula};
ghost use Rattle.pb_protocol_unfolder.specs.Parts.{IsFaultBy, IsFaultOfCopies, IsFaultOfLinks};
ghost use Rattle.pb_protocol_unfolder.specs.Parts.{OfManyTuples};
ghost use Rattle.pb_protocol_unfolder.specs.Places.{flat_link_places, link_places, places_in};

use crate::chain::joined;
use crate::fault::{UnfoldingError, of_steps, of_term};
use crate::formulas::Formulas;
use crate::room::Room;
use crate::step_set::unfold_set;
use crate::value_scope::ValueScope;
use pb_model_tree as flat;
use pb_protocol_folding::{joined_formula, not_formula};
use pb_protocol_tree::{Formula, Link};
use pb_protocol_unfolder_steps::{Unfolder, sorts_of};
use pb_protocol_unfolder_terms::{TermScope, Variable, Written, variables_of, written_tuples};
use pb_text_tree::{Place, Term, copy_name};

/// A quantifier's variables with all tuples of their values, and what names stand for around.
#[derive(Clone, Copy)]
struct Copies<'a> {
    place: Place,
    variables: &'a [Variable<'a>],
    tuples: &'a [Vec<Written<'a>>],
    outer: &'a ValueScope<'a>,
}

/// A data term as a formula.
fn unfold_data(
    formulas: &Formulas<'_>,
    scope: &ValueScope<'_>,
    room: &mut Room,
    place: Place,
    term: &Term,
) -> Result<flat::Formula, UnfoldingError>
    ensures formula { IfOk result (λ f. formula_of f
        ≡ data_formula formulas.now scope.now.names term.now) }
    ensures places { IfOk result (λ f. places_of f ≡ []) }
    ensures room { OnOk result (room.old.operators ≡ room.new.operators
        + left_operators formulas.now scope.now.names
        (FormulaForm.«data» place (term_form term.now))) }
    ensures refused { IfRefused result
        (IsFaultBy (IsFaultOfFormula (form_in formulas.now)
        (room.old.operators < left_operators formulas.now scope.now.names
        (FormulaForm.«data» place (term_form term.now)))
        (scope_within formulas.now scope.now.names)
        (FormulaForm.«data» place (term_form term.now)))) }
{
    match formulas.unfolder().unfold(&scope.names, true, term) {
        Ok(term) => {
            room.take_term(&term, place)?;
            Ok(flat::Formula::Data { place, term })
        }
        Err(error) => Err(of_steps(error)),
    }
}

/// All tuples of values of variables.
pub(crate) fn tuples_of<'a>(
    unfolder: &Unfolder<'a, '_>,
    variables: &[Variable<'a>],
    place: Place,
) -> Result<Vec<Vec<Written<'a>>>, UnfoldingError>
    ensures tuples { IfOk result (λ v. map tuple_of v.items
        ≡ tuples_in unfolder.now (map variable_of variables.now)) }
    ensures refused { IfRefused result (OfManyTuples place
        (tuples_in unfolder.now (map variable_of variables.now))) }
{
    match written_tuples(
        unfolder.alloc(),
        sorts_of(unfolder.protocol()),
        variables,
        place,
    ) {
        Ok(tuples) => Ok(tuples),
        Err(error) => Err(of_term(error)),
    }
}

#[cycle(formulas)]
fn unfold_copies<'a>(
    formulas: &'a Formulas<'a>,
    room: &mut Room,
    copies: &'a Copies<'a>,
    body: &'a Box<Formula>,
) -> Result<Vec<flat::Formula>, UnfoldingError>
    ensures formulas { IfOk result (λ v. map formula_of v.items
        ≡ map (copy_of formulas.now copies.now (box_value body.now))
        copies.now.tuples.now) }
    ensures places { IfOk result
        (λ v. AreAmong (flat_map places_of v.items) (places_in (box_value body.now))) }
    ensures room { OnOk result (room.old.operators ≡ room.new.operators
        + sum_by (copy_operators formulas.now copies.now (box_value body.now))
        copies.now.tuples.now) }
    ensures refused { IfRefused result
        (IsFaultBy (IsFaultOfCopies (form_in formulas.now)
        (room.old.operators
        < sum_by (copy_operators formulas.now copies.now (box_value body.now))
        copies.now.tuples.now)
        (scope_within formulas.now copies.now.outer.now.names) copies.now.place
        (map variable_of copies.now.variables.now) (map tuple_of copies.now.tuples.now)
        (formula_form (box_value body.now)))) }
{
    let tuples = copies.tuples;
    let mut unfolded = Vec::new(formulas.alloc());
    for values in tuples {
        room.take(1, copies.place)?;
        let scope = ValueScope {
            names: TermScope::Values {
                variables: copies.variables,
                values,
                outer: &copies.outer.names,
            },
        };
        unfolded.push(unfold_formula(formulas, &scope, room, body)?)?;
    }
    Ok(unfolded)
}

#[cycle(formulas)]
fn unfold_links<'a>(
    formulas: &'a Formulas<'a>,
    scope: &'a ValueScope<'a>,
    room: &mut Room,
    links: &'a [Link],
) -> Result<Vec<flat::Link>, UnfoldingError>
    ensures formulas { IfOk result (λ v. map linked_formula v.items
        ≡ map (left_operand formulas.now scope.now.names) links.now) }
    ensures places { IfOk result (λ v. AreAmong (flat_map flat_link_places v.items)
        (flat_map link_places links.now)) }
    ensures room { OnOk result (room.old.operators ≡ room.new.operators
        + sum_by (link_operators formulas.now scope.now.names) links.now) }
    ensures refused { IfRefused result
        (IsFaultBy (IsFaultOfLinks (form_in formulas.now)
        (room.old.operators
        < sum_by (link_operators formulas.now scope.now.names) links.now)
        (scope_within formulas.now scope.now.names) links.now)) }
{
    let mut flat_links = Vec::new(formulas.alloc());
    for link in links {
        let place = link.place;
        room.take(1, place)?;
        let operand = unfold_formula(formulas, scope, room, &link.operand)?;
        flat_links.push(flat::Link { place, operand })?;
    }
    Ok(flat_links)
}

/// A formula without quantifiers, folded, of the steps that are left.
#[cycle(formulas)]
pub(crate) fn unfold_formula<'a>(
    formulas: &'a Formulas<'a>,
    scope: &'a ValueScope<'a>,
    room: &mut Room,
    formula: &'a Formula,
) -> Result<flat::Formula, UnfoldingError>
    ensures formula { IfOk result (λ f. formula_of f
        ≡ left_formula formulas.now scope.now.names (formula_form formula.now)) }
    ensures places { IfOk result (λ f. AreAmong (places_of f) (places_in formula.now)) }
    ensures room { OnOk result (room.old.operators ≡ room.new.operators
        + left_operators formulas.now scope.now.names (formula_form formula.now)) }
    ensures refused { IfRefused result
        (IsFaultBy (IsFaultOfFormula (form_in formulas.now)
        (room.old.operators
        < left_operators formulas.now scope.now.names (formula_form formula.now))
        (scope_within formulas.now scope.now.names) (formula_form formula.now))) }
{
    let alloc = formulas.alloc();
    match formula {
        Formula::Constant { place, value } => Ok(flat::Formula::Constant {
            place: *place,
            value: *value,
        }),
        Formula::Data { place, term } => unfold_data(formulas, scope, room, *place, term),
        Formula::Variable(name) => Ok(flat::Formula::Variable(copy_name(alloc, name)?)),
        Formula::Negation { place, operand } => {
            room.take(1, *place)?;
            let operand = unfold_formula(formulas, scope, room, operand)?;
            Ok(not_formula(alloc, *place, operand)?)
        }
        Formula::Chain {
            connective,
            first,
            links,
        } => {
            let first = unfold_formula(formulas, scope, room, first)?;
            let links = unfold_links(formulas, scope, room, links)?;
            Ok(joined(alloc, *connective, first, links)?)
        }
        Formula::Modal {
            place,
            modality,
            steps,
            operand,
        } => {
            room.take(1, *place)?;
            let steps = unfold_set(formulas, scope, room, *place, steps)?;
            let operand = unfold_formula(formulas, scope, room, operand)?;
            Ok(flat::Formula::Modal {
                place: *place,
                modality: *modality,
                steps,
                operand: Box::new(alloc, operand)?,
            })
        }
        Formula::Fixpoint {
            place,
            sign,
            variable,
            body,
        } => {
            room.take(1, *place)?;
            let body = unfold_formula(formulas, scope, room, body)?;
            Ok(flat::Formula::Fixpoint {
                place: *place,
                sign: *sign,
                variable: copy_name(alloc, variable)?,
                body: Box::new(alloc, body)?,
            })
        }
        Formula::Quantified {
            place,
            quantifier,
            variables,
            body,
        } => {
            let variables = variables_of(alloc, variables)?;
            let tuples = tuples_of(formulas.unfolder(), &variables, *place)?;
            let copies = Copies {
                place: *place,
                variables: &variables,
                tuples: &tuples,
                outer: scope,
            };
            let operands = unfold_copies(formulas, room, &copies, body)?;
            Ok(joined_formula(alloc, *quantifier, *place, operands)?)
        }
    }
}
