//! The rules of formulas.

ghost use Rattle.std.specs.Prelude.{◌≡◌, ◌||◌, map, true};
ghost use Rattle.pb_text_tree.specs.Form.{named, variable_forms};
ghost use Rattle.pb_typing.specs.View.{is_positive};
ghost use Rattle.pb_protocol_tree.specs.Form.{formula_form};
ghost use Rattle.pb_typing_declarations.specs.declared.fault.TypingRule.TheVariants.{OddNegations};
ghost use Rattle.pb_typing_declarations.specs.declared.fault.TypingRule.TheVariants.{UnknownName};
ghost use Rattle.pb_protocol_typing.specs.Fault.{fault_unless, first_fault, either_fault};
ghost use Rattle.pb_protocol_typing.specs.FormulaLinks.{operands_fault};
ghost use Rattle.pb_protocol_typing.specs.Formulas.{fixpoint_fault, formula_fault, hidden_fault};
ghost use Rattle.pb_protocol_typing.specs.Formulas.{is_constant, variables_fault};
ghost use Rattle.pb_protocol_typing.specs.Scopes.{fixpoint, inside, is_fixpoint, is_reserved};
ghost use Rattle.pb_protocol_typing.specs.Scopes.{variables};
ghost use Rattle.pb_protocol_typing.specs.View.{scope_of, shapes_in};

use crate::around::{Around, is_fixpoint, sort_around};
use crate::names::is_blank;
use crate::scope::Scope;
use crate::signature::Steps;
use crate::step_set::set_fault;
use crate::term::{condition_fault, fault_unless};
use pb_protocol_tree::{Formula, Link};
use pb_text_tree::{Connective, Name, Place, Variables};
use pb_typing::{Polarity, operand_polarity};
use pb_typing_declarations::{TypingFault, TypingRule};

/// Whether a formula is `true` or `false`. A chain without links is its operand.
fn is_constant(formula: &Formula) -> bool
    ensures { result ≡ is_constant (formula_form formula.now) }
{
    match formula {
        Formula::Constant { .. } => true,
        Formula::Chain { first, links, .. } => match links.first() {
            Some(_) => false,
            None => is_constant(first),
        },
        _ => false,
    }
}

/// Whether a modality of this operand may stand where negations are even or odd in number (T06).
fn may_stand(operand: &Formula, is_even: bool) -> bool
    ensures { result ≡ (is_constant (formula_form operand.now) || is_even) }
{
    if is_even {
        return true;
    }
    is_constant(operand)
}

/// The name of a fixpoint's variable is no state variable's, definition's or variable's around.
fn fixpoint_fault(scope: &Scope<'_, '_>, name: &Name) -> Option<TypingFault>
    ensures { result ≡ fixpoint_fault (scope_of scope.now) (named name.now) }
{
    let is_declared = scope.signature(name.text.as_str()).is_some();
    let is_hidden = is_declared || sort_around(scope.around, &name.text).is_some();
    fault_unless(!is_hidden, TypingRule::NameTwice, name.place)
}

fn is_hidden(scope: &Scope<'_, '_>, name: &Name) -> bool
    ensures { result ≡ (is_reserved (scope_of scope.now).signatures (named name.now)
        || is_fixpoint (scope_of scope.now).around (named name.now).text) }
{
    let is_declared = scope.signature(name.text.as_str()).is_some();
    (is_declared || is_blank(name)) || is_fixpoint(scope.around, &name.text)
}

/// None of these names is that of a state variable, a definition or a fixpoint around.
fn names_fault(scope: &Scope<'_, '_>, names: &[Name]) -> Option<TypingFault>
    ensures { result ≡ first_fault (hidden_fault (scope_of scope.now)) (map named names.now) }
{
    for name in names {
        let is_hidden = is_hidden(scope, name);
        if let Some(fault) = fault_unless(!is_hidden, TypingRule::NameTwice, name.place) {
            return Some(fault);
        }
    }
    None
}

/// No variable of a quantifier has such a name.
fn variables_fault(scope: &Scope<'_, '_>, groups: &[Variables]) -> Option<TypingFault>
    ensures { result ≡ variables_fault (scope_of scope.now) (variable_forms groups.now) }
{
    for group in groups {
        if let Some(fault) = names_fault(scope, &group.names) {
            return Some(fault);
        }
    }
    None
}

/// What is called stands under an even number of negations (T06 at the place).
fn call_fault(is_even: bool, place: Place) -> Option<TypingFault>
    ensures { result ≡ fault_unless is_even OddNegations place }
{
    fault_unless(is_even, TypingRule::OddNegations, place)
}

/// A variable is that of a fixpoint around.
fn variable_fault(scope: &Scope<'_, '_>, is_even: bool, name: &Name) -> Option<TypingFault>
    ensures { result ≡ either_fault
        (fault_unless (is_fixpoint (scope_of scope.now).around (named name.now).text) UnknownName
        (named name.now).place)
        (fault_unless is_even OddNegations (named name.now).place) }
{
    let is_known = is_fixpoint(scope.around, &name.text);
    fault_unless(is_known, TypingRule::UnknownName, name.place).or(call_fault(is_even, name.place))
}

/// The first fault of a formula of a polarity.
#[cycle(formulas)]
pub(crate) fn formula_fault<'a>(
    steps: &Steps<'_>,
    scope: &Scope<'a, '_>,
    polarity: Polarity,
    formula: &'a Formula,
) -> Option<TypingFault>
    ensures { result ≡ formula_fault (shapes_in steps.now) (scope_of scope.now)
        (is_positive polarity) (formula_form formula.now) }
{
    let is_even = polarity.is_positive();
    match formula {
        Formula::Constant { .. } => None,
        Formula::Data { place, term } => condition_fault(scope, *place, term),
        Formula::Variable(name) => variable_fault(scope, is_even, name),
        Formula::Negation { operand, .. } => {
            formula_fault(steps, scope, polarity.opposite(), operand)
        }
        Formula::Chain {
            connective,
            first,
            links,
        } => {
            let of_first = operand_polarity(*connective, polarity, links.len());
            let others = operands_fault(steps, scope, *connective, polarity, links);
            formula_fault(steps, scope, of_first, first).or(others)
        }
        Formula::Modal {
            place,
            steps: set,
            operand,
            ..
        } => {
            let inner = formula_fault(steps, scope, Polarity::Positive, operand);
            let call = call_fault(may_stand(operand, is_even), *place);
            call.or(set_fault(steps, scope, set).or(inner))
        }
        Formula::Fixpoint {
            place,
            variable,
            body,
            ..
        } => {
            let inner = fixpoint_body_fault(steps, scope, variable, body);
            call_fault(is_even, *place).or(fixpoint_fault(scope, variable).or(inner))
        }
        Formula::Quantified {
            variables,
            body,
            ..
        } => {
            let inner = quantified_body_fault(steps, scope, polarity, variables, body);
            variables_fault(scope, variables).or(inner)
        }
    }
}

/// The first fault of a fixpoint's body.
#[cycle(formulas)]
fn fixpoint_body_fault<'a>(
    steps: &Steps<'_>,
    scope: &Scope<'a, '_>,
    variable: &'a Name,
    body: &'a Formula,
) -> Option<TypingFault>
    ensures { result ≡ formula_fault (shapes_in steps.now)
        (inside (fixpoint (named variable.now).text) (scope_of scope.now)) true
        (formula_form body.now) }
{
    let around = Around::Fixpoint(&variable.text, scope.around);
    let inner = Scope {
        declarations: scope.declarations,
        signatures: scope.signatures,
        naming: scope.naming,
        around: &around,
    };
    formula_fault(steps, &inner, Polarity::Positive, body)
}

/// The first fault of a quantifier's body.
#[cycle(formulas)]
fn quantified_body_fault<'a>(
    steps: &Steps<'_>,
    scope: &Scope<'a, '_>,
    polarity: Polarity,
    groups: &'a [Variables],
    body: &'a Formula,
) -> Option<TypingFault>
    ensures { result ≡ formula_fault (shapes_in steps.now)
        (inside (variables (variable_forms groups.now)) (scope_of scope.now))
        (is_positive polarity) (formula_form body.now) }
{
    let around = Around::Variables(groups, scope.around);
    let inner = Scope {
        declarations: scope.declarations,
        signatures: scope.signatures,
        naming: scope.naming,
        around: &around,
    };
    formula_fault(steps, &inner, polarity, body)
}

/// The first fault of the operands of links.
#[cycle(formulas)]
fn operands_fault<'a>(
    steps: &Steps<'_>,
    scope: &Scope<'a, '_>,
    connective: Connective,
    polarity: Polarity,
    links: &'a [Link],
) -> Option<TypingFault>
    ensures { result ≡ operands_fault (shapes_in steps.now) (scope_of scope.now) connective
        (is_positive polarity) links.now }
{
    for (index, link) in links.iter().enumerate() {
        let behind = links.len() - index - 1;
        let of_link = operand_polarity(connective, polarity, behind);
        if let Some(fault) = formula_fault(steps, scope, of_link, &link.operand) {
            return Some(fault);
        }
    }
    None
}
