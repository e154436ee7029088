//! Names in data that stand for nothing there: of a fixpoint around (T07), or of nothing at all
//! (T01). The check of texts tells them apart by the equations of the text, some of whose names the
//! translation made up, so that here it is looked up in the model.

ghost use Rattle.std.specs.Prelude.{◌≡◌};
ghost use Rattle.std.specs.List.{list_any};
ghost use Rattle.pb_base.specs.OrMemory.{raised};
ghost use Rattle.pb_text_tree.specs.Form.{argument_forms, named, term_form};
ghost use Rattle.pb_model_tree.specs.Form.{formula_form, model_form};
ghost use Rattle.pb_model_typing.specs.Data.{arguments_name_fixpoint, formula_names_fixpoint};
ghost use Rattle.pb_model_typing.specs.Data.{link_names_fixpoint, model_names_fixpoint};
ghost use Rattle.pb_model_typing.specs.Data.{names_fixpoint, operand_names_fixpoint};
ghost use Rattle.pb_model_typing.specs.Data.{operation_names_fixpoint, term_names_fixpoint};
ghost use Rattle.pb_model_typing.specs.Data.{fault_in_model};
ghost use Rattle.pb_model_typing.specs.View.{bound_names};

use crate::bound::{Bound, is_bound};
use pb_base::OrMemory;
use pb_model_tree::{Formula, Link, Model};
use pb_text_tree::{Argument, ArithmeticLink, Name, Place, Term, TermLink};
use pb_typing_declarations::{TypeError, TypingFault, TypingRule};

/// Whether a name stands at the place and is that of a fixpoint around.
fn names_fixpoint(bound: &Bound<'_>, place: Place, name: &Name) -> bool
    ensures { result ≡ names_fixpoint (bound_names bound.now) place (named name.now) }
{
    if name.place.line != place.line {
        return false;
    }
    if name.place.column != place.column {
        return false;
    }
    is_bound(bound, &name.text)
}

/// Whether such a name stands in a term.
#[cycle(terms)]
fn term_names_fixpoint(bound: &Bound<'_>, place: Place, term: &Term) -> bool
    ensures { result ≡ term_names_fixpoint (bound_names bound.now) place (term_form term.now) }
{
    match term {
        Term::Constant { .. } | Term::Number { .. } => false,
        Term::Name(name) => names_fixpoint(bound, place, name),
        Term::Not { operand, .. } | Term::Negative { operand, .. } => {
            term_names_fixpoint(bound, place, operand)
        }
        Term::Chain { first, links, .. } => {
            if term_names_fixpoint(bound, place, first) {
                return true;
            }
            links_name_fixpoint(bound, place, links)
        }
        Term::Comparison { left, right, .. } => {
            if term_names_fixpoint(bound, place, left) {
                return true;
            }
            term_names_fixpoint(bound, place, right)
        }
        Term::Arithmetic { first, links } => {
            if term_names_fixpoint(bound, place, first) {
                return true;
            }
            operations_name_fixpoint(bound, place, links)
        }
        Term::Application {
            function,
            arguments,
        } => {
            if names_fixpoint(bound, place, function) {
                return true;
            }
            arguments_name_fixpoint(bound, place, arguments)
        }
        Term::Quantified { body, .. } => term_names_fixpoint(bound, place, body),
    }
}

#[cycle(terms)]
fn links_name_fixpoint(bound: &Bound<'_>, place: Place, links: &[TermLink]) -> bool
    ensures { result ≡ list_any (link_names_fixpoint (bound_names bound.now) place) links.now }
{
    for link in links {
        if term_names_fixpoint(bound, place, &link.operand) {
            return true;
        }
    }
    false
}

#[cycle(terms)]
fn operations_name_fixpoint(bound: &Bound<'_>, place: Place, links: &[ArithmeticLink]) -> bool
    ensures { result ≡ list_any (operation_names_fixpoint (bound_names bound.now) place) links.now }
{
    for link in links {
        if term_names_fixpoint(bound, place, &link.operand) {
            return true;
        }
    }
    false
}

#[cycle(terms)]
fn arguments_name_fixpoint(bound: &Bound<'_>, place: Place, arguments: &[Argument]) -> bool
    ensures { result ≡ arguments_name_fixpoint (bound_names bound.now) place
        (argument_forms arguments.now) }
{
    for argument in arguments {
        if term_names_fixpoint(bound, place, &argument.term) {
            return true;
        }
    }
    false
}

/// Whether such a name stands in the data of a formula.
#[cycle(formulas)]
fn formula_names_fixpoint<'a>(bound: &'a Bound<'a>, place: Place, formula: &'a Formula) -> bool
    ensures { result
        ≡ formula_names_fixpoint (bound_names bound.now) place (formula_form formula.now) }
{
    match formula {
        Formula::Constant { .. } | Formula::Variable(_) => false,
        Formula::Data { term, .. } => term_names_fixpoint(bound, place, term),
        Formula::Negation { operand, .. } | Formula::Modal { operand, .. } => {
            formula_names_fixpoint(bound, place, operand)
        }
        Formula::Chain { first, links, .. } => {
            if formula_names_fixpoint(bound, place, first) {
                return true;
            }
            operands_name_fixpoint(bound, place, links)
        }
        Formula::Fixpoint { variable, body, .. } => {
            let inner = Bound::Inner(&variable.text, bound);
            formula_names_fixpoint(&inner, place, body)
        }
    }
}

#[cycle(formulas)]
fn operands_name_fixpoint<'a>(bound: &'a Bound<'a>, place: Place, links: &'a [Link]) -> bool
    ensures { result ≡ list_any (operand_names_fixpoint (bound_names bound.now) place) links.now }
{
    for link in links {
        if formula_names_fixpoint(bound, place, &link.operand) {
            return true;
        }
    }
    false
}

/// Whether such a name stands in the data of a model's properties.
fn model_names_fixpoint(place: Place, model: &Model) -> bool
    ensures { result ≡ model_names_fixpoint place (model_form model.now) }
{
    for property in &model.properties {
        if formula_names_fixpoint(&Bound::Outermost, place, &property.formula) {
            return true;
        }
    }
    false
}

/// What a fault of a text of the model is in the model.
fn fault_in_model(model: &Model, fault: TypingFault) -> TypingFault
    ensures { result ≡ fault_in_model (model_form model.now) fault }
{
    match fault.rule {
        TypingRule::PredicateInData => {
            if model_names_fixpoint(fault.place, model) {
                return fault;
            }
            TypingFault {
                rule: TypingRule::UnknownName,
                place: fault.place,
            }
        }
        _ => fault,
    }
}

/// What an error of the check of a text of the model is for the model.
pub(crate) fn error_in_model(model: &Model, error: TypeError) -> TypeError
    ensures { raised (λ fault above. above ≡ fault_in_model (model_form model.now) fault)
        error result }
{
    match error {
        OrMemory::Refused(fault) => OrMemory::Refused(fault_in_model(model, fault)),
        OrMemory::Memory => OrMemory::Memory,
    }
}
