//! The rules of data terms: what their names stand for, and the kinds of their parts.

ghost use Rattle.std.specs.Prelude.{◌≡◌, length, map};
ghost use Rattle.std.specs.Option.{option_map};
ghost use Rattle.pb_text_tree.specs.Form.{TermForm, argument_forms, named, term_form};
ghost use Rattle.pb_text_tree.specs.Form.{variable_forms};
ghost use Rattle.pb_typing_declarations.specs.Entries.{carrier_shape};
ghost use Rattle.pb_typing_declarations.specs.declared.fault.TypingRule.TheVariants.{WrongKind};
ghost use Rattle.pb_protocol_typing.specs.Fault.{fault_unless};
ghost use Rattle.pb_protocol_typing.specs.Functions.{called_parameters, naming_fault};
ghost use Rattle.pb_protocol_typing.specs.Functions.{taking_fault};
ghost use Rattle.pb_protocol_typing.specs.Kinds.{are_compared, truth_fault, whole_fault};
ghost use Rattle.pb_protocol_typing.specs.Links.{head_fault, links_fault, operations_fault};
ghost use Rattle.pb_protocol_typing.specs.Links.{place_before};
ghost use Rattle.pb_protocol_typing.specs.Scopes.{inside, variables};
ghost use Rattle.pb_protocol_typing.specs.Terms.{arguments_fault, condition_fault, kind, kinds};
ghost use Rattle.pb_protocol_typing.specs.Terms.{term_fault, value_fault};
ghost use Rattle.pb_protocol_typing.specs.View.{binders, called_of, scope_of};

use crate::around::Around;
use crate::function::{Called, arity, find_called};
use crate::kind::{Kind, agree, are_compared, are_whole, may_be_truth, may_be_whole};
use crate::scope::{Scope, name_fault, unknown_fault};
use crate::term_kind::{kind_at, kind_of, takes};
use pb_sorts::Carrier;
use pb_text_tree::{Argument, ArithmeticLink, Comparison, Name, Place, Term, TermLink, Variables};
use pb_typing_declarations::{TypingFault, TypingRule};

/// The rule fails at the place unless the test holds.
pub(crate) fn fault_unless(test: bool, rule: TypingRule, place: Place) -> Option<TypingFault>
    ensures { result ≡ fault_unless test rule place }
{
    if test {
        return None;
    }
    Some(TypingFault { rule, place })
}

/// A Boolean stands here (T04).
pub(crate) fn truth_fault(kind: Kind, place: Place) -> Option<TypingFault>
    ensures { result ≡ truth_fault kind place }
{
    fault_unless(may_be_truth(kind), TypingRule::WrongKind, place)
}

/// A whole number stands here (T04).
fn whole_fault(kind: Kind, place: Place) -> Option<TypingFault>
    ensures { result ≡ whole_fault kind place }
{
    fault_unless(may_be_whole(kind), TypingRule::WrongKind, place)
}

/// A first operand is a Boolean where others stand behind it.
fn head_fault(kind: Kind, links: &[TermLink]) -> Option<TypingFault>
    ensures { result ≡ head_fault kind links.now }
{
    match links.first() {
        Some(link) => truth_fault(kind, link.place),
        None => None,
    }
}

/// The place of the next connective, if there is one, else that of this one.
fn place_before(link: &TermLink, next: Option<&TermLink>) -> Place
    ensures { result ≡ place_before link.now.place
        (option_map (λ n. n.now.place) next.entry) }
{
    match next {
        Some(next) => next.place,
        None => link.place,
    }
}

/// The number of arguments of a name, and whether it takes any (T01, T07, T08).
fn naming_fault(
    around: &Around<'_>,
    called: Called<'_>,
    name: &Name,
    count: usize,
) -> Option<TypingFault>
    ensures { result ≡ naming_fault (called_of called.entry) (binders around.now)
        (named name.now) count }
{
    let wanted = match called {
        Called::Declared(signature) => signature.parameters.len(),
        Called::Function(function) => arity(function),
        Called::Scalar => {
            return Some(TypingFault {
                rule: TypingRule::WrongCount,
                place: name.place,
            });
        }
        Called::Nothing => return Some(unknown_fault(around, name)),
    };
    fault_unless(count == wanted, TypingRule::WrongCount, name.place)
}

/// What may stand for the arguments of an array or a definition.
fn called_parameters<'a>(called: Called<'a>) -> &'a [Option<Carrier>]
    ensures { map carrier_shape result.now ≡ called_parameters (called_of called.entry) }
{
    match called {
        Called::Declared(signature) => &signature.parameters,
        _ => &[],
    }
}

/// The kinds of a function's arguments (T04).
fn taking_fault(
    scope: &Scope<'_, '_>,
    called: Called<'_>,
    name: &Name,
    arguments: &[Argument],
) -> Option<TypingFault>
    ensures { result ≡ taking_fault (called_of called.entry) (named name.now)
        (kinds (scope_of scope.now) (argument_forms arguments.now)) }
{
    match called {
        Called::Function(function) => {
            let is_taken = takes(scope, function, arguments);
            fault_unless(is_taken, TypingRule::WrongKind, name.place)
        }
        _ => None,
    }
}

/// Whether two values may be compared (T04 at the operator).
fn compared_fault(
    scope: &Scope<'_, '_>,
    comparison: Comparison,
    place: Place,
    left: &Term,
    right: &Term,
) -> Option<TypingFault>
    ensures { result ≡ fault_unless (are_compared comparison
        (kind (scope_of scope.now) (term_form left.now))
        (kind (scope_of scope.now) (term_form right.now))) WrongKind place }
{
    let are_compared = are_compared(comparison, kind_of(scope, left), kind_of(scope, right));
    fault_unless(are_compared, TypingRule::WrongKind, place)
}

/// The first fault of a term.
#[cycle(terms)]
pub(crate) fn term_fault<'a>(scope: &Scope<'a, '_>, term: &'a Term) -> Option<TypingFault>
    ensures { result ≡ term_fault (scope_of scope.now) (term_form term.now) }
{
    match term {
        Term::Constant { .. } | Term::Number { .. } => None,
        Term::Name(name) => name_fault(scope, name),
        Term::Not { place, operand } => condition_fault(scope, *place, operand),
        Term::Negative { place, operand } => {
            term_fault(scope, operand).or(whole_fault(kind_of(scope, operand), *place))
        }
        Term::Chain { first, links, .. } => {
            let others = head_fault(kind_of(scope, first), links).or(links_fault(scope, links));
            term_fault(scope, first).or(others)
        }
        Term::Comparison {
            place,
            comparison,
            left,
            right,
        } => {
            let others = compared_fault(scope, *comparison, *place, left, right);
            term_fault(scope, left).or(term_fault(scope, right).or(others))
        }
        Term::Arithmetic { first, links } => {
            term_fault(scope, first).or(operations_fault(scope, kind_of(scope, first), links))
        }
        Term::Application {
            function,
            arguments,
        } => application_fault(scope, function, arguments),
        Term::Quantified {
            place,
            variables,
            body,
            ..
        } => quantified_fault(scope, *place, variables, body),
    }
}

/// The first fault of a quantifier.
#[cycle(terms)]
fn quantified_fault<'a>(
    scope: &Scope<'a, '_>,
    place: Place,
    groups: &'a [Variables],
    body: &'a Term,
) -> Option<TypingFault>
    ensures { result ≡ condition_fault
        (inside (variables (variable_forms groups.now)) (scope_of scope.now)) place
        (term_form body.now) }
{
    let around = Around::Variables(groups, scope.around);
    let inner = Scope {
        declarations: scope.declarations,
        signatures: scope.signatures,
        naming: scope.naming,
        around: &around,
    };
    condition_fault(&inner, place, body)
}

/// A condition: a term that is a Boolean (T04 at the place).
#[cycle(terms)]
pub(crate) fn condition_fault<'a>(
    scope: &Scope<'a, '_>,
    place: Place,
    term: &'a Term,
) -> Option<TypingFault>
    ensures { result ≡ condition_fault (scope_of scope.now) place (term_form term.now) }
{
    term_fault(scope, term).or(truth_fault(kind_of(scope, term), place))
}

/// The first fault of a name with arguments.
#[cycle(terms)]
fn application_fault<'a>(
    scope: &Scope<'a, '_>,
    name: &Name,
    arguments: &'a [Argument],
) -> Option<TypingFault>
    ensures { result ≡ term_fault (scope_of scope.now)
        (TermForm.application (named name.now) (argument_forms arguments.now)) }
{
    let called = find_called(scope, &name.text);
    let naming = naming_fault(scope.around, called, name, arguments.len());
    let parameters = called_parameters(called);
    let kinds = taking_fault(scope, called, name, arguments);
    naming.or(arguments_fault(scope, parameters, arguments).or(kinds))
}

/// The first fault of operands behind a connective.
#[cycle(terms)]
fn links_fault<'a>(scope: &Scope<'a, '_>, links: &'a [TermLink]) -> Option<TypingFault>
    ensures { result ≡ links_fault (scope_of scope.now) links.now }
{
    for (index, link) in links.iter().enumerate() {
        if let Some(fault) = term_fault(scope, &link.operand) {
            return Some(fault);
        }
        let place = place_before(link, links.get(index + 1));
        if let Some(fault) = truth_fault(kind_of(scope, &link.operand), place) {
            return Some(fault);
        }
    }
    None
}

/// The first fault of operands of arithmetic behind one of this kind.
#[cycle(terms)]
fn operations_fault<'a>(
    scope: &Scope<'a, '_>,
    first: Kind,
    links: &'a [ArithmeticLink],
) -> Option<TypingFault>
    ensures { result ≡ operations_fault (scope_of scope.now) first links.now }
{
    let mut left = first;
    for link in links {
        if let Some(fault) = term_fault(scope, &link.operand) {
            return Some(fault);
        }
        let are_whole = are_whole(left, kind_of(scope, &link.operand));
        if let Some(fault) = fault_unless(are_whole, TypingRule::WrongKind, link.place) {
            return Some(fault);
        }
        left = Kind::Whole;
    }
    None
}

/// The first fault of arguments, each of the kind of the parameter at its place.
#[cycle(terms)]
pub(crate) fn arguments_fault<'a>(
    scope: &Scope<'a, '_>,
    parameters: &[Option<Carrier>],
    arguments: &'a [Argument],
) -> Option<TypingFault>
    ensures { result ≡ arguments_fault (scope_of scope.now) 0
        (map carrier_shape parameters.now) (argument_forms arguments.now) }
{
    for (index, argument) in arguments.iter().enumerate() {
        if let Some(fault) = term_fault(scope, &argument.term) {
            return Some(fault);
        }
        let agrees = agree(kind_of(scope, &argument.term), kind_at(parameters, index));
        if let Some(fault) = fault_unless(agrees, TypingRule::WrongKind, argument.place) {
            return Some(fault);
        }
    }
    None
}

/// A term of a kind (T04 at the place of its first token).
pub(crate) fn value_fault<'a>(
    scope: &Scope<'a, '_>,
    kind: Kind,
    value: &'a Argument,
) -> Option<TypingFault>
    ensures { result ≡ value_fault (scope_of scope.now) kind value.now.place
        (term_form value.now.term) }
{
    let agrees = agree(kind_of(scope, &value.term), kind);
    term_fault(scope, &value.term).or(fault_unless(agrees, TypingRule::WrongKind, value.place))
}
