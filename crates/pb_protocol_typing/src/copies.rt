//! The variables of an assignment that is made for all their values: each stands in an index, so
//! that no element is assigned for several of them where the index is the variable itself.

ghost use Rattle.std.specs.Prelude.{◌≡◌, map};
ghost use Rattle.std.specs.List.{list_any};
ghost use Rattle.pb_text_tree.specs.Form.{argument_forms, named, term_form, variable_forms};
ghost use Rattle.pb_protocol_typing.specs.Indices.{stands_among, stands_in};
ghost use Rattle.pb_protocol_typing.specs.IndexLinks.{operand_stands, operation_stands};
ghost use Rattle.pb_protocol_typing.specs.Fault.{first_fault};
ghost use Rattle.pb_protocol_typing.specs.Steps.{copied_fault, copies_fault};
ghost use Rattle.pb_protocol_typing.specs.View.{scope_of};

use crate::around::{sort_around, sort_in};
use crate::scope::Scope;
use crate::term::fault_unless;
use pb_text_tree::{Argument, ArithmeticLink, Name, Term, TermLink, Variables};
use pb_typing_declarations::{TypingFault, TypingRule};

#[cycle(standing)]
fn stands_in_links(name: &str, links: &[TermLink]) -> bool
    ensures { result ≡ list_any (operand_stands name.now) links.now }
{
    for link in links {
        if stands_in(name, &link.operand) {
            return true;
        }
    }
    false
}

#[cycle(standing)]
fn stands_in_operations(name: &str, links: &[ArithmeticLink]) -> bool
    ensures { result ≡ list_any (operation_stands name.now) links.now }
{
    for link in links {
        if stands_in(name, &link.operand) {
            return true;
        }
    }
    false
}

/// Whether a name stands in one of these terms.
#[cycle(standing)]
fn stands_among(name: &str, arguments: &[Argument]) -> bool
    ensures { result ≡ stands_among name.now (argument_forms arguments.now) }
{
    for argument in arguments {
        if stands_in(name, &argument.term) {
            return true;
        }
    }
    false
}

/// Whether a name stands in a term, where no quantifier there has a variable of that name.
#[cycle(standing)]
fn stands_in(name: &str, term: &Term) -> bool
    ensures { result ≡ stands_in name.now (term_form term.now) }
{
    match term {
        Term::Constant { .. } | Term::Number { .. } => false,
        Term::Name(other) => other.text.as_str() == name,
        Term::Not { operand, .. } => stands_in(name, operand),
        Term::Negative { operand, .. } => stands_in(name, operand),
        Term::Chain { first, links, .. } => {
            if stands_in(name, first) {
                return true;
            }
            stands_in_links(name, links)
        }
        Term::Comparison { left, right, .. } => {
            if stands_in(name, left) {
                return true;
            }
            stands_in(name, right)
        }
        Term::Arithmetic { first, links } => {
            if stands_in(name, first) {
                return true;
            }
            stands_in_operations(name, links)
        }
        Term::Application { arguments, .. } => stands_among(name, arguments),
        Term::Quantified {
            variables,
            body,
            ..
        } => {
            if sort_in(variables, name).is_some() {
                return false;
            }
            stands_in(name, body)
        }
    }
}

/// What is wrong with a variable of an assignment (T02): it has the name of a variable around, or
/// stands in no index.
fn copied_fault(scope: &Scope<'_, '_>, index: &[Argument], name: &Name) -> Option<TypingFault>
    ensures { result ≡ copied_fault (scope_of scope.now) (argument_forms index.now)
        (named name.now) }
{
    let is_new = sort_around(scope.around, &name.text).is_none();
    let stands = is_new && stands_among(name.text.as_str(), index);
    fault_unless(stands, TypingRule::NameTwice, name.place)
}

/// The first fault of some of these variables.
fn names_fault(scope: &Scope<'_, '_>, index: &[Argument], names: &[Name]) -> Option<TypingFault>
    ensures { result ≡ first_fault (copied_fault (scope_of scope.now) (argument_forms index.now))
        (map named names.now) }
{
    for name in names {
        if let Some(fault) = copied_fault(scope, index, name) {
            return Some(fault);
        }
    }
    None
}

/// The first fault of the variables of an assignment, whose index this is.
pub(crate) fn copies_fault(
    scope: &Scope<'_, '_>,
    index: &[Argument],
    groups: &[Variables],
) -> Option<TypingFault>
    ensures { result ≡ copies_fault (scope_of scope.now) (argument_forms index.now)
        (variable_forms groups.now) }
{
    for group in groups {
        if let Some(fault) = names_fault(scope, index, &group.names) {
            return Some(fault);
        }
    }
    None
}
