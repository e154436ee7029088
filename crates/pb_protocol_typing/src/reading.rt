//! Which terms read the state: those that name a state variable, or a definition that does.

ghost use Rattle.std.specs.Prelude.{◌≡◌};
ghost use Rattle.std.specs.List.{list_any};
ghost use Rattle.pb_text_tree.specs.Form.{argument_forms, term_form};
ghost use Rattle.pb_protocol_typing.specs.IndexLinks.{operand_reads, operation_reads};
ghost use Rattle.pb_protocol_typing.specs.Terms.{called_reads, name_reads, some_reads};
ghost use Rattle.pb_protocol_typing.specs.Terms.{reads_state};
ghost use Rattle.pb_protocol_typing.specs.Scopes.{sort_around};
ghost use Rattle.pb_protocol_typing.specs.View.{called_of, scope_of};

use crate::around::{Around, sort_around};
use crate::function::{Called, find_called};
use crate::scope::Scope;
use pb_text_tree::{Argument, ArithmeticLink, Term, TermLink};

/// Whether what is applied reads the state.
fn called_reads(called: Called<'_>) -> bool
    ensures { result ≡ called_reads (called_of called.entry) }
{
    match called {
        Called::Declared(signature) => signature.reads_state,
        Called::Function(_) | Called::Scalar | Called::Nothing => false,
    }
}

/// Whether a bare name reads the state.
fn name_reads(scope: &Scope<'_, '_>, name: &str) -> bool
    ensures { result ≡ name_reads (sort_around (scope_of scope.now).around name.now)
        ((scope_of scope.now).signatures name.now) }
{
    if sort_around(scope.around, name).is_some() {
        return false;
    }
    match scope.signature(name) {
        Some(signature) => signature.reads_state,
        None => false,
    }
}

#[cycle(reading)]
fn links_read<'a>(scope: &Scope<'a, '_>, links: &'a [TermLink]) -> bool
    ensures { result ≡ list_any (operand_reads (scope_of scope.now)) links.now }
{
    for link in links {
        if reads_state(scope, &link.operand) {
            return true;
        }
    }
    false
}

#[cycle(reading)]
fn operations_read<'a>(scope: &Scope<'a, '_>, links: &'a [ArithmeticLink]) -> bool
    ensures { result ≡ list_any (operation_reads (scope_of scope.now)) links.now }
{
    for link in links {
        if reads_state(scope, &link.operand) {
            return true;
        }
    }
    false
}

#[cycle(reading)]
fn some_reads<'a>(scope: &Scope<'a, '_>, arguments: &'a [Argument]) -> bool
    ensures { result ≡ some_reads (scope_of scope.now) (argument_forms arguments.now) }
{
    for argument in arguments {
        if reads_state(scope, &argument.term) {
            return true;
        }
    }
    false
}

/// Whether a term reads the state.
#[cycle(reading)]
pub(crate) fn reads_state<'a>(scope: &Scope<'a, '_>, term: &'a Term) -> bool
    ensures { result ≡ reads_state (scope_of scope.now) (term_form term.now) }
{
    match term {
        Term::Constant { .. } | Term::Number { .. } => false,
        Term::Name(name) => name_reads(scope, name.text.as_str()),
        Term::Not { operand, .. } => reads_state(scope, operand),
        Term::Negative { operand, .. } => reads_state(scope, operand),
        Term::Chain { first, links, .. } => {
            if reads_state(scope, first) {
                return true;
            }
            links_read(scope, links)
        }
        Term::Comparison { left, right, .. } => {
            if reads_state(scope, left) {
                return true;
            }
            reads_state(scope, right)
        }
        Term::Arithmetic { first, links } => {
            if reads_state(scope, first) {
                return true;
            }
            operations_read(scope, links)
        }
        Term::Application {
            function,
            arguments,
        } => {
            if called_reads(find_called(scope, function.text.as_str())) {
                return true;
            }
            some_reads(scope, arguments)
        }
        Term::Quantified {
            variables,
            body,
            ..
        } => {
            let around = Around::Variables(variables, scope.around);
            let inner = Scope {
                declarations: scope.declarations,
                signatures: scope.signatures,
                naming: scope.naming,
                around: &around,
            };
            reads_state(&inner, body)
        }
    }
}
