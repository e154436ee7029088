//! The kinds of data terms. Mostly a term's head tells its kind, so that it is looked up wherever
//! it is asked for.

ghost use Rattle.std.specs.Prelude.{◌≡◌, map};
ghost use Rattle.pb_text_tree.specs.Form.{argument_forms, named, term_form};
ghost use Rattle.pb_typing_declarations.specs.Entries.{carrier_shape};
ghost use Rattle.pb_protocol_typing.specs.Functions.{called, called_kind, function_kind};
ghost use Rattle.pb_protocol_typing.specs.Functions.{all_agree, is_choice, takes};
ghost use Rattle.pb_protocol_typing.specs.Terms.{kind, kind_at, kinds, shape_at};
ghost use Rattle.pb_protocol_typing.specs.View.{called_of, scope_of};

use crate::function::{Called, Function, find_called};
use crate::kind::{Kind, agree, carrier_kind, may_be_truth};
use crate::scope::{Scope, meaning_kind, name_meaning};
use pb_sorts::Carrier;
use pb_text_tree::{Argument, Term};

/// The kind of a term's values.
#[cycle(terms)]
pub(crate) fn kind_of(scope: &Scope<'_, '_>, term: &Term) -> Kind
    ensures { result ≡ kind (scope_of scope.now) (term_form term.now) }
{
    match term {
        Term::Constant { .. }
        | Term::Not { .. }
        | Term::Comparison { .. }
        | Term::Quantified { .. } => Kind::Truth,
        Term::Number { .. } | Term::Negative { .. } => Kind::Whole,
        Term::Name(name) => meaning_kind(name_meaning(scope, &name.text)),
        Term::Chain { first, links, .. } => match links.first() {
            Some(_) => Kind::Truth,
            None => kind_of(scope, first),
        },
        Term::Arithmetic { first, links } => match links.first() {
            Some(_) => Kind::Whole,
            None => kind_of(scope, first),
        },
        Term::Application {
            function,
            arguments,
        } => called_kind(scope, find_called(scope, &function.text), arguments),
    }
}

/// The kind of what a name gives of arguments: that of a choice is its first value's.
#[cycle(terms)]
fn called_kind(scope: &Scope<'_, '_>, called: Called<'_>, arguments: &[Argument]) -> Kind
    ensures { result ≡ called_kind (called_of called.entry)
        (kinds (scope_of scope.now) (argument_forms arguments.now)) }
{
    match called {
        Called::Declared(signature) => signature.kind,
        Called::Function(Function::Uniform(_, _, kind)) => kind,
        Called::Function(Function::Choice) => match arguments.get(1) {
            Some(argument) => kind_of(scope, &argument.term),
            None => Kind::Unknown,
        },
        Called::Scalar | Called::Nothing => Kind::Unknown,
    }
}

/// What may stand at a place among these, and nothing that is known behind them.
pub(crate) fn carrier_at(parameters: &[Option<Carrier>], place: usize) -> Option<Carrier>
    ensures { carrier_shape result ≡ shape_at (map carrier_shape parameters.now) place }
{
    match parameters.get(place) {
        Some(carrier) => *carrier,
        None => None,
    }
}

/// The kind of what may stand there.
pub(crate) fn kind_at(parameters: &[Option<Carrier>], place: usize) -> Kind
    ensures { result ≡ kind_at (map carrier_shape parameters.now) place }
{
    carrier_kind(carrier_at(parameters, place))
}

fn all_agree(scope: &Scope<'_, '_>, parameter: Kind, arguments: &[Argument]) -> bool
    ensures { result ≡ all_agree parameter
        (kinds (scope_of scope.now) (argument_forms arguments.now)) }
{
    for argument in arguments {
        if !agree(kind_of(scope, &argument.term), parameter) {
            return false;
        }
    }
    true
}

fn is_choice(scope: &Scope<'_, '_>, arguments: &[Argument]) -> bool
    ensures { result ≡ is_choice (kinds (scope_of scope.now) (argument_forms arguments.now)) }
{
    match arguments {
        [condition, first, second, ..] => {
            let is_condition = may_be_truth(kind_of(scope, &condition.term));
            let first = kind_of(scope, &first.term);
            is_condition && agree(first, kind_of(scope, &second.term))
        }
        _ => true,
    }
}

/// Whether a function takes arguments of these kinds.
pub(crate) fn takes(scope: &Scope<'_, '_>, function: Function, arguments: &[Argument]) -> bool
    ensures { result ≡ takes function
        (kinds (scope_of scope.now) (argument_forms arguments.now)) }
{
    match function {
        Function::Choice => is_choice(scope, arguments),
        Function::Uniform(_, parameter, _) => all_agree(scope, parameter, arguments),
    }
}
