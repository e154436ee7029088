//! What is applied to arguments in data.

ghost use Rattle.std.specs.Prelude.{◌≡◌};
ghost use Rattle.pb_typing_declarations.specs.View.{spec_of};
ghost use Rattle.pb_protocol_typing.specs.Functions.{arity, called, function_named, function_of};
ghost use Rattle.pb_protocol_typing.specs.Functions.{takes_arguments};
ghost use Rattle.pb_protocol_typing.specs.View.{called_of, scope_of, signature_of};

use crate::kind::Kind;
use crate::scope::Scope;
use crate::signature::Signature;
use pb_text_counting::is_counting;
use pb_text_meaning::NamedFunction;
use pb_typing_declarations::Declarations;

/// A function of texts, by the kinds of its arguments and of its value.
#[derive(Clone, Copy)]
pub(crate) enum Function {
    /// A condition and two values of one kind, which is that of the function's value.
    Choice,
    /// Some arguments of one kind, and the kind of the value.
    Uniform(usize, Kind, Kind),
}

/// What a name with arguments stands for.
#[derive(Clone, Copy)]
pub(crate) enum Called<'a> {
    /// An array or a definition.
    Declared(&'a Signature),
    Function(Function),
    /// A state variable without indices.
    Scalar,
    Nothing,
}

fn function_of(function: NamedFunction) -> Function
    ensures { result ≡ function_of function }
{
    match function {
        NamedFunction::If => Function::Choice,
        NamedFunction::Max | NamedFunction::Min => {
            Function::Uniform(2, Kind::Whole, Kind::Whole)
        }
        _ => Function::Uniform(1, Kind::Whole, Kind::Whole),
    }
}

/// Counting, else a function that is there in each text, else a recogniser.
fn function_named(declarations: &Declarations<'_>, name: &str) -> Option<Function>
    ensures { result ≡ function_named (spec_of declarations.now) name.now }
{
    if is_counting(name) {
        return Some(Function::Uniform(1, Kind::Truth, Kind::Whole));
    }
    if let Some(function) = NamedFunction::named(name) {
        return Some(function_of(function));
    }
    match declarations.recogniser(name) {
        Some(enumerator) => {
            let parameter = Kind::Struct(enumerator.sort);
            Some(Function::Uniform(1, parameter, Kind::Truth))
        }
        None => None,
    }
}

pub(crate) fn arity(function: Function) -> usize
    ensures { result ≡ arity function }
{
    match function {
        Function::Choice => 3,
        Function::Uniform(count, _, _) => count,
    }
}

fn takes_arguments(signature: &Signature) -> bool
    ensures { result ≡ takes_arguments (signature_of signature.now) }
{
    !signature.is_state || !signature.parameters.is_empty()
}

/// An array or a definition, else a function.
pub(crate) fn find_called<'a>(scope: &Scope<'a, '_>, name: &str) -> Called<'a>
    ensures { called_of result ≡ called (scope_of scope.now) name.now }
{
    let function = function_named(scope.declarations, name);
    match scope.signature(name) {
        Some(signature) => {
            if takes_arguments(signature) {
                return Called::Declared(signature);
            }
            match function {
                Some(function) => Called::Function(function),
                None => Called::Scalar,
            }
        }
        None => match function {
            Some(function) => Called::Function(function),
            None => Called::Nothing,
        },
    }
}
