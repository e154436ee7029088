//! What names stand for.

ghost use Rattle.std.specs.Prelude.{◌≡◌, ℕ, None};
ghost use Rattle.pb_text_meaning.specs.Syntax.{Spec};
ghost use Rattle.pb_protocol_unfolding.specs.PutIn as spec;
ghost use Rattle.pb_protocol_unfolder_terms.specs.declared.context.Context as declared_context;
ghost use Rattle.pb_protocol_unfolder_terms.specs.Met.{Occurrence};
ghost use Rattle.pb_protocol_unfolder_terms.specs.Tells.{IsBindingMet, IsScopeMet};
ghost use Rattle.pb_protocol_unfolder_terms.specs.Scopes.{argument_said, binding_term, looked, scope_of};

use crate::sorts::Variable;
use crate::written::Written;
use pb_text_tree::{Argument, Term};

/// What names stand for; a name that is none of these stands for itself, a state variable or a
/// definition.
#[derive(Clone, Copy)]
pub enum TermScope<'a> {
    /// Nothing.
    Empty,
    /// Variables of quantifiers, indices or a step's own variables: each for the written value at
    /// its place, before what names stand for around.
    Values {
        variables: &'a [Variable<'a>],
        values: &'a [Written<'a>],
        outer: &'a TermScope<'a>,
    },
    /// The parameters of a definition: each for the argument at its place, unfolded by so many of
    /// the definitions where the definition is used. Nothing around counts.
    Arguments {
        parameters: &'a [Variable<'a>],
        arguments: &'a [Argument],
        definitions: usize,
        user: &'a TermScope<'a>,
    },
}

/// What a name is bound to.
#[derive(Clone, Copy)]
pub(crate) enum NameBinding<'a> {
    Nothing,
    Value(Written<'a>),
    /// A term with what its names stand for, unfolded by so many of the definitions.
    Argument {
        term: &'a Term,
        definitions: usize,
        user: &'a TermScope<'a>,
    },
}

/// The value at the place of the last variable of a name, if there is one.
pub fn last_value<'a>(
    variables: &[Variable<'_>],
    values: &[Written<'a>],
    name: &str,
) -> Option<Written<'a>>
    ensures { result ≡ looked variables.now values.now name.now None }
{
    let mut found = None;
    for place in 0..variables.len().min(values.len()) {
        if variables[place].name == name {
            found = Some(values[place]);
        }
    }
    found
}

/// The argument at the place of the last parameter of a name, if there is one.
fn argument_of<'a>(
    parameters: &[Variable<'_>],
    arguments: &'a [Argument],
    name: &str,
) -> Option<&'a Argument>
    ensures { argument_said result ≡ looked parameters.now arguments.now name.now None }
{
    let mut found = None;
    for place in 0..parameters.len().min(arguments.len()) {
        if parameters[place].name == name {
            found = Some(&arguments[place]);
        }
    }
    found
}

/// What a name is bound to.
pub(crate) fn looked_up<'a>(scope: &'a TermScope<'a>, name: &str) -> NameBinding<'a>
    ensures met { (c : declared_context.Context) (whole : Occurrence)
        → IsScopeMet c scope.now whole → IsBindingMet c result whole }
    ensures term { (sorts : Spec) (forms : ℕ → spec.Forms) → binding_term sorts forms result
        ≡ spec.term_of (scope_of sorts forms scope.now) name.now }
{
    match scope {
        TermScope::Empty => NameBinding::Nothing,
        TermScope::Values {
            variables,
            values,
            outer,
        } => match last_value(variables, values, name) {
            Some(value) => NameBinding::Value(value),
            None => looked_up(outer, name),
        },
        TermScope::Arguments {
            parameters,
            arguments,
            definitions,
            user,
        } => match argument_of(parameters, arguments, name) {
            Some(argument) => NameBinding::Argument {
                term: &argument.term,
                definitions: *definitions,
                user,
            },
            None => NameBinding::Nothing,
        },
    }
}
