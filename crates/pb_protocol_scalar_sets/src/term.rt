//! The kinds of data terms.

ghost use Rattle.std.specs.Prelude.{◌≡◌, map, string_bytes};
ghost use Rattle.pb_text_tree.specs.Form.{variable_forms};
ghost use Rattle.pb_text_meaning.specs.Erase.{erased_variables};
ghost use Rattle.pb_text_meaning.specs.Functions.{named_function};
ghost use Rattle.pb_text_meaning.specs.Syntax as syntax;
ghost use Rattle.pb_protocol_symmetry.specs.Permutation.{Plain};
ghost use Rattle.pb_protocol_symmetry.specs.Kinds.{extended};
ghost use Rattle.pb_protocol_symmetry.specs.Test.{are_for, are_plain, choice_kind, is_choice};
ghost use Rattle.pb_protocol_symmetry.specs.Test.{is_plain, when};
ghost use Rattle.pb_protocol_scalar_sets.specs.Joined.{joined_kinds, link_kind, operation_kind};
ghost use Rattle.pb_protocol_scalar_sets.specs.Terms.{body_at, called_kind, count_at};
ghost use Rattle.pb_protocol_scalar_sets.specs.Terms.{kind_at, kinds_at, term_said, terms_said};
ghost use Rattle.pb_protocol_scalar_sets.specs.View.{known_kind, scope_of, variable_said};

use crate::enumerator::enumerator_kind;
use crate::kind::{
    Kind, both_kinds, both_plain, compared_kind, is_kind, is_plain, kind_of, plain_if,
};
use crate::scalar_set::ScalarSet;
use crate::scope::{Around, sort_in};
use crate::signature::{Known, Signature};
use crate::variable::Variable;
use pb_text_counting::is_counting;
use pb_text_meaning::NamedFunction;
use pb_text_tree::{Argument, ArithmeticLink, Name, Term, TermLink, Variables};

/// What terms are read by: a set of elements, and what may be named.
#[derive(Clone, Copy)]
pub(crate) struct Context<'a> {
    pub set: ScalarSet<'a>,
    pub known: Known<'a>,
}

/// The kind of a name: a variable around, else a state variable or a definition, else an
/// enumerator.
fn name_kind<'a>(context: &Context<'_>, around: &'a Around<'a>, name: &Name) -> Option<Kind>
    ensures { known_kind result ≡ kind_at context.now (scope_of around.now)
        (syntax.Term.Named (string_bytes name.now.text)) }
{
    if let Some(sort) = sort_in(around, &name.text) {
        return Some(kind_of(context.set.sort, &sort.text));
    }
    match context.known.called(&name.text) {
        Some(signature) => signature.bare_kind(),
        None => enumerator_kind(&context.set, &name.text),
    }
}

/// The kind of a state variable or definition with indices or arguments.
fn called_kind(signature: &Signature<'_>, are_for: bool) -> Option<Kind>
    ensures { known_kind result ≡ called_kind (map variable_said signature.now.parameters.items)
        are_for (known_kind signature.now.kind) }
{
    if signature.parameters.is_empty() || !are_for {
        return None;
    }
    signature.kind
}

/// Whether a name is that of `if`.
fn is_choice(name: &str) -> bool
    ensures { result ≡ is_choice (named_function name.now) }
{
    matches!(NamedFunction::named(name), Some(NamedFunction::If))
}

/// The kind of a term's values, by the variables around.
#[cycle(terms)]
pub(crate) fn kind_in<'a>(
    context: &Context<'_>,
    around: &'a Around<'a>,
    term: &'a Term,
) -> Option<Kind>
    ensures { known_kind result ≡ kind_at context.now (scope_of around.now) (term_said term.now) }
{
    match term {
        Term::Constant { .. } | Term::Number { .. } => Some(Kind::Plain),
        Term::Name(name) => name_kind(context, around, name),
        Term::Not { operand, .. } => plain_if(is_plain(kind_in(context, around, operand))),
        Term::Negative { operand, .. } => plain_if(is_plain(kind_in(context, around, operand))),
        Term::Chain { first, links, .. } => {
            chain_kind(context, around, kind_in(context, around, first), links)
        }
        Term::Comparison {
            comparison,
            left,
            right,
            ..
        } => {
            let left = kind_in(context, around, left);
            compared_kind(*comparison, left, kind_in(context, around, right))
        }
        Term::Arithmetic { first, links } => {
            arithmetic_kind(context, around, kind_in(context, around, first), links)
        }
        Term::Application {
            function,
            arguments,
        } => application_kind(context, around, function, arguments),
        Term::Quantified {
            variables,
            body,
            ..
        } => quantified_kind(context, around, variables, body),
    }
}

/// The kind of what is true for all or some values, or of how many it is.
#[cycle(terms)]
fn quantified_kind<'a>(
    context: &Context<'_>,
    around: &'a Around<'a>,
    groups: &'a [Variables],
    body: &'a Term,
) -> Option<Kind>
    ensures { known_kind result ≡ when (is_plain (kind_at context.now
        (extended (erased_variables (variable_forms groups.now)) (scope_of around.now))
        (term_said body.now))) Plain }
{
    let inner = Around::Variables(groups, around);
    plain_if(is_plain(kind_in(context, &inner, body)))
}

/// The kind of operands of a connective after one of this kind.
#[cycle(terms)]
fn chain_kind<'a>(
    context: &Context<'_>,
    around: &'a Around<'a>,
    first: Option<Kind>,
    links: &'a [TermLink],
) -> Option<Kind>
    ensures { known_kind result ≡ joined_kinds (known_kind first)
        (map (link_kind (kind_at context.now (scope_of around.now))) links.now) }
{
    let mut kind = first;
    for link in links {
        kind = both_plain(kind, kind_in(context, around, &link.operand));
    }
    kind
}

/// The kind of operands of arithmetic after one of this kind.
#[cycle(terms)]
fn arithmetic_kind<'a>(
    context: &Context<'_>,
    around: &'a Around<'a>,
    first: Option<Kind>,
    links: &'a [ArithmeticLink],
) -> Option<Kind>
    ensures { known_kind result ≡ joined_kinds (known_kind first)
        (map (operation_kind (kind_at context.now (scope_of around.now))) links.now) }
{
    let mut kind = first;
    for link in links {
        kind = both_plain(kind, kind_in(context, around, &link.operand));
    }
    kind
}

/// Whether arguments have the kinds of the parameters.
#[cycle(terms)]
pub(crate) fn are_for<'a>(
    context: &Context<'_>,
    around: &'a Around<'a>,
    parameters: &[Variable<'_>],
    arguments: &'a [Argument],
) -> bool
    ensures { result ≡ are_for context.now.set.sort.now (map variable_said parameters.now)
        (kinds_at context.now (scope_of around.now) (terms_said arguments.now)) }
{
    if parameters.len() != arguments.len() {
        return false;
    }
    for (index, argument) in arguments.iter().enumerate() {
        let wanted = kind_of(context.set.sort, parameters[index].sort);
        if !is_kind(wanted, kind_in(context, around, &argument.term)) {
            return false;
        }
    }
    true
}

#[cycle(terms)]
fn are_plain<'a>(context: &Context<'_>, around: &'a Around<'a>, arguments: &'a [Argument]) -> bool
    ensures { result
        ≡ are_plain (kinds_at context.now (scope_of around.now) (terms_said arguments.now)) }
{
    for argument in arguments {
        if !is_plain(kind_in(context, around, &argument.term)) {
            return false;
        }
    }
    true
}

/// The kind of what is chosen by a condition.
#[cycle(terms)]
fn choice_kind<'a>(
    context: &Context<'_>,
    around: &'a Around<'a>,
    arguments: &'a [Argument],
) -> Option<Kind>
    ensures { known_kind result
        ≡ choice_kind (kinds_at context.now (scope_of around.now) (terms_said arguments.now)) }
{
    match arguments {
        [condition, first, second] => {
            if !is_plain(kind_in(context, around, &condition.term)) {
                return None;
            }
            let first = kind_in(context, around, &first.term);
            both_kinds(first, kind_in(context, around, &second.term))
        }
        _ => None,
    }
}

/// The kind of a count.
#[cycle(terms)]
fn count_kind<'a>(
    context: &Context<'_>,
    around: &'a Around<'a>,
    arguments: &'a [Argument],
) -> Option<Kind>
    ensures { known_kind result
        ≡ count_at context.now (scope_of around.now) (terms_said arguments.now) }
{
    match arguments {
        [argument] => body_kind(context, around, &argument.term),
        _ => None,
    }
}

/// The kind of a count of this: only for the body of a quantifier are values counted.
#[cycle(terms)]
fn body_kind<'a>(context: &Context<'_>, around: &'a Around<'a>, term: &'a Term) -> Option<Kind>
    ensures { known_kind result ≡ body_at context.now (scope_of around.now) (term_said term.now) }
{
    match term {
        Term::Quantified {
            variables,
            body,
            ..
        } => quantified_kind(context, around, variables, body),
        Term::Chain { first, links, .. } => match links.first() {
            Some(_) => None,
            None => body_kind(context, around, first),
        },
        Term::Arithmetic { first, links } => match links.first() {
            Some(_) => None,
            None => body_kind(context, around, first),
        },
        Term::Constant { .. }
        | Term::Number { .. }
        | Term::Name(_)
        | Term::Not { .. }
        | Term::Negative { .. }
        | Term::Comparison { .. }
        | Term::Application { .. } => None,
    }
}

/// The kind of a name with arguments: a count, a state variable or definition, or a function.
#[cycle(terms)]
fn application_kind<'a>(
    context: &Context<'_>,
    around: &'a Around<'a>,
    function: &Name,
    arguments: &'a [Argument],
) -> Option<Kind>
    ensures { known_kind result ≡ kind_at context.now (scope_of around.now)
        (syntax.Term.Apply (string_bytes function.now.text) (terms_said arguments.now)) }
{
    if is_counting(&function.text) {
        return count_kind(context, around, arguments);
    }
    match context.known.called(&function.text) {
        Some(signature) => {
            let are_for = are_for(context, around, &signature.parameters, arguments);
            called_kind(signature, are_for)
        }
        None => {
            if is_choice(&function.text) {
                return choice_kind(context, around, arguments);
            }
            plain_if(are_plain(context, around, arguments))
        }
    }
}
