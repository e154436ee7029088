//! The names of quantifiers' variables in data terms, each with its place.

ghost use Rattle.std.specs.Prelude.{◌≡◌, ◌++◌, OnOk};
ghost use Rattle.pb_text_tree.specs.Form.{argument_forms, term_form, variable_forms, variables_form};
ghost use Rattle.pb_typing_declarations.specs.Declarations.{variable_names};
ghost use Rattle.pb_protocol_typing.specs.View.{names_in};
ghost use Rattle.pb_protocol_groups.specs.Bound.{all_bound_names, bound_names};
ghost use Rattle.pb_protocol_groups.specs.BoundLinks.{links_bound_names, operations_bound_names};

use pb_text_tree::{Argument, ArithmeticLink, Name, Term, TermLink, Variables};
use std::alloc::AllocError;

fn push_group<'a>(names: &mut Vec<&'a Name>, group: &'a Variables) -> Result<(), AllocError>
    ensures { OnOk result (names_in names.new.items
        ≡ names_in names.old.items ++ variable_names (variables_form group.now)) }
{
    for name in &group.names {
        names.push(name)?;
    }
    Ok(())
}

/// Adds the names of variables.
pub(crate) fn push_names<'a>(
    names: &mut Vec<&'a Name>,
    groups: &'a [Variables],
) -> Result<(), AllocError>
    ensures { OnOk result (names_in names.new.items
        ≡ names_in names.old.items ++ variable_names (variable_forms groups.now)) }
{
    for group in groups {
        push_group(names, group)?;
    }
    Ok(())
}

/// Adds the names of the variables of a term's quantifiers.
#[cycle(terms)]
pub(crate) fn push_term<'a>(names: &mut Vec<&'a Name>, term: &'a Term) -> Result<(), AllocError>
    ensures { OnOk result (names_in names.new.items
        ≡ names_in names.old.items ++ bound_names (term_form term.now)) }
{
    match term {
        Term::Constant { .. } | Term::Number { .. } | Term::Name(_) => Ok(()),
        Term::Not { operand, .. } | Term::Negative { operand, .. } => push_term(names, operand),
        Term::Chain { first, links, .. } => {
            push_term(names, first)?;
            push_links(names, links)
        }
        Term::Comparison { left, right, .. } => {
            push_term(names, left)?;
            push_term(names, right)
        }
        Term::Arithmetic { first, links } => {
            push_term(names, first)?;
            push_operations(names, links)
        }
        Term::Application { arguments, .. } => push_arguments(names, arguments),
        Term::Quantified {
            variables,
            body,
            ..
        } => {
            push_names(names, variables)?;
            push_term(names, body)
        }
    }
}

#[cycle(terms)]
fn push_links<'a>(names: &mut Vec<&'a Name>, links: &'a [TermLink]) -> Result<(), AllocError>
    ensures { OnOk result (names_in names.new.items
        ≡ names_in names.old.items ++ links_bound_names links.now) }
{
    for link in links {
        push_term(names, &link.operand)?;
    }
    Ok(())
}

#[cycle(terms)]
fn push_operations<'a>(
    names: &mut Vec<&'a Name>,
    links: &'a [ArithmeticLink],
) -> Result<(), AllocError>
    ensures { OnOk result (names_in names.new.items
        ≡ names_in names.old.items ++ operations_bound_names links.now) }
{
    for link in links {
        push_term(names, &link.operand)?;
    }
    Ok(())
}

/// The same of arguments.
#[cycle(terms)]
pub(crate) fn push_arguments<'a>(
    names: &mut Vec<&'a Name>,
    arguments: &'a [Argument],
) -> Result<(), AllocError>
    ensures { OnOk result (names_in names.new.items
        ≡ names_in names.old.items ++ all_bound_names (argument_forms arguments.now)) }
{
    for argument in arguments {
        push_term(names, &argument.term)?;
    }
    Ok(())
}
