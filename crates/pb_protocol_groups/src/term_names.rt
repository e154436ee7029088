//! The names in data terms: those of variables, of their sorts and of enumerators.

ghost use Rattle.std.specs.Prelude.{◌≡◌, ◌++◌, flat_map, OnOk};
ghost use Rattle.pb_protocol_packing.specs.Groups as packing;
ghost use Rattle.pb_protocol_packer.specs.Initial.{names_by};
ghost use Rattle.pb_protocol_packer.specs.View.{operands_of, operations_of, term_of, terms_of, variables_in};
ghost use Rattle.pb_protocol_groups.specs.Names.{variables_of_group, operation_names};

use pb_text_tree::{Argument, ArithmeticLink, Name, Term, TermLink, Variables};
use std::alloc::AllocError;

fn push_group<'a>(names: &mut Vec<&'a Name>, group: &'a Variables) -> Result<(), AllocError>
    ensures { OnOk result (names_by names.new.items
        ≡ names_by names.old.items ++ packing.variable_names (variables_of_group group.now)) }
{
    for name in &group.names {
        names.push(name)?;
        names.push(&group.sort)?;
    }
    Ok(())
}

/// Adds the names of variables, each with its sort's.
pub(crate) fn push_variables<'a>(
    names: &mut Vec<&'a Name>,
    groups: &'a [Variables],
) -> Result<(), AllocError>
    ensures { OnOk result (names_by names.new.items
        ≡ names_by names.old.items ++ packing.variable_names (variables_in groups.now)) }
{
    for group in groups {
        push_group(names, group)?;
    }
    Ok(())
}

/// Adds the names in a term.
#[cycle(terms)]
pub(crate) fn push_term<'a>(names: &mut Vec<&'a Name>, term: &'a Term) -> Result<(), AllocError>
    ensures { OnOk result (names_by names.new.items
        ≡ names_by names.old.items ++ packing.term_names (term_of term.now)) }
{
    match term {
        Term::Constant { .. } | Term::Number { .. } => Ok(()),
        Term::Name(name) => Ok(names.push(name)?),
        Term::Not { operand, .. } | Term::Negative { operand, .. } => push_term(names, operand),
        Term::Chain { first, links, .. } => {
            push_term(names, first)?;
            push_links(names, links)
        }
        Term::Comparison { left, right, .. } => {
            push_term(names, left)?;
            push_term(names, right)
        }
        Term::Arithmetic { first, links } => {
            push_term(names, first)?;
            push_operations(names, links)
        }
        Term::Application { arguments, .. } => push_arguments(names, arguments),
        Term::Quantified {
            variables,
            body,
            ..
        } => {
            push_variables(names, variables)?;
            push_term(names, body)
        }
    }
}

#[cycle(terms)]
fn push_links<'a>(names: &mut Vec<&'a Name>, links: &'a [TermLink]) -> Result<(), AllocError>
    ensures { OnOk result (names_by names.new.items
        ≡ names_by names.old.items ++ flat_map packing.term_names (operands_of links.now)) }
{
    for link in links {
        push_term(names, &link.operand)?;
    }
    Ok(())
}

#[cycle(terms)]
fn push_operations<'a>(
    names: &mut Vec<&'a Name>,
    links: &'a [ArithmeticLink],
) -> Result<(), AllocError>
    ensures { OnOk result (names_by names.new.items
        ≡ names_by names.old.items ++ flat_map operation_names (operations_of links.now)) }
{
    for link in links {
        push_term(names, &link.operand)?;
    }
    Ok(())
}

/// Adds the names in arguments.
#[cycle(terms)]
pub(crate) fn push_arguments<'a>(
    names: &mut Vec<&'a Name>,
    arguments: &'a [Argument],
) -> Result<(), AllocError>
    ensures { OnOk result (names_by names.new.items
        ≡ names_by names.old.items ++ packing.all_term_names (terms_of arguments.now)) }
{
    for argument in arguments {
        push_term(names, &argument.term)?;
    }
    Ok(())
}
