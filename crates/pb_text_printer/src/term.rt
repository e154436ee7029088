//! Writes data terms and instances.

ghost use Rattle.std.specs.Prelude.{◌≡◌, ◌∷◌, [], None};
ghost use Rattle.std.specs.Result.{OnOk};
ghost use Rattle.pb_text_tree.specs.Form.{argument_forms, arithmetic_links, instance_form};
ghost use Rattle.pb_text_tree.specs.Form.{term_form, term_links};
ghost use Rattle.pb_text_printer.specs.Page.{after, page};
ghost use Rattle.pb_text_printer.specs.Parts as parts;
ghost use Rattle.pb_text_printer.specs.Words as words;

use crate::level::{
    Bracketing, Level, Position, RightEnd, arithmetic_levels, arithmetic_token, chains_with,
    comparison_levels, comparison_token, connective_level, connective_token, left_bracketing,
};
use crate::variables::write_quantifier;
use crate::writer::Writer;
use pb_text_tree::{Argument, Arithmetic, ArithmeticLink, Connective, Instance, Term, TermLink};
use std::alloc::{AllocError, Global};

/// The level of the operands of a chain of terms.
fn operand_level(connective: Connective) -> Level
    ensures { result ≡ words.term_side connective }
{
    match connective {
        Connective::Implies => Level::Disjunction,
        Connective::Or => Level::Conjunction,
        Connective::And => Level::Equality,
    }
}

/// Whether a term needs no brackets at a position.
fn needs_no_brackets(term: &Term, position: Position) -> bool
    ensures { result ≡ words.needs_no_brackets (term_form term.now) position.level
        (words.is_open_end position.right_end) }
{
    match term {
        Term::Chain {
            connective,
            first,
            links,
        } => match links.first() {
            Some(_) => connective_level(*connective).fits(position.level),
            None => needs_no_brackets(first, position),
        },
        Term::Comparison { comparison, .. } => {
            comparison_levels(*comparison).0.fits(position.level)
        }
        Term::Arithmetic { first, links } => match links.last() {
            Some(link) => arithmetic_levels(link.operator).0.fits(position.level),
            None => needs_no_brackets(first, position),
        },
        Term::Quantified { .. } => position.right_end.is_open(),
        _ => true,
    }
}

/// Whether an operator goes on with the chain that a term is, so that they are one chain without
/// brackets.
fn goes_on(operator: Arithmetic, term: &Term) -> bool
    ensures { result ≡ words.goes_on operator (term_form term.now) }
{
    match term {
        Term::Chain { first, links, .. } => match links.first() {
            Some(_) => false,
            None => goes_on(operator, first),
        },
        Term::Arithmetic { first, links } => match links.last() {
            Some(link) => chains_with(operator, link.operator),
            None => goes_on(operator, first),
        },
        _ => false,
    }
}

/// `true` or `false`.
pub fn write_truth(out: &mut Writer, value: bool) -> Result<(), AllocError>
    ensures { OnOk result (page out.new ≡ after (words.truth_word value ∷ []) (page out.old)) }
{
    if value {
        out.word("true")
    } else {
        out.word("false")
    }
}

/// What stands before an argument: the bracket before the first, and commas before the others.
fn write_separator(out: &mut Writer, index: usize) -> Result<(), AllocError>
    ensures { OnOk result (page out.new ≡ after (parts.separator index ∷ []) (page out.old)) }
{
    if index == 0 {
        out.open_list()
    } else {
        out.close(",")
    }
}

/// Arguments in brackets, or nothing where there are none.
#[cycle(terms)]
fn write_arguments(
    out: &mut Writer,
    alloc: Global,
    arguments: &[Argument],
) -> Result<(), AllocError>
    ensures { OnOk result (page out.new ≡ after (words.list_words (argument_forms arguments.now))
        (page out.old)) }
{
    if arguments.is_empty() {
        return Ok(());
    }
    for (index, argument) in arguments.iter().enumerate() {
        write_separator(out, index)?;
        write_plain(out, alloc, &argument.term, RightEnd::Open)?;
    }
    out.close(")")
}

/// An instance with its arguments.
pub fn write_instance(
    out: &mut Writer,
    alloc: Global,
    instance: &Instance,
) -> Result<(), AllocError>
    ensures { OnOk result (page out.new ≡ after (words.instance_words (instance_form instance.now))
        (page out.old)) }
{
    out.word(instance.name.text.as_str())?;
    write_arguments(out, alloc, &instance.arguments)
}

/// The links of a chain, behind its first operand, with the right end of the chain.
#[cycle(terms)]
fn write_links(
    out: &mut Writer,
    alloc: Global,
    connective: Connective,
    links: &[TermLink],
    right_end: RightEnd,
) -> Result<(), AllocError>
    ensures { OnOk result (page out.new ≡ after
        (parts.link_words connective (words.is_open_end right_end) (term_links links.now))
        (page out.old)) }
{
    let side = Position::closed(operand_level(connective));
    for (index, link) in links.iter().enumerate() {
        out.word(connective_token(connective))?;
        if index + 1 == links.len() {
            let last = Position::last(connective_level(connective), right_end);
            return write_term(out, alloc, &link.operand, last);
        }
        write_term(out, alloc, &link.operand, side)?;
    }
    Ok(())
}

/// The opening bracket, if there is one.
fn open_bracket(out: &mut Writer, bracketing: Bracketing) -> Result<(), AllocError>
    ensures { OnOk result (page out.new ≡ after (parts.bracket bracketing words.open_word)
        (page out.old)) }
{
    match bracketing {
        Bracketing::Bare => Ok(()),
        Bracketing::Bracketed => out.open("("),
    }
}

/// The closing bracket, if there is one.
fn close_bracket(out: &mut Writer, bracketing: Bracketing) -> Result<(), AllocError>
    ensures { OnOk result (page out.new ≡ after (parts.bracket bracketing words.close_word)
        (page out.old)) }
{
    match bracketing {
        Bracketing::Bare => Ok(()),
        Bracketing::Bracketed => out.close(")"),
    }
}

/// The brackets that open before a chain of arithmetic for the operators whose left sides need
/// them.
fn open_brackets(out: &mut Writer, links: &[ArithmeticLink]) -> Result<(), AllocError>
    ensures { OnOk result (page out.new ≡ after (parts.opened None (arithmetic_links links.now))
        (page out.old)) }
{
    let mut before = None;
    for link in links {
        open_bracket(out, left_bracketing(before, link.operator))?;
        before = Some(link.operator);
    }
    Ok(())
}

/// The links of a chain of arithmetic, each behind the bracket that closes before it, if one does.
#[cycle(terms)]
fn write_operations(
    out: &mut Writer,
    alloc: Global,
    links: &[ArithmeticLink],
) -> Result<(), AllocError>
    ensures { OnOk result (page out.new ≡ after
        (parts.computed_words None (arithmetic_links links.now)) (page out.old)) }
{
    let mut before = None;
    for link in links {
        close_bracket(out, left_bracketing(before, link.operator))?;
        write_operation(out, alloc, link)?;
        before = Some(link.operator);
    }
    Ok(())
}

/// An operator with its right side.
#[cycle(terms)]
fn write_operation(out: &mut Writer, alloc: Global, link: &ArithmeticLink) -> Result<(), AllocError>
    ensures { OnOk result (page out.new ≡ after
        (parts.operation_words link.now.operator (term_form link.now.operand)) (page out.old)) }
{
    out.word(arithmetic_token(link.operator))?;
    let side = arithmetic_levels(link.operator).1;
    write_term(out, alloc, &link.operand, Position::closed(side))
}

/// The left side of an operator.
#[cycle(terms)]
fn write_left(
    out: &mut Writer,
    alloc: Global,
    operator: Arithmetic,
    first: &Term,
) -> Result<(), AllocError>
    ensures { OnOk result (page out.new ≡ after (parts.left_words operator (term_form first.now))
        (page out.old)) }
{
    if goes_on(operator, first) {
        return write_plain(out, alloc, first, RightEnd::Closed);
    }
    let side = arithmetic_levels(operator).1;
    write_term(out, alloc, first, Position::closed(side))
}

/// A term, in brackets where it needs them at its position.
#[cycle(terms)]
pub fn write_term(
    out: &mut Writer,
    alloc: Global,
    term: &Term,
    position: Position,
) -> Result<(), AllocError>
    ensures { OnOk result (page out.new ≡ after
        (parts.placed_words (term_form term.now) position.level
        (words.is_open_end position.right_end))
        (page out.old)) }
{
    if needs_no_brackets(term, position) {
        return write_plain(out, alloc, term, position.right_end);
    }
    out.open("(")?;
    write_plain(out, alloc, term, RightEnd::Open)?;
    out.close(")")
}

/// A term without brackets around it, whose right end is open to a quantifier or closed.
#[cycle(terms)]
pub fn write_plain(
    out: &mut Writer,
    alloc: Global,
    term: &Term,
    right_end: RightEnd,
) -> Result<(), AllocError>
    ensures { OnOk result (page out.new ≡ after
        (words.term_words (term_form term.now) (words.is_open_end right_end)) (page out.old)) }
{
    match term {
        Term::Constant { value, .. } => write_truth(out, *value),
        Term::Number { value, .. } => out.word(format!(in alloc; "{value}")?.as_str()),
        Term::Name(name) => out.word(name.text.as_str()),
        Term::Not { operand, .. } => {
            out.open("!")?;
            write_term(out, alloc, operand, Position::closed(Level::Unary))
        }
        Term::Negative { operand, .. } => {
            out.open("-")?;
            write_term(out, alloc, operand, Position::closed(Level::Unary))
        }
        Term::Chain {
            connective,
            first,
            links,
        } => match links.first() {
            None => write_plain(out, alloc, first, right_end),
            Some(_) => {
                let side = Position::closed(operand_level(*connective));
                write_term(out, alloc, first, side)?;
                write_links(out, alloc, *connective, links, right_end)
            }
        },
        Term::Comparison {
            comparison,
            left,
            right,
            ..
        } => {
            let side = Position::closed(comparison_levels(*comparison).1);
            write_term(out, alloc, left, side)?;
            out.word(comparison_token(*comparison))?;
            write_term(out, alloc, right, side)
        }
        Term::Arithmetic { first, links } => match links.first() {
            None => write_plain(out, alloc, first, right_end),
            Some(link) => {
                open_brackets(out, links)?;
                write_left(out, alloc, link.operator, first)?;
                write_operations(out, alloc, links)
            }
        },
        Term::Application {
            function,
            arguments,
        } => {
            out.word(function.text.as_str())?;
            write_arguments(out, alloc, arguments)
        }
        Term::Quantified {
            quantifier,
            variables,
            body,
            ..
        } => {
            write_quantifier(out, *quantifier, variables)?;
            write_plain(out, alloc, body, RightEnd::Open)
        }
    }
}
