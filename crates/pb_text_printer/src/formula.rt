//! Writes formulas.

ghost use Rattle.std.specs.Prelude.{◌≡◌};
ghost use Rattle.std.specs.Result.{OnOk};
ghost use Rattle.pb_text_tree.specs.Form.{formula_form, link_forms, term_form};
ghost use Rattle.pb_text_printer.specs.Page.{after, page};
ghost use Rattle.pb_text_printer.specs.Parts as parts;
ghost use Rattle.pb_text_printer.specs.Words as words;

use crate::level::{Level, Position, RightEnd, connective_level, connective_token};
use crate::term::{write_instance, write_plain as write_plain_term, write_truth};
use crate::variables::write_quantifier;
use crate::writer::Writer;
use pb_text_tree::{Connective, Formula, Link, Term};
use std::alloc::{AllocError, Global};

/// The level of the operands of a chain of formulas.
fn operand_level(connective: Connective) -> Level
    ensures { result ≡ words.formula_side connective }
{
    match connective {
        Connective::Implies => Level::Disjunction,
        Connective::Or => Level::Conjunction,
        Connective::And => Level::Unary,
    }
}

/// Whether a formula needs no brackets at a position.
fn needs_no_brackets(formula: &Formula, position: Position) -> bool
    ensures { result ≡ words.formula_needs_no_brackets (formula_form formula.now) position.level
        (words.is_open_end position.right_end) }
{
    match formula {
        Formula::Chain {
            connective,
            first,
            links,
        } => match links.first() {
            Some(_) => connective_level(*connective).fits(position.level),
            None => needs_no_brackets(first, position),
        },
        Formula::Quantified { .. } => position.right_end.is_open(),
        _ => true,
    }
}

/// The links of a chain, behind its first operand, with the right end of the chain.
#[cycle(formulas)]
fn write_links(
    out: &mut Writer,
    alloc: Global,
    connective: Connective,
    links: &[Link],
    right_end: RightEnd,
) -> Result<(), AllocError>
    ensures { OnOk result (page out.new ≡ after
        (parts.formula_link_words connective (words.is_open_end right_end) (link_forms links.now))
        (page out.old)) }
{
    let side = Position::closed(operand_level(connective));
    for (index, link) in links.iter().enumerate() {
        out.word(connective_token(connective))?;
        if index + 1 == links.len() {
            let last = Position::last(connective_level(connective), right_end);
            return write_formula(out, alloc, &link.operand, last);
        }
        write_formula(out, alloc, &link.operand, side)?;
    }
    Ok(())
}

/// A formula, in brackets where it needs them at its position.
#[cycle(formulas)]
fn write_formula(
    out: &mut Writer,
    alloc: Global,
    formula: &Formula,
    position: Position,
) -> Result<(), AllocError>
    ensures { OnOk result (page out.new ≡ after
        (parts.placed_formula (formula_form formula.now) position.level
        (words.is_open_end position.right_end)) (page out.old)) }
{
    if needs_no_brackets(formula, position) {
        return write_plain(out, alloc, formula, position.right_end);
    }
    out.open("(")?;
    write_plain(out, alloc, formula, RightEnd::Open)?;
    out.close(")")
}

/// `val` and its data term.
fn write_value(out: &mut Writer, alloc: Global, term: &Term) -> Result<(), AllocError>
    ensures { OnOk result (page out.new ≡ after (parts.value_words (term_form term.now))
        (page out.old)) }
{
    out.word("val")?;
    out.open_list()?;
    write_plain_term(out, alloc, term, RightEnd::Open)?;
    out.close(")")
}

/// A formula without brackets around it, whose right end is open to a quantifier or closed.
#[cycle(formulas)]
pub fn write_plain(
    out: &mut Writer,
    alloc: Global,
    formula: &Formula,
    right_end: RightEnd,
) -> Result<(), AllocError>
    ensures { OnOk result (page out.new ≡ after
        (words.formula_words (formula_form formula.now) (words.is_open_end right_end))
        (page out.old)) }
{
    match formula {
        Formula::Constant { value, .. } => write_truth(out, *value),
        Formula::Value { term, .. } => write_value(out, alloc, term),
        Formula::Instance(instance) => write_instance(out, alloc, instance),
        Formula::Negation { operand, .. } => {
            out.open("!")?;
            write_formula(out, alloc, operand, Position::closed(Level::Unary))
        }
        Formula::Chain {
            connective,
            first,
            links,
        } => match links.first() {
            None => write_plain(out, alloc, first, right_end),
            Some(_) => {
                let side = Position::closed(operand_level(*connective));
                write_formula(out, alloc, first, side)?;
                write_links(out, alloc, *connective, links, right_end)
            }
        },
        Formula::Quantified {
            quantifier,
            variables,
            body,
            ..
        } => {
            write_quantifier(out, *quantifier, variables)?;
            write_plain(out, alloc, body, RightEnd::Open)
        }
    }
}
