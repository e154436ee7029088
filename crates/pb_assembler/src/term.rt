//! Code of data terms.

ghost use Rattle.std.specs.Prelude.{◌≡◌, ◌&&◌, false, true, OnOk};
ghost use Rattle.pb_text_meaning.specs.Erase.{of_connective};
ghost use Rattle.pb_typing_tree.specs.Tree.{Binary};
ghost use Rattle.pb_typing_tree.specs.View.{chained_formula, link_views, term_of_operands};
ghost use Rattle.pb_typing_tree.specs.View.{term_view, term_views};
ghost use Rattle.pb_assembler_scheme.specs.Pieces.{Plain, Then, Choose};
ghost use Rattle.pb_assembler_scheme.specs.Scheme.{data_piece, in_order};
ghost use Rattle.pb_assembler.specs.Emitted.{Emits, connected_behind, nowhere};
ghost use Rattle.pb_normal.specs.Small.{is_small};

use crate::emission::emit_plain;
use crate::operator::{arithmetic_op, comparison_op};
use pb_assembler_builder::{Builder, Jump};
use pb_bytecode_program::{Arithmetic, Equality, Junction, Op};
use pb_typing_tree::{Link, Term};
use std::alloc::AllocError;

/// The code that pushes a term's value.
///
/// # Errors
/// Memory was refused.
#[cycle(terms)]
pub(crate) fn emit_term(builder: &mut Builder, term: &Term) -> Result<(), AllocError>
    requires { is_small (term_view term.now) ≡ true }
    ensures { OnOk result
        (Emits (data_piece (term_view term.now)) nowhere builder.old builder.new) }
{
    match term {
        Term::Constant(value) => emit_plain(builder, Op::PushBool(*value)),
        Term::Number(value) => emit_plain(builder, Op::PushInt(*value as i64)),
        Term::Slot(slot) => emit_plain(builder, Op::Get { slot: *slot as u8 }),
        Term::Enumerator(enumerator) => emit_plain(
            builder,
            Op::PushEnum {
                sort: enumerator.sort,
                index: enumerator.place,
            },
        ),
        Term::Not(operand) => emit_one(builder, operand, Op::Not),
        Term::Negative(operand) => emit_one(builder, operand, Op::Negate),
        Term::Absolute(operand) => emit_one(builder, operand, Op::Absolute),
        Term::Successor(operand) => emit_beside(
            builder,
            operand,
            Op::PushInt(1),
            Op::Arithmetic(Arithmetic::Add),
        ),
        Term::Predecessor(operand) => emit_beside(
            builder,
            operand,
            Op::PushInt(1),
            Op::Arithmetic(Arithmetic::Sub),
        ),
        Term::Recognised {
            enumerator,
            operand,
        } => emit_beside(
            builder,
            operand,
            Op::PushEnum {
                sort: enumerator.sort,
                index: enumerator.place,
            },
            Op::Equality(Equality::Equal),
        ),
        Term::Comparison {
            comparison,
            left,
            right,
        } => emit_two(builder, left, right, comparison_op(*comparison)),
        Term::Choice {
            condition,
            positive,
            negative,
        } => emit_choice(builder, condition, positive, negative),
        Term::Maximum(left, right) => {
            emit_two(builder, left, right, Op::Arithmetic(Arithmetic::Max))
        }
        Term::Minimum(left, right) => {
            emit_two(builder, left, right, Op::Arithmetic(Arithmetic::Min))
        }
        Term::Chain {
            connective,
            first,
            links,
        } => emit_chain(builder, *connective, first, links),
        Term::Arithmetic { first, links } => emit_arithmetic(builder, first, links),
    }
}

/// An operand, then the instruction.
#[cycle(terms)]
fn emit_one(builder: &mut Builder, operand: &Term, op: Op) -> Result<(), AllocError>
    requires { is_small (term_view operand.now) ≡ true }
    ensures { OnOk result (Emits (Then (data_piece (term_view operand.now))
        (Plain op)) nowhere builder.old builder.new) }
{
    emit_term(builder, operand)?;
    emit_plain(builder, op)
}

/// Two operands in order, then the instruction.
#[cycle(terms)]
fn emit_two(builder: &mut Builder, left: &Term, right: &Term, op: Op) -> Result<(), AllocError>
    requires { is_small (term_view left.now) && is_small (term_view right.now) ≡ true }
    ensures { OnOk result (Emits (in_order op (data_piece (term_view left.now))
        (data_piece (term_view right.now))) nowhere builder.old builder.new) }
{
    emit_term(builder, left)?;
    emit_term(builder, right)?;
    emit_plain(builder, op)
}

/// An operand, a constant, then the instruction.
#[cycle(terms)]
fn emit_beside(
    builder: &mut Builder,
    operand: &Term,
    constant: Op,
    op: Op,
) -> Result<(), AllocError>
    requires { is_small (term_view operand.now) ≡ true }
    ensures { OnOk result (Emits (in_order op (data_piece (term_view operand.now))
        (Plain constant)) nowhere builder.old builder.new) }
{
    emit_term(builder, operand)?;
    emit_plain(builder, constant)?;
    emit_plain(builder, op)
}

/// One of two operands, as the condition says.
#[cycle(terms)]
fn emit_choice(
    builder: &mut Builder,
    condition: &Term,
    positive: &Term,
    negative: &Term,
) -> Result<(), AllocError>
    requires { is_small (term_view condition.now) &&
        (is_small (term_view positive.now) && is_small (term_view negative.now)) ≡ true }
    ensures { OnOk result (Emits (Then (data_piece (term_view condition.now))
        (Choose false (data_piece (term_view positive.now))
        (data_piece (term_view negative.now)))) nowhere builder.old builder.new) }
{
    emit_term(builder, condition)?;
    let other = builder.label()?;
    let last = builder.label()?;
    builder.emit_jump(Jump::If(false), other)?;
    emit_term(builder, positive)?;
    builder.emit_jump(Jump::Always, last)?;
    builder.place(other);
    emit_term(builder, negative)?;
    builder.place(last);
    Ok(())
}

/// An operand of a connective, behind the operands that follow it.
#[cycle(terms)]
fn emit_operand(
    builder: &mut Builder,
    connective: pb_text_tree::Connective,
    operand: &Term,
) -> Result<(), AllocError>
    requires { is_small (term_view operand.now) ≡ true }
    ensures { OnOk result (Emits (connected_behind connective
        (data_piece (term_view operand.now))) nowhere builder.old builder.new) }
{
    match connective {
        pb_text_tree::Connective::And => emit_one(
            builder,
            operand,
            Op::Logic(Junction::Conjunction),
        ),
        pb_text_tree::Connective::Or => emit_one(
            builder,
            operand,
            Op::Logic(Junction::Disjunction),
        ),
        pb_text_tree::Connective::Implies => {
            emit_one(builder, operand, Op::Not)?;
            emit_plain(builder, Op::Logic(Junction::Disjunction))
        }
    }
}

/// Operands of one connective, the last one first.
#[cycle(terms)]
fn emit_chain(
    builder: &mut Builder,
    connective: pb_text_tree::Connective,
    first: &Term,
    links: &[Term],
) -> Result<(), AllocError>
    requires { is_small (chained_formula (Binary (of_connective connective)) (term_view first.now)
        (term_views links.now)) ≡ true }
    ensures { OnOk result (Emits (data_piece (chained_formula (Binary (of_connective connective))
        (term_view first.now) (term_views links.now))) nowhere builder.old builder.new) }
{
    if links.is_empty() {
        return emit_term(builder, first);
    }
    let mut left = links.len() - 1;
    emit_term(builder, &links[left])?;
    while left > 0 {
        left -= 1;
        emit_operand(builder, connective, &links[left])?;
    }
    emit_operand(builder, connective, first)
}

/// Operands of arithmetic, the first one first.
#[cycle(terms)]
fn emit_arithmetic(builder: &mut Builder, first: &Term, links: &[Link]) -> Result<(), AllocError>
    requires { is_small (term_of_operands (term_view first.now) (link_views links.now)) ≡ true }
    ensures { OnOk result (Emits (data_piece (term_of_operands (term_view first.now)
        (link_views links.now))) nowhere builder.old builder.new) }
{
    emit_term(builder, first)?;
    for link in links {
        emit_one(builder, &link.operand, arithmetic_op(link.operator))?;
    }
    Ok(())
}
