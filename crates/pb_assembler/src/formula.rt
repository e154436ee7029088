//! Code of formulas.

ghost use Rattle.std.specs.Prelude.{◌≡◌, true, drop, option_map, Option, IfSome};
ghost use Rattle.std.specs.Prelude.{OnOk};
ghost use Rattle.pb_typing_tree.specs.View.{chained_formula};
ghost use Rattle.pb_normal.specs.Normal.{Join};
ghost use Rattle.pb_normal.specs.Normalisation.{dual};
ghost use Rattle.pb_normal.specs.View.{formula_view, formula_views, nested};
ghost use Rattle.pb_assembler_scheme.specs.Scheme.{deciding_leaf, formula_piece};
ghost use Rattle.pb_assembler_scheme.specs.Scheme.{junction_of, neutral, test_piece};
ghost use Rattle.pb_assembler.specs.Emitted.{Emits, nowhere};
ghost use Rattle.pb_assembler.specs.Operands.{early_test, other_of, IsLeft};
ghost use Rattle.pb_assembler_measures.specs.Tests.{tested_term};
ghost use Rattle.pb_normal.specs.Small.{is_small, is_small_formula};

use crate::call::emit_call;
use crate::emission::emit_plain;
use crate::test::emit_tested;
use pb_assembler_builder::{Builder, Jump};
use pb_assembler_measures::{Test, as_test, junction_of, parameters_of};
use pb_bytecode_program::{Leaf, Op};
use pb_normal::{Formula, Junction};
use pb_sorts::{Carrier, Layout};
use pb_text_tree::Quantifier;
use std::alloc::AllocError;

/// The leaf that decides a bracket of this kind.
fn deciding(kind: Junction) -> Leaf
    ensures { result ≡ deciding_leaf kind }
{
    match kind {
        Junction::Conjunction => Leaf::No,
        Junction::Disjunction => Leaf::Yes,
    }
}

/// The truth value that decides nothing in a bracket of this kind.
fn neutral(kind: Junction) -> bool
    ensures { result ≡ neutral kind }
{
    match kind {
        Junction::Conjunction => true,
        Junction::Disjunction => false,
    }
}

/// A test that decides first whether the other operands run: the first operand, or else the second.
#[derive(Clone, Copy)]
struct Early<'t> {
    test: Test<'t>,
    is_first: bool,
}

/// The test that decides first whether the other operands run, where an operand of the first pair
/// is a test.
fn early_test<'t>(first: &Formula<'t>, rest: &[Formula<'t>]) -> Option<Early<'t>>
    ensures views { option_map (λ r. (
      tested_term r.test,
      (formula_view (other_of r.is_first first.now rest.now), formula_views (drop 1 rest.now)),
    )) result
        ≡ early_test (formula_view first.now) (formula_views rest.now) }
    ensures left { IfSome result (λ r. IsLeft first.now rest.now
        (other_of r.is_first first.now rest.now) (drop 1 rest.now)) }
{
    let Some((next, others)) = rest.split_first() else {
        return None;
    };
    if let Some(test) = as_test(first) {
        let is_first = true;
        return Some(Early { test, is_first });
    }
    if !others.is_empty() {
        return None;
    }
    match as_test(next) {
        Some(test) => {
            let is_first = false;
            Some(Early { test, is_first })
        }
        None => None,
    }
}

/// The code of a formula under a bracket of the kind `around`, where the equations have these
/// parameters.
///
/// # Errors
/// Memory was refused.
#[cycle(formulas)]
pub(crate) fn emit_formula(
    builder: &mut Builder,
    layout: &Layout,
    around: Junction,
    formula: &Formula<'_>,
) -> Result<(), AllocError>
    requires { is_small_formula (formula_view formula.now) ≡ true }
    ensures { OnOk result (Emits (formula_piece layout.now around (formula_view formula.now))
        nowhere builder.old builder.new) }
{
    match formula {
        Formula::Test { polarity, term } => {
            let polarity = *polarity;
            emit_test(builder, around, Test { polarity, term })
        }
        Formula::Join {
            junction,
            first,
            rest,
        } => {
            if *junction == around {
                emit_inside(builder, layout, around, first, rest)
            } else {
                emit_outside(builder, layout, around, first, rest)
            }
        }
        Formula::Each {
            quantifier,
            slot,
            carriers,
            body,
        } => {
            let loops = Loops {
                quantifier: *quantifier,
                first: *slot,
                carriers,
                body,
            };
            emit_each(builder, layout, around, loops)
        }
        Formula::Call {
            equation,
            arguments,
        } => {
            let carriers = parameters_of(layout, *equation);
            emit_call(builder, *equation, carriers, arguments)
        }
    }
}

/// A test alone.
fn emit_test(builder: &mut Builder, around: Junction, test: Test<'_>) -> Result<(), AllocError>
    requires { is_small (tested_term test) ≡ true }
    ensures { OnOk result (Emits (test_piece around (tested_term test.entry))
        nowhere builder.old builder.new) }
{
    emit_tested(builder, test)?;
    let passed = builder.label()?;
    builder.emit_jump(Jump::If(neutral(around)), passed)?;
    emit_plain(builder, Op::Emit(deciding(around)))?;
    builder.place(passed);
    Ok(())
}

/// Quantifiers over the values of the slots from `first` on, which have these carriers.
#[derive(Clone, Copy)]
struct Loops<'a, 't> {
    quantifier: Quantifier,
    first: usize,
    carriers: &'a [Carrier],
    body: &'a Formula<'t>,
    ghost small: { is_small_formula (nested quantifier first carriers.now
        (formula_view body.now)) ≡ true },
}

/// Quantifiers over the values of slots.
#[cycle(formulas)]
fn emit_each(
    builder: &mut Builder,
    layout: &Layout,
    around: Junction,
    loops: Loops<'_, '_>,
) -> Result<(), AllocError>
    ensures { OnOk result (Emits (formula_piece layout.now around
        (nested loops.entry.quantifier loops.entry.first loops.entry.carriers.now
        (formula_view loops.entry.body.now))) nowhere builder.old builder.new) }
{
    if loops.carriers.is_empty() {
        return emit_formula(builder, layout, around, loops.body);
    }
    let kind = junction_of(loops.quantifier);
    if kind == around {
        return emit_loops(builder, layout, loops);
    }
    emit_plain(builder, Op::Open(kind))?;
    emit_loops(builder, layout, loops)?;
    emit_plain(builder, Op::Close)
}

/// Quantifiers over the values of slots, in a bracket of their kind.
#[cycle(formulas)]
fn emit_loops(
    builder: &mut Builder,
    layout: &Layout,
    loops: Loops<'_, '_>,
) -> Result<(), AllocError>
    ensures { OnOk result (Emits (formula_piece layout.now (junction_of loops.entry.quantifier)
        (nested loops.entry.quantifier loops.entry.first loops.entry.carriers.now
        (formula_view loops.entry.body.now))) nowhere builder.old builder.new) }
{
    let count = loops.carriers.len();
    let mut begun = 0;
    while begun < count {
        let slot = (loops.first + begun) as u8;
        builder.emit(Op::Loop { slot })?;
        begun += 1;
    }
    emit_formula(builder, layout, junction_of(loops.quantifier), loops.body)?;
    let mut ended = 0;
    while ended < count {
        builder.emit(Op::Next)?;
        ended += 1;
    }
    Ok(())
}

/// Operands joined in a bracket of their kind.
#[cycle(formulas)]
fn emit_inside<'t>(
    builder: &mut Builder,
    layout: &Layout,
    kind: Junction,
    first: &Formula<'t>,
    rest: &[Formula<'t>],
) -> Result<(), AllocError>
    requires { is_small_formula (chained_formula (Join kind) (formula_view first.now)
        (formula_views rest.now)) ≡ true }
    ensures { OnOk result (Emits (formula_piece layout.now kind
        (chained_formula (Join kind) (formula_view first.now) (formula_views rest.now)))
        nowhere builder.old builder.new) }
{
    let last = builder.label()?;
    let mut left = first;
    let mut behind = rest;
    while !behind.is_empty() {
        if let Some(early) = early_test(left, behind) {
            emit_tested(builder, early.test)?;
            let passed = builder.label()?;
            builder.emit_jump(Jump::If(neutral(kind)), passed)?;
            emit_plain(builder, Op::Emit(deciding(kind)))?;
            builder.emit_jump(Jump::Always, last)?;
            builder.place(passed);
            if early.is_first {
                left = &behind[0];
            }
            behind = &behind[1..];
        } else {
            emit_formula(builder, layout, kind, left)?;
            left = &behind[0];
            behind = &behind[1..];
        }
    }
    emit_formula(builder, layout, kind, left)?;
    builder.place(last);
    Ok(())
}

/// Operands joined in a bracket of the other kind, `around`: the tests before all other operands
/// need no bracket.
#[cycle(formulas)]
fn emit_outside<'t>(
    builder: &mut Builder,
    layout: &Layout,
    around: Junction,
    first: &Formula<'t>,
    rest: &[Formula<'t>],
) -> Result<(), AllocError>
    requires { is_small_formula (chained_formula (Join (dual around)) (formula_view first.now)
        (formula_views rest.now)) ≡ true }
    ensures { OnOk result (Emits (formula_piece layout.now around
        (chained_formula (Join (dual around)) (formula_view first.now) (formula_views rest.now)))
        nowhere builder.old builder.new) }
{
    let last = builder.label()?;
    let mut left = first;
    let mut behind = rest;
    while let Some(early) = early_test(left, behind) {
        emit_tested(builder, early.test)?;
        builder.emit_jump(Jump::If(neutral(around)), last)?;
        if early.is_first {
            left = &behind[0];
        }
        behind = &behind[1..];
    }
    if behind.is_empty() {
        emit_formula(builder, layout, around, left)?;
        builder.place(last);
        return Ok(());
    }
    let kind = around.dual();
    emit_plain(builder, Op::Open(kind))?;
    emit_inside(builder, layout, kind, left, behind)?;
    emit_plain(builder, Op::Close)?;
    builder.place(last);
    Ok(())
}
