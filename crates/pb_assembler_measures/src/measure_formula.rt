//! How much the code of formulas takes.

ghost use Rattle.std.specs.Prelude.{◌≡◌, ◌<◌, ◌||◌, ℕ, None, length, map};
ghost use Rattle.std.specs.List.{slice_get};
ghost use Rattle.pb_typing_tree.specs.View.{argument_view, chained_formula};
ghost use Rattle.pb_fixpoint_trees.specs.declared.junction.Junction.{Junction};
ghost use Rattle.pb_normal.specs.Normal.{Call, Join};
ghost use Rattle.pb_normal.specs.View.{formula_view, formula_views, nested};
ghost use Rattle.pb_assembler_scheme.specs.Scheme.{any_tested, parameters, test_of};
ghost use Rattle.pb_assembler_measures.specs.MeasureTerms.{capped_load};
ghost use Rattle.pb_assembler_measures.specs.MeasureFormulas.{arguments_load, call_tally};
ghost use Rattle.pb_assembler_measures.specs.MeasureFormulas.{capped_tally, form_chain, formula_tally};
ghost use Rattle.pb_assembler_measures.specs.MeasureFormulas.{kind_at, kind_behind, leading_tests};
ghost use Rattle.pb_assembler_measures.specs.MeasureFormulas.{load_by};

use crate::argument::is_tested;
use crate::bracket::junction_of;
use crate::callee::parameters_of;
use crate::measure_load::Load;
use crate::measure_tally::{
    Tally, after, argument_load, ended_call, looped, nothing, test_tally, tested_tally, under_tally,
};
use crate::measure_term::measure_term;
use crate::test::{Test, as_test, measure_tested};
use pb_normal::{Formula, Junction};
use pb_sorts::{Carrier, Layout};
use pb_text_tree::Quantifier;
use pb_typing_tree::Argument;

fn either(a: bool, b: bool) -> bool
    ensures { result ≡ (a || b) }
{
    a || b
}

/// Whether an argument is tested, and how much the code of all arguments takes.
fn measure_arguments(carriers: &[Carrier], arguments: &[Argument]) -> (bool, Load)
    ensures tested { result.0 ≡ any_tested carriers.now (map argument_view arguments.now) }
    ensures load { result.1 ≡ capped_load (arguments_load carriers.now
        (map argument_view arguments.now)) }
{
    let mut any = false;
    let mut load = nothing();
    let mut left = arguments.len();
    while left > 0 {
        left -= 1;
        let argument = &arguments[left];
        let tested = is_tested(carriers, left, argument);
        let own = measure_term(&argument.term);
        load = argument_load(tested, any, own, load);
        any = either(tested, any);
    }
    (any, load)
}

/// How much the code of a call takes.
fn measure_call(layout: &Layout, equation: usize, arguments: &[Argument]) -> Tally
    ensures { result ≡ capped_tally (call_tally (parameters (slice_get layout.now equation))
        (map argument_view arguments.now)) }
{
    let (any, load) = measure_arguments(parameters_of(layout, equation), arguments);
    ended_call(any, load)
}

/// How much the code of a test's value takes, where a formula is a test.
fn test_load(formula: &Formula<'_>) -> Option<Load>
    ensures { result ≡ load_by (test_of (formula_view formula.now)) }
{
    match as_test(formula) {
        Some(test) => Some(measure_tested(test)),
        None => None,
    }
}

/// The kind of the bracket that is open behind an operand of a chain.
fn kind_behind(junction: Junction, around: Junction, operand: &Formula<'_>) -> Junction
    ensures { result ≡ kind_behind junction around (formula_view operand.now) }
{
    match as_test(operand) {
        Some(_) => around,
        None => junction,
    }
}

/// How many operands are tests, up to the first that is none.
fn leading_tests(operands: &[Formula<'_>]) -> usize
    ensures { result ≡ leading_tests operands.now }
{
    let mut count = 0;
    while count < operands.len() {
        match as_test(&operands[count]) {
            Some(_) => {}
            None => return count,
        }
        count += 1;
    }
    count
}

/// The kind of the bracket that is open in front of an operand at a place.
fn kind_at(junction: Junction, kind: Junction, leading: usize, place: usize) -> Junction
    ensures { result ≡ kind_at junction kind leading place }
{
    if place <= leading { kind } else { junction }
}

/// How much the code of a formula takes, in a bracket of this kind.
#[cycle(formulas)]
pub(crate) fn measure_formula(layout: &Layout, around: Junction, formula: &Formula<'_>) -> Tally
    ensures { result ≡ capped_tally (formula_tally layout.now around
        (formula_view formula.now)) }
{
    match formula {
        Formula::Test { polarity, term } => {
            let polarity = *polarity;
            test_tally(measure_tested(Test { polarity, term }))
        }
        Formula::Join {
            junction,
            first,
            rest,
        } => measure_join(layout, *junction, around, first, rest),
        Formula::Each {
            quantifier,
            carriers,
            body,
            ..
        } => measure_each(layout, *quantifier, around, carriers, body),
        Formula::Call {
            equation,
            arguments,
        } => measure_call(layout, *equation, arguments),
    }
}

/// A quantifier over variables of these carriers.
#[cycle(formulas)]
fn measure_each(
    layout: &Layout,
    quantifier: Quantifier,
    around: Junction,
    carriers: &[Carrier],
    body: &Formula<'_>,
) -> Tally
    ensures { (slot : ℕ) → result ≡ capped_tally (formula_tally layout.now around
        (nested quantifier slot carriers.now (formula_view body.now))) }
{
    if carriers.is_empty() {
        return measure_formula(layout, around, body);
    }
    let kind = junction_of(quantifier);
    let mut tally = measure_formula(layout, kind, body);
    let mut left = carriers.len();
    while left > 0 {
        left -= 1;
        let count = carriers[left].size();
        tally = looped(count, tally);
    }
    under_tally(kind, around, tally)
}

/// The connective of a chain, and the kind of the bracket that is open in front of one of its
/// operands.
#[derive(Clone, Copy)]
struct Chain {
    junction: Junction,
    around: Junction,
}

/// An operand of a chain in front of those behind it, which are measured.
#[cycle(formulas)]
fn measure_link(
    layout: &Layout,
    chain: Chain,
    operand: &Formula<'_>,
    behind: &[Formula<'_>],
    rest: Tally,
) -> Tally
    requires some { 0 < length behind.now }
    requires rest { rest ≡ capped_tally (formula_tally layout.now
        (kind_behind chain.junction chain.around (formula_view operand.now))
        (form_chain chain.junction behind.now)) }
    ensures { result ≡ capped_tally (formula_tally layout.now chain.around
        (Join chain.junction (formula_view operand.now)
        (form_chain chain.junction behind.now))) }
{
    match test_load(operand) {
        Some(load) => tested_tally(chain.junction, chain.around, load, rest),
        None => measure_untested(layout, chain, operand, behind, rest),
    }
}

/// An operand of a chain that is no test.
#[cycle(formulas)]
fn measure_untested(
    layout: &Layout,
    chain: Chain,
    operand: &Formula<'_>,
    behind: &[Formula<'_>],
    rest: Tally,
) -> Tally
    requires some { 0 < length behind.now }
    requires untested { None ≡ load_by (test_of (formula_view operand.now)) }
    requires rest { rest ≡ capped_tally (formula_tally layout.now
        (kind_behind chain.junction chain.around (formula_view operand.now))
        (form_chain chain.junction behind.now)) }
    ensures { result ≡ capped_tally (formula_tally layout.now chain.around
        (Join chain.junction (formula_view operand.now)
        (form_chain chain.junction behind.now))) }
{
    match only_test(behind) {
        Some(load) => {
            let own = measure_formula(layout, chain.around, operand);
            tested_tally(chain.junction, chain.around, load, own)
        }
        None => {
            let own = measure_formula(layout, chain.junction, operand);
            let both = after(own, rest);
            under_tally(chain.junction, chain.around, both)
        }
    }
}

/// Operands of one connective, the last one first.
#[cycle(formulas)]
fn measure_join(
    layout: &Layout,
    junction: Junction,
    around: Junction,
    first: &Formula<'_>,
    rest: &[Formula<'_>],
) -> Tally
    ensures { result ≡ capped_tally (formula_tally layout.now around
        (chained_formula (Join junction) (formula_view first.now) (formula_views rest.now))) }
{
    if rest.is_empty() {
        return measure_formula(layout, around, first);
    }
    let kind = kind_behind(junction, around, first);
    let leading = leading_tests(rest);
    let mut left = rest.len() - 1;
    let last = kind_at(junction, kind, leading, left);
    let mut tally = measure_formula(layout, last, &rest[left]);
    while left > 0 {
        let behind = left;
        left -= 1;
        let own = kind_at(junction, kind, leading, left);
        let chain = Chain {
            junction,
            around: own,
        };
        tally = measure_link(layout, chain, &rest[left], &rest[behind..], tally);
    }
    let chain = Chain { junction, around };
    measure_link(layout, chain, first, rest, tally)
}

/// The load of the only operand, where it is a test.
fn only_test(operands: &[Formula<'_>]) -> Option<Load>
    requires { 0 < length operands.now }
    ensures { (joined : Junction) → result ≡ load_by (test_of (form_chain joined operands.now)) }
{
    if operands.len() > 1 {
        None
    } else {
        test_load(&operands[0])
    }
}
