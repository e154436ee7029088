//! Reads equations and whole texts.

ghost use Rattle.std.specs.Prelude.{◌≡◌, map, []};
ghost use Rattle.pb_text_tree.specs.Form.{formula_form, variable_forms, equation_form};
ghost use Rattle.pb_text_tree.specs.Form.{instance_form, range_form, spec_form};
ghost use Rattle.pb_text_lexer.specs.Steps.{Gives};
ghost use Rattle.pb_text_terms.specs.Readers.{MayRead, ReadsSome, ReadsSomeExactly};
ghost use Rattle.pb_text.specs.Parsing.{depth_limit};
ghost use Rattle.pb_text.specs.Reading as reading;

use pb_base::{MAX_DEPTH, both};
use pb_fixpoint::Sign;
use pb_text_formulas::formula::formula;
use pb_text_formulas::next::unless;
use pb_text_formulas::sort::sort_parts;
use pb_text_lexer::fault::{ReadingError, ReadingRule, Refusal};
use pb_text_lexer::input::Input;
use pb_text_lexer::kind::{Kind, same_kind};
use pb_text_terms::term::instance;
use pb_text_terms::variable::{name, variables};
use pb_text_tree::{Equation, Formula, Instance, Spec, Variables};
use std::alloc::Global;

/// Whether an equation begins with a token of this kind.
fn begins_equation(kind: Kind) -> bool
    ensures { result ≡ reading.begins_equation kind }
{
    same_kind(kind, Kind::Mu) || same_kind(kind, Kind::Nu)
}

/// `mu` or `nu`. Another token is refused as `ReadingRule::Unexpected`, which is the one error.
#[tactic(auto, unfolding(crate::specs::Reading::sign_of))]
pub fn sign(input: &mut Input<'_>) -> Result<Sign, Refusal>
    ensures { ReadsSomeExactly (λ x. x) reading.sign_of input.old result input.new }
{
    match input.kind() {
        Kind::Mu => {
            input.take();
            Ok(Sign::Mu)
        }
        Kind::Nu => {
            input.take();
            Ok(Sign::Nu)
        }
        _ => Err(input.refuse(ReadingRule::Unexpected)),
    }
}

/// The parameters of an equation, in brackets, if it has any.
#[tactic(auto, unfolding(crate::specs::Reading::parameters))]
pub fn parameters(input: &mut Input<'_>, alloc: Global) -> Result<Vec<Variables>, ReadingError>
    ensures { MayRead (λ v. variable_forms v.items) (reading.parameters depth_limit)
        input.old result input.new }
{
    if !same_kind(input.kind(), Kind::Open) {
        return Ok(Vec::new(alloc));
    }
    input.enter(MAX_DEPTH as u32)?;
    let parameters = variables(input, alloc)?;
    input.expect(Kind::Close)?;
    unless(input, Kind::Open)?;
    Ok(parameters)
}

/// The right side of an equation, with all the levels and operators that one may have (P04).
#[tactic(auto, unfolding(crate::specs::Reading::right_side))]
fn right_side(input: &mut Input<'_>, alloc: Global) -> Result<Formula, ReadingError>
    ensures { ReadsSome formula_form (reading.right_side depth_limit) input.old result input.new }
{
    let allowed = input.operators();
    let formula = formula(input, alloc, MAX_DEPTH as u32)?;
    input.allow(allowed);
    Ok(formula)
}

/// A sign, a name with its parameters, `=`, a formula and `;`.
#[tactic(auto, unfolding(crate::specs::Reading::equation))]
fn equation(input: &mut Input<'_>, alloc: Global) -> Result<Equation, ReadingError>
    ensures { ReadsSome equation_form (reading.equation depth_limit) input.old result input.new }
{
    let sign = sign(input)?;
    let name = name(input, alloc)?;
    let parameters = parameters(input, alloc)?;
    input.expect(Kind::Is)?;
    let right = right_side(input, alloc)?;
    let (right, _) = both(right, input.expect(Kind::Semicolon))?;
    Ok(Equation {
        sign,
        name,
        parameters,
        right,
    })
}

/// One equation or more.
fn equations(input: &mut Input<'_>, alloc: Global) -> Result<Vec<Equation>, ReadingError>
    ensures { Gives (λ v. map equation_form v.items)
        (reading.equations depth_limit input.old) result input.new }
{
    let mut equations = Vec::new(alloc);
    'equations: loop {
        let equation = equation(input, alloc)?;
        equations.push(equation)?;
        if !begins_equation(input.kind()) {
            return Ok(equations);
        }
    }
}

/// The instance that is asked for, with all the operators that its arguments may have.
#[tactic(auto, unfolding(crate::specs::Reading::initial_instance))]
fn initial_instance(input: &mut Input<'_>, alloc: Global) -> Result<Instance, ReadingError>
    ensures { Gives instance_form
        (reading.initial_instance depth_limit input.old) result input.new }
{
    let allowed = input.operators();
    let initial = instance(input, alloc, MAX_DEPTH as u32)?;
    input.allow(allowed);
    Ok(initial)
}

/// Sorts, `pbes`, equations, `init`, an instance and `;`, without ranges.
#[tactic(auto, unfolding(crate::specs::Reading::text))]
fn text(input: &mut Input<'_>, alloc: Global) -> Result<Spec, ReadingError>
    ensures { Gives spec_form (reading.text [] depth_limit input.old) result input.new }
{
    let sorts = sort_parts(input, alloc)?;
    input.expect(Kind::Pbes)?;
    let equations = equations(input, alloc)?;
    input.expect(Kind::Init)?;
    let initial = initial_instance(input, alloc)?;
    input.expect(Kind::Semicolon)?;
    Ok(Spec {
        sorts,
        ranges: Vec::new(alloc),
        equations,
        initial,
    })
}

/// The text that all tokens are, without ranges.
#[tactic(auto, unfolding(crate::specs::Reading::whole_text))]
pub fn whole(input: &mut Input<'_>, alloc: Global) -> Result<Spec, ReadingError>
    ensures { Gives spec_form (reading.whole_text [] depth_limit input.old) result input.new }
{
    let text = text(input, alloc)?;
    if same_kind(input.kind(), Kind::End) {
        Ok(text)
    } else {
        drop(text);
        Err(ReadingError::Refused(input.refuse(ReadingRule::Unexpected)))
    }
}
