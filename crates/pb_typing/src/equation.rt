//! The check of a text's right sides: their typed trees, or which rule fails.

ghost use Rattle.std.specs.Prelude.{◌≡◌, [], length, true, MatchResult};
ghost use Rattle.pb_text_tree.specs.Form.{equation_form, formula_form, spec_form};
ghost use Rattle.pb_text_meaning.specs.Erase.{erased_variables};
ghost use Rattle.pb_typing_declarations.specs.Entries.{shapes_of};
ghost use Rattle.pb_typing_declarations.specs.Faults.{IsAmong};
ghost use Rattle.pb_typing_declarations.specs.View.{spec_of, text_of};
ghost use Rattle.pb_typing_rules.specs.Faults.{formula_faults, right_faults};
ghost use Rattle.pb_typing_tree.specs.Loops.{variable_shapes};
ghost use Rattle.pb_typing_nodes.specs.Contexts.{scope_in, slots_in, text_in};
ghost use Rattle.pb_typing.specs.Rights.{AreRights, IsRight, IsRightIn, right_own_faults};
ghost use Rattle.pb_typing.specs.Typed.{IsLayout};

use crate::formula::check_formula;
use crate::polarity::Polarity;
use pb_sorts::{Carrier, Layout};
use pb_text_tree::{Formula, Spec};
use pb_typing_declarations::{Declarations, TypeError};
use pb_typing_nodes::context::Context;
use pb_typing_nodes::scope::Scope;
use pb_typing_nodes::variables::{carriers_from, declare_variables};
use pb_typing_tree::Equation;
use std::alloc::Global;

/// Checks the right side of each equation, in order.
pub(crate) fn check_rights(
    alloc: Global,
    declarations: &Declarations<'_>,
    spec: &Spec,
    layout: &Layout,
) -> Result<Vec<Equation>, TypeError>
    requires text { text_of declarations.now ≡ spec_form spec.now }
    requires layout { IsLayout (spec_of declarations.now) layout.now }
    ensures { MatchResult result
        (λ equations. (right_faults (spec_of declarations.now) (spec_form spec.now).equations
        ≡ []) × AreRights (spec_of declarations.now) (spec_form spec.now).equations equations.items)
        (IsAmong (right_faults (spec_of declarations.now) (spec_form spec.now).equations)) }
{
    let mut equations = Vec::with_capacity(alloc, spec.equations.len())?;
    for (place, equation) in spec.equations.iter().enumerate() {
        let parameters = layout.carriers(place);
        let checked = check_right(alloc, declarations, layout, parameters, equation)?;
        equations.push(checked)?;
    }
    Ok(equations)
}

/// Checks a right side under its equation's parameters, whose carriers are given. They have the
/// first slots.
fn check_right(
    alloc: Global,
    declarations: &Declarations<'_>,
    layout: &Layout,
    parameters: &[Carrier],
    equation: &pb_text_tree::Equation,
) -> Result<Equation, TypeError>
    requires layout { IsLayout (spec_of declarations.now) layout.now }
    requires parameters { shapes_of parameters.now ≡ variable_shapes (spec_of declarations.now)
        (erased_variables (equation_form equation.now).parameters) }
    ensures { MatchResult result
        (λ X. (right_own_faults (spec_of declarations.now) (equation_form equation.now) ≡ [])
        × IsRight (spec_of declarations.now) (equation_form equation.now) X)
        (IsAmong (right_own_faults (spec_of declarations.now) (equation_form equation.now))) }
{
    let table = declare_variables(alloc, &equation.parameters, parameters, 0)?;
    let scope = Scope::Inner(&table, &Scope::Outermost);
    let context = Context {
        alloc,
        declarations,
        layout,
        scope: &scope,
    };
    check_under(&context, parameters, &equation.right)
}

/// Checks a right side, where the first slots have these carriers.
fn check_under<'t>(
    context: &Context<'_, '_, 't>,
    parameters: &[Carrier],
    formula: &'t Formula,
) -> Result<Equation, TypeError>
    requires { IsLayout (text_in context.now) context.now.layout.now }
    ensures { MatchResult result
        (λ X. (formula_faults (text_in context.now) true (scope_in context.now)
        (formula_form formula.now) ≡ [])
        × IsRightIn (text_in context.now) (scope_in context.now) (slots_in context.now)
        (length parameters.now) formula.now X)
        (IsAmong (formula_faults (text_in context.now) true (scope_in context.now)
        (formula_form formula.now))) }
{
    let mut carriers = Vec::from_slice(context.alloc, parameters)?;
    let right = check_formula(context, &mut carriers, Polarity::Positive, formula)?;
    let loops = carriers_from(context.alloc, &carriers, parameters.len())?;
    Ok(Equation { right, loops })
}
